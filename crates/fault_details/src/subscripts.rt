//! What subscripts are added, and which there are.

ghost use Rattle.std.specs.Prelude.{◌≡◌, ◌++◌, ◌∷◌, [], length, IfNone, IfSome};
ghost use Rattle.fault_details.specs.Subscripts.{subscripts_of};

use crate::detail::Subscripts;

impl Subscripts {
    /// None.
    pub fn none() -> Subscripts
        ensures { subscripts_of result ≡ [] }
    {
        Subscripts {
            values: [0; 7],
            count: 0,
        }
    }

    /// One more; `None` where there are seven.
    pub fn with(self, value: i32) -> Option<Subscripts>
        ensures one_more { IfSome
            result (λ more. subscripts_of more ≡ subscripts_of self ++ value ∷ []) }
        ensures full { IfNone result (length (subscripts_of self) ≡ 7) }
    {
        if self.count >= 7 {
            return None;
        }
        let mut values = self.values;
        values[self.count] = value;
        Some(Subscripts {
            values,
            count: self.count + 1,
        })
    }

    /// Those that there are.
    pub fn values(&self) -> &[i32]
        ensures { result.now ≡ subscripts_of self.now }
    {
        &self.values[..self.count]
    }
}
