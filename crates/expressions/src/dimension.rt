//! Dimensions of arrays (ANSI X3.9-1978, 5.1).

ghost use Rattle.std.specs.Prelude.{◌≡◌};
ghost use Rattle.meaning.specs.Characters.{at_least_zero};
ghost use Rattle.meaning.specs.Arrays.{extent as extent_of, above as above_in, within as within_of};
ghost use Rattle.expressions.specs.Dimensions.{dimension};

use smallvec::SmallVec;

/// A dimension by its bounds; by default both are 0, which stands where a place for one isn't used.
#[derive(Clone, Copy, Debug, Default, PartialEq, Eq)]
pub struct Dimension {
    pub lower: i32,
    pub upper: i32,
}

/// The dimensions of an array, in their order. The seven that are allowed at most (5.1.1) take no
/// growth.
pub type Dimensions = SmallVec<Dimension, 7>;

impl Dimension {
    /// How many values a subscript may have.
    pub fn extent(&self) -> u64
        ensures { result ≡ extent_of (dimension self.now) }
    {
        natural(i64::from(self.upper) - i64::from(self.lower) + 1)
    }

    /// How far a subscript stands above the lower bound, where it lies within the bounds.
    pub fn above(&self, subscript: i32) -> Option<u64>
        ensures { result ≡ above_in (dimension self.now) subscript }
    {
        within(self.extent(), i64::from(subscript) - i64::from(self.lower))
    }
}

// A number, or 0 where it is less.
fn natural(number: i64) -> u64
    ensures { result ≡ at_least_zero number }
{
    if number < 0 { 0 } else { number as u64 }
}

// A number from 0 on, and below another.
fn within(extent: u64, number: i64) -> Option<u64>
    ensures { result ≡ within_of extent number }
{
    if number < 0 {
        return None;
    }
    let natural = number as u64;
    if natural < extent {
        Some(natural)
    } else {
        None
    }
}
