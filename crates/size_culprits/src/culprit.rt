//! What breaks the rule on the sizes of arrays.

ghost use Rattle.std.specs.Prelude.{◌≡◌};

/// What breaks the rule on the sizes of arrays at a statement (ANSI X3.9-1978, 5.1).
#[derive(Clone, Copy)]
pub enum SizeCulprit<'a> {
    /// The array has so many dimensions, more than seven.
    Dimensions {
        name: &'a [u8],
        number: usize,
    },
    /// A lower bound of the array is above the upper one.
    Reversed {
        name: &'a [u8],
        lower: i32,
        upper: i32,
    },
    /// The array has so many elements, and the arrays before it have so many, 2^64-1 where there
    /// are more; all have more than 16,777,216.
    Elements {
        name: &'a [u8],
        own: u64,
        before: u64,
    },
}

impl<'a> SizeCulprit<'a> {
    ghost use Rattle.size_culprits.specs.Told.{told_at};
    ghost use Rattle.size_culprits.specs.Texts.{word_of};

    /// The name of the array.
    pub fn word(self) -> &'a [u8]
        ensures { result.now ≡ word_of (told_at self.entry) }
    {
        match self {
            SizeCulprit::Dimensions { name, .. } => name,
            SizeCulprit::Reversed { name, .. } => name,
            SizeCulprit::Elements { name, .. } => name,
        }
    }
}
