//! What breaks the rule on integer constants and constant expressions.

ghost use Rattle.std.specs.Prelude.{◌≡◌};

/// What breaks the rule on integer constants and constant expressions at a statement (ANSI
/// X3.9-1978, 4.3, 5.1.1 and 8.6).
#[derive(Clone, Copy)]
pub enum NumberCulprit<'a> {
    /// An integer constant that is more than 2147483647.
    Great { digits: &'a [u8] },
    /// A name in a constant expression that is no constant's that is known there.
    Unknown { name: &'a [u8] },
    /// A name in a constant expression that has parentheses.
    Referenced { name: &'a [u8] },
    /// A constant whose expression has no value, since it faults.
    Faulty { name: &'a [u8] },
    /// An array with a bound that has no value, since it faults.
    Unbounded { name: &'a [u8] },
}

impl<'a> NumberCulprit<'a> {
    ghost use Rattle.number_culprits.specs.Told.{told_at};
    ghost use Rattle.number_culprits.specs.Texts.{word_of};

    /// The constant or the name that it is about.
    pub fn word(self) -> &'a [u8]
        ensures { result.now ≡ word_of (told_at self.entry) }
    {
        match self {
            NumberCulprit::Great { digits } => digits,
            NumberCulprit::Unknown { name } => name,
            NumberCulprit::Referenced { name } => name,
            NumberCulprit::Faulty { name } => name,
            NumberCulprit::Unbounded { name } => name,
        }
    }
}
