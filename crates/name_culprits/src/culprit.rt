//! What breaks the rule on what names are.

ghost use Rattle.std.specs.Prelude.{◌≡◌, option_map};

/// What a statement gives a name.
#[derive(Clone, Copy, Debug, PartialEq, Eq)]
pub enum Giving {
    /// A type.
    Typed,
    /// Bounds.
    Bounds,
    /// A value, by a PARAMETER statement.
    Value,
    /// An expression, as a statement function.
    Expression,
    /// Bounds or an expression.
    Either,
}

/// What breaks the rule on what names are at a statement (ANSI X3.9-1978, 8.1, 8.4 to 8.6 and
/// 15.4).
#[derive(Clone, Copy)]
pub enum NameCulprit<'a> {
    /// The name is given something, and the statement of that line gives it this.
    Given {
        name: &'a [u8],
        giving: Giving,
        line: u32,
    },
    /// A statement function's name that stands without parentheses.
    Bare {
        name: &'a [u8],
    },
    /// A constant's name that has parentheses.
    Referenced {
        name: &'a [u8],
    },
    /// A constant's name that is set.
    Set {
        name: &'a [u8],
    },
    /// IMPLICIT NONE and another IMPLICIT statement, of which the earlier one is that of this line.
    Rival {
        line: u32,
    },
}

impl<'a> NameCulprit<'a> {
    ghost use Rattle.name_culprits.specs.Told.{told_at};
    ghost use Rattle.name_culprits.specs.Texts.{word_of};

    /// The name that it is about, if it is about one.
    pub fn word(self) -> Option<&'a [u8]>
        ensures { option_map (λ w. w.now) result ≡ word_of (told_at self.entry) }
    {
        match self {
            NameCulprit::Given { name, .. } => Some(name),
            NameCulprit::Bare { name } => Some(name),
            NameCulprit::Referenced { name } => Some(name),
            NameCulprit::Set { name } => Some(name),
            NameCulprit::Rival { .. } => None,
        }
    }
}
