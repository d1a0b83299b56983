//! What breaks the rule on units and formats.

ghost use Rattle.std.specs.Prelude.{◌≡◌, option_map};

use meaning::syntax::Expr;
use type_culprits::first_word;

/// What breaks the rule on units and formats at a statement (ANSI X3.9-1978, 12.3, 12.4 and 13.1).
#[derive(Clone, Copy)]
pub enum OutputCulprit<'a> {
    /// A unit that is neither an asterisk nor a constant expression of value 6.
    Unit { number: &'a Expr },
    /// The label of a format, which no FORMAT statement has.
    Missing { label: &'a [u8] },
    /// A FORMAT statement without a label.
    Unlabelled,
    /// What stands between two commas of a FORMAT statement's text, up to which it is no format.
    Piece { text: &'a [u8] },
    /// A character constant that is no format; what stands between its apostrophes.
    Constant { text: &'a [u8] },
}

impl<'a> OutputCulprit<'a> {
    ghost use Rattle.output_culprits.specs.Told.{told_at};
    ghost use Rattle.output_culprits.specs.Texts.{word_of};

    /// What it is about, as it stands in the statement: of a unit the first constant or name; of a
    /// character constant its apostrophe; none of a FORMAT statement without a label.
    pub fn word(self) -> Option<&'a [u8]>
        ensures { option_map (λ w. w.now) result ≡ word_of (told_at self.entry) }
    {
        match self {
            OutputCulprit::Unit { number } => Some(first_word(number)),
            OutputCulprit::Missing { label } => Some(label),
            OutputCulprit::Unlabelled => None,
            OutputCulprit::Piece { text } => Some(text),
            OutputCulprit::Constant { .. } => Some(b"'".as_slice()),
        }
    }
}
