//! What breaks the rule on DATA statements.

ghost use Rattle.std.specs.Prelude.{◌≡◌, option_map};

use meaning::ending::Value;
use number_culprits::NumberCulprit;

/// What breaks the rule on DATA statements at a statement (ANSI X3.9-1978, chapter 9).
#[derive(Clone, Copy)]
pub enum DataCulprit<'a> {
    /// An item that is no variable, no array and no element; its first word.
    Item {
        word: &'a [u8],
    },
    /// What keeps a subscript or a limit from being a constant expression, or a value from being a
    /// constant.
    Number {
        culprit: NumberCulprit<'a>,
    },
    /// An element with a subscript that is outside of its bounds.
    Outside {
        name: &'a [u8],
        subscript: i32,
        lower: i32,
        upper: i32,
    },
    /// An element with another number of subscripts than its array has dimensions.
    Unmatched {
        name: &'a [u8],
    },
    /// The variable of an implied DO that is none of an INTEGER.
    Counter {
        name: &'a [u8],
    },
    /// The variable of an implied DO that has the step 0 or no trips.
    Trips {
        name: &'a [u8],
    },
    /// A repeat count that is no INTEGER of 1 or more.
    Count {
        text: &'a [u8],
    },
    /// A name with a value of another type.
    Mistyped {
        name: &'a [u8],
        value: Value,
    },
    /// A name that no value is left for.
    Unserved {
        name: &'a [u8],
    },
    /// The name of a variable or an element that has a value.
    Again {
        name: &'a [u8],
    },
    /// A value that is left over.
    LeftOver,
}

impl<'a> DataCulprit<'a> {
    ghost use Rattle.data_culprits.specs.Told.{told_at};
    ghost use Rattle.data_culprits.specs.Texts.{word_of};

    /// What it is about, as it stands in the statement: none of a value that is left over.
    pub fn word(self) -> Option<&'a [u8]>
        ensures { option_map (λ w. w.now) result ≡ word_of (told_at self.entry) }
    {
        match self {
            DataCulprit::Item { word } => Some(word),
            DataCulprit::Number { culprit } => Some(culprit.word()),
            DataCulprit::Outside { name, .. } => Some(name),
            DataCulprit::Unmatched { name } => Some(name),
            DataCulprit::Counter { name } => Some(name),
            DataCulprit::Trips { name } => Some(name),
            DataCulprit::Count { text } => Some(text),
            DataCulprit::Mistyped { name, .. } => Some(name),
            DataCulprit::Unserved { name } => Some(name),
            DataCulprit::Again { name } => Some(name),
            DataCulprit::LeftOver => None,
        }
    }
}
