//! What breaks a rule.

ghost use Rattle.std.specs.Prelude.{◌≡◌, option_map};

use data_culprits::DataCulprit;
use function_culprits::FunctionCulprit;
use list_culprits::ListCulprit;
use name_culprits::NameCulprit;
use number_culprits::NumberCulprit;
use output_culprits::OutputCulprit;
use size_culprits::SizeCulprit;
use type_culprits::TypeCulprit;

/// How many subscripts or arguments a name wants.
#[derive(Clone, Copy, Debug, PartialEq, Eq)]
pub enum Wanted {
    Subscripts(usize),
    Arguments(usize),
    /// So many arguments, or more.
    ArgumentsOrMore(usize),
}

/// What breaks a rule K at a statement.
#[derive(Clone, Copy)]
pub enum Culprit<'a> {
    /// K1: the statement's label, and the line of the first statement before it that has it (ANSI
    /// X3.9-1978, 3.4).
    Repeated {
        label: u32,
        earlier: u32,
    },
    /// K3: a name of type REAL, or, where IMPLICIT NONE stands, one without a type (4.1.2).
    Real {
        name: &'a [u8],
        without_letters: bool,
    },
    /// K5: what is of the wrong type (6.1 to 6.4).
    Type {
        culprit: TypeCulprit<'a>,
    },
    /// K6: what breaks the rule on integer constants and constant expressions (4.3, 5.1.1 and 8.6).
    Number {
        culprit: NumberCulprit<'a>,
    },
    /// K7: what breaks the rule on the sizes of arrays (5.1).
    Size {
        culprit: SizeCulprit<'a>,
    },
    /// K4: what breaks the rule on what names are (8.1, 8.4 to 8.6 and 15.4).
    Name {
        culprit: NameCulprit<'a>,
    },
    /// K8: a name that wants another number of subscripts or arguments than there are; none are
    /// given where it stands without parentheses (5.4.2, 15.3 and 15.4).
    Miscounted {
        name: &'a [u8],
        wanted: Wanted,
        given: Option<usize>,
    },
    /// K10: what breaks the rule on DATA statements (chapter 9).
    Data {
        culprit: DataCulprit<'a>,
    },
    /// K11: what breaks the rule on units and formats (12.3, 12.4 and 13.1).
    Output {
        culprit: OutputCulprit<'a>,
    },
    /// K12: what breaks the rule on statement functions (15.4).
    Function {
        culprit: FunctionCulprit<'a>,
    },
    /// K13: a name that is referred to as a function and is none (15.2).
    Unknown {
        name: &'a [u8],
    },
    /// K2 and K9: what breaks a rule on lists.
    Listed {
        culprit: ListCulprit<'a>,
    },
}

impl<'a> Culprit<'a> {
    ghost use Rattle.culprits.specs.Told.{told_at};
    ghost use Rattle.culprits.specs.Texts.{word_of};

    /// What it is about, as it stands in the statement, for `place_of`: a name, a constant, or the
    /// label of a transfer or a format; none where it is about none.
    pub fn word(self) -> Option<&'a [u8]>
        ensures { option_map (λ w. w.now) result ≡ word_of (told_at self.entry) }
    {
        match self {
            Culprit::Repeated { .. } => None,
            Culprit::Real { name, .. } => Some(name),
            Culprit::Type { culprit } => Some(culprit.word()),
            Culprit::Number { culprit } => Some(culprit.word()),
            Culprit::Size { culprit } => Some(culprit.word()),
            Culprit::Name { culprit } => culprit.word(),
            Culprit::Miscounted { name, .. } => Some(name),
            Culprit::Data { culprit } => culprit.word(),
            Culprit::Output { culprit } => culprit.word(),
            Culprit::Function { culprit } => Some(culprit.word()),
            Culprit::Unknown { name } => Some(name),
            Culprit::Listed { culprit } => Some(culprit.word()),
        }
    }
}
