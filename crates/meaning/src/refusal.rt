//! Why a source is refused.

ghost use Rattle.std.specs.Prelude.{◌≡◌, Some};
ghost use Rattle.meaning.specs.Names.{rule_name};
ghost use Rattle.meaning.specs.Ranks.{rank_of};
ghost use Rattle.meaning.specs.Refusals.{merge};
ghost use Rattle.meaning.specs.declared.refusal.Refusal.TheVariants.{Memory};

use std::alloc::{AllocError, AllocFailed};
use std::fmt;

/// A rule of the profile, by the name that the program prints. docs/LANGUAGE.md says what each one
/// asks.
#[derive(Clone, Copy, Debug, PartialEq, Eq)]
pub enum Rule {
    /// A byte outside 32 to 126 in columns 1 to 72.
    C1,
    /// Columns 1 to 5 of an initial line hold no statement label and aren't blank.
    C2,
    /// A continuation line that isn't blank in columns 1 to 5.
    C3,
    /// A continuation line with no initial line before it.
    C4,
    /// More than 19 continuation lines.
    C5,
    /// An odd number of apostrophes in a statement.
    C6,
    /// A source that is too long.
    C7,
    /// A statement that has no reading.
    G1,
    /// A FORTRAN 77 statement that is left out of the profile.
    G2,
    /// More than 64 parentheses open at once.
    G3,
    /// A statement that may not stand behind one that was read: PROGRAM behind any; IMPLICIT,
    /// PARAMETER, a type statement or DIMENSION behind a DATA statement, a statement function's or
    /// an executable one, END included; or IMPLICIT behind a type statement or DIMENSION.
    N1,
    /// The END statement is missing, or a statement follows it.
    N2,
    /// ELSE IF, ELSE or END IF out of place, or END inside a block IF.
    N3,
    /// A DO range that crosses another or a block IF, a terminal statement that isn't allowed, or
    /// END inside a DO range.
    N4,
    /// A DO or block IF that would be the 33rd open one.
    N5,
    /// A statement label that an earlier statement has.
    K1,
    /// A transfer to a label that no statement has, or that none may be reached by.
    K2,
    /// A variable, array, constant, statement function or dummy argument of type REAL, or, under
    /// IMPLICIT NONE, of no type.
    K3,
    /// A name that is given a type, bounds, a value or an expression twice, or that is used as what
    /// it isn't; a letter in two IMPLICIT ranges; IMPLICIT NONE beside another IMPLICIT statement.
    K4,
    /// An expression of the wrong type.
    K5,
    /// An integer constant outside the range of INTEGER; a PARAMETER value or a bound that is no
    /// constant expression, or faults.
    K6,
    /// Too many dimensions or elements, or a lower bound above the upper one.
    K7,
    /// A wrong number of subscripts or arguments, or an array without subscripts where it has to
    /// have them.
    K8,
    /// A DO variable that is no INTEGER variable, or a statement that sets that of a DO or implied
    /// DO around it.
    K9,
    /// A DATA statement whose items and values don't fit.
    K10,
    /// A unit, a format label or a format that isn't allowed.
    K11,
    /// An assignment to an element of what is no array, which is no statement function's there; a
    /// statement function that uses itself or a later one, or has dummies that aren't distinct
    /// names, too many of them, too many levels or too many parts.
    K12,
    /// A reference to a function that is neither a statement function nor intrinsic.
    K13,
}

impl Rule {
    /// The number of the rule in its phase. Of two rules broken at one line the lesser is told.
    pub fn rank(self) -> u8
        ensures { result ≡ rank_of self }
    {
        match self {
            Rule::C1 | Rule::G1 | Rule::N1 | Rule::K1 => 1,
            Rule::C2 | Rule::G2 | Rule::N2 | Rule::K2 => 2,
            Rule::C3 | Rule::G3 | Rule::N3 | Rule::K3 => 3,
            Rule::C4 | Rule::N4 | Rule::K4 => 4,
            Rule::C5 | Rule::N5 | Rule::K5 => 5,
            Rule::C6 | Rule::K6 => 6,
            Rule::C7 | Rule::K7 => 7,
            Rule::K8 => 8,
            Rule::K9 => 9,
            Rule::K10 => 10,
            Rule::K11 => 11,
            Rule::K12 => 12,
            Rule::K13 => 13,
        }
    }
}

impl Rule {
    /// The name that the program prints.
    pub fn name(self) -> &'static str
        ensures { result.now ≡ rule_name self }
    {
        match self {
            Rule::C1 => "C1",
            Rule::C2 => "C2",
            Rule::C3 => "C3",
            Rule::C4 => "C4",
            Rule::C5 => "C5",
            Rule::C6 => "C6",
            Rule::C7 => "C7",
            Rule::G1 => "G1",
            Rule::G2 => "G2",
            Rule::G3 => "G3",
            Rule::N1 => "N1",
            Rule::N2 => "N2",
            Rule::N3 => "N3",
            Rule::N4 => "N4",
            Rule::N5 => "N5",
            Rule::K1 => "K1",
            Rule::K2 => "K2",
            Rule::K3 => "K3",
            Rule::K4 => "K4",
            Rule::K5 => "K5",
            Rule::K6 => "K6",
            Rule::K7 => "K7",
            Rule::K8 => "K8",
            Rule::K9 => "K9",
            Rule::K10 => "K10",
            Rule::K11 => "K11",
            Rule::K12 => "K12",
            Rule::K13 => "K13",
        }
    }
}

impl fmt::Display for Rule {
    ghost output = { λ rule. Some (rule_name rule) };

    fn fmt<W: fmt::Write>(&self, f: &mut fmt::Formatter<W>) -> fmt::Result {
        f.write_str(self.name())
    }
}

/// A rule that is broken, and the line at which it is.
#[derive(Clone, Copy, Debug, PartialEq, Eq)]
pub struct Broken {
    pub line: u32,
    pub rule: Rule,
}

/// Why a source, or a part of it, is refused.
#[derive(Clone, Copy, Debug, PartialEq, Eq)]
pub enum Refusal {
    /// A rule of the profile is broken: the least one of the least line, in the first phase that
    /// has one.
    Rule { rule: Rule, line: u32 },
    /// A growth was refused.
    Memory,
}

impl From<AllocError> for Refusal {
    ghost from_gives = { λ _ e. e ≡ Memory };

    fn from(_error: AllocError) -> Refusal {
        Refusal::Memory
    }
}

impl<T: Drop> From<AllocFailed<T>> for Refusal {
    ghost from_gives = { λ _ e. e ≡ Memory };

    fn from(_error: AllocFailed<T>) -> Refusal {
        Refusal::Memory
    }
}

/// The lesser of two broken rules: that of the lesser line, and at one line that of the lesser
/// rank.
pub fn lesser(a: Option<Broken>, b: Option<Broken>) -> Option<Broken>
    ensures { result ≡ merge a b }
{
    match (a, b) {
        (None, other) => other,
        (Some(a), None) => Some(a),
        (Some(a), Some(b)) => {
            if b.line < a.line || (b.line == a.line && b.rule.rank() < a.rule.rank()) {
                Some(b)
            } else {
                Some(a)
            }
        }
    }
}
