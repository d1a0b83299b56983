//! What names stand for, and how they lead to cells (ANSI X3.9-1978, 2.5, 5.4, 8.6 and 15.4).

ghost use Rattle.std.specs.Prelude.{◌≡◌, ◌<◌, ◌≤◌, ◌^◌, ℕ, ℤ, List, length};
ghost use Rattle.meaning.specs.Maps.{CellNumbers};
ghost use Rattle.meaning.specs.Values.{dimensions_in};
ghost use Rattle.expressions.specs.Glossaries.{Glossary};
ghost use Rattle.expressions.specs.Calls.{IsCallable};
ghost use Rattle.expressions.specs.Names.{IsNamed, IsArray, IsFunction};
ghost use Rattle.expressions.specs.Places.{left, behind, limit};

use crate::ElementAddress;
use meaning::ending::Value;
use meaning::syntax::{DataType, Expr, Exprs};

/// The cells of a variable or an array, and its type; `None` where it is neither INTEGER nor
/// LOGICAL.
#[derive(Clone, Copy)]
pub struct Cells<'a> {
    pub place: ElementAddress<'a>,
    pub data_type: Option<DataType>,
}

/// What a name without parentheses stands for.
#[derive(Clone, Copy)]
pub enum Named<'a> {
    /// A constant (8.6).
    Constant(Value),
    /// A variable, or an array.
    Variable(Cells<'a>),
}

/// A statement function (15.4).
#[derive(Clone, Copy)]
pub struct Function<'a> {
    /// How many statement functions stand before it.
    pub at: usize,
    /// Its dummy arguments, names.
    pub dummies: &'a Exprs,
    /// Its expression.
    pub body: &'a Expr,
}

/// What the names of a program unit stand for, and how its variables and array elements are
/// numbered as cells.
pub trait Numbering {
    /// Whether it says what is so.
    ghost is_sound: { Self → Type 0 };

    /// The types, the arrays, the constants and the statement functions.
    ghost names: { Self → Glossary };

    /// The cell of each name with subscripts.
    ghost numbers: { Self → CellNumbers };

    /// How many cells there are.
    ghost count: { Self → ℕ };

    /// How many statement functions there are.
    fn functions(&self) -> usize
        requires { is_sound self.now }
        ensures { result ≡ length (names self.now).definitions };

    /// The place of a variable or an array.
    fn find(&self, name: &[u8]) -> ElementAddress<'_>
        requires { is_sound self.now }
        ensures left { left result ≡ dimensions_in ((names self.now).arrays name.now) }
        ensures behind { (ss : List ℤ) → behind result ss ≡ numbers self.now name.now ss }
        ensures limited { limit result ≤ count self.now }
        ensures few { limit result < 2 ^ 64 };

    /// What a name without parentheses stands for.
    fn named(&self, name: &[u8]) -> Named<'_>
        requires { is_sound self.now }
        ensures { IsNamed (names self.now) (numbers self.now) (count self.now) name.now result };

    /// The cells of an array, `None` where the name is no array's.
    fn array(&self, name: &[u8]) -> Option<Cells<'_>>
        requires { is_sound self.now }
        ensures { IsArray (names self.now) (numbers self.now) (count self.now) name.now result };

    /// The statement function with a name. No other has the name, and it has sixteen dummy
    /// arguments at most.
    fn function(&self, name: &[u8]) -> Option<Function<'_>>
        requires { is_sound self.now }
        ensures { IsFunction (names self.now).definitions name.now result };
}

/// The statement function with a name, if it is one of those that may be called, the first so many.
pub fn callable<'a, N: Numbering>(
    name: &[u8],
    most: usize,
    numbering: &'a N,
) -> Option<Function<'a>>
    requires { N.is_sound numbering.now }
    ensures { IsCallable (N.names numbering.now) most name.now result }
{
    match numbering.function(name) {
        Some(function) => {
            if function.at < most {
                Some(function)
            } else {
                None
            }
        }
        None => None,
    }
}
