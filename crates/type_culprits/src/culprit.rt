//! What is of the wrong type.

ghost use Rattle.std.specs.Prelude.{◌≡◌};

use crate::words::first_word;
use meaning::syntax::{DataType, Expr, Operator, Sign};

/// A place of an expression in a statement (ANSI X3.9-1978, 5.1, 8.6, 9.3, and 11.2 to 11.10).
#[derive(Clone, Copy, Debug, PartialEq, Eq)]
pub enum Place {
    /// The condition of a logical IF, a block IF, an ELSE IF or a DO WHILE statement.
    Condition,
    /// A limit of a DO or an implied DO.
    Limit,
    /// A bound of an array.
    Bound,
    /// The value of a constant of a PARAMETER statement.
    Constant,
    /// The expression of a computed GO TO.
    ComputedGoTo,
    /// The expression of an arithmetic IF.
    ArithmeticIf,
    /// A subscript or a limit in the list of a DATA statement.
    Data,
}

/// What asks an expression for a type (ANSI X3.9-1978, chapter 6, and 5.4, 15.3 and 15.4).
#[derive(Clone, Copy)]
pub enum Asker<'a> {
    /// An operator, of one of its operands.
    Between(Operator),
    /// `.NOT.`, of its operand.
    Not,
    /// A sign, of its operand.
    Before(Sign),
    /// An array, of a subscript; a function, of an argument; or a name that is given a value.
    Named(&'a [u8]),
    /// A place in the statement.
    At(Place),
}

/// An expression of the wrong type (ANSI X3.9-1978, 6.1 to 6.4): of the two types it has the one
/// that isn't wanted.
#[derive(Clone, Copy)]
pub struct TypeCulprit<'a> {
    /// The expression.
    pub expression: &'a Expr,
    /// The type that is wanted.
    pub wanted: DataType,
    /// What wants it.
    pub asker: Asker<'a>,
}

impl<'a> TypeCulprit<'a> {
    ghost use Rattle.type_culprits.specs.Told.{told_at};
    ghost use Rattle.type_culprits.specs.Texts.{word_of};

    /// The first constant or name in the expression.
    pub fn word(self) -> &'a [u8]
        ensures { result.now ≡ word_of (told_at self.entry) }
    {
        first_word(self.expression)
    }
}
