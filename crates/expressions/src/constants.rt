//! Expressions of constants (ANSI X3.9-1978, 6.1.3 and 8.6).

ghost use Rattle.std.specs.Prelude.{◌≡◌, pos, Ok};
ghost use Rattle.meaning.specs.Maps.{start};
ghost use Rattle.meaning.specs.Scopes.{constants_alone};
ghost use Rattle.meaning.specs.Syntax.{expr_tree, exprs_tree};
ghost use Rattle.meaning.specs.Types.{Types};
ghost use Rattle.meaning.specs.Values.{Known, or_known, typed, value as value_of};
ghost use Rattle.expressions.specs.Calls.{call_value, value_behind, nothing_behind};
ghost use Rattle.expressions.specs.Functions.{intrinsic};

use crate::intrinsics::{Arguments, Intrinsic};
use crate::{as_integer, as_logical, constant, decided, operated, signed, zero_of};
use meaning::ending::{FaultKind, Value};
use meaning::syntax::{DataType, Expr, Exprs};

/// Constants by their names, and the types of names.
pub trait Constants {
    /// Whether it says what is so.
    ghost is_sound: { Self → Type 0 };

    /// The types.
    ghost types: { Self → Types };

    /// The constants.
    ghost known: { Self → Known };

    /// The type of a name; `None` where it is neither INTEGER nor LOGICAL.
    fn data_type(&self, name: &[u8]) -> Option<DataType>
        requires { is_sound self.now }
        ensures { result ≡ types self.now name.now };

    /// The value of a constant, `None` where the name is no constant's.
    fn constant(&self, name: &[u8]) -> Option<Value>
        requires { is_sound self.now }
        ensures { result ≡ known self.now name.now };
}

/// The value of an expression of constants, or its leftmost fault. A name that is no constant's
/// would count as 0 or false, and as 0 with arguments.
#[cycle(evaluation)]
pub fn constant_value<C: Constants>(expression: &Expr, constants: &C) -> Result<Value, FaultKind>
    requires { C.is_sound constants.now }
    ensures { result
        ≡ value_of (constants_alone (C.types constants.now) (C.known constants.now))
        (expr_tree expression.now) start }
{
    match expression {
        Expr::Number(digits) => constant(digits),
        Expr::Truth(truth) => Ok(Value::Bool(*truth)),
        Expr::Name(name) => Ok(name_value(name, constants)),
        Expr::Signed(sign, operand) => {
            let x = constant_value(operand, constants)?;
            signed(*sign, as_integer(x))
        }
        Expr::Binary(operator, left, right) => {
            let x = constant_value(left, constants)?;
            match decided(*operator, x) {
                Some(truth) => Ok(Value::Bool(truth)),
                None => {
                    let y = constant_value(right, constants)?;
                    operated(*operator, x, y)
                }
            }
        }
        Expr::Not(operand) => {
            let x = constant_value(operand, constants)?;
            Ok(Value::Bool(!as_logical(x)))
        }
        Expr::Paren(operand) => constant_value(operand, constants),
        Expr::Element(name, list) => call_of(name, list, constants),
        Expr::Call(name) => call_of(name, &Exprs::Empty, constants),
    }
}

// The value of a name.
fn name_value<C: Constants>(name: &[u8], constants: &C) -> Value
    requires { C.is_sound constants.now }
    ensures { or_known (C.known constants.now name.now)
        (typed (C.types constants.now name.now) (pos 0)) ≡ Ok result }
{
    match constants.constant(name) {
        Some(x) => x,
        None => zero_of(constants.data_type(name)),
    }
}

// The value of an intrinsic function; 0 where the name is none's.
#[cycle(evaluation)]
fn call_of<C: Constants>(name: &[u8], list: &Exprs, constants: &C) -> Result<Value, FaultKind>
    requires { C.is_sound constants.now }
    ensures { result
        ≡ call_value (constants_alone (C.types constants.now) (C.known constants.now)) name.now
        (exprs_tree list.now) start }
{
    match Intrinsic::named(name) {
        Some(function) => intrinsic_value(function, Arguments::None, list, constants),
        None => nothing_of(list, constants),
    }
}

// The value of an intrinsic function, its arguments first to last behind those so far.
#[cycle(evaluation)]
fn intrinsic_value<C: Constants>(
    function: Intrinsic,
    so_far: Arguments,
    list: &Exprs,
    constants: &C,
) -> Result<Value, FaultKind>
    requires { C.is_sound constants.now }
    ensures { result
        ≡ value_behind (constants_alone (C.types constants.now) (C.known constants.now))
        (intrinsic function) so_far (exprs_tree list.now) start }
{
    match list {
        Exprs::Empty => so_far.value(function),
        Exprs::More(first, rest) => {
            let x = as_integer(constant_value(first, constants)?);
            intrinsic_value(function, so_far.with(function, x), rest, constants)
        }
    }
}

// 0, where the arguments have values.
#[cycle(evaluation)]
fn nothing_of<C: Constants>(list: &Exprs, constants: &C) -> Result<Value, FaultKind>
    requires { C.is_sound constants.now }
    ensures { result
        ≡ nothing_behind (constants_alone (C.types constants.now) (C.known constants.now))
        (exprs_tree list.now) start }
{
    match list {
        Exprs::Empty => Ok(Value::Int(0)),
        Exprs::More(first, rest) => {
            let _x = constant_value(first, constants)?;
            nothing_of(rest, constants)
        }
    }
}
