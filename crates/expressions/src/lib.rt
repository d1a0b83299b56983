//! Operators and intrinsic functions, expressions of constants, and what the names of a program
//! unit stand for (ANSI X3.9-1978, 6.1, 6.6 and chapter 15).
#![tactic(auto)]

mod constants;
mod dimension;
mod intrinsics;
mod numbering;
mod place;
mod trips;

ghost use Rattle.std.specs.Prelude.{◌≡◌, ℤ, pos, int_div, FitsSigned, SomeIff, Ok};
ghost use Rattle.std.specs.Int.{w32};
ghost use Rattle.meaning.specs.Values.{integer, typed as typed_as, as_integer as integer_in};
ghost use Rattle.meaning.specs.Values.{as_logical as logical_in, with_sign};
ghost use Rattle.meaning.specs.Values.{operated as operated_on, decided as decided_by};
ghost use Rattle.meaning.specs.Values.{divided as divided_by, raised as raised_to};
ghost use Rattle.meaning.specs.Characters.{number_of};

pub use constants::{Constants, constant_value};
pub use dimension::{Dimension, Dimensions};
pub use intrinsics::{Arguments, Intrinsic};
use meaning::ending::{FaultKind, Value};
use meaning::number::number;
use meaning::syntax::{DataType, Operator, Sign};
pub use numbering::{Cells, Function, Named, Numbering, callable};
pub use place::ElementAddress;
pub use trips::trip_count;

// What a name of a type has where nothing gives it a value.
fn zero_of(data_type: Option<DataType>) -> Value
    ensures { typed_as data_type (pos 0) ≡ Ok result }
{
    match data_type {
        Some(DataType::Logical) => Value::Bool(false),
        Some(DataType::Integer) => Value::Int(0),
        None => Value::Int(0),
    }
}

/// A value as the operand of an arithmetic operator. The rules of the language leave only integers
/// there; a LOGICAL would count as 0 or 1.
pub fn as_integer(value: Value) -> i32
    ensures { result ≡ integer_in value }
{
    match value {
        Value::Int(x) => x,
        Value::Bool(true) => 1,
        Value::Bool(false) => 0,
    }
}

// The value of digits.
fn constant(digits: &[u8]) -> Result<Value, FaultKind>
    ensures { result ≡ integer (pos (number_of digits.now)) }
{
    integer_of(i32::try_from(number(digits)).ok())
}

/// A sign and its operand. A result outside INTEGER is the fault F2.
pub fn signed(sign: Sign, x: i32) -> Result<Value, FaultKind>
    ensures { result ≡ integer (with_sign sign x) }
{
    match sign {
        Sign::Plus => integer_of(Some(x)),
        Sign::Minus => integer_of(x.checked_neg()),
    }
}

/// A value as the operand of a logical operator. The rules of the language leave only LOGICAL
/// values there; an INTEGER would count as true unless it is 0.
pub fn as_logical(value: Value) -> bool
    ensures { result ≡ logical_in value }
{
    match value {
        Value::Bool(truth) => truth,
        Value::Int(x) => x != 0,
    }
}

// The value where the left operand decides it.
fn decided(operator: Operator, x: Value) -> Option<bool>
    ensures { result ≡ decided_by operator x }
{
    match operator {
        Operator::And => { if as_logical(x) { None } else { Some(false) } }
        Operator::Or => { if as_logical(x) { Some(true) } else { None } }
        _ => None,
    }
}

/// An operator and the values of its operands: F1 where a divisor is zero, F2 where a result leaves
/// the range of INTEGER, F6 where zero has an exponent of zero or less.
#[inline(always)]
pub fn operated(operator: Operator, x: Value, y: Value) -> Result<Value, FaultKind>
    ensures { result ≡ operated_on operator x y }
{
    match operator {
        Operator::Add => integer_of(as_integer(x).checked_add(as_integer(y))),
        Operator::Subtract => integer_of(as_integer(x).checked_sub(as_integer(y))),
        Operator::Multiply => integer_of(as_integer(x).checked_mul(as_integer(y))),
        Operator::Divide => divided(as_integer(x), as_integer(y)),
        Operator::Power => raised(as_integer(x), as_integer(y)),
        Operator::Less => Ok(Value::Bool(as_integer(x) < as_integer(y))),
        Operator::LessOrEqual => Ok(Value::Bool(as_integer(x) <= as_integer(y))),
        Operator::Equal => Ok(Value::Bool(as_integer(x) == as_integer(y))),
        Operator::NotEqual => Ok(Value::Bool(as_integer(x) != as_integer(y))),
        Operator::GreaterOrEqual => Ok(Value::Bool(as_integer(x) >= as_integer(y))),
        Operator::Greater => Ok(Value::Bool(as_integer(x) > as_integer(y))),
        Operator::And => Ok(Value::Bool(as_logical(x) && as_logical(y))),
        Operator::Or => Ok(Value::Bool(as_logical(x) || as_logical(y))),
        Operator::Equivalent => Ok(Value::Bool(as_logical(x) == as_logical(y))),
        Operator::NotEquivalent => Ok(Value::Bool(as_logical(x) != as_logical(y))),
    }
}

// A quotient towards zero.
fn divided(x: i32, y: i32) -> Result<Value, FaultKind>
    ensures { result ≡ divided_by x y }
{
    if y == 0 {
        return Err(FaultKind::F1);
    }
    integer_of(x.checked_div(y))
}

// A power; with a negative exponent the quotient of 1 by it.
#[cold]
#[inline(never)]
fn raised(x: i32, y: i32) -> Result<Value, FaultKind>
    ensures { result ≡ raised_to x y }
{
    if x == 0 && y <= 0 {
        return Err(FaultKind::F6);
    }
    let power = x.checked_pow(y.unsigned_abs());
    if y < 0 {
        return inverse(power);
    }
    integer_of(power)
}

// The quotient of 1 by a power z, which is there exactly where z is an INTEGER: it is 0 unless z is
// 1 or -1.
fn inverse(power: Option<i32>) -> Result<Value, FaultKind>
    ensures { (z : ℤ) → SomeIff power (FitsSigned w32 z) z → result ≡ integer (int_div (pos 1) z) }
{
    match power {
        Some(power) => {
            if power == 1 {
                return Ok(Value::Int(1));
            }
            if power == -1 {
                return Ok(Value::Int(-1));
            }
            Ok(Value::Int(0))
        }
        None => Ok(Value::Int(0)),
    }
}

// The value of an exact result z, which is there exactly where z is an INTEGER.
fn integer_of(exact: Option<i32>) -> Result<Value, FaultKind>
    ensures { (z : ℤ) → SomeIff exact (FitsSigned w32 z) z → result ≡ integer z }
{
    match exact {
        Some(x) => Ok(Value::Int(x)),
        None => Err(FaultKind::F2),
    }
}
