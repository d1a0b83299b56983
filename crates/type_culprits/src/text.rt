//! What is of the wrong type, as text: `L is LOGICAL, and + wants INTEGER`.

ghost use Rattle.std.specs.Prelude.{◌≡◌, ◌++◌, OnOk};
ghost use Rattle.meaning.specs.Syntax.{expr_tree};
ghost use Rattle.type_culprits.specs.Told.{asker_at, told_at};
ghost use Rattle.type_culprits.specs.Texts.{asker_text, expr_text, found_text, operator_text};
ghost use Rattle.type_culprits.specs.Texts.{place_text, result_text, sign_text, told_text};
ghost use Rattle.type_culprits.specs.Texts.{wanted_text};

use crate::culprit::{Asker, Place, TypeCulprit};
use crate::words::truth_word;
use meaning::syntax::{DataType, Expr, Operator, Sign};
use std::alloc::AllocError;

/// Puts a text behind others.
fn add(bytes: &mut Vec<u8>, text: &str) -> Result<(), AllocError>
    ensures { OnOk result (bytes.new.items ≡ bytes.old.items ++ text.now) }
{
    bytes.extend_from_slice(text.as_bytes())
}

/// How an operator is written.
fn operator_text(operator: Operator) -> &'static str
    ensures { result.now ≡ operator_text operator }
{
    match operator {
        Operator::Power => "**",
        Operator::Multiply => "*",
        Operator::Divide => "/",
        Operator::Add => "+",
        Operator::Subtract => "-",
        Operator::Less => ".LT.",
        Operator::LessOrEqual => ".LE.",
        Operator::Equal => ".EQ.",
        Operator::NotEqual => ".NE.",
        Operator::GreaterOrEqual => ".GE.",
        Operator::Greater => ".GT.",
        Operator::And => ".AND.",
        Operator::Or => ".OR.",
        Operator::Equivalent => ".EQV.",
        Operator::NotEquivalent => ".NEQV.",
    }
}

/// How a sign is written.
fn sign_text(sign: Sign) -> &'static str
    ensures { result.now ≡ sign_text sign }
{
    match sign {
        Sign::Plus => "+",
        Sign::Minus => "-",
    }
}

/// Puts what has an operator.
fn add_result(bytes: &mut Vec<u8>, operator: &str) -> Result<(), AllocError>
    ensures { OnOk result (bytes.new.items ≡ bytes.old.items ++ result_text operator.now) }
{
    add(bytes, "the result of ")?;
    add(bytes, operator)
}

/// Puts an expression: what it is, or its last operator.
fn add_expression(bytes: &mut Vec<u8>, expression: &Expr) -> Result<(), AllocError>
    ensures { OnOk result
        (bytes.new.items ≡ bytes.old.items ++ expr_text (expr_tree expression.now)) }
{
    match expression {
        Expr::Number(digits) => bytes.extend_from_slice(digits),
        Expr::Truth(value) => bytes.extend_from_slice(truth_word(*value)),
        Expr::Name(name) => bytes.extend_from_slice(name),
        Expr::Signed(sign, _) => add_result(bytes, sign_text(*sign)),
        Expr::Not(_) => add_result(bytes, ".NOT."),
        Expr::Binary(operator, _, _) => add_result(bytes, operator_text(*operator)),
        Expr::Paren(operand) => add_expression(bytes, operand),
        Expr::Element(name, _) => bytes.extend_from_slice(name),
        Expr::Call(name) => bytes.extend_from_slice(name),
    }
}

/// The type that it has.
fn found(wanted: DataType) -> &'static str
    ensures { result.now ≡ found_text wanted }
{
    match wanted {
        DataType::Integer => " is LOGICAL, and ",
        DataType::Logical => " is INTEGER, and ",
    }
}

/// A place that asks for one.
fn place_text(place: Place) -> &'static str
    ensures { result.now ≡ place_text place }
{
    match place {
        Place::Condition => "a condition",
        Place::Limit => "a DO limit",
        Place::Bound => "a bound",
        Place::Constant => "the constant",
        Place::ComputedGoTo => "a computed GO TO",
        Place::ArithmeticIf => "an arithmetic IF",
        Place::Data => "DATA",
    }
}

/// Puts what asks for a type.
fn add_asker(bytes: &mut Vec<u8>, asker: Asker) -> Result<(), AllocError>
    ensures { OnOk result
        (bytes.new.items ≡ bytes.old.items ++ asker_text (asker_at asker.entry)) }
{
    match asker {
        Asker::Between(operator) => add(bytes, operator_text(operator)),
        Asker::Not => add(bytes, ".NOT."),
        Asker::Before(sign) => add(bytes, sign_text(sign)),
        Asker::Named(name) => bytes.extend_from_slice(name),
        Asker::At(place) => add(bytes, place_text(place)),
    }
}

/// The type that is wanted.
fn wants(wanted: DataType) -> &'static str
    ensures { result.now ≡ wanted_text wanted }
{
    match wanted {
        DataType::Integer => " wants INTEGER",
        DataType::Logical => " wants LOGICAL",
    }
}

/// Puts what is of the wrong type behind a text, in the words of a message. The `AllocError` comes
/// only where a growth was refused, and leaves a part of it there.
pub fn add_type_text(bytes: &mut Vec<u8>, culprit: TypeCulprit) -> Result<(), AllocError>
    ensures { OnOk result (bytes.new.items ≡ bytes.old.items ++ told_text (told_at culprit.entry)) }
{
    add_expression(bytes, culprit.expression)?;
    add(bytes, found(culprit.wanted))?;
    add_asker(bytes, culprit.asker)?;
    add(bytes, wants(culprit.wanted))
}
