//! Statements, evaluated up to the first fault (ANSI X3.9-1978, chapters 10 and 11).

ghost use Rattle.std.specs.Prelude.{◌≡◌, IfErr};
ghost use Rattle.fault_details.specs.Details.{IsStop};

use crate::detail::{Detail, Stop};
use crate::evaluation::{Scene, element_in, named_value, value_in, with_operands};
use crate::output::write;
use expressions::{Numbering, as_integer, as_logical};
use meaning::ending::{FaultKind, Value};
use meaning::syntax::{Expr, Exprs, Limits, Operator, Shape};

/// An expression of a statement.
pub(crate) fn evaluate<'a>(expression: &'a Expr, scene: &Scene<'a>) -> Result<(), Stop<'a>>
    ensures { IfErr result (IsStop scene.now.program.now) }
{
    match value_in(expression, scene) {
        Ok(_) => Ok(()),
        Err(stop) => Err(stop),
    }
}

// The target of an assignment, and then its value.
fn assign<'a>(
    name: &'a [u8],
    subscripts: &'a Exprs,
    value: &'a Expr,
    scene: &Scene<'a>,
) -> Result<(), Stop<'a>>
    ensures { IfErr result (IsStop scene.now.program.now) }
{
    if let Some(array) = scene.program.array(name) {
        let _old = element_in(name, array, subscripts, scene)?;
    }
    evaluate(value, scene)
}

// The step of a DO statement, which is 1 where none is written.
fn step_in<'a>(step: &'a Option<Expr>, scene: &Scene<'a>) -> Result<i32, Stop<'a>>
    ensures { IfErr result (IsStop scene.now.program.now) }
{
    match step {
        None => Ok(1),
        Some(step) => Ok(as_integer(value_in(step, scene)?)),
    }
}

// The sum of the variable of a DO statement and the step, which isn't zero.
fn advance<'a>(variable: &[u8], step: i32, scene: &Scene<'a>) -> Result<(), Stop<'a>>
    ensures { IfErr result (IsStop scene.now.program.now) }
{
    if step == 0 {
        return Err(Stop::Fault {
            kind: FaultKind::F5,
            detail: Detail::Step,
        });
    }
    let x = as_integer(named_value(variable, scene)?);
    match with_operands(Operator::Add, x, step, scene) {
        Ok(_) => Ok(()),
        Err(stop) => Err(stop),
    }
}

// The limits of a DO statement, and then the sum of its variable and the step.
fn repeat<'a>(variable: &[u8], limits: &'a Limits, scene: &Scene<'a>) -> Result<(), Stop<'a>>
    ensures { IfErr result (IsStop scene.now.program.now) }
{
    let Limits { first, last, step } = limits;
    evaluate(first, scene)?;
    evaluate(last, scene)?;
    let step = step_in(step, scene)?;
    advance(variable, step, scene)
}

// A statement that is no logical IF.
fn execute_simple<'a>(shape: &'a Shape, scene: &Scene<'a>) -> Result<(), Stop<'a>>
    ensures { IfErr result (IsStop scene.now.program.now) }
{
    match shape {
        Shape::Assignment {
            name,
            subscripts,
            value,
        } => assign(name, subscripts, value, scene),
        Shape::Write { control, list } => write(&control.format, list, scene),
        Shape::Print { format, list } => write(format, list, scene),
        Shape::Do {
            label: _,
            comma: _,
            variable,
            limits,
        } => repeat(variable, limits, scene),
        Shape::DoWhile {
            label: _,
            comma: _,
            condition,
        } => evaluate(condition, scene),
        Shape::ComputedGoTo {
            labels: _,
            comma: _,
            value,
        } => evaluate(value, scene),
        Shape::ArithmeticIf {
            value,
            negative: _,
            zero: _,
            positive: _,
        } => evaluate(value, scene),
        Shape::IfThen(condition) => evaluate(condition, scene),
        Shape::ElseIf(condition) => evaluate(condition, scene),
        _ => Ok(()),
    }
}

/// A statement up to its first fault; of a logical IF the condition, and where that is true its
/// statement.
pub(crate) fn execute<'a>(shape: &'a Shape, scene: &Scene<'a>) -> Result<(), Stop<'a>>
    ensures { IfErr result (IsStop scene.now.program.now) }
{
    match shape {
        Shape::LogicalIf(condition, statement) => {
            if as_logical(value_in(condition, scene)?) {
                execute_simple(statement, scene)
            } else {
                Ok(())
            }
        }
        _ => execute_simple(shape, scene),
    }
}
