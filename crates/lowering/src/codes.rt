//! Codes of the expressions and the limits in a program's statements (ANSI X3.9-1978, 6.1, 10.1 and
//! 15.4).

ghost use Rattle.std.specs.Prelude.{◌≡◌, ◌≢◌, Err, IfOk, Ok, [], option_map};
ghost use Rattle.std.specs.List.{AllByRecursion};
ghost use Rattle.meaning.specs.Syntax.{expr_tree, limits_tree};
ghost use Rattle.meaning.specs.Typing.{option_list};
ghost use Rattle.storage.specs.Checked.{numbers_in};
ghost use Rattle.code_laws.specs.declared.no_code.NoCode.TheVariants.{Unruly};
ghost use Rattle.compiler.specs.Ruly.{IsRuly};
ghost use Rattle.program.specs.Codes.{AreLimits, IsCell, IsCode, IsCodeIf, setting_in};
ghost use Rattle.rule_laws.specs.Evaluated.{in_limits};
ghost use Rattle.rule_laws.specs.References.{HasCell};
ghost use Rattle.ruly_laws.specs.Statements.{IsLoopCodable};

use code_laws::NoCode;
use compiler::{Frame, Scene, code_of, is_logical};
use expressions::Numbering;
use meaning::syntax::{Expr, Exprs, Limits};
use postfix::Code;
use program::Repeat;
use std::alloc::{AllocError, Global};
use storage::CheckedProgram;

/// A code, unless a growth was refused.
pub(crate) fn made(code: Result<Code, NoCode>) -> Result<Code, AllocError>
    requires { code ≢ Err Unruly }
    ensures { IfOk result (λ c. code ≡ Ok c) }
{
    match code {
        Ok(code) => Ok(code),
        Err(NoCode::Memory) => Err(AllocError),
        Err(NoCode::Unruly) => unreachable!(),
    }
}

/// The code of an expression in a statement.
pub(crate) fn code_in(
    alloc: Global,
    expression: &Expr,
    program: &CheckedProgram,
) -> Result<Code, AllocError>
    requires { IsRuly (setting_in program.now) (expr_tree expression.now) }
    ensures { IfOk result (IsCode program.now (expr_tree expression.now)) }
{
    let callable = program.functions();
    let frame = Frame {
        dummies: &Exprs::Empty,
        kinds: &[],
        callable,
    };
    let scene = Scene {
        dummies: &Exprs::Empty,
        callable,
        cells: program.starts().len(),
    };
    let logical = is_logical(expression, frame, program);
    made(code_of(alloc, expression, logical, scene, program))
}

/// The code of an expression that may be missing.
pub(crate) fn code_if(
    alloc: Global,
    expression: &Option<Expr>,
    program: &CheckedProgram,
) -> Result<Option<Code>, AllocError>
    requires { AllByRecursion (IsRuly (setting_in program.now))
        (option_list (option_map expr_tree expression.now)) }
    ensures { IfOk result (IsCodeIf program.now (option_map expr_tree expression.now)) }
{
    match expression {
        Some(expression) => match code_in(alloc, expression, program) {
            Ok(code) => Ok(Some(code)),
            Err(AllocError) => Err(AllocError),
        },
        None => Ok(None),
    }
}

/// The cell of a variable.
pub(crate) fn cell_of(name: &[u8], program: &CheckedProgram) -> usize
    requires { HasCell (numbers_in program.now) name.now [] }
    ensures { IsCell program.now name.now result }
{
    match program.find(name).cell() {
        Some(cell) => cell.0,
        None => unreachable!(),
    }
}

// The codes of limits, with the cell of the variable.
fn limits_in(
    alloc: Global,
    variable: usize,
    limits: &Limits,
    program: &CheckedProgram,
) -> Result<Repeat, AllocError>
    requires { AllByRecursion (IsRuly (setting_in program.now))
        (in_limits (limits_tree limits.now)) }
    ensures limits { IfOk result (AreLimits program.now (limits_tree limits.now)) }
    ensures variable { IfOk result (λ r. r.variable ≡ variable) }
{
    let first = code_in(alloc, &limits.first, program)?;
    match code_in(alloc, &limits.last, program) {
        Ok(last) => match code_if(alloc, &limits.step, program) {
            Ok(step) => Ok(Repeat {
                variable,
                first,
                last,
                step,
            }),
            Err(AllocError) => {
                drop(first);
                drop(last);
                Err(AllocError)
            }
        },
        Err(AllocError) => {
            drop(first);
            Err(AllocError)
        }
    }
}

/// The cell of a DO variable, and the codes of its limits.
pub(crate) fn repeat_in(
    alloc: Global,
    variable: &[u8],
    limits: &Limits,
    program: &CheckedProgram,
) -> Result<Repeat, AllocError>
    requires { IsLoopCodable (setting_in program.now) variable.now (limits_tree limits.now) }
    ensures variable { IfOk result (λ r. IsCell program.now variable.now r.variable) }
    ensures limits { IfOk result (AreLimits program.now (limits_tree limits.now)) }
{
    let cell = cell_of(variable, program);
    limits_in(alloc, cell, limits, program)
}
