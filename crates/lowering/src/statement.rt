//! What single statements need (ANSI X3.9-1978, 10.1, chapter 11 and 12.8).

ghost use Rattle.std.specs.Prelude.{◌≡◌, ℕ, Bool, IsTrue, List, Option, IfOk, Some, map};
ghost use Rattle.meaning.specs.declared.syntax.Tree.{Tree};
ghost use Rattle.meaning.specs.Characters.{number_of};
ghost use Rattle.meaning.specs.Syntax.{arithmetic_if, assignment, doing, going, expr_tree};
ghost use Rattle.meaning.specs.Syntax.{exprs_tree, limits_tree, list_items_tree, logical_if};
ghost use Rattle.meaning.specs.Syntax.{shape_tree, computed_going};
ghost use Rattle.std.specs.List.{AllByRecursion};
ghost use Rattle.compiler.specs.Ruly.{IsRuly, IsRulyPlace};
ghost use Rattle.storage.specs.Told.{IsArrayIn};
ghost use Rattle.program.specs.Acts.{Acts};
ghost use Rattle.lowering.specs.Parts.{AssignsTo, TestsBy, WhilesBy, WritesList, goes_or_passes};
ghost use Rattle.lowering.specs.Parts.{is_single};
ghost use Rattle.program.specs.Codes.{IsTarget, setting_in};
ghost use Rattle.ruly_laws.specs.Statements.{AreItemsCodable, IsCodable, IsLoopCodable};
ghost use Rattle.ruly_laws.specs.Statements.{IsSmallLabel};

use crate::codes::{cell_of, code_in, made, repeat_in};
use crate::items::list_code;
use crate::stopping::stop_action;
use compiler::{Scene, place_of};
use expressions::{Cells, Numbering};
use meaning::number::number;
use meaning::syntax::{Expr, Exprs, Limits, ListItems, Shape};
use program::{Action, Target};
use std::alloc::{AllocError, Global};
use storage::CheckedProgram;

// The label that digits spell.
fn target(digits: &[u8]) -> u32
    requires { IsSmallLabel digits.now }
    ensures { number_of digits.now ≡ result }
{
    number(digits) as u32
}

// The labels that digits spell, first to last.
fn targets(alloc: Global, labels: &[Vec<u8>]) -> Result<Vec<u32>, AllocError>
    requires { AllByRecursion IsSmallLabel (map (λ l. l.items) labels.now) }
    ensures { IfOk result (λ found. map number_of (map (λ l. l.items) labels.now) ≡ found.items) }
{
    let mut found = Vec::new(alloc);
    for label in labels {
        found.push(target(label))?;
    }
    Ok(found)
}

// The code of an element's place.
fn element_in(
    alloc: Global,
    name: &[u8],
    cells: Cells<'_>,
    subscripts: &Exprs,
    program: &CheckedProgram,
) -> Result<Target, AllocError>
    requires array { IsArrayIn program.now name.now (Some cells) }
    requires codable { IsRulyPlace (setting_in program.now) name.now (exprs_tree subscripts.now) }
    ensures { IfOk result (IsTarget program.now name.now (exprs_tree subscripts.now)) }
{
    let scene = Scene {
        dummies: &Exprs::Empty,
        callable: program.functions(),
        cells: program.starts().len(),
    };
    let code = place_of(alloc, name, cells.place, subscripts, scene, program);
    Ok(Target::Element(made(code)?))
}

// An assignment to this place.
fn assigned(
    alloc: Global,
    target: Target,
    value: &Expr,
    program: &CheckedProgram,
) -> Result<Action, AllocError>
    requires { IsRuly (setting_in program.now) (expr_tree value.now) }
    ensures { IfOk result (λ a. AssignsTo program.now target (expr_tree value.now) a) }
{
    match code_in(alloc, value, program) {
        Ok(code) => Ok(Action::Assign(target, code)),
        Err(AllocError) => {
            drop(target);
            Err(AllocError)
        }
    }
}

// An assignment, or what defines a statement function.
fn assignment_action(
    alloc: Global,
    name: &[u8],
    subscripts: &Exprs,
    value: &Expr,
    program: &CheckedProgram,
) -> Result<Action, AllocError>
    requires { IsCodable (setting_in program.now)
        (assignment name.now (exprs_tree subscripts.now) (expr_tree value.now)) }
    ensures { IfOk result (λ a. Acts program.now a
        (assignment name.now (exprs_tree subscripts.now) (expr_tree value.now))) }
{
    match subscripts {
        Exprs::Empty => assigned(
            alloc,
            Target::Variable(cell_of(name, program)),
            value,
            program,
        ),
        Exprs::More(_, _) => match program.array(name) {
            Some(cells) => {
                let target = element_in(alloc, name, cells, subscripts, program)?;
                assigned(alloc, target, value, program)
            }
            None => Ok(Action::Pass),
        },
    }
}

// A computed GO TO.
fn computed_action(
    alloc: Global,
    labels: &[Vec<u8>],
    value: &Expr,
    program: &CheckedProgram,
) -> Result<Action, AllocError>
    requires labels { AllByRecursion IsSmallLabel (map (λ l. l.items) labels.now) }
    requires value { IsRuly (setting_in program.now) (expr_tree value.now) }
    ensures { (comma : Bool) → IfOk result (λ a. Acts program.now a
        (computed_going (map (λ l. l.items) labels.now) comma (expr_tree value.now))) }
{
    let found = targets(alloc, labels)?;
    match code_in(alloc, value, program) {
        Ok(code) => Ok(Action::ComputedGoTo(found, code)),
        Err(AllocError) => Err(AllocError),
    }
}

// An arithmetic IF.
fn arithmetic_action(
    alloc: Global,
    value: &Expr,
    negative: &[u8],
    zero: &[u8],
    positive: &[u8],
    program: &CheckedProgram,
) -> Result<Action, AllocError>
    requires { IsCodable (setting_in program.now)
        (arithmetic_if (expr_tree value.now) negative.now zero.now positive.now) }
    ensures { IfOk result (λ a. Acts program.now a
        (arithmetic_if (expr_tree value.now) negative.now zero.now positive.now)) }
{
    let below = target(negative);
    let at_zero = target(zero);
    let above = target(positive);
    match code_in(alloc, value, program) {
        Ok(code) => Ok(Action::ArithmeticIf(code, below, at_zero, above)),
        Err(AllocError) => Err(AllocError),
    }
}

// A condition of a block IF.
fn test_action(
    alloc: Global,
    condition: &Expr,
    program: &CheckedProgram,
) -> Result<Action, AllocError>
    requires { IsRuly (setting_in program.now) (expr_tree condition.now) }
    ensures { IfOk result (λ a. TestsBy program.now (expr_tree condition.now) a) }
{
    match code_in(alloc, condition, program) {
        Ok(code) => Ok(Action::Test(code)),
        Err(AllocError) => Err(AllocError),
    }
}

// A DO WHILE statement.
fn while_action(
    alloc: Global,
    condition: &Expr,
    program: &CheckedProgram,
) -> Result<Action, AllocError>
    requires { IsRuly (setting_in program.now) (expr_tree condition.now) }
    ensures { IfOk result (λ a. WhilesBy program.now (expr_tree condition.now) a) }
{
    match code_in(alloc, condition, program) {
        Ok(code) => Ok(Action::While(code)),
        Err(AllocError) => Err(AllocError),
    }
}

// A DO statement.
fn repeat_action(
    alloc: Global,
    variable: &[u8],
    limits: &Limits,
    program: &CheckedProgram,
) -> Result<Action, AllocError>
    requires { IsLoopCodable (setting_in program.now) variable.now (limits_tree limits.now) }
    ensures { (label : Option (List ℕ)) (comma : Bool) → IfOk result (λ a. Acts program.now a
        (doing label comma variable.now (limits_tree limits.now))) }
{
    match repeat_in(alloc, variable, limits, program) {
        Ok(repeat) => Ok(Action::Repeat(repeat)),
        Err(AllocError) => Err(AllocError),
    }
}

// A WRITE or PRINT statement with this list.
fn output_action(
    alloc: Global,
    list: &ListItems,
    program: &CheckedProgram,
) -> Result<Action, AllocError>
    requires { AreItemsCodable (setting_in program.now) (list_items_tree list.now) }
    ensures { IfOk result (λ a. WritesList program.now (list_items_tree list.now) a) }
{
    match list_code(alloc, list, program) {
        Ok(codes) => Ok(Action::Output(codes)),
        Err(AllocError) => Err(AllocError),
    }
}

// What a statement needs that goes to a label, or is passed over.
fn transfer_action(
    alloc: Global,
    shape: &Shape,
    program: &CheckedProgram,
) -> Result<Action, AllocError>
    requires kind { IsTrue (goes_or_passes (shape_tree shape.now)) }
    requires codable { IsCodable (setting_in program.now) (shape_tree shape.now) }
    ensures { IfOk result (λ a. Acts program.now a (shape_tree shape.now)) }
{
    match shape {
        Shape::GoTo(label) => Ok(Action::GoTo(target(label))),
        Shape::ComputedGoTo {
            labels,
            comma: _,
            value,
        } => computed_action(alloc, labels, value, program),
        Shape::ArithmeticIf {
            value,
            negative,
            zero,
            positive,
        } => arithmetic_action(alloc, value, negative, zero, positive, program),
        _ => Ok(Action::Pass),
    }
}

// What a statement needs that is no logical IF.
fn simple_action(
    alloc: Global,
    shape: &Shape,
    program: &CheckedProgram,
) -> Result<Action, AllocError>
    requires kind { IsTrue (is_single (shape_tree shape.now)) }
    requires codable { IsCodable (setting_in program.now) (shape_tree shape.now) }
    ensures { IfOk result (λ a. Acts program.now a (shape_tree shape.now)) }
{
    match shape {
        Shape::Assignment {
            name,
            subscripts,
            value,
        } => assignment_action(alloc, name, subscripts, value, program),
        Shape::Continue => Ok(Action::Continue),
        Shape::EndDo => Ok(Action::Continue),
        Shape::DoWhile { condition, .. } => while_action(alloc, condition, program),
        Shape::Stop(text) => stop_action(alloc, text),
        Shape::Write { control: _, list } => output_action(alloc, list, program),
        Shape::Print { format: _, list } => output_action(alloc, list, program),
        Shape::IfThen(condition) => test_action(alloc, condition, program),
        Shape::ElseIf(condition) => test_action(alloc, condition, program),
        Shape::Do {
            label: _,
            comma: _,
            variable,
            limits,
        } => repeat_action(alloc, variable, limits, program),
        _ => transfer_action(alloc, shape, program),
    }
}

// What a logical IF needs.
fn conditional_action(
    alloc: Global,
    condition: &Expr,
    statement: &Shape,
    program: &CheckedProgram,
) -> Result<Action, AllocError>
    requires { IsCodable (setting_in program.now)
        (logical_if (expr_tree condition.now) (shape_tree statement.now)) }
    ensures { IfOk result (λ a. Acts program.now a
        (logical_if (expr_tree condition.now) (shape_tree statement.now))) }
{
    let code = code_in(alloc, condition, program)?;
    match simple_action(alloc, statement, program) {
        Ok(action) => Ok(Action::If(code, Box::new(alloc, action)?)),
        Err(AllocError) => {
            drop(code);
            Err(AllocError)
        }
    }
}

/// What a statement needs.
pub(crate) fn action_of(
    alloc: Global,
    shape: &Shape,
    program: &CheckedProgram,
) -> Result<Action, AllocError>
    requires { IsCodable (setting_in program.now) (shape_tree shape.now) }
    ensures { IfOk result (λ a. Acts program.now a (shape_tree shape.now)) }
{
    match shape {
        Shape::LogicalIf(condition, statement) => {
            conditional_action(alloc, condition, statement, program)
        }
        _ => simple_action(alloc, shape, program),
    }
}
