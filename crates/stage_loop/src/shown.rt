//! The arrays that the range of a DO statement reads and never assigns: their cells may be exposed
//! in the views of its blocks from the start. A choice that is none of the best is seen in how long
//! a run takes, and nowhere else.

ghost use Rattle.std.specs.Prelude.{◌≤◌, length};

use crate::pace::{Pace, Size};
use block_stage::CellRun;
use expressions::Numbering;
use meaning::syntax::{Arm, Expr, Exprs, Limits, Loop, Member, Shape};
use program::Program;
use std::alloc::Global;

// The most arrays that are told apart.
const MOST_ARRAYS: usize = 64;

// The most cells between two arrays of a run.
const MOST_BETWEEN: usize = 4_096;

// An array of the range, and whether the range assigns elements of it.
#[derive(Clone, Copy)]
struct Array {
    cells: CellRun,
    is_assigned: bool,
}

// The arrays aren't known, since they are too many or memory was refused.
#[derive(Clone, Copy)]
struct Unknown;

/// No cells.
pub(crate) fn no_cells() -> CellRun {
    CellRun { from: 0, until: 0 }
}

// How many cells a run has.
fn count_of(run: CellRun) -> usize {
    run.until.saturating_sub(run.from)
}

// The place of the first of some arrays, in the order of their cells, that doesn't begin before a
// cell; how many they are where there is none.
fn place_of(arrays: &[Array], from: usize) -> usize
    ensures { result ≤ length arrays.now }
{
    for at in 0..arrays.len() {
        if arrays[at].cells.from >= from {
            return at;
        }
    }
    arrays.len()
}

// Notes an array at its place among others.
fn note(arrays: &mut Vec<Array>, cells: CellRun, is_assigned: bool) -> Result<(), Unknown> {
    let at = place_of(arrays, cells.from);
    if at < arrays.len() && arrays[at].cells.from == cells.from {
        arrays[at].is_assigned = arrays[at].is_assigned || is_assigned;
        return Ok(());
    }
    if arrays.len() >= MOST_ARRAYS {
        return Err(Unknown);
    }
    match arrays.insert(at, Array { cells, is_assigned }) {
        Ok(()) => Ok(()),
        Err(_) => Err(Unknown),
    }
}

// Notes the array of a name, if it is one's. A variable stands before all arrays, and so before
// each run.
fn note_named(
    arrays: &mut Vec<Array>,
    program: &Program,
    name: &[u8],
    is_assigned: bool,
) -> Result<(), Unknown> {
    let place = program.unit().find(name);
    if place.dimensions().is_empty() {
        return Ok(());
    }
    match place.first() {
        Some(from) => {
            let until = from.saturating_add(place.size());
            note(arrays, CellRun { from, until }, is_assigned)
        }
        None => Ok(()),
    }
}

// Notes the arrays of an expression.
#[cycle(reading)]
fn note_read(arrays: &mut Vec<Array>, program: &Program, expression: &Expr) -> Result<(), Unknown> {
    match expression {
        Expr::Number(_) => Ok(()),
        Expr::Truth(_) => Ok(()),
        Expr::Name(_) => Ok(()),
        Expr::Signed(_, operand) => note_read(arrays, program, operand),
        Expr::Not(operand) => note_read(arrays, program, operand),
        Expr::Paren(operand) => note_read(arrays, program, operand),
        Expr::Binary(_, left, right) => {
            note_read(arrays, program, left)?;
            note_read(arrays, program, right)
        }
        Expr::Element(name, subscripts) => {
            note_named(arrays, program, name, false)?;
            note_all_read(arrays, program, subscripts)
        }
        Expr::Call(_) => Ok(()),
    }
}

// Notes those of some expressions.
#[cycle(reading)]
fn note_all_read(
    arrays: &mut Vec<Array>,
    program: &Program,
    expressions: &Exprs,
) -> Result<(), Unknown> {
    match expressions {
        Exprs::Empty => Ok(()),
        Exprs::More(first, rest) => {
            note_read(arrays, program, first)?;
            note_all_read(arrays, program, rest)
        }
    }
}

// Notes those of the limits of a DO statement.
fn note_limits(arrays: &mut Vec<Array>, program: &Program, limits: &Limits) -> Result<(), Unknown> {
    note_read(arrays, program, &limits.first)?;
    note_read(arrays, program, &limits.last)?;
    match &limits.step {
        Some(step) => note_read(arrays, program, step),
        None => Ok(()),
    }
}

// Notes those of a statement that is no logical IF.
fn note_simple(arrays: &mut Vec<Array>, program: &Program, shape: &Shape) -> Result<(), Unknown> {
    match shape {
        Shape::Assignment {
            name,
            subscripts,
            value,
        } => {
            note_named(arrays, program, name, true)?;
            note_all_read(arrays, program, subscripts)?;
            note_read(arrays, program, value)
        }
        Shape::Do {
            label: _,
            comma: _,
            variable: _,
            limits,
        } => note_limits(arrays, program, limits),
        Shape::DoWhile {
            label: _,
            comma: _,
            condition,
        } => note_read(arrays, program, condition),
        Shape::IfThen(condition) => note_read(arrays, program, condition),
        Shape::ElseIf(condition) => note_read(arrays, program, condition),
        Shape::ComputedGoTo {
            labels: _,
            comma: _,
            value,
        } => note_read(arrays, program, value),
        Shape::ArithmeticIf {
            value,
            negative: _,
            zero: _,
            positive: _,
        } => note_read(arrays, program, value),
        _ => Ok(()),
    }
}

// Notes those of any statement.
fn note_statement(
    arrays: &mut Vec<Array>,
    program: &Program,
    shape: &Shape,
) -> Result<(), Unknown> {
    match shape {
        Shape::LogicalIf(condition, statement) => {
            note_read(arrays, program, condition)?;
            note_simple(arrays, program, statement)
        }
        _ => note_simple(arrays, program, shape),
    }
}

// Notes those of a member of a list.
#[cycle(noting)]
fn note_member(arrays: &mut Vec<Array>, program: &Program, member: &Member) -> Result<(), Unknown> {
    match member {
        Member::Plain(item) => note_statement(arrays, program, &item.form.shape),
        Member::Loop(repeated) => {
            note_statement(arrays, program, &repeated.head.form.shape)?;
            note_members(arrays, program, &repeated.range)
        }
        Member::Block(block) => note_arms(arrays, program, &block.arms),
    }
}

// Notes those of a list.
#[cycle(noting)]
fn note_members(
    arrays: &mut Vec<Array>,
    program: &Program,
    members: &[Member],
) -> Result<(), Unknown> {
    for member in members {
        note_member(arrays, program, member)?;
    }
    Ok(())
}

// Notes those of the arms of a block IF.
#[cycle(noting)]
fn note_arms(arrays: &mut Vec<Array>, program: &Program, arms: &[Arm]) -> Result<(), Unknown> {
    for arm in arms {
        note_statement(arrays, program, &arm.head.form.shape)?;
        note_members(arrays, program, &arm.body)?;
    }
    Ok(())
}

// A run with the next array that isn't assigned, or that array alone where it is far behind.
fn run_with(run: CellRun, next: CellRun) -> CellRun {
    if count_of(run) == 0 || next.from > run.until.saturating_add(MOST_BETWEEN) {
        return next;
    }
    CellRun {
        from: run.from,
        until: run.until.max(next.until),
    }
}

// The longest run of arrays none of which is assigned.
fn longest_run(arrays: &[Array]) -> CellRun {
    let mut run = no_cells();
    let mut longest = no_cells();
    for array in arrays {
        if array.is_assigned {
            run = no_cells();
        } else {
            run = run_with(run, array.cells);
        }
        if count_of(run) > count_of(longest) {
            longest = run;
        }
    }
    longest
}

/// The longest run of cells of arrays that the range of a DO statement reads, among which it
/// assigns none; no cells where memory was refused, or the arrays are too many.
pub(crate) fn shown_in(alloc: Global, program: &Program, repeated: &Loop) -> CellRun {
    let mut arrays = Vec::new(alloc);
    match note_members(&mut arrays, program, &repeated.range) {
        Ok(()) => longest_run(&arrays),
        Err(_) => no_cells(),
    }
}

/// The run, or no cells where to expose it would take much of a block's time: its mask words are
/// more than an eighth of the turns that a block is likely to use.
pub(crate) fn worth_showing(run: CellRun, pace: Pace, size: Size) -> CellRun {
    let words = count_of(run) as u64 / 64;
    if words > pace.turns_of(size.trips) / 8 {
        return no_cells();
    }
    run
}
