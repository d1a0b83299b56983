//! The statement that faulted, and what its fault was about.

ghost use Rattle.std.specs.Prelude.{◌≡◌, IfSome};
ghost use Rattle.fault_details.specs.Details.{IsDetail, IsStop};

use crate::detail::{Detail, Stop};
use crate::evaluation::Scene;
use crate::given::Given;
use crate::statement::execute;
use crate::steady::are_limits_steady;
use expressions::Numbering;
use meaning::ending::{Fault, FaultKind};
use meaning::syntax::{Arm, Item, Loop, Member, Shape};
use storage::CheckedProgram;

// A statement: the DO statement or DO WHILE of a range, or another one.
enum Found<'a> {
    Head(&'a Loop),
    Other(&'a Shape),
}

// A statement that is no DO statement, if it begins at a line.
fn other_at(item: &Item, line: u32) -> Option<Found<'_>> {
    if item.line == line {
        Some(Found::Other(&item.form.shape))
    } else {
        None
    }
}

// The statement of a member that begins at a line.
#[cycle(finding)]
fn found_in(member: &Member, line: u32) -> Option<Found<'_>> {
    match member {
        Member::Plain(item) => other_at(item, line),
        Member::Loop(repeated) => {
            if repeated.head.line == line {
                Some(Found::Head(repeated))
            } else {
                found_among(&repeated.range, line)
            }
        }
        Member::Block(block) => found_in_arms(&block.arms, line),
    }
}

// The statement of a list that begins at a line.
#[cycle(finding)]
fn found_among(members: &[Member], line: u32) -> Option<Found<'_>> {
    for member in members {
        if let Some(found) = found_in(member, line) {
            return Some(found);
        }
    }
    None
}

// The statement of arms that begins at a line.
#[cycle(finding)]
fn found_in_arms(arms: &[Arm], line: u32) -> Option<Found<'_>> {
    for arm in arms {
        if let Some(found) = other_at(&arm.head, line) {
            return Some(found);
        }
        if let Some(found) = found_among(&arm.body, line) {
            return Some(found);
        }
    }
    None
}

// What stopped an evaluation, if it was a fault of this kind.
fn of_kind<'a>(kind: FaultKind, stop: Stop<'a>, program: &CheckedProgram) -> Option<Detail<'a>>
    requires { IsStop program.now stop }
    ensures { IfSome result (IsDetail program.now kind) }
{
    match stop {
        Stop::Fault {
            kind: found,
            detail,
        } => { if found == kind { Some(detail) } else { None } }
        Stop::Unknown => None,
    }
}

// What a statement says, where evaluating it now meets the fault that it met. F2 may be that of the
// addition to a DO variable, when the range had set what the limits are made of.
fn shape_of<'a>(found: Found<'a>, kind: FaultKind, program: &CheckedProgram) -> Option<&'a Shape> {
    match found {
        Found::Head(repeated) => {
            if kind == FaultKind::F2 && !are_limits_steady(repeated, program) {
                return None;
            }
            Some(&repeated.head.form.shape)
        }
        Found::Other(shape) => Some(shape),
    }
}

/// What a fault of a program was about, by the values of the cells as it left them. None where that
/// can't be found by evaluating the statement once more: within a statement function or an implied
/// DO, where a value was changed since, or where the fault is none of an expression.
pub fn detail_of<'a>(
    program: &'a CheckedProgram,
    fault: Fault,
    cells: &'a [i32],
) -> Option<Detail<'a>>
    ensures { IfSome result (IsDetail program.now fault.kind) }
{
    let scene = Scene {
        program,
        cells,
        callable: program.functions(),
        dummies: None,
        arguments: Given::none(),
    };
    let found = found_among(&program.tree().body, fault.line)?;
    let shape = shape_of(found, fault.kind, program)?;
    match execute(shape, &scene) {
        Ok(()) => None,
        Err(stop) => of_kind(fault.kind, stop, program),
    }
}
