//! What a WRITE or PRINT statement leaves that faults: what was changed before the fault stays. The
//! values are worked by hand.

ghost use Rattle.std.specs.Prelude.{IfSome};
ghost use Rattle.meaning.specs.Trees.{item_tree};
ghost use Rattle.program.specs.Programs.{IsStatement};

use crate::kept::program_of;
use array_store::Whole;
use evaluator::body_members;
use executor::Out;
use meaning::ending::{FaultKind, Outcome};
use meaning::syntax::{Item, Member};
use program::Program;
use program_runs::execute_item;
use std::alloc::Global;
use std::process::Abort;
use std::test::*;

/// A statement, the fault that it meets with nine turns, and the cells then, in the order in which
/// their variables appear in it; they begin as 0.
struct Row {
    text: &'static [u8],
    kind: FaultKind,
    cells: &'static [i32],
}

const ROWS: &[Row] = &[
    // One item too many: the implied DO is one, and so is each value.
    Row {
        text: b"PRINT'(I9)',(I,I=1,65536)",
        kind: FaultKind::F8,
        cells: &[65_536],
    },
    // The addition behind the last trip.
    Row {
        text: b"PRINT'(I11)',(I,I=2147483646,2147483647)",
        kind: FaultKind::F2,
        cells: &[2_147_483_647],
    },
    // A value in the third trip.
    Row {
        text: b"PRINT'(I9)',(I,6/(3-I),I=1,5)",
        kind: FaultKind::F1,
        cells: &[3],
    },
    // A value in the second trip of the outer implied DO.
    Row {
        text: b"PRINT'(I9)',(J,(6/(2-J),I=1,3),J=1,2)",
        kind: FaultKind::F1,
        cells: &[2, 1],
    },
    // The limits of one behind another one.
    Row {
        text: b"PRINT'(I9)',(I,I=1,4),(J,J=1,2,0)",
        kind: FaultKind::F5,
        cells: &[5, 0],
    },
    // The records of values that were found.
    Row {
        text: b"PRINT'(L2)',(I,I=1,3)",
        kind: FaultKind::F7,
        cells: &[4],
    },
];

// The first statement of a program's body, where it stands by itself.
fn first_statement(program: &Program) -> Option<&Item>
    ensures { IfSome result (λ x. IsStatement program.now (item_tree x.now)) }
{
    if program.tree().body.is_empty() {
        return None;
    }
    match body_members(program, 0, 1).first() {
        Some(Member::Plain(item)) => Some(item),
        _ => None,
    }
}

// Executes the statement of a row.
fn check_row<R: Abort>(rt: &R, alloc: Global, row: &Row) {
    let program = program_of(rt, alloc, &[row.text]);
    let item = first_statement(&program).expect(rt, "a statement");
    let mut cells = Whole::new(alloc, program.starts()).expect(rt, "memory");
    let mut sink = Out::new(Vec::new(alloc));
    let mut turns = 9;
    let outcome = execute_item(alloc, &program, item, &mut cells, &mut turns, &mut sink);
    match outcome {
        Ok(Outcome::Fault(fault)) => assert!(rt; fault.kind == row.kind && fault.line == 1),
        _ => panic!(rt; "no fault"),
    }
    assert!(rt; turns == 8);
    assert!(rt; cells.cells() == row.cells, "{:?}", cells.cells());
    assert!(rt; sink.into_inner().is_empty());
    drop(program);
}

#[test]
fn changes_before_a_fault(rt: HostRuntime) {
    for row in ROWS {
        check_row(&rt, rt.alloc(), row);
    }
}
