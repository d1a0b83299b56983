//! Consecutive members of a program's body, executed as a list by themselves. The figures are
//! worked by hand.

use array_store::Whole;
use evaluator::{body_members, run_list};
use in_order::program_in;
use label_targets::is_quiet_list;
use meaning::ending::Outcome;
use program::Program;
use std::alloc::Global;
use std::process::Abort;
use std::test::*;

/// Its body has at places 0 to 5 the statements of the first six lines, at 6 and 7 the block IFs.
/// I's cell is 0, J's 1, K's 2; they start as 0.
const SOURCE: &str =
    "      I=1\n      GO TO 30\n   10 I=I+1\n      IF (I.LT.4) GO TO 10\n   20 J=I\n      GO TO 10\n   30 IF (K.LT.2) THEN\n      K=K+1\n      GO TO 30\n      END IF\n      IF (K.EQ.0) THEN\n      GO TO 40\n   40 END IF\n      END\n";

/// From which place up to which members are executed, how that ends, after how many turns, and the
/// cells then.
struct Row {
    from: usize,
    to: usize,
    outcome: Outcome,
    turns: u64,
    cells: &'static [i32],
}

const ROWS: &[Row] = &[
    // The first of them has the label 10, to which three transfers go.
    Row {
        from: 2,
        to: 5,
        outcome: Outcome::Normal,
        turns: 12,
        cells: &[4, 4, 0],
    },
    // The label 10 is before them in the list, 30 behind them.
    Row {
        from: 3,
        to: 6,
        outcome: Outcome::Left(10),
        turns: 2,
        cells: &[0, 0, 0],
    },
    Row {
        from: 0,
        to: 6,
        outcome: Outcome::Left(30),
        turns: 2,
        cells: &[1, 0, 0],
    },
    // One alone, with a label of its own or without, which ends or transfers.
    Row {
        from: 2,
        to: 3,
        outcome: Outcome::Normal,
        turns: 1,
        cells: &[1, 0, 0],
    },
    Row {
        from: 3,
        to: 4,
        outcome: Outcome::Left(10),
        turns: 2,
        cells: &[0, 0, 0],
    },
    // A block IF alone, from whose arm transfers go to its label, and one whose END IF has the
    // label.
    Row {
        from: 6,
        to: 7,
        outcome: Outcome::Normal,
        turns: 7,
        cells: &[0, 0, 2],
    },
    Row {
        from: 7,
        to: 8,
        outcome: Outcome::Normal,
        turns: 2,
        cells: &[0, 0, 0],
    },
    // Both, and neither.
    Row {
        from: 6,
        to: 8,
        outcome: Outcome::Normal,
        turns: 8,
        cells: &[0, 0, 2],
    },
    Row {
        from: 7,
        to: 7,
        outcome: Outcome::Normal,
        turns: 0,
        cells: &[0, 0, 0],
    },
];

// Executes members over the cells that the program starts with.
fn check_row<R: Abort>(rt: &R, alloc: Global, program: &Program, row: &Row) {
    assert!(rt; row.from <= row.to);
    assert!(rt; row.to <= program.tree().body.len());
    let members = body_members(program, row.from, row.to);
    assert!(rt; is_quiet_list(members));
    let mut cells = Whole::new(alloc, program.starts()).expect(rt, "memory");
    let run = run_list(program, members, &mut cells, 100).expect(rt, "a run");
    assert!(rt; run.outcome == row.outcome, "{run:?}");
    assert!(rt; run.turns_used == row.turns, "{run:?}");
    assert!(rt; cells.cells() == row.cells);
}

#[test]
fn members_by_themselves(rt: HostRuntime) {
    let program = program_in(rt.alloc(), SOURCE.as_bytes()).expect(&rt, "a program");
    for row in ROWS {
        check_row(&rt, rt.alloc(), &program, row);
    }
    drop(program);
}
