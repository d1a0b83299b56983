//! What is told of loops by stages. The figures are worked by hand.

use crate::outcomes::MANY;
use crate::stages::Counting;
use block_stage::{Cause, Open, StageStats};
use do_statements::{DoStatement, Standing};
use executor::run::{run_adaptive, run_watched};
use executor::{Observer, Out};
use loop_reports::{Loops, note_reached, note_staged, told_loops};
use meaning::ending::Ending;
use meaning::plan::Plan;
use std::alloc::Global;
use std::cell::Cell;
use std::collections::BTreeMap;
use std::process::Abort;
use std::sync::Wait;
use std::test::*;
use std::thread::Threads;

/// A program, the line of its DO statement, how many trips a block has, how many blocks enter the
/// gate, and what is told.
struct Row {
    source: &'static str,
    line: u32,
    block: u64,
    entered: u64,
    told: &'static str,
}

const ROWS: &[Row] = &[
    // No trip.
    Row {
        source: "      DO 10 I=5,1\n   10 J=1\n      END\n",
        line: 1,
        block: 2,
        entered: 0,
        told: "  LOOP 1 UNTRIED REACHED 1 TRIPS 0\n  SPECULATION TURNS 0 SPENT 0 LONGEST 0 OF 1\n",
    },
    // Two blocks of 120,000 turns.
    Row {
        source: "      DO 10 I=1,120000\n      J=I\n   10 CONTINUE\n      END\n",
        line: 1,
        block: 60_000,
        entered: 2,
        told: "  LOOP 1 SPECULATED REACHED 1 TRIPS 120000 INORDER 0 STAGES 1 BLOCKS 2 COMMITTED 2 DROPPED 0 LOST 0 DEPENDENCE 0 EXIT 0 LIMIT 0 TURNS 240000 SPENT 240000\n  SPECULATION TURNS 240000 SPENT 240000 LONGEST 120000 OF 240001\n",
    },
    // Two blocks, each of which writes 70,000 cells.
    Row {
        source: "      INTEGER A(140000)\n      DO 10 I=1,140000\n   10 A(I)=I\n      END\n",
        line: 2,
        block: 70_000,
        entered: 2,
        told: "  LOOP 2 SPECULATED REACHED 1 TRIPS 140000 INORDER 0 STAGES 1 BLOCKS 2 COMMITTED 2 DROPPED 0 LOST 0 DEPENDENCE 0 EXIT 0 LIMIT 0 TURNS 140000 SPENT 140000\n  SPECULATION TURNS 140000 SPENT 140000 LONGEST 70000 OF 140001\n",
    },
];

/// The DO statement of a line, a loop by stages.
fn at_line(line: u32) -> DoStatement {
    DoStatement {
        line,
        standing: Standing::Apart,
    }
}

/// Runs a program, and compares what is told of its loop.
fn check_row<R: Abort + Threads + Wait + Sync>(rt: &R, alloc: Global, row: &Row) {
    let plan = Plan::new(4, row.block, 8, MANY).expect(rt, "a plan");
    let gate = Counting::new();
    let loops = Loops::new(alloc, true);
    let mut sink = Out::new(Vec::new(alloc));
    let source = row.source.as_bytes();
    let report = run_watched(rt, alloc, source, &plan, &mut sink, &gate, &loops);
    let written = sink.into_inner();
    assert!(rt; report.ending == Ending::Ended && written.is_empty());
    assert!(rt; gate.entered() == row.entered, "{}", row.source);
    let rows = loops.into_rows().expect(rt, "memory");
    let statements = [at_line(row.line)];
    let told = told_loops(alloc, &[], &statements, &rows, false, report.turns).expect(rt, "memory");
    assert!(rt; told.as_slice() == row.told.as_bytes(), "{}", row.source);
}

#[test]
fn loops_told(rt: HostRuntime) {
    for row in ROWS {
        check_row(&rt, rt.alloc(), row);
    }
}

/// A stage of four blocks of two trips whose first block was lost.
const FIRST_LOST: StageStats = StageStats {
    trips: 8,
    size: 2,
    blocks: 4,
    run: 3,
    cut: 0,
    turns: 0,
    spent: 6,
    longest: 2,
    cause: Cause::Loss,
};

/// One of the three other blocks, behind the first one, which was run in order.
const OTHERS: StageStats = StageStats {
    trips: 6,
    size: 2,
    blocks: 3,
    run: 3,
    cut: 3,
    turns: 6,
    spent: 6,
    longest: 2,
    cause: Cause::Whole,
};

const LOST: &str =
    "  LOOP 2 SPECULATED REACHED 1 TRIPS 8 INORDER 0 STAGES 2 BLOCKS 7 COMMITTED 3 DROPPED 3 LOST 1 DEPENDENCE 0 EXIT 0 LIMIT 0 TURNS 6 SPENT 12\n    ADVICE blocks have too few turns for a thread: take a larger --block, or leave --speculate out\n  SPECULATION TURNS 6 SPENT 12 LONGEST 4 OF 9\n";

#[test]
fn lost_block_told(rt: HostRuntime) -> Result<(), Fail> {
    let mut rows = BTreeMap::new(rt.alloc());
    note_reached(&mut rows, rt.alloc(), 2, 8)?;
    note_staged(&mut rows, rt.alloc(), 2, 0, &FIRST_LOST)?;
    note_staged(&mut rows, rt.alloc(), 2, 2, &OTHERS)?;
    let told = told_loops(rt.alloc(), &[], &[at_line(2)], &rows, false, Some(9))?;
    assert!(rt; told.as_slice() == LOST.as_bytes());
    Ok(())
}

/// A hundred independent trips of 5,002 turns each: by themselves one in order, and four stages.
const HEAVY: &str =
    "      INTEGER A(100)\n      DO 10 I=1,100\n      DO 20 J=1,5000\n   20 CONTINUE\n   10 A(I)=I\n      END\n";

/// Who tells how many processors are idle, and counts how often that is asked, the trips of line 2
/// in order, and the stages.
#[derive(Drop)]
struct Neighbours {
    idle: Option<u32>,
    asked: Cell<u64>,
    passed: Cell<u64>,
    stages: Cell<u64>,
}

impl Observer for Neighbours {
    fn reached(&self, _line: u32, _trips: u64) {}

    fn passed(&self, line: u32, trips: u64) {
        if line == 2 {
            self.passed.set(self.passed.get().saturating_add(trips));
        }
    }

    fn staged(&self, _line: u32, _done: u64, _told: &StageStats) {
        self.stages.set(self.stages.get().saturating_add(1));
    }

    fn idle(&self) -> Option<u32> {
        self.asked.set(self.asked.get().saturating_add(1));
        self.idle
    }
}

/// Runs the program where so many processors are idle, or that isn't known, and looks at the trips
/// in order and the stages.
fn check_idle<R: Abort + Threads + Wait + Sync>(
    rt: &R,
    alloc: Global,
    idle: Option<u32>,
    passed: u64,
    stages: u64,
) {
    let plan = Plan::new(4, 2, 8, MANY).expect(rt, "a plan");
    let neighbours = Neighbours {
        idle,
        asked: Cell::new(0),
        passed: Cell::new(0),
        stages: Cell::new(0),
    };
    let mut sink = Out::new(Vec::new(alloc));
    let source = HEAVY.as_bytes();
    let report = run_adaptive(rt, alloc, source, &plan, &mut sink, &Open, &neighbours);
    assert!(rt; sink.into_inner().is_empty());
    assert!(rt; report.ending == Ending::Ended && report.turns == Some(500_201));
    assert!(rt; neighbours.passed.get() == passed, "{idle:?}");
    assert!(rt; neighbours.stages.get() == stages, "{idle:?}");
    assert!(rt; neighbours.asked.get() > 1, "{idle:?}");
}

#[test]
fn stages_where_threads_can_help(rt: HostRuntime) {
    check_idle(&rt, rt.alloc(), None, 1, 4);
    check_idle(&rt, rt.alloc(), Some(1), 1, 4);
    check_idle(&rt, rt.alloc(), Some(0), 100, 0);
}
