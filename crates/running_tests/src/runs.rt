//! Whole runs: in order, by `run` with one worker, and by plans of their own. The answers are
//! worked by hand.

use crate::outcomes::{MANY, stopped_with};
use executor::run::{run, run_in_order};
use executor::{Open, Out};
use meaning::ending::{Ending, Fault, FaultKind, Report};
use meaning::plan::Plan;
use meaning::refusal::Rule;
use std::alloc::Global;
use std::process::Abort;
use std::sync::Wait;
use std::thread::Threads;

/// How a source ends.
#[derive(Clone, Copy)]
enum Finish {
    Ends,
    /// At a STOP statement that tells this.
    Stops(&'static str),
    Faults(FaultKind, u32),
    Breaks(Rule, u32),
}

use Finish::{Breaks, Ends, Faults, Stops};

/// A source, what it writes, how it ends, and its turns, of which none are told where it is
/// refused.
#[derive(Clone, Copy)]
struct Row {
    source: &'static str,
    records: &'static str,
    finish: Finish,
    turns: Option<u64>,
}

/// The DO statement takes a turn, the first two trips three each, and the third one that of its
/// logical IF and that of the division.
const TWO_FAULTS: Row = Row {
    source: "      INTEGER Z\n      DO 10 I=1,8\n      IF (I.EQ.3) J=1/Z\n      IF (I.EQ.6) K=1/Z\n   10 CONTINUE\n      END\n",
    records: "",
    finish: Faults(FaultKind::F1, 3),
    turns: Some(9),
};

/// The DO statement takes a turn, the first trip and the last one four each, seven trips three
/// each, and the WRITE statement one.
const DIVIDED: Row = Row {
    source: "      INTEGER D,A(9)\n      DO 10 I=1,9\n      IF (I.EQ.1) D=2\n      IF (I.EQ.9) A(9)=8/D\n   10 CONTINUE\n      WRITE (6,20) A(9),D\n   20 FORMAT (2I3)\n      END\n",
    records: "  4  2\n",
    finish: Ends,
    turns: Some(31),
};

const ROWS: &[Row] = &[
    Row {
        source: "      WRITE (6,10) 42\n   10 FORMAT (1X,I5)\n      END\n",
        records: "    42\n",
        finish: Ends,
        turns: Some(1),
    },
    Row {
        source: "      WRITE (6,10) 1,2,3,4,5,6\n   10 FORMAT (I2,2(I3))\n      END\n",
        records: " 1  2  3\n  4  5\n  6\n",
        finish: Ends,
        turns: Some(1),
    },
    // The DO statement, eight trips and the WRITE statement.
    Row {
        source: "      INTEGER A(8),K(8)\n      DATA K/3,1,4,8,5,2,7,6/\n      DO 10 I=1,8\n   10 A(K(I))=I\n      WRITE (6,20) A\n   20 FORMAT (8I3)\n      END\n",
        records: "  2  6  1  3  5  8  7  4\n",
        finish: Ends,
        turns: Some(10),
    },
    TWO_FAULTS,
    // The statement that faults takes its turn.
    Row {
        source: "      INTEGER A(-1:1)\n      A(0)=5\n      I=A(2)\n      END\n",
        records: "",
        finish: Faults(FaultKind::F3, 3),
        turns: Some(2),
    },
    // The computed GO TO, the WRITE statement, the arithmetic IF and the STOP statement.
    Row {
        source: "      GO TO (30,40),3\n      WRITE (6,10)\n   10 FORMAT ('NEXT')\n   30 IF (0) 40,50,40\n   40 STOP 'WRONG'\n   50 STOP 7\n      END\n",
        records: "NEXT\n",
        finish: Stops("7"),
        turns: Some(4),
    },
    Row {
        source: "      READ (5,*) N\n      END\n",
        records: "",
        finish: Breaks(Rule::G2, 1),
        turns: None,
    },
];

/// The ending that is wanted.
fn ending_of(rt: &impl Abort, alloc: Global, finish: Finish) -> Ending {
    match finish {
        Ends => Ending::Ended,
        Stops(text) => stopped_with(rt, alloc, text),
        Faults(kind, line) => Ending::Fault(Fault { kind, line }),
        Breaks(rule, line) => Ending::Refused(rule, line),
    }
}

/// Compares a run with what is wanted.
fn compare(rt: &impl Abort, alloc: Global, report: &Report, written: &[u8], row: &Row) {
    let wanted = ending_of(rt, alloc, row.finish);
    assert!(rt; report.ending == wanted, "{}", row.source);
    assert!(rt; report.turns == row.turns, "{}", row.source);
    assert!(rt; written == row.records.as_bytes(), "{}", row.source);
}

/// Runs a source in order.
fn check_in_order(rt: &impl Abort, alloc: Global, plan: &Plan, row: &Row) {
    let mut sink = Out::new(Vec::new(alloc));
    let report = run_in_order(alloc, row.source.as_bytes(), plan, &mut sink);
    let written = sink.into_inner();
    compare(rt, alloc, &report, &written, row);
}

/// Runs a source by a plan.
fn check_run<R: Abort + Threads + Wait + Sync>(rt: &R, alloc: Global, plan: &Plan, row: &Row) {
    let mut sink = Out::new(Vec::new(alloc));
    let report = run(rt, alloc, row.source.as_bytes(), plan, &mut sink, &Open);
    let written = sink.into_inner();
    compare(rt, alloc, &report, &written, row);
}

#[test]
fn in_order_and_by_one_worker(rt: HostRuntime) {
    let plan = Plan::new(1, 64, 8, MANY).expect(&rt, "a plan");
    for row in ROWS {
        check_in_order(&rt, rt.alloc(), &plan, row);
        check_run(&rt, rt.alloc(), &plan, row);
    }
}

/// Workers, the trips of a block, and the blocks of a stage at most; and what is run by them.
const PLANNED: &[(u64, u64, u64, Row)] = &[(3, 2, 8, TWO_FAULTS), (4, 1, 16, DIVIDED)];

#[test]
fn by_plans(rt: HostRuntime) {
    for &(workers, block, window, row) in PLANNED {
        let plan = Plan::new(workers, block, window, MANY).expect(&rt, "a plan");
        check_run(&rt, rt.alloc(), &plan, &row);
    }
}
