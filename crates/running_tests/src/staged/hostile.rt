//! Loops by stages between two requests of memory that nothing else makes. By these
//! `checks/hostile` knows where a loop begins and ends, and refuses requests and threads in
//! between, one or many, with which each of these tests must pass as it does by itself.

ghost use Rattle.executor.specs.Calls.{IsAsked, IsGiven};

use crate::stages::Counting;
use array_store::Whole;
use executor::run::run_by;
use executor::{Out, Staged, Unwatched};
use meaning::ending::{Ending, Fault, FaultKind};
use meaning::plan::Plan;
use meaning::syntax::Loop;
use program::{Program, Repeat};
use stage_loop::{DoLoop, LoopHistory, Observer, Speculation, StageStats, run_some_trips};
use std::alloc::Global;
use std::cell::Cell;
use std::process::Abort;
use std::sync::Wait;
use std::thread::Threads;
use whole_runs::{Advance, Remaining};

/// Bytes that are asked for before a loop, and behind it, and nowhere else. `checks/hostile` has
/// the same numbers.
const BEFORE: usize = 77_771;

const BEHIND: usize = 77_773;

/// A program with a loop, its plan, and what comes of it.
struct Worked {
    source: &'static str,
    block: u64,
    window: u64,
    turns: u64,
    records: &'static str,
    fault: Option<Fault>,
}

// Asks for so many bytes, and keeps them until bytes are asked for again, so that no compiler
// leaves the request out. Whether there are any is nobody's business.
fn ask(alloc: Global, size: usize, asked: &Cell<Vec<u8>>) {
    if let Ok(bytes) = Vec::with_capacity(alloc, size) {
        asked.set(bytes);
    }
}

/// What comes of a run: how it ends, what it writes, how many loops there were, and how many blocks
/// entered the gate.
#[derive(Drop)]
struct Ran {
    ending: Ending,
    written: Vec<u8>,
    loops: u64,
    blocks: u64,
}

// Runs a source whose loops are run by stages between two requests.
fn run<'x, R: Abort + Threads + Wait + Sync>(
    rt: &'x R,
    alloc: Global,
    source: &[u8],
    plan: &'x Plan,
) -> Ran {
    let gate = Counting::new();
    let asked = Cell::new(Vec::new(alloc));
    let loops = Cell::new(0_u64);
    let context = Speculation {
        rt,
        alloc,
        plan,
        gate: &gate,
    };
    let staged = Staged {
        call: |program: &Program, repeated: &Loop, repeat: &Repeat, remaining: Remaining, cells: &mut Whole, turns: &mut u64| -> Advance
            requires { IsAsked program.now repeated.now repeat.now remaining cells.now }
            ensures { IsGiven program.now repeated.now remaining cells.old cells.new
                turns.old turns.new result }
        {
            loops.set(loops.get().saturating_add(1));
            let mut kept = LoopHistory::new(alloc);
            ask(alloc, BEFORE, &asked);
            let statement = DoLoop {
                program,
                repeated,
                repeat,
            };
            let advance = run_some_trips(
                &context, &Unwatched, &statement, remaining, cells, turns, &mut kept,
            );
            ask(alloc, BEHIND, &asked);
            advance
        },
        watcher: &Unwatched,
    };
    let mut sink = Out::new(Vec::new(alloc));
    let report = run_by(alloc, &staged, source, plan.turns(), &mut sink);
    Ran {
        ending: report.ending,
        written: sink.into_inner(),
        loops: loops.get(),
        blocks: gate.entered(),
    }
}

// Runs a program with four workers, and compares what comes of it.
fn check<R: Abort + Threads + Wait + Sync>(rt: &R, alloc: Global, worked: &Worked) {
    let plan = Plan::new(4, worked.block, worked.window, worked.turns).expect(rt, "a plan");
    let Ran {
        ending,
        written,
        loops,
        blocks: _,
    } = run(rt, alloc, worked.source.as_bytes(), &plan);
    assert!(rt; loops == 1, "{loops}");
    assert!(rt;
        written.as_slice() == worked.records.as_bytes(),
        "{written:?}"
    );
    match (&ending, worked.fault) {
        (Ending::Ended, None) => {}
        (Ending::Fault(fault), Some(wanted)) => assert!(rt; *fault == wanted, "{fault:?}"),
        _ => assert!(rt; false, "{ending:?}"),
    }
}

/// A copy through an array of subscripts: no block needs what another one did.
const COPY: &str =
    "      INTEGER A(8),K(8)\n      DATA K/3,1,4,8,5,2,7,6/\n      DO 10 I=1,8\n   10 A(K(I))=I\n      WRITE (6,20) A\n   20 FORMAT (8I3)\n      END\n";

const COPIED: &str = "  2  6  1  3  5  8  7  4\n";

/// It by one stage of four blocks of two trips.
const PERMUTED: Worked = Worked {
    source: COPY,
    block: 2,
    window: 8,
    turns: 1_000_000_000,
    records: COPIED,
    fault: None,
};

#[test]
fn permuted(rt: HostRuntime) {
    check(&rt, rt.alloc(), &PERMUTED);
}

/// It by two stages of four blocks of one trip.
const PERMUTED_TWICE: Worked = Worked {
    source: COPY,
    block: 1,
    window: 4,
    turns: 1_000_000_000,
    records: COPIED,
    fault: None,
};

// What is told of the stages of a loop, counted.
#[derive(Drop)]
struct Tally {
    reached: Cell<u64>,
    trips: Cell<u64>,
    run: Cell<u64>,
    lost: Cell<u64>,
}

impl Tally {
    fn new() -> Tally {
        Tally {
            reached: Cell::new(0),
            trips: Cell::new(0),
            run: Cell::new(0),
            lost: Cell::new(0),
        }
    }
}

impl Observer for Tally {
    fn reached(&self, _line: u32, trips: u64) {
        self.reached.set(self.reached.get().saturating_add(1));
        self.trips.set(self.trips.get().saturating_add(trips));
    }

    fn staged(&self, _line: u32, _done: u64, told: &StageStats) {
        let lost = told.blocks.saturating_sub(told.run);
        self.run.set(self.run.get().saturating_add(told.run as u64));
        self.lost.set(self.lost.get().saturating_add(lost as u64));
    }
}

// The same as `run`, with somebody who is told of the stages.
fn run_told<R: Abort + Threads + Wait + Sync>(
    rt: &R,
    alloc: Global,
    source: &[u8],
    plan: &Plan,
    tally: &Tally,
) -> Ran {
    let gate = Counting::new();
    let asked = Cell::new(Vec::new(alloc));
    let loops = Cell::new(0_u64);
    let context = Speculation {
        rt,
        alloc,
        plan,
        gate: &gate,
    };
    let staged = Staged {
        call: |program: &Program, repeated: &Loop, repeat: &Repeat, remaining: Remaining, cells: &mut Whole, turns: &mut u64| -> Advance
            requires { IsAsked program.now repeated.now repeat.now remaining cells.now }
            ensures { IsGiven program.now repeated.now remaining cells.old cells.new
                turns.old turns.new result }
        {
            loops.set(loops.get().saturating_add(1));
            let mut kept = LoopHistory::new(alloc);
            ask(alloc, BEFORE, &asked);
            let statement = DoLoop {
                program,
                repeated,
                repeat,
            };
            let advance = run_some_trips(
                &context, tally, &statement, remaining, cells, turns, &mut kept,
            );
            ask(alloc, BEHIND, &asked);
            advance
        },
        watcher: &Unwatched,
    };
    let mut sink = Out::new(Vec::new(alloc));
    let report = run_by(alloc, &staged, source, plan.turns(), &mut sink);
    Ran {
        ending: report.ending,
        written: sink.into_inner(),
        loops: loops.get(),
        blocks: gate.entered(),
    }
}

// Where one request is refused, one trip at most is executed in order, and all that stand behind it
// enter the gate by further stages. Each stage is told, also one whose first block was lost: so no
// more blocks enter than are told as run or lost, and no fewer than as run.
#[test]
fn enters_again(rt: HostRuntime) {
    let worked = &PERMUTED_TWICE;
    let plan = Plan::new(4, worked.block, worked.window, worked.turns).expect(&rt, "a plan");
    let tally = Tally::new();
    let ran = run_told(&rt, rt.alloc(), worked.source.as_bytes(), &plan, &tally);
    assert!(rt; ran.ending == Ending::Ended && ran.loops == 1);
    assert!(rt; ran.written.as_slice() == worked.records.as_bytes());
    let (blocks, run, lost) = (ran.blocks, tally.run.get(), tally.lost.get());
    assert!(rt; tally.reached.get() == 1 && tally.trips.get() == 8);
    assert!(rt; blocks >= 7, "{blocks}");
    assert!(rt; run <= blocks && blocks <= run.saturating_add(lost));
}

/// Each element from the one before: each stage commits one trip.
const RECURRENCE: Worked = Worked {
    source: "      INTEGER A(9)\n      DO 10 I=2,9\n   10 A(I)=A(I-1)+1\n      WRITE (6,20) A(9)\n   20 FORMAT (I3)\n      END\n",
    block: 1,
    window: 8,
    turns: 1_000_000_000,
    records: "  8\n",
    fault: None,
};

#[test]
fn recurrence(rt: HostRuntime) {
    check(&rt, rt.alloc(), &RECURRENCE);
}

/// The last trip divides by what the first one sets: alone it divides by 0.
const DIVIDED: Worked = Worked {
    source: "      INTEGER D,A(9)\n      DO 10 I=1,9\n      IF (I.EQ.1) D=2\n      IF (I.EQ.9) A(9)=8/D\n   10 CONTINUE\n      WRITE (6,20) A(9),D\n   20 FORMAT (2I3)\n      END\n",
    block: 1,
    window: 16,
    turns: 1_000_000_000,
    records: "  4  2\n",
    fault: None,
};

#[test]
fn divided(rt: HostRuntime) {
    check(&rt, rt.alloc(), &DIVIDED);
}

/// Two trips divide by 0, and the fault is that of the first of them.
const TWO_FAULTS: Worked = Worked {
    source: "      INTEGER Z\n      DO 10 I=1,8\n      IF (I.EQ.3) J=1/Z\n      IF (I.EQ.6) K=1/Z\n   10 CONTINUE\n      END\n",
    block: 2,
    window: 8,
    turns: 1_000_000_000,
    records: "",
    fault: Some(Fault {
        kind: FaultKind::F1,
        line: 3,
    }),
};

#[test]
fn two_faults(rt: HostRuntime) {
    check(&rt, rt.alloc(), &TWO_FAULTS);
}

/// The turns are used up inside the loop, and in no block alone.
const LIMITED: Worked = Worked {
    source: "      INTEGER K(100)\n      DO 10 I=1,100\n   10 K(I)=I\n      END\n",
    block: 7,
    window: 8,
    turns: 50,
    records: "",
    fault: Some(Fault {
        kind: FaultKind::F4,
        line: 3,
    }),
};

#[test]
fn limited(rt: HostRuntime) {
    check(&rt, rt.alloc(), &LIMITED);
}

/// The addition behind the last trip leaves INTEGER.
const LAST_ADDITION: Worked = Worked {
    source: "      DO 10 I=2147483646,2147483647\n   10 J=J+1\n      END\n",
    block: 64,
    window: 8,
    turns: 1_000_000_000,
    records: "",
    fault: Some(Fault {
        kind: FaultKind::F2,
        line: 1,
    }),
};

#[test]
fn last_addition(rt: HostRuntime) {
    check(&rt, rt.alloc(), &LAST_ADDITION);
}

/// The fifth trip leaves the loop, and the later ones are as if they had never been tried.
const LEFT: Worked = Worked {
    source: "      INTEGER A(16),B(16)\n      DATA A/4*1,0,11*1/\n      DO 10 I=1,16\n      IF (A(I).EQ.0) GO TO 20\n   10 B(I)=1\n   20 WRITE (6,30) I,B(4),B(5),B(6),B(16)\n   30 FORMAT (5I4)\n      END\n",
    block: 2,
    window: 8,
    turns: 1_000_000_000,
    records: "   5   1   0   0   0\n",
    fault: None,
};

#[test]
fn left(rt: HostRuntime) {
    check(&rt, rt.alloc(), &LEFT);
}

/// Each element from one four before: each stage commits two blocks of two trips.
const FOUR_BEFORE: Worked = Worked {
    source: "      INTEGER A(20)\n      DO 10 I=5,20\n   10 A(I)=A(I-4)+1\n      WRITE (6,20) A(20)\n   20 FORMAT (I3)\n      END\n",
    block: 2,
    window: 8,
    turns: 1_000_000_000,
    records: "  4\n",
    fault: None,
};

#[test]
fn four_before(rt: HostRuntime) {
    check(&rt, rt.alloc(), &FOUR_BEFORE);
}
