//! Blocks of a stage by several threads at once.

ghost use Rattle.std.specs.Prelude.{◌≡◌};

use crate::staged::states::{State, commit_checked};
use crate::staged::watch::Watch;
use crate::staged::watching::run_watched;
use array_store::Whole;
use block_stage::{Gate, Job, run_stage, run_stage_without};
use meaning::ending::Ending;
use std::alloc::Global;
use std::process::Abort;
use std::sync::Wait;
use std::sync::atomic::{AtomicU64, Ordering};
use std::thread::Threads;

/// Block 0 waits until block 1 has entered, for so many looks at most. It counts the blocks that
/// enter.
#[derive(Drop)]
pub struct Meeting {
    entries: AtomicU64,
    begun: AtomicU64,
    met: AtomicU64,
}

const LOOKS: u32 = 100_000_000;

impl Meeting {
    fn wait(&self) -> u64 {
        for _ in 0..LOOKS {
            if self.begun.load(Ordering::SeqCst) == 1 {
                return 1;
            }
        }
        0
    }
}

impl Gate for Meeting {
    fn enter(&self, block: u32) {
        let _ = self.entries.fetch_add(1, Ordering::SeqCst);
        if block == 1 {
            self.begun.store(1, Ordering::SeqCst);
        }
        if block == 0 {
            let met = self.wait();
            self.met.store(met, Ordering::SeqCst);
        }
    }
}

/// Runs the blocks of a stage by four workers through a gate, and commits it.
pub fn see_meeting<R: Abort + Threads + Wait + Sync>(
    rt: &R,
    alloc: Global,
    job: &Job<'_>,
    base: &Whole,
    meeting: &Meeting,
)
    requires base { base.now ≡ job.now.base }
{
    let mut target = Whole::new(alloc, base.cells()).expect(rt, "memory");
    let posted = run_stage(rt, alloc, job, 4, meeting).expect(rt, "memory");
    let place = commit_checked(rt, posted, &mut target, STATES);
    assert!(rt; place == 4, "{place}");
}

/// Runs the blocks of a stage through a gate by 64 workers, none of which is started but the
/// calling thread, and commits it.
pub fn see_alone<R: Abort + Threads + Wait + Sync>(
    rt: &R,
    alloc: Global,
    job: &Job<'_>,
    base: &Whole,
    meeting: &Meeting,
)
    requires base { base.now ≡ job.now.base }
{
    let mut target = Whole::new(alloc, base.cells()).expect(rt, "memory");
    let posted = run_stage_without(rt, alloc, job, 64, u64::MAX, meeting).expect(rt, "memory");
    let place = commit_checked(rt, posted, &mut target, STATES);
    assert!(rt; place == 4, "{place}");
}

/// A copy through an array of subscripts: I has cell 0, A 1 to 8, K 9 to 16. Each trip uses a turn.
pub const SOURCE: &str =
    "      INTEGER A(8),K(8)\n      DATA K/3,1,4,8,5,2,7,6/\n      DO 10 I=1,8\n   10 A(K(I))=I\n      END\n";

/// The cells in front of the stage, where I has its first value, and behind each block of two
/// trips.
pub const STATES: &[State] = &[
    State {
        cells: &[1, 0, 0, 0, 0, 0, 0, 0, 0, 3, 1, 4, 8, 5, 2, 7, 6],
        turns: 0,
    },
    State {
        cells: &[3, 2, 0, 1, 0, 0, 0, 0, 0, 3, 1, 4, 8, 5, 2, 7, 6],
        turns: 2,
    },
    State {
        cells: &[5, 2, 0, 1, 3, 0, 0, 0, 4, 3, 1, 4, 8, 5, 2, 7, 6],
        turns: 4,
    },
    State {
        cells: &[7, 2, 6, 1, 3, 5, 0, 0, 4, 3, 1, 4, 8, 5, 2, 7, 6],
        turns: 6,
    },
    State {
        cells: &[9, 2, 6, 1, 3, 5, 8, 7, 4, 3, 1, 4, 8, 5, 2, 7, 6],
        turns: 8,
    },
];

/// Sees the only stage of the program.
pub fn see_only_stage<R: Abort + Threads + Wait + Sync>(rt: &R, alloc: Global, watch: &Watch<'_>) {
    let watched = run_watched(rt, alloc, watch, 2, 8, SOURCE.as_bytes(), 1000);
    assert!(rt; watched.ending == Ending::Ended);
    assert!(rt; watched.looked == 1);
}

// A gate that no block has entered.
fn new_meeting() -> Meeting {
    Meeting {
        entries: AtomicU64::new(0),
        begun: AtomicU64::new(0),
        met: AtomicU64::new(0),
    }
}

#[test]
fn two_blocks_at_once(rt: HostRuntime) {
    let meeting = new_meeting();
    see_only_stage(&rt, rt.alloc(), &Watch::Meeting(&meeting));
    assert!(rt; meeting.met.into_inner() == 1);
    assert!(rt; meeting.entries.into_inner() == 4);
}

// The calling thread runs all blocks, one behind the other, so that the first one waits in vain for
// the second.
#[test]
fn one_thread_runs_all_blocks(rt: HostRuntime) {
    let meeting = new_meeting();
    see_only_stage(&rt, rt.alloc(), &Watch::Alone(&meeting));
    assert!(rt; meeting.met.into_inner() == 0);
    assert!(rt; meeting.entries.into_inner() == 4);
}
