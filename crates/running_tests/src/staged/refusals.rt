//! Want of memory: blocks and stages of which one allocation at most is refused, as `rt try --test
//! --fail-alloc N` refuses the Nth, and as `checks/hostile` refuses each in turn. What comes of
//! them with ample memory, `blocks` and `meeting` look at.

ghost use Rattle.std.specs.Prelude.{◌≡◌};

use crate::staged::blocks::PERMUTED;
use crate::staged::meeting::{SOURCE, STATES};
use crate::staged::seen::{Seen, refused_blocks};
use crate::staged::states::{State, commit_checked};
use crate::staged::watch::Watch;
use crate::staged::watching::{Watched, run_watched};
use array_store::Whole;
use block_stage::{Job, Open, run_stage};
use meaning::ending::{Ending, Outcome};
use std::alloc::Global;
use std::process::Abort;
use std::sync::Wait;
use std::sync::atomic::{AtomicU64, Ordering};
use std::thread::Threads;

/// Looks at each block of a stage by itself. A block that wasn't refused memory is as is wanted.
#[derive(Drop)]
pub struct Blocks {
    wanted: &'static [Seen],
    refused: AtomicU64,
}

/// Looks at each block, and counts those that were refused memory.
pub fn see_blocks<R: Abort + Threads + Wait + Sync>(
    rt: &R,
    alloc: Global,
    job: &Job<'_>,
    blocks: u32,
    base: &Whole,
    looked: &Blocks,
)
    requires blocks { blocks ≡ job.now.blocks }
    requires base { base.now ≡ job.now.base }
{
    let refused = refused_blocks(rt, alloc, job, blocks, base, looked.wanted);
    let _ = looked.refused.fetch_add(refused, Ordering::SeqCst);
}

/// Runs a stage by so many workers. What is committed of it are some first blocks, and the last of
/// the states is that behind those before the wanted cut.
#[derive(Drop)]
pub struct Stage {
    workers: u32,
    states: &'static [State],
    refused: AtomicU64,
}

// Whether a stage was cut where it is wanted, and not before.
fn is_whole<R: Abort + Threads + Wait + Sync>(
    rt: &R,
    alloc: Global,
    job: &Job<'_>,
    base: &Whole,
    stage: &Stage,
) -> bool
    requires base { base.now ≡ job.now.base }
{
    let Ok(mut target) = Whole::new(alloc, base.cells()) else {
        return false;
    };
    assert!(rt; stage.workers > 0);
    let Some(posted) = run_stage(rt, alloc, job, stage.workers, &Open) else {
        return false;
    };
    commit_checked(rt, posted, &mut target, stage.states) + 1 == stage.states.len()
}

/// Runs a stage, and counts it where it was cut too early.
pub fn see_stage<R: Abort + Threads + Wait + Sync>(
    rt: &R,
    alloc: Global,
    job: &Job<'_>,
    base: &Whole,
    stage: &Stage,
)
    requires base { base.now ≡ job.now.base }
{
    if !is_whole(rt, alloc, job, base, stage) {
        let _ = stage.refused.fetch_add(1, Ordering::SeqCst);
    }
}

// How often want of memory was seen in a run, where a stage or its blocks were refused so often:
// where the run ended so, or its only DO statement wasn't looked at.
fn refused_in<R: Abort>(rt: &R, watched: &Watched, refused: u64) -> u64 {
    assert!(rt; refused <= 1, "{refused}");
    match watched.ending {
        Ending::Memory => refused + 1,
        Ending::Ended => refused + u64::from(watched.looked == 0),
        _ => 2,
    }
}

// How often want of memory was seen in a run in which each block is looked at: once at most.
fn refused_by_blocks<R: Abort + Threads + Wait + Sync>(
    rt: &R,
    alloc: Global,
    source: &str,
    block: u64,
    wanted: &'static [Seen],
) -> u64 {
    let blocks = Blocks {
        wanted,
        refused: AtomicU64::new(0),
    };
    let watched = run_watched(
        rt,
        alloc,
        &Watch::Blocks(&blocks),
        block,
        8,
        source.as_bytes(),
        1000,
    );
    let refused = refused_in(rt, &watched, blocks.refused.load(Ordering::SeqCst));
    assert!(rt; refused <= 1, "{source}");
    refused
}

// How often want of memory was seen in a run in which the stage is run: once at most.
fn refused_by_stage<R: Abort + Threads + Wait + Sync>(
    rt: &R,
    alloc: Global,
    source: &str,
    block: u64,
    stage: &Stage,
) -> u64 {
    let watched = run_watched(
        rt,
        alloc,
        &Watch::Stage(stage),
        block,
        8,
        source.as_bytes(),
        1000,
    );
    let refused = refused_in(rt, &watched, stage.refused.load(Ordering::SeqCst));
    assert!(rt; refused <= 1, "{source}");
    refused
}

/// One block with so many cells that trees of them have inner nodes: I has cell 0, A 1 to 16.
const SIXTEEN: &[Seen] = &[Seen {
    exposed: &[1, 2, 3, 4, 5, 6, 7, 8, 9, 10, 11, 12, 13, 14, 15, 16],
    written: &[
        (1, 1),
        (2, 2),
        (3, 3),
        (4, 4),
        (5, 5),
        (6, 6),
        (7, 7),
        (8, 8),
        (9, 9),
        (10, 10),
        (11, 11),
        (12, 12),
        (13, 13),
        (14, 14),
        (15, 15),
        (16, 16),
        (0, 17),
    ],
    outcome: Outcome::Normal,
    turns: 16,
}];

const SIXTEEN_SOURCE: &str =
    "      INTEGER A(16)\n      DO 10 I=1,16\n   10 A(I)=A(I)+I\n      END\n";

// A block is lost, or it is as is wanted.
#[test]
fn refused_blocks_are_lost(rt: HostRuntime) {
    let permuted = refused_by_blocks(&rt, rt.alloc(), SOURCE, 2, PERMUTED);
    let sixteen = refused_by_blocks(&rt, rt.alloc(), SIXTEEN_SOURCE, 16, SIXTEEN);
    assert!(rt; permuted == 0 || sixteen == 0);
}

/// Each element from two before, in six blocks of one trip. The third block exposes what the first
/// one writes. I has cell 0, A 1 to 8.
const TWO_BEFORE: &[State] = &[
    State {
        cells: &[3, 0, 0, 0, 0, 0, 0, 0, 0],
        turns: 0,
    },
    State {
        cells: &[4, 0, 0, 1, 0, 0, 0, 0, 0],
        turns: 1,
    },
    State {
        cells: &[5, 0, 0, 1, 1, 0, 0, 0, 0],
        turns: 2,
    },
];

const TWO_BEFORE_SOURCE: &str =
    "      INTEGER A(8)\n      DO 10 I=3,8\n   10 A(I)=A(I-2)+1\n      END\n";

// There is no stage, or it is cut at a lost block at the latest, and some first blocks are
// committed.
#[test]
fn refused_stages_are_cut(rt: HostRuntime) {
    let four = Stage {
        workers: 4,
        states: STATES,
        refused: AtomicU64::new(0),
    };
    let two = Stage {
        workers: 2,
        states: TWO_BEFORE,
        refused: AtomicU64::new(0),
    };
    let first = refused_by_stage(&rt, rt.alloc(), SOURCE, 2, &four);
    let second = refused_by_stage(&rt, rt.alloc(), TWO_BEFORE_SOURCE, 1, &two);
    assert!(rt; first == 0 || second == 0);
}
