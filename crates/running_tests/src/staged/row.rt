//! Programs whose first stages are looked at.

ghost use Rattle.std.specs.Prelude.{◌≡◌};

use crate::staged::seen::{Seen, refused_blocks};
use crate::staged::watch::Watch;
use crate::staged::watching::run_watched;
use array_store::Whole;
use block_stage::{Job, Open, cut, run_stage};
use meaning::ending::{Ending, Fault};
use std::alloc::Global;
use std::process::Abort;
use std::sync::Wait;
use std::thread::Threads;

/// A program, how its DO statement is cut into blocks, what comes of each, where the stage is cut,
/// and how the program ends.
pub struct Row {
    pub source: &'static str,
    pub turns: u64,
    pub block: u64,
    pub window: u32,
    pub blocks: &'static [Seen],
    pub cut: usize,
    pub records: &'static str,
    pub ending: Option<Fault>,
}

// Where the stage of a job is cut, run by four workers.
fn cut_of<R: Abort + Threads + Wait + Sync>(rt: &R, alloc: Global, job: &Job<'_>) -> usize {
    match run_stage(rt, alloc, job, 4, &Open) {
        Some(posted) => cut(&posted),
        None => 0,
    }
}

/// Looks at each block of a stage by itself, and at where the stage is cut.
pub fn see_row<R: Abort + Threads + Wait + Sync>(
    rt: &R,
    alloc: Global,
    job: &Job<'_>,
    blocks: u32,
    base: &Whole,
    row: &Row,
)
    requires blocks { blocks ≡ job.now.blocks }
    requires base { base.now ≡ job.now.base }
{
    let refused = refused_blocks(rt, alloc, job, blocks, base, row.blocks);
    assert!(rt; refused == 0, "{refused}");
    let place = cut_of(rt, alloc, job);
    assert!(rt; place == row.cut, "{place}");
}

/// Runs a row's program, and looks at its only DO statement.
pub fn run_row<R: Abort + Threads + Wait + Sync>(rt: &R, alloc: Global, row: &Row) -> Ending {
    let watched = run_watched(
        rt,
        alloc,
        &Watch::Row(row),
        row.block,
        row.window,
        row.source.as_bytes(),
        row.turns,
    );
    assert!(rt; watched.looked == 1);
    assert!(rt; watched.written.as_slice() == row.records.as_bytes());
    watched.ending
}

/// Runs a row's program, and compares how it ends.
pub fn check_row<R: Abort + Threads + Wait + Sync>(rt: &R, alloc: Global, row: &Row) {
    let ending = run_row(rt, alloc, row);
    match (&ending, row.ending) {
        (Ending::Ended, None) => {}
        (Ending::Fault(fault), Some(wanted)) => assert!(rt; *fault == wanted, "{fault:?}"),
        _ => assert!(rt; false, "{ending:?}"),
    }
}
