//! What comes of single blocks.

ghost use Rattle.std.specs.Prelude.{◌≡◌, ◌<◌};
ghost use Rattle.block_stage.specs.Jobs.{data_of};

use array_store::Whole;
use block_stage::{Job, JobKey, Open, run_block};
use meaning::cell::Cell;
use meaning::ending::{Outcome, Run};
use private_view::View;
use std::alloc::Global;
use std::marker::Brand;
use std::process::Abort;

/// What comes of a block by itself: the cells that it exposes, what it writes, how it ends and the
/// turns that it uses.
#[derive(Clone, Copy, Debug)]
pub struct Seen {
    pub exposed: &'static [usize],
    pub written: &'static [(usize, i32)],
    pub outcome: Outcome,
    pub turns: u64,
}

// The value that a block is to write to a cell, if it is to write it.
fn written_to(wanted: &Seen, number: usize) -> Option<i32> {
    for &(cell, value) in wanted.written {
        if cell == number {
            return Some(value);
        }
    }
    None
}

// Whether a view shows a value in the page of a cell.
fn shows(view: &View<'_>, number: usize, value: i32) -> bool {
    match view.page(number / 64) {
        Some(page) => page.get(number % 64) == Some(&value),
        None => false,
    }
}

// Whether a view exposed and wrote a cell as is wanted.
fn is_cell_as_wanted(view: &View<'_>, number: usize, wanted: &Seen) -> bool {
    let value = written_to(wanted, number);
    if view.exposed().has(Cell(number)) != wanted.exposed.contains(&number) {
        return false;
    }
    if view.written().has(Cell(number)) != value.is_some() {
        return false;
    }
    match value {
        Some(wanted_value) => shows(view, number, wanted_value),
        None => true,
    }
}

// Compares what a view exposed and wrote with what is wanted.
fn compare<R: Abort>(rt: &R, view: &View<'_>, cells: usize, wanted: &Seen) {
    for number in 0..cells {
        assert!(rt;
            is_cell_as_wanted(view, number, wanted),
            "{number} {wanted:?}"
        );
    }
}

// Compares how a block ended with what is wanted.
fn compare_run<R: Abort>(rt: &R, run: Run, wanted: &Seen) {
    assert!(rt; run.outcome == wanted.outcome, "{wanted:?}");
    assert!(rt; run.turns_used == wanted.turns, "{wanted:?}");
}

// Runs a block by itself, and compares it with what is wanted. It answers false where memory was
// refused.
fn is_seen<J: JobKey, R: Abort>(
    rt: &R,
    alloc: Global,
    job: &Job<'_>,
    base: &Whole,
    block: u32,
    wanted: &Seen,
) -> bool
    requires key { data_of job.now ≡ J.job }
    requires below { block < job.now.blocks }
    requires base { base.now ≡ job.now.base }
{
    match run_block::<J, Open>(alloc, job, block, &Open) {
        Ok(run) => {
            compare_run(rt, run.run(), wanted);
            compare(rt, run.view(), base.cells().len(), wanted);
            true
        }
        Err(_) => false,
    }
}

// Runs each block of a job by itself, and compares it with what is wanted.
fn refused_in<J: JobKey, R: Abort>(
    rt: &R,
    alloc: Global,
    job: &Job<'_>,
    blocks: u32,
    base: &Whole,
    wanted: &[Seen],
) -> u64
    requires key { data_of job.now ≡ J.job }
    requires blocks { blocks ≡ job.now.blocks }
    requires base { base.now ≡ job.now.base }
{
    assert!(rt; wanted.len() == blocks as usize, "{blocks}");
    let mut refused = 0_u64;
    for block in 0..blocks {
        if !is_seen::<J, R>(rt, alloc, job, base, block, &wanted[block as usize]) {
            refused = refused.saturating_add(1);
        }
    }
    refused
}

/// Runs each block of a job by itself, and compares it with what is wanted. It answers how many of
/// them were refused memory.
pub fn refused_blocks<R: Abort>(
    rt: &R,
    alloc: Global,
    job: &Job<'_>,
    blocks: u32,
    base: &Whole,
    wanted: &[Seen],
) -> u64
    requires blocks { blocks ≡ job.now.blocks }
    requires base { base.now ≡ job.now.base }
{
    refused_in::<Brand, R>(rt, alloc, job, blocks, base, wanted)
}
