//! The blocks of a stage, run by several workers.

ghost use Rattle.std.specs.Prelude.{◌≡◌, ◌<◌, IfOk, IfSome};
ghost use Rattle.schedules.specs.Schedules.{SettledOnce};
ghost use Rattle.block_stage.specs.Jobs.{data_of};
ghost use Rattle.block_stage.specs.Stages.{LeadTo};

use crate::block::{BlockRun, run_block_in};
use crate::board::Board;
use crate::gate::Gate;
use crate::job::{Job, JobKey, Parts};
use crate::posted::Posted;
use private_view::WriteSet;
use std::alloc::{AllocError, Global};
use std::marker::{Brand, Model, PhantomData};
use std::sync::Wait;
use std::thread::Threads;
use workers::{Desk, Work, run_all};

/// How the blocks of J's job are run: each on a view of its own, through a gate.
#[derive(Drop)]
pub struct BlockWork<'a, J: JobKey, G: Gate> {
    job: Job<'a>,
    gate: &'a G,
    alloc: Global,
    of: PhantomData<J>,
}

impl<'a, J: JobKey, G: Gate> Model for BlockWork<'a, J, G> {
    ghost use Rattle.std.specs.Prelude.{◌≡◌};
    ghost use Rattle.std.specs.Coded.{codes};
    ghost use Rattle.meaning.specs.contracts.syntax.Tree as trees;
    ghost use Rattle.meaning.specs.contracts.syntax.Loop as loops;
    ghost use Rattle.block_stage.specs.Jobs.{JobParts, data_of};

    ghost Value = { JobParts };

    ghost coded = { Prim.hlevel (codes, trees.the_row.coded, loops.the_row.coded) };

    ghost view = { λ w. w.job };

    ghost invariant = { λ w. data_of w.job ≡ J.job };
}

impl<'a, J: JobKey, G: Gate> Work<BlockRun<'a, J>, WriteSet> for BlockWork<'a, J, G> {
    fn run(&self, block: u32, spare: Option<WriteSet>) -> Option<BlockRun<'a, J>>
        requires { block < J.job.blocks }
        ensures { IfSome result (λ r. r.index ≡ block) }
    {
        let view = self.job.fresh_view(self.alloc, spare);
        match run_block_in::<J, G>(&self.job, block, self.gate, view) {
            Ok(run) => Some(run),
            Err(_) => None,
        }
    }
}

// The stage of J's job.
fn stage_of<'a, J: JobKey + Send + Sync, R: Threads + Wait + Sync, G: Gate + Sync>(
    rt: &R,
    alloc: Global,
    job: &Job<'a>,
    workers: u32,
    missing: u64,
    gate: &'a G,
    spares: Vec<WriteSet>,
) -> Result<Posted<'a>, AllocError>
    requires key { data_of job.now ≡ J.job }
    requires some { 0 < workers }
    ensures job { IfOk result (λ p. p.job ≡ job.now) }
    ensures once { IfOk result (λ p. SettledOnce job.now.blocks p.events) }
    ensures lead { IfOk result (λ p. LeadTo p.events p.places) }
{
    let parts: Parts<'a> = job.parts();
    let board: Board<'a, J> = Board::new(alloc, job, workers)?;
    let Board {
        job,
        blocks,
        room,
        changes,
    } = board;
    let work: BlockWork<'a, J, G> = BlockWork {
        job: job.again(),
        gate,
        alloc,
        of: PhantomData,
    };
    let desk = Desk {
        board: blocks,
        spares,
    };
    let Desk {
        board: blocks,
        spares,
    } = run_all(rt, desk, &work, parts.blocks, workers, missing);
    let board: Board<'a, J> = Board {
        job,
        blocks,
        room,
        changes,
    };
    Ok(board.close_with(spares))
}

/// Runs the blocks of a job by so many workers, of which the calling thread is one and each other
/// has a thread where one can be started; `None` where memory was refused for the board. In what
/// happened each block is claimed once, and then posted or lost once, and those that were posted
/// are those that have a run. It waits for the workers.
pub fn run_stage<'a, R: Threads + Wait + Sync, G: Gate + Sync>(
    rt: &R,
    alloc: Global,
    job: &Job<'a>,
    workers: u32,
    gate: &'a G,
) -> Option<Posted<'a>>
    requires some { 0 < workers }
    ensures job { IfSome result (λ p. p.job ≡ job.now) }
    ensures once { IfSome result (λ p. SettledOnce job.now.blocks p.events) }
    ensures lead { IfSome result (λ p. LeadTo p.events p.places) }
{
    run_stage_without(rt, alloc, job, workers, 0, gate)
}

/// The same where some of the workers aren't started, as if their start had been refused: worker k,
/// for k from 1 to 63, where bit k of `missing` is set. The calling thread is worker 0, and always
/// works.
pub fn run_stage_without<'a, R: Threads + Wait + Sync, G: Gate + Sync>(
    rt: &R,
    alloc: Global,
    job: &Job<'a>,
    workers: u32,
    missing: u64,
    gate: &'a G,
) -> Option<Posted<'a>>
    requires some { 0 < workers }
    ensures job { IfSome result (λ p. p.job ≡ job.now) }
    ensures once { IfSome result (λ p. SettledOnce job.now.blocks p.events) }
    ensures lead { IfSome result (λ p. LeadTo p.events p.places) }
{
    match stage_of::<Brand, R, G>(rt, alloc, job, workers, missing, gate, Vec::new(alloc)) {
        Ok(posted) => Some(posted),
        Err(_) => None,
    }
}

/// The same as `run_stage`, the views of the blocks being kept in spares while there are any: what
/// views of earlier stages were kept in. They come back by what is posted.
pub fn run_stage_in<'a, R: Threads + Wait + Sync, G: Gate + Sync>(
    rt: &R,
    alloc: Global,
    job: &Job<'a>,
    workers: u32,
    gate: &'a G,
    spares: Vec<WriteSet>,
) -> Option<Posted<'a>>
    requires some { 0 < workers }
    ensures job { IfSome result (λ p. p.job ≡ job.now) }
    ensures once { IfSome result (λ p. SettledOnce job.now.blocks p.events) }
    ensures lead { IfSome result (λ p. LeadTo p.events p.places) }
{
    match stage_of::<Brand, R, G>(rt, alloc, job, workers, 0, gate, spares) {
        Ok(posted) => Some(posted),
        Err(_) => None,
    }
}
