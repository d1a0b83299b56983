//! The run of a block by itself.

ghost use Rattle.std.specs.Prelude.{◌≡◌, ◌<◌, IfOk};
ghost use Rattle.block_stage.specs.Jobs.{data_of};
ghost use Rattle.block_stage.specs.Faithful.{IsFaithful, IsUnwritten};

use crate::gate::Gate;
use crate::job::{Job, JobKey, Parts};
use crate::place::{place_of, value_at};
use crate::trace::BlockResult;
use evaluator::{run_further_trips, set_variable};
use meaning::ending::Run;
use private_view::View;
use std::alloc::Global;
use std::marker::{Model, PhantomData};

/// The run of a block. Its type keeps that it is faithful to J's job there: for all values that
/// agree with the base in the cells that it exposed, the block's trips end so, after so many turns,
/// and leave these values with what it wrote put in.
#[derive(Drop)]
pub struct BlockRun<'a, J: JobKey> {
    trace: BlockResult<'a>,
    of: PhantomData<J>,
}

impl<'a, J: JobKey> Model for BlockRun<'a, J> {
    ghost use Rattle.block_stage.specs.Faithful.{RunData, coded_run, IsFaithful};

    ghost Value = { RunData };

    ghost coded = { coded_run };

    ghost view = { λ b. b.trace };

    ghost invariant = { λ b. IsFaithful J.job b.trace };
}

impl<'a, J: JobKey> BlockRun<'a, J> {
    /// The block's number.
    pub fn index(&self) -> u32
        ensures { result ≡ self.now.index }
    {
        self.trace.index()
    }

    /// How its trips ended, and how many turns they used.
    pub fn run(&self) -> Run
        ensures { result ≡ record { outcome = self.now.outcome; turns_used = self.now.used } }
    {
        Run {
            outcome: self.trace.outcome(),
            turns_used: self.trace.used(),
        }
    }

    /// What it exposed and what it wrote.
    pub fn view(&self) -> &View<'a>
        ensures { result.now ≡ self.now.seen }
    {
        self.trace.view()
    }

    // The bare run, which is faithful to J's job.
    pub(crate) fn into_trace(self) -> BlockResult<'a>
        ensures trace { result ≡ self.entry }
        ensures faithful { IsFaithful J.job result }
    {
        let BlockRun { trace, of: _ } = self;
        trace
    }
}

/// A block's view was refused memory.
#[derive(Clone, Copy, PartialEq, Eq, Debug)]
pub struct Lost;

// Runs a block of a job on a view in which nothing was written.
fn run_alone<'a, G: Gate>(
    job: &Job<'a>,
    block: u32,
    gate: &G,
    view: View<'a>,
) -> Result<BlockResult<'a>, Lost>
    requires below { block < job.now.blocks }
    requires fresh { IsUnwritten job.now.base view }
    ensures block { IfOk result (λ t. t.index ≡ block) }
    ensures faithful { IfOk result (λ t. IsFaithful (data_of job.now) t) }
{
    let parts: Parts<'a> = job.parts();
    let place = place_of(block, parts.block_size, parts.blocks, parts.trips);
    let first = value_at(parts.first, parts.step, place);
    let trips = parts.block_size.min(parts.trips - place);
    let mut view = view;
    match set_variable(parts.program, parts.repeat.variable, first, &mut view) {
        Ok(()) => {}
        Err(_) => return Err(Lost),
    }
    gate.enter(block);
    match run_further_trips(
        parts.program,
        parts.repeated,
        parts.repeat,
        parts.step,
        trips,
        &mut view,
        parts.turns_left,
    ) {
        Ok(run) => {
            if view.is_lost() {
                return Err(Lost);
            }
            Ok(BlockResult::new(block, run.outcome, run.turns_used, view, parts.shown))
        }
        Err(_) => Err(Lost),
    }
}

/// Runs a block of a job on a view of its own, which enters the gate when the DO variable has its
/// first value. It is lost only where the view was refused memory.
pub fn run_block<'a, J: JobKey, G: Gate>(
    alloc: Global,
    job: &Job<'a>,
    block: u32,
    gate: &G,
) -> Result<BlockRun<'a, J>, Lost>
    requires key { data_of job.now ≡ J.job }
    requires below { block < J.job.blocks }
    ensures { IfOk result (λ r. r.index ≡ block) }
{
    run_block_in(job, block, gate, job.fresh_view(alloc, None))
}

/// The same on a view that is handed in, in which nothing was written.
pub fn run_block_in<'a, J: JobKey, G: Gate>(
    job: &Job<'a>,
    block: u32,
    gate: &G,
    view: View<'a>,
) -> Result<BlockRun<'a, J>, Lost>
    requires key { data_of job.now ≡ J.job }
    requires below { block < J.job.blocks }
    requires fresh { IsUnwritten job.now.base view }
    ensures { IfOk result (λ r. r.index ≡ block) }
{
    match run_alone(job, block, gate, view) {
        Ok(trace) => Ok(BlockRun {
            trace,
            of: PhantomData,
        }),
        Err(lost) => Err(lost),
    }
}
