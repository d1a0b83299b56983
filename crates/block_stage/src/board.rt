//! The board of a job's stage.

ghost use Rattle.std.specs.Prelude.{◌≡◌, ◌↔◌, ◌<◌, ◌≤◌, ◌++◌, [], ◌∷◌, ℕ, Some, IfOk, IfSome};
ghost use Rattle.std.specs.Prelude.{IsTrue, length, map, slice_get, if◌then◌else◌, vec_len};
ghost use Rattle.std.specs.Prelude.{vec_capacity};
ghost use Rattle.schedules.specs.declared.place.BlockSlot.{BlockSlot};
ghost use Rattle.schedules.specs.Boards.{AreNumbered, Claims, first_stage, with_run, without_run};
ghost use Rattle.schedules.specs.Schedules.{IsIdle, IsOut};
ghost use Rattle.block_stage.specs.Jobs.{data_of};
ghost use Rattle.block_stage.specs.Faithful.{IsFaithful, RunData};
ghost use Rattle.block_stage.specs.Stages.{AreRunsOf, LeadTo, block_in, run_in};

use crate::block::BlockRun;
use crate::job::{Job, JobKey, Parts};
use crate::posted::Posted;
use crate::trace::BlockResult;
use private_view::WriteSet;
use schedules::{BlockSlot, Closed, Numbered, Ticket};
use std::alloc::{AllocError, Global};
use std::marker::Model;
use std::mem::replace;

impl<'a, J: JobKey> Numbered for BlockRun<'a, J> {
    ghost number = { λ r. r.index };

    ghost blocks = { J.job.blocks };
}

/// The board of the stage of J's job: which blocks are given out to which workers, and what came of
/// them. Its type keeps that the list of what happened leads to what it shows; each run that is
/// posted is faithful to J's job, by the run's own type.
#[derive(Drop)]
pub struct Board<'a, J: JobKey> {
    pub(crate) job: Job<'a>,
    pub(crate) blocks: schedules::Board<BlockRun<'a, J>>,
    // Room for the runs when it is closed, and for what they wrote when they let the cells go.
    pub(crate) room: Vec<Option<BlockResult<'a>>>,
    pub(crate) changes: Vec<WriteSet>,
}

impl<'a, J: JobKey> Model for Board<'a, J> {
    ghost use Rattle.std.specs.Prelude.{◌≡◌, ◌≤◌, [], vec_capacity};
    ghost use Rattle.std.specs.Coded.{codes};
    ghost use Rattle.meaning.specs.contracts.syntax.Tree as trees;
    ghost use Rattle.meaning.specs.contracts.syntax.Loop as loops;
    ghost use Rattle.schedules.specs.contracts.event.Event as events;
    ghost use Rattle.block_stage.specs.Faithful.{coded_run};
    ghost use Rattle.block_stage.specs.Jobs.{data_of};
    ghost use Rattle.block_stage.specs.Stages.{BoardParts};

    ghost Value = { BoardParts };

    ghost coded = { Prim.hlevel
        (codes, trees.the_row.coded, loops.the_row.coded, events.the_row.coded, coded_run) };

    ghost view = { λ b. record { job = b.job; stage = b.blocks } };

    ghost invariant = { λ b. (data_of b.job ≡ J.job) × (b.room.items ≡ [])
        × (b.job.blocks ≤ vec_capacity b.room) × (b.changes.items ≡ [])
        × (b.job.blocks ≤ vec_capacity b.changes) };
}

// Takes the run that a board has for a block, and leaves the block as given up.
fn taken<'a, J: JobKey>(
    places: &mut Vec<BlockSlot<BlockRun<'a, J>>>,
    at: usize,
) -> Option<BlockResult<'a>>
    requires { at < length places.old.items }
    ensures run { (p : BlockSlot RunData) → slice_get places.old.items at ≡ Some p → result
        ≡ run_in p }
    ensures faithful { IfSome result (IsFaithful J.job) }
    ensures others { (k : ℕ) → at < k → slice_get places.new.items k
        ≡ slice_get places.old.items k }
    ensures len { length places.new.items ≡ length places.old.items }
{
    match replace(&mut places[at], BlockSlot::Lost) {
        BlockSlot::Open => None,
        BlockSlot::Posted(run) => Some(run.into_trace()),
        BlockSlot::Lost => None,
    }
}

// Puts a run behind others; there is room.
fn put<'a>(runs: &mut Vec<Option<BlockResult<'a>>>, run: Option<BlockResult<'a>>)
    requires room { vec_len runs.old < vec_capacity runs.old }
    ensures items { runs.new.items ≡ runs.old.items ++ run.entry ∷ [] }
    ensures capacity { vec_capacity runs.old ≤ vec_capacity runs.new }
{
    if runs.push(run).is_err() {
        unreachable!()
    }
}

// The runs of the blocks, none where a block is missing, in the room for them.
fn runs_of<'a, J: JobKey>(
    places: Vec<BlockSlot<BlockRun<'a, J>>>,
    room: Vec<Option<BlockResult<'a>>>,
) -> Vec<Option<BlockResult<'a>>>
    requires numbered { AreNumbered block_in places.items }
    requires empty { room.items ≡ [] }
    requires room { length places.items ≤ vec_capacity room }
    ensures runs { result.items ≡ map run_in places.entry.items }
    ensures faithful { AreRunsOf J.job result.items }
{
    let mut places = places;
    let mut runs = room;
    for at in 0..places.len() {
        let run = taken::<J>(&mut places, at);
        put(&mut runs, run);
    }
    drop(places);
    runs
}

impl<'a, J: JobKey> Board<'a, J> {
    /// A board of which nothing was given out, with room for all that can happen. The `AllocError`
    /// comes where memory was refused; later calls take none.
    pub fn new(alloc: Global, job: &Job<'a>, workers: u32) -> Result<Board<'a, J>, AllocError>
        requires key { data_of job.now ≡ J.job }
        requires workers { 0 < workers }
        ensures { IfOk
            result (λ b. b ≡ record { job = job.now; stage = first_stage job.now.blocks workers }) }
    {
        let parts: Parts<'a> = job.parts();
        let blocks = schedules::Board::new(alloc, parts.blocks, workers)?;
        let room = Vec::with_capacity(alloc, parts.blocks as usize)?;
        let changes = Vec::with_capacity(alloc, parts.blocks as usize)?;
        Ok(Board {
            job: job.again(),
            blocks,
            room,
            changes,
        })
    }

    /// Whether it is a worker that has nothing out.
    pub fn idle(&self, worker: u32) -> bool
        ensures { IsTrue result ↔ IsIdle self.now.stage.outs worker }
    {
        self.blocks.idle(worker)
    }

    /// Gives the next block to an idle worker; `None` where all blocks were given out.
    pub fn claim_in(&mut self, worker: u32) -> Option<Ticket>
        requires idle { IsIdle self.old.stage.outs worker }
        ensures claims { Claims self.old.stage worker result self.new.stage }
        ensures below { IfSome result (λ t. t.block < J.job.blocks) }
        ensures job { self.new.job ≡ self.old.job }
    {
        self.blocks.claim_in(worker)
    }

    /// Puts a block's run at its place. It answers false, and changes nothing, exactly where the
    /// block is not out in the worker's name.
    pub fn post_in(&mut self, ticket: Ticket, run: BlockRun<'a, J>) -> bool
        requires { run.index ≡ ticket.block }
        ensures is { IsTrue result ↔ IsOut self.old.stage.outs ticket }
        ensures put { self.new.stage
            ≡ (if result then with_run ticket run.entry self.old.stage else self.old.stage) }
        ensures job { self.new.job ≡ self.old.job }
    {
        self.blocks.post_in(ticket, run)
    }

    /// Gives a block up. It answers false, and changes nothing, exactly where the block is not out
    /// in the worker's name.
    pub fn lose_in(&mut self, ticket: Ticket) -> bool
        ensures is { IsTrue result ↔ IsOut self.old.stage.outs ticket }
        ensures gone { self.new.stage
            ≡ (if result then without_run ticket self.old.stage else self.old.stage) }
        ensures job { self.new.job ≡ self.old.job }
    {
        self.blocks.lose_in(ticket)
    }

    /// Hands on what was posted and what happened, both unchanged. It takes no memory.
    pub fn close(self) -> Posted<'a>
        ensures job { result.job ≡ self.entry.job }
        ensures places { result.places ≡ map run_in self.entry.stage.places }
        ensures events { result.events ≡ self.entry.stage.events }
        ensures lead { LeadTo result.events result.places }
    {
        let alloc = *self.room.allocator();
        self.close_with(Vec::new(alloc))
    }

    // The same, with the spares that no block was handed.
    pub(crate) fn close_with(self, spares: Vec<WriteSet>) -> Posted<'a>
        ensures job { result.job ≡ self.entry.job }
        ensures places { result.places ≡ map run_in self.entry.stage.places }
        ensures events { result.events ≡ self.entry.stage.events }
        ensures lead { LeadTo result.events result.places }
    {
        let Board {
            job,
            blocks,
            room,
            changes,
        } = self;
        let _parts: Parts<'a> = job.parts();
        let Closed { places, events } = blocks.close();
        let runs = runs_of::<J>(places, room);
        Posted::new(job, runs, events, changes, spares)
    }
}
