//! What the workers of a stage posted, and how much of it is committed.

ghost use Rattle.std.specs.Prelude.{◌≡◌, ◌+◌, ◌-◌, ◌^◌, ◌<◌, ◌≤◌, ◌++◌, [], ◌∷◌, ℕ, Some};
ghost use Rattle.std.specs.Prelude.{slice_get, take, length, vec_len, vec_capacity};
ghost use Rattle.meaning.specs.Stores.{Cells, known};
ghost use Rattle.array_store.specs.Whole.{world_of};
ghost use Rattle.block_stage.specs.Jobs.{JobParts, IsJob, data_of};
ghost use Rattle.block_stage.specs.Faithful.{base_of, trips_of, ran};
ghost use Rattle.block_stage.specs.Stages.{ArePosted};
ghost use Rattle.block_stage.specs.Cuts.{Places, IsCut, longest_in, turns_to, turns_in};
ghost use Rattle.block_stage.specs.Cuts.{turns_posted, overlay_all, trips_before, outcome_in};
ghost use Rattle.block_stage.specs.Cuts.{outcome_to};
ghost use Rattle.block_stage.specs.Taken.{overlay_each, wrote_in};

use crate::cuts::cut_of;
use crate::job::{Job, Parts};
use crate::taken::Committed;
use crate::trace::BlockResult;
use array_store::Whole;
use meaning::ending::{Outcome, Run};
use private_view::WriteSet;
use schedules::Event;
use std::marker::Model;
use std::mem::replace;

/// The runs that the workers of a stage posted, at the places of their blocks; none where a block
/// is missing. It keeps what happened on the board. Its type keeps that each run is of its block,
/// and faithful to the job, and that what happened is a schedule by which just the blocks that have
/// a run were posted.
#[derive(Drop)]
pub struct Posted<'a> {
    job: Job<'a>,
    places: Vec<Option<BlockResult<'a>>>,
    events: Vec<Event>,
    // Room for what each block wrote, and the spares that no block was handed.
    room: Vec<WriteSet>,
    spares: Vec<WriteSet>,
}

impl<'a> Model for Posted<'a> {
    ghost use Rattle.std.specs.Prelude.{◌≡◌, ◌≤◌, [], length, vec_capacity};
    ghost use Rattle.block_stage.specs.Stages.{PostedParts, ArePosted};
    ghost use Rattle.std.specs.Coded.{codes};
    ghost use Rattle.meaning.specs.contracts.syntax.Tree as trees;
    ghost use Rattle.meaning.specs.contracts.syntax.Loop as loops;
    ghost use Rattle.schedules.specs.contracts.event.Event as happenings;
    ghost use Rattle.block_stage.specs.Faithful.{coded_run};

    ghost Value = { PostedParts };

    ghost coded = { Prim.hlevel
        (codes, trees.the_row.coded, loops.the_row.coded, happenings.the_row.coded, coded_run) };

    ghost view = { λ p. record { job = p.job; places = p.places.items; events = p.events.items } };

    ghost invariant = { λ p. ArePosted
        (record { job = p.job; places = p.places.items; events = p.events.items })
        × (p.room.items ≡ []) × (length p.places.items ≤ vec_capacity p.room) };
}

/// How many blocks may be committed.
pub fn cut(posted: &Posted) -> usize
    ensures { IsCut posted.now.job.turns_left posted.now.places result }
{
    let parts: Parts = posted.job.parts();
    cut_of(&posted.places, parts.turns_left)
}

impl<'a> Posted<'a> {
    ghost use Rattle.block_stage.specs.Stages.{ArePosted};

    // Runs at the places of their blocks, what happened, room for what each block wrote, and
    // spares.
    pub(crate) fn new(
        job: Job<'a>,
        places: Vec<Option<BlockResult<'a>>>,
        events: Vec<Event>,
        room: Vec<WriteSet>,
        spares: Vec<WriteSet>,
    ) -> Posted<'a>
        requires posted { ArePosted
            (record { job = job; places = places.items; events = events.items }) }
        requires empty { room.items ≡ [] }
        requires room { length places.items ≤ vec_capacity room }
        ensures { result
            ≡ record { job = job.entry; places = places.entry.items; events = events.items } }
    {
        Posted {
            job,
            places,
            events,
            room,
            spares,
        }
    }

    // The parts of its job, and what is true of what was posted.
    pub(crate) fn parts(&self) -> Parts<'a>
        ensures trips { result.trips ≡ self.now.job.trips }
        ensures block { result.block_size ≡ self.now.job.block_size }
        ensures turns { result.turns_left ≡ self.now.job.turns_left }
        ensures posted { ArePosted self.now }
    {
        self.job.parts()
    }

    // The runs, at the places of their blocks.
    pub(crate) fn places(&self) -> &[Option<BlockResult<'a>>]
        ensures { result.now ≡ self.now.places }
    {
        &self.places
    }

    /// How many blocks the stage had.
    pub fn blocks(&self) -> usize
        ensures { result ≡ length self.now.places }
    {
        self.places.len()
    }

    /// What happened on the board, first to last.
    pub fn events(&self) -> &[Event]
        ensures { result.now ≡ self.now.events }
    {
        &self.events
    }

    /// How many turns the blocks that were posted used, all together; the greatest number where
    /// they are more.
    pub fn turns(&self) -> u64
        ensures { result ≡ turns_posted self.now.places }
    {
        turns_of(&self.places)
    }

    /// How many turns the first block used, and what its view weighs beside them: one for each cell
    /// that it exposed other than from the start, two for each that it wrote, and sixteen for each
    /// page of cells that was copied for that. None of either where it has no run. It is for
    /// whoever asks whether such stages are worth their time, and no contract speaks of time.
    pub fn first_weight(&self) -> (u64, u64) {
        match self.places.first() {
            Some(Some(trace)) => (trace.used(), trace.weight()),
            Some(None) => (0, 0),
            None => (0, 0),
        }
    }

    /// What the blocks before the cut wrote, in their order, how the last of them ended, and their
    /// turns. It lets the base go, and takes no memory.
    pub fn taken(self, cut: usize) -> Committed
        requires cut { IsCut self.job.turns_left self.places cut }
        requires some { 0 < cut }
        // The trips before the cut, one after another from the base, end and leave this.
        ensures fold { let d = data_of self.entry.job in
            trips_of d d.first (trips_before d cut) (base_of d) d.turns_left
            ≡ ran d result.outcome (overlay_each (base_of d) result.written) result.used }
        // What they wrote, put in in their order.
        ensures map { (m : Cells) → overlay_each m result.written
            ≡ overlay_all m (take cut self.entry.places) }
        ensures turns { result.used ≡ turns_to self.entry.places cut }
        ensures within { result.used ≤ self.entry.job.turns_left }
        ensures outcome { result.outcome ≡ outcome_to self.entry.places cut }
        ensures cells { result.cells ≡ length self.entry.job.base }
    {
        let Posted {
            job,
            places,
            events,
            room,
            spares,
        } = self;
        let parts: Parts = job.parts();
        let run = run_before(&places, cut);
        let changes = changes_of(places, room);
        drop(events);
        Committed::new(parts.base.cells().len(), cut, run, changes, spares)
    }

    /// What the runs were kept in, for the blocks of further stages. It takes no memory but for the
    /// list of those that no block was handed; where that is refused some of them are let go.
    pub fn into_spares(self) -> Vec<WriteSet> {
        let Posted {
            job,
            places,
            events,
            room,
            spares,
        } = self;
        drop(job);
        drop(events);
        joined(changes_of(places, room), spares)
    }

    /// Applies the blocks before the cut, in their order, to a store equal to the base.
    pub fn commit(self, cut: usize, target: &mut Whole) -> Run
        requires cut { IsCut self.job.turns_left self.places cut }
        requires some { 0 < cut }
        requires base { target.old ≡ self.job.base }
        // The trips before the cut, one after another from the base, end and leave this.
        ensures fold { let d = data_of self.entry.job in
            trips_of d d.first (trips_before d cut) (base_of d) d.turns_left
            ≡ ran d result.outcome (known (world_of target.new)) result.turns_used }
        // It is the base with the written cells of the blocks put in, in their order.
        ensures map { known (world_of target.new)
            ≡ overlay_all (known (world_of self.entry.job.base)) (take cut self.entry.places) }
        ensures turns { result.turns_used ≡ turns_to self.entry.places cut }
        ensures within { result.turns_used ≤ self.entry.job.turns_left }
        ensures outcome { result.outcome ≡ outcome_to self.entry.places cut }
        ensures len { length target.new ≡ length target.old }
    {
        self.taken(cut).apply(target)
    }
}

// The turns of all runs, no more than the greatest number.
fn turns_of(places: &[Option<BlockResult<'_>>]) -> u64
    ensures { result ≡ turns_posted places.now }
{
    let mut sum: u64 = 0;
    for place in places {
        sum = sum.saturating_add(turns_in(place));
    }
    sum
}

// The turns of a run, which may be missing.
fn turns_in(place: &Option<BlockResult<'_>>) -> u64
    ensures { result ≡ turns_in place.now }
{
    match place {
        Some(trace) => trace.used(),
        None => 0,
    }
}

// How a run ended, which may be missing.
fn outcome_in(place: &Option<BlockResult<'_>>) -> Outcome
    ensures { result ≡ outcome_in place.now }
{
    match place {
        Some(trace) => trace.outcome(),
        None => Outcome::Normal,
    }
}

// How the last of the first so many blocks ended, and the turns of all of these.
fn run_before(places: &[Option<BlockResult<'_>>], cut: usize) -> Run
    requires some { 0 < cut }
    requires within { cut ≤ length places.now }
    requires fits { turns_to places.now cut < 2 ^ 64 }
    ensures turns { result.turns_used ≡ turns_to places.now cut }
    ensures outcome { result.outcome ≡ outcome_to places.now cut }
{
    Run {
        outcome: outcome_in(&places[cut - 1]),
        turns_used: turns_before(places, cut),
    }
}

// The turns of the first so many blocks.
pub(crate) fn turns_before(places: &[Option<BlockResult<'_>>], cut: usize) -> u64
    requires within { cut ≤ length places.now }
    requires fits { turns_to places.now cut < 2 ^ 64 }
    ensures { result ≡ turns_to places.now cut }
{
    let mut turns: u64 = 0;
    for at in 0..cut {
        turns += turns_in(&places[at]);
    }
    turns
}

// The most turns that a run used.
pub(crate) fn longest_of(places: &[Option<BlockResult<'_>>]) -> u64
    ensures { result ≡ longest_in places.now }
{
    let mut longest: u64 = 0;
    for place in places {
        longest = longest.max(turns_in(place));
    }
    longest
}

// Puts what a run wrote behind others, where there is a run; there is room.
fn put<'a>(changes: &mut Vec<WriteSet>, place: Option<BlockResult<'a>>)
    requires room { vec_len changes.old < vec_capacity changes.old }
    ensures items { changes.new.items ≡ changes.old.items ++ wrote_in (place.entry ∷ []) }
    ensures capacity { vec_capacity changes.old ≤ vec_capacity changes.new }
    ensures len { vec_len changes.new ≤ vec_len changes.old + 1 }
{
    if let Some(trace) = place {
        if changes.push(trace.into_changes()).is_err() {
            unreachable!()
        }
    }
}

// Takes what stands at a place, and leaves it missing.
fn take_place<'a>(places: &mut Vec<Option<BlockResult<'a>>>, at: usize) -> Option<BlockResult<'a>>
    requires { at < length places.old.items }
    ensures run { slice_get places.old.items at ≡ Some result }
    ensures others { (k : ℕ) → at < k → slice_get places.new.items k
        ≡ slice_get places.old.items k }
    ensures len { length places.new.items ≡ length places.old.items }
{
    replace(&mut places[at], None)
}

// What the blocks that have a run wrote, in the room for it.
fn changes_of<'a>(places: Vec<Option<BlockResult<'a>>>, room: Vec<WriteSet>) -> Vec<WriteSet>
    requires empty { room.items ≡ [] }
    requires room { length places.items ≤ vec_capacity room }
    ensures { result.items ≡ wrote_in places.entry.items }
{
    let mut places = places;
    let mut changes = room;
    for at in 0..places.len() {
        let place = take_place(&mut places, at);
        put(&mut changes, place);
    }
    drop(places);
    changes
}

// Some spares and others; where there is no memory for their list some are let go.
pub(crate) fn joined(changes: Vec<WriteSet>, spares: Vec<WriteSet>) -> Vec<WriteSet> {
    let mut all = changes;
    for spare in spares {
        if all.push(spare).is_err() {
            return all;
        }
    }
    all
}
