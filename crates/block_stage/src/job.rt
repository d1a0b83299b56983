//! One stage of a loop.

ghost use Rattle.std.specs.Prelude.{◌≡◌};
ghost use Rattle.private_view.specs.Views.{new_view};
ghost use Rattle.program.specs.Acts.{Repeats};
ghost use Rattle.block_stage.specs.Faithful.{IsUnwritten};
ghost use Rattle.block_stage.specs.Jobs.{JobParts, IsJob, shape_in};

use crate::place::{CellRun, TripsLeft};
use array_store::Whole;
use evaluator::repeat_in;
use meaning::syntax::Loop;
use private_view::{View, WriteSet};
use program::{Program, Repeat};
use std::alloc::Global;
use std::marker::{Brand, Model};

/// One stage of a DO statement over a whole store: its next trips in blocks, and the turns that are
/// left. Contracts see its parts.
#[derive(Drop)]
pub struct Job<'a> {
    program: &'a Program,
    repeated: &'a Loop,
    // What the DO statement needs, found once for all blocks.
    repeat: &'a Repeat,
    base: &'a Whole,
    first: i32,
    step: i32,
    trips: u64,
    block_size: u64,
    blocks: u32,
    turns_left: u64,
    // The cells that are exposed in its blocks' views from the start.
    shown: CellRun,
}

impl<'a> Model for Job<'a> {
    ghost use Rattle.block_stage.specs.Jobs.{JobParts, IsJob, shape_in};
    ghost use Rattle.program.specs.Acts.{Repeats};
    ghost use Rattle.std.specs.Coded.{codes};
    ghost use Rattle.meaning.specs.contracts.syntax.Tree as trees;
    ghost use Rattle.meaning.specs.contracts.syntax.Loop as loops;

    ghost Value = { JobParts };

    ghost coded = { Prim.hlevel (codes, trees.the_row.coded, loops.the_row.coded) };

    ghost view = { λ j. record {
      program = j.program.now;
      repeated = j.repeated.now;
      base = j.base.now;
      first = j.first;
      step = j.step;
      trips = j.trips;
      block_size = j.block_size;
      blocks = j.blocks;
      turns_left = j.turns_left;
    } };

    ghost invariant = { λ j. IsJob (record {
      program = j.program.now;
      repeated = j.repeated.now;
      base = j.base.now;
      first = j.first;
      step = j.step;
      trips = j.trips;
      block_size = j.block_size;
      blocks = j.blocks;
      turns_left = j.turns_left;
    }) × Repeats j.program.now j.repeat.now (shape_in j.repeated.now) };
}

/// The parts of a job.
#[derive(Clone, Copy)]
pub(crate) struct Parts<'a> {
    pub program: &'a Program,
    pub repeated: &'a Loop,
    pub repeat: &'a Repeat,
    pub base: &'a Whole,
    pub first: i32,
    pub step: i32,
    pub trips: u64,
    pub block_size: u64,
    pub blocks: u32,
    pub turns_left: u64,
    pub shown: CellRun,
}

/// A type that stands for one job's data.
pub trait JobKey {
    ghost use Rattle.block_stage.specs.Jobs.{JobData};

    ghost job: { JobData };
}

impl JobKey for Brand {
    ghost use Rattle.block_stage.specs.Jobs.{no_job};

    ghost job = { no_job };
}

impl<'a> Job<'a> {
    /// The next trips of a DO statement in blocks, the last of which may be shorter, over the
    /// values of all cells, with the turns that are left. What the statement needs is looked up.
    pub fn new(
        program: &'a Program,
        repeated: &'a Loop,
        base: &'a Whole,
        trips_left: TripsLeft,
        block_size: u64,
        blocks: u32,
        turns_left: u64,
    ) -> Job<'a>
        requires { IsJob
            (record {
              program = program.now;
              repeated = repeated.now;
              base = base.now;
              first = trips_left.value;
              step = trips_left.step;
              trips = trips_left.trips;
              block_size = block_size;
              blocks = blocks;
              turns_left = turns_left;
            }) }
        ensures { result
            ≡ record {
              program = program.entry.now;
              repeated = repeated.entry.now;
              base = base.entry.now;
              first = trips_left.value;
              step = trips_left.step;
              trips = trips_left.trips;
              block_size = block_size;
              blocks = blocks;
              turns_left = turns_left;
            } }
    {
        match repeat_in(program, &repeated.head) {
            Some(repeat) => Job::over(
                program, repeated, repeat, base, trips_left, block_size, blocks, turns_left,
            ),
            None => unreachable!(),
        }
    }

    /// The same of a DO statement that was looked up.
    pub fn over(
        program: &'a Program,
        repeated: &'a Loop,
        repeat: &'a Repeat,
        base: &'a Whole,
        trips_left: TripsLeft,
        block_size: u64,
        blocks: u32,
        turns_left: u64,
    ) -> Job<'a>
        requires job { IsJob
            (record {
              program = program.now;
              repeated = repeated.now;
              base = base.now;
              first = trips_left.value;
              step = trips_left.step;
              trips = trips_left.trips;
              block_size = block_size;
              blocks = blocks;
              turns_left = turns_left;
            }) }
        requires repeats { Repeats program.now repeat.now (shape_in repeated.now) }
        ensures { result
            ≡ record {
              program = program.entry.now;
              repeated = repeated.entry.now;
              base = base.entry.now;
              first = trips_left.value;
              step = trips_left.step;
              trips = trips_left.trips;
              block_size = block_size;
              blocks = blocks;
              turns_left = turns_left;
            } }
    {
        let TripsLeft { value, step, trips } = trips_left;
        Job {
            program,
            repeated,
            repeat,
            base,
            first: value,
            step,
            trips,
            block_size,
            blocks,
            turns_left,
            shown: CellRun { from: 0, until: 0 },
        }
    }

    /// The same job, in whose blocks' views some cells are exposed from the start, as if they had
    /// been read: those of whole groups of 512 in a run. Elements among them are read in less time.
    pub fn showing(self, shown: CellRun) -> Job<'a>
        ensures { result ≡ self.entry }
    {
        Job { shown, ..self }
    }

    // A view of the cells in which nothing was written, in a spare if there is one: those are
    // exposed that are so from the start.
    pub(crate) fn fresh_view(&self, alloc: Global, spare: Option<WriteSet>) -> View<'a>
        ensures { IsUnwritten self.now.base result }
    {
        let mut view = self.empty_view(alloc, spare);
        view.expose(self.shown.from, self.shown.until);
        view
    }

    // One in which nothing was read or written.
    fn empty_view(&self, alloc: Global, spare: Option<WriteSet>) -> View<'a>
        ensures { result ≡ new_view self.now.base }
    {
        match spare {
            Some(changes) => View::again(changes, self.base),
            None => View::new(alloc, self.base),
        }
    }

    // Its parts, and what is true of them.
    pub(crate) fn parts(&self) -> Parts<'a>
        ensures parts { self.now
            ≡ record {
              program = result.program.now;
              repeated = result.repeated.now;
              base =
                  result.base.now;
              first = result.first;
              step = result.step;
              trips = result.trips;
              block_size =
                  result.block_size;
              blocks = result.blocks;
              turns_left = result.turns_left;
            } }
        ensures job { IsJob self.now }
        ensures repeats { Repeats result.program.now result.repeat.now
            (shape_in result.repeated.now) }
    {
        Parts {
            program: self.program,
            repeated: self.repeated,
            repeat: self.repeat,
            base: self.base,
            first: self.first,
            step: self.step,
            trips: self.trips,
            block_size: self.block_size,
            blocks: self.blocks,
            turns_left: self.turns_left,
            shown: self.shown,
        }
    }

    // The same job.
    pub(crate) fn again(&self) -> Job<'a>
        ensures { result ≡ self.now }
    {
        Job {
            program: self.program,
            repeated: self.repeated,
            repeat: self.repeat,
            base: self.base,
            first: self.first,
            step: self.step,
            trips: self.trips,
            block_size: self.block_size,
            blocks: self.blocks,
            turns_left: self.turns_left,
            shown: self.shown,
        }
    }
}
