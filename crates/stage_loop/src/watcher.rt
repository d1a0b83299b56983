//! Who watches DO statements that are run by stages.

ghost use Rattle.std.specs.Prelude.{◌≡◌};
ghost use Rattle.block_stage.specs.Cuts.{IsCut};

use array_store::Whole;
use block_stage::{Posted, StageStats, told_of};
use meaning::ending::Fault;
use program::Program;

/// What is told of a run by the thread that executes the program's statements: of DO statements
/// that are run by stages, and of the fault that ended it. It changes nothing of what they do.
pub trait Observer {
    /// A DO statement whose trips are run by stages was reached: the line at which it begins, and
    /// how many trips it has.
    fn reached(&self, line: u32, trips: u64);

    /// So many trips of it were executed in order, in no stage: since they weren't worth one, or
    /// none could be made.
    fn passed(&self, _line: u32, _trips: u64) {}

    /// One of its stages is done: how many of its trips were done before it, and what is told of
    /// it.
    fn staged(&self, line: u32, done: u64, told: &StageStats);

    /// Whether it is to be told of stages. Where it isn't, `staged` is never called, and what it
    /// would tell isn't made.
    fn is_watching(&self) -> bool {
        true
    }

    /// How many threads more than the calling one would have a processor of their own now; none
    /// where that isn't known. It is asked now and then where DO statements are tried as far as
    /// that is worth it: a stage has no more workers, and where there is one alone, its trips are
    /// executed in order.
    fn idle(&self) -> Option<u32> {
        None
    }

    /// A fault ended the program: the program, the fault, and the cells as it left them. It is told
    /// once at most, and never by `run_loop`, which executes one DO statement alone.
    fn faulted(&self, _program: &Program, _fault: Fault, _cells: &Whole) {}
}

/// A watcher that does nothing.
#[derive(Clone, Copy, Debug)]
pub struct Unwatched;

impl Observer for Unwatched {
    fn reached(&self, _line: u32, _trips: u64) {}

    fn staged(&self, _line: u32, _done: u64, _told: &StageStats) {}

    fn is_watching(&self) -> bool {
        false
    }
}

/// A stage that is watched: by whom, the line of its DO statement, and how many of the trips were
/// done before it.
#[derive(Drop)]
pub(crate) struct Watch<'w, W: Observer> {
    pub watcher: &'w W,
    pub line: u32,
    pub done: u64,
}

impl<'w, W: Observer> Watch<'w, W> {
    /// Tells of the stage, which is cut there.
    pub(crate) fn tell(&self, posted: &Posted<'_>, cut: usize)
        requires { IsCut posted.now.job.turns_left posted.now.places cut }
    {
        if self.watcher.is_watching() {
            self.watcher
                .staged(self.line, self.done, &told_of(posted, cut));
        }
    }
}
