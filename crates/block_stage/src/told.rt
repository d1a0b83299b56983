//! What is told of a stage.

ghost use Rattle.std.specs.Prelude.{◌≡◌, is_some, count_by};
ghost use Rattle.block_stage.specs.Cuts.{IsCut};
ghost use Rattle.block_stage.specs.Told.{IsStageStats};

use crate::causes::{Cause, cause_of};
use crate::job::Parts;
use crate::posted::{Posted, longest_of, turns_before};
use crate::trace::BlockResult;

/// What is told of a stage.
#[derive(Clone, Copy, Debug, PartialEq, Eq)]
pub struct StageStats {
    /// The trips that were left when it began.
    pub trips: u64,
    /// The trips of each block but the last.
    pub size: u64,
    /// How many blocks it had.
    pub blocks: usize,
    /// How many of them have a run.
    pub run: usize,
    /// Where it is cut: how many of them are committed.
    pub cut: usize,
    /// The turns of those that are committed.
    pub turns: u64,
    /// The turns of all that have a run; the greatest number where they are more.
    pub spent: u64,
    /// The turns of the one of them that used most.
    pub longest: u64,
    /// Why it is cut there.
    pub cause: Cause,
}

/// What is told of a stage that is cut there.
pub fn told_of(posted: &Posted, cut: usize) -> StageStats
    requires { IsCut posted.now.job.turns_left posted.now.places cut }
    ensures { IsStageStats posted.now cut result }
{
    let parts: Parts = posted.parts();
    let places = posted.places();
    StageStats {
        trips: parts.trips,
        size: parts.block_size,
        blocks: places.len(),
        run: runs_in(places),
        cut,
        turns: turns_before(places, cut),
        spent: posted.turns(),
        longest: longest_of(places),
        cause: cause_of(posted, cut),
    }
}

// How many blocks have a run.
fn runs_in(places: &[Option<BlockResult<'_>>]) -> usize
    ensures { result ≡ count_by is_some places.now }
{
    places.iter().filter(|place| place.is_some()).count()
}
