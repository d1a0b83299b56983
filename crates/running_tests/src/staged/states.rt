//! What is committed of a stage.

ghost use Rattle.std.specs.Prelude.{◌≡◌, ◌<◌, length};
ghost use Rattle.block_stage.specs.Cuts.{IsCut};

use array_store::Whole;
use block_stage::{Posted, cut};
use meaning::ending::{Outcome, Run};
use std::process::Abort;

/// The cells behind some first blocks of a stage, each of which ends normally, and the turns that
/// these use.
#[derive(Clone, Copy, Debug)]
pub struct State {
    pub cells: &'static [i32],
    pub turns: u64,
}

/// Whether cells have the same values.
pub fn are_alike(cells: &[i32], wanted: &[i32]) -> bool {
    cells == wanted
}

// Commits the blocks before the cut, if there are any.
fn commit(posted: Posted<'_>, place: usize, target: &mut Whole) -> Run
    requires cut { IsCut posted.job.turns_left posted.places place }
    requires base { target.old ≡ posted.job.base }
{
    if place > 0 {
        return posted.commit(place, target);
    }
    drop(posted);
    Run {
        outcome: Outcome::Normal,
        turns_used: 0,
    }
}

/// Commits the blocks before the cut, and compares what they leave with the state behind so many
/// blocks. It answers the cut.
pub fn commit_checked<R: Abort>(
    rt: &R,
    posted: Posted<'_>,
    target: &mut Whole,
    states: &[State],
) -> usize
    requires base { target.old ≡ posted.job.base }
    ensures { result < length states.now }
{
    let place = cut(&posted);
    assert!(rt; place < states.len(), "{place}");
    let wanted = &states[place];
    let run = commit(posted, place, target);
    assert!(rt; run.outcome == Outcome::Normal, "{place}");
    assert!(rt; run.turns_used == wanted.turns, "{place}");
    assert!(rt; are_alike(target.cells(), wanted.cells), "{place}");
    place
}
