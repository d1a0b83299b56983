//! Why a stage is cut where it is.

ghost use Rattle.std.specs.Prelude.{◌≡◌, false, length, if◌then◌else◌, MatchOption};
ghost use Rattle.std.specs.List.{list_any};
ghost use Rattle.block_stage.specs.Causes.{IsCarried, IsCause, has_ended};
ghost use Rattle.block_stage.specs.Cuts.{IsCut, reads_place};

use crate::cuts::ended_early;
use crate::posted::Posted;
use crate::trace::BlockResult;

/// A cell that one block of a stage wrote and a later one read before it wrote it.
#[derive(Clone, Copy, Debug, PartialEq, Eq)]
pub struct Dependence {
    /// The least such cell.
    pub cell: usize,
    /// The block that wrote it, the first that wrote such a cell.
    pub writer: usize,
}

/// Why a stage is cut where it is. Of several causes the first in this order is told.
#[derive(Clone, Copy, Debug, PartialEq, Eq)]
pub enum Cause {
    /// There is no block behind the cut, and the last one went on.
    Whole,
    /// The block behind the cut has no run.
    Loss,
    /// The block before the cut left the loop, stopped or faulted.
    Exit,
    /// The block behind the cut read a cell that an earlier one wrote.
    Dependence(Dependence),
    /// The blocks up to the one behind the cut used more turns than there are, or that one met the
    /// limit.
    Turns,
}

/// Why the stage is cut there; where several causes hold, the first of loss, exit, dependence and
/// turns.
pub fn cause_of(posted: &Posted, cut: usize) -> Cause
    requires { IsCut posted.now.job.turns_left posted.now.places cut }
    ensures { IsCause posted.now.job.turns_left posted.now.places cut result }
{
    let places = posted.places();
    let Some(place) = places.get(cut) else {
        return cause_behind(places);
    };
    let Some(trace) = place else {
        return Cause::Loss;
    };
    if ended_early(&places[cut - 1]) {
        return Cause::Exit;
    }
    match carried(trace, &places[..cut]) {
        Some(dependence) => Cause::Dependence(dependence),
        None => Cause::Turns,
    }
}

// Why a stage is cut behind its last block.
fn cause_behind(places: &[Option<BlockResult<'_>>]) -> Cause
    ensures { result ≡ if has_ended places.now (length places.now) then Cause.Exit
        else Cause.Whole }
{
    match places.last() {
        Some(last) => {
            if ended_early(last) {
                Cause::Exit
            } else {
                Cause::Whole
            }
        }
        None => Cause::Whole,
    }
}

// The first of the earlier blocks that wrote a cell which it exposed, and the least such cell.
fn carried(trace: &BlockResult<'_>, earlier: &[Option<BlockResult<'_>>]) -> Option<Dependence>
    ensures { MatchOption result
        (list_any (reads_place trace.now) earlier.now ≡ false)
        (IsCarried earlier.now trace.now) }
{
    for at in 0..earlier.len() {
        if let Some(other) = &earlier[at] {
            if let Some(cell) = trace.cell_of(other) {
                return Some(Dependence { cell, writer: at });
            }
        }
    }
    None
}
