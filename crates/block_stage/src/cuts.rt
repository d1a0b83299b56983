//! Where a stage is cut.

ghost use Rattle.std.specs.Prelude.{◌≡◌, ℕ, ◌+◌, ◌-◌, ◌<◌, ◌≤◌, true, false, ◌||◌, nat_lt, length};
ghost use Rattle.std.specs.Prelude.{take, is_some, MatchOption};
ghost use Rattle.std.specs.List.{list_any};
ghost use Rattle.block_stage.specs.Cuts.{IsCut, stops, turns_to, reads_place, is_early, is_limit};
ghost use Rattle.block_stage.specs.Cuts.{outcome_in};

use crate::trace::BlockResult;
use meaning::ending::Outcome;

/// The least place at which runs may be cut, where all of them may use so many turns.
pub(crate) fn cut_of(places: &[Option<BlockResult<'_>>], limit: u64) -> usize
    ensures { IsCut limit places.now result }
{
    let mut used = 0;
    for at in 0..places.len() {
        match turns_past(places, limit, used, at) {
            Some(sum) => used = sum,
            None => return at,
        }
    }
    places.len()
}

// The turns up to this block and with it, where the runs aren't cut here.
fn turns_past(places: &[Option<BlockResult<'_>>], limit: u64, used: u64, at: usize) -> Option<u64>
    requires within { at < length places.now }
    requires used { used ≡ turns_to places.now at }
    ensures { MatchOption result
        (stops limit places.now at ≡ true) (λ sum. (stops limit places.now at ≡ false)
        × (sum ≡ turns_to places.now (at + 1))) }
{
    let Some(trace) = &places[at] else {
        return None;
    };
    let Some(sum) = used.checked_add(trace.used()) else {
        return None;
    };
    if at == 0 {
        return Some(sum);
    }
    if is_stopped(trace, &places[..at], &places[at - 1], limit, sum) {
        return None;
    }
    Some(sum)
}

// Whether the runs are cut before this one: it exposed a cell that an earlier one wrote, the turns
// up to it are too many, it met the limit, or the one before it didn't end normally.
fn is_stopped(
    trace: &BlockResult<'_>,
    earlier: &[Option<BlockResult<'_>>],
    before: &Option<BlockResult<'_>>,
    limit: u64,
    sum: u64,
) -> bool
    ensures { result
        ≡ (list_any (reads_place trace.now) earlier.now || nat_lt limit sum
        || is_limit trace.now.outcome || is_early (outcome_in before.now)) }
{
    clash(trace, earlier) || limit < sum || trace.met_limit() || ended_early(before)
}

// Whether a block has a run that didn't end normally.
pub(crate) fn ended_early(place: &Option<BlockResult<'_>>) -> bool
    ensures { result ≡ is_early (outcome_in place.now) }
{
    match place {
        Some(trace) => is_early(trace.outcome()),
        None => false,
    }
}

// Whether it isn't a normal end.
fn is_early(outcome: Outcome) -> bool
    ensures { result ≡ is_early outcome }
{
    match outcome {
        Outcome::Normal => false,
        Outcome::Left(_) => true,
        Outcome::Stopped(_) => true,
        Outcome::Fault(_) => true,
    }
}

// Whether it exposed a cell that one of the earlier ones wrote.
fn clash(trace: &BlockResult<'_>, earlier: &[Option<BlockResult<'_>>]) -> bool
    ensures { result ≡ list_any (reads_place trace.now) earlier.now }
{
    for place in earlier {
        if reads_place(trace, place) {
            return true;
        }
    }
    false
}

// Whether it exposed a cell that another one wrote, which may be missing.
fn reads_place(trace: &BlockResult<'_>, place: &Option<BlockResult<'_>>) -> bool
    ensures { result ≡ reads_place trace.now place.now }
{
    match place {
        Some(other) => trace.reads_of(other),
        None => false,
    }
}
