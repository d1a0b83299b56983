//! What is counted of a DO statement that is run by stages.

ghost use Rattle.std.specs.Prelude.{◌≡◌};
ghost use Rattle.loop_reports.specs.Counting.{cut_with, ordered_with, reached_with, staged_with};

use block_stage::{Cause, StageStats};

/// What is counted of a DO statement. All counts stop at the greatest number.
#[derive(Clone, Copy, Debug, Default, PartialEq, Eq)]
pub struct Counts {
    /// How often the statement was reached.
    pub reached: u64,
    /// The trips of all its executions.
    pub trips: u64,
    /// Those of them that were executed in order, in no stage.
    pub in_order: u64,
    /// The stages.
    pub stages: u64,
    /// The blocks that have a run.
    pub run: u64,
    /// Those that were committed, all before the cuts.
    pub committed: u64,
    /// Those that have a run and weren't committed.
    pub dropped: u64,
    /// The blocks that have no run.
    pub lost: u64,
    /// The stages that were cut at a broken dependence.
    pub by_dependence: u64,
    /// Those that were cut behind a block that left the loop, stopped or faulted.
    pub by_exit: u64,
    /// Those that were cut since the turns ran out.
    pub by_turns: u64,
    /// The turns of the blocks that were committed.
    pub turns: u64,
    /// The turns of all blocks that have a run.
    pub spent: u64,
    /// The turns of the longest run of each stage, all together.
    pub longest: u64,
}

/// The counts of a statement that is reached once more, with so many trips.
pub fn counts_reached(counts: Counts, trips: u64) -> Counts
    ensures { result ≡ reached_with counts trips }
{
    Counts {
        reached: counts.reached.saturating_add(1),
        trips: counts.trips.saturating_add(trips),
        ..counts
    }
}

/// The counts of a statement so many more trips of which were executed in order.
pub fn counts_ordered(counts: Counts, trips: u64) -> Counts
    ensures { result ≡ ordered_with counts trips }
{
    Counts {
        in_order: counts.in_order.saturating_add(trips),
        ..counts
    }
}

/// The counts of a statement behind one more stage of it.
pub fn counts_staged(counts: Counts, told: &StageStats) -> Counts
    ensures { result ≡ staged_with counts told.now }
{
    let cut = cut_counted(counts, told.cause);
    let dropped = told.run.saturating_sub(told.cut);
    let lost = told.blocks.saturating_sub(told.run);
    Counts {
        stages: cut.stages.saturating_add(1),
        run: cut.run.saturating_add(told.run as u64),
        committed: cut.committed.saturating_add(told.cut as u64),
        dropped: cut.dropped.saturating_add(dropped as u64),
        lost: cut.lost.saturating_add(lost as u64),
        turns: cut.turns.saturating_add(told.turns),
        spent: cut.spent.saturating_add(told.spent),
        longest: cut.longest.saturating_add(told.longest),
        ..cut
    }
}

// The counts of a statement of which one more stage was cut for a cause; one that isn't cut, and
// one at a block without a run, aren't counted here.
fn cut_counted(counts: Counts, cause: Cause) -> Counts
    ensures { result ≡ cut_with counts cause }
{
    match cause {
        Cause::Whole => counts,
        Cause::Loss => counts,
        Cause::Exit => Counts {
            by_exit: counts.by_exit.saturating_add(1),
            ..counts
        },
        Cause::Dependence(_) => Counts {
            by_dependence: counts.by_dependence.saturating_add(1),
            ..counts
        },
        Cause::Turns => Counts {
            by_turns: counts.by_turns.saturating_add(1),
            ..counts
        },
    }
}
