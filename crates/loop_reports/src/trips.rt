//! The trips of the blocks of a stage.

ghost use Rattle.std.specs.Prelude.{◌≡◌};
ghost use Rattle.loop_reports.specs.BlockTrips.{trips_of};

use block_stage::StageStats;

/// Some trips of one execution of a DO statement, which are counted from 1.
#[derive(Clone, Copy, Debug, PartialEq, Eq)]
pub struct Trips {
    /// The first of them.
    pub first: u64,
    /// The last of them.
    pub last: u64,
}

/// The trips of a block of a stage, before which so many trips of the execution were done.
pub fn trips_of_block(done: u64, told: &StageStats, block: usize) -> Trips
    ensures { result ≡ trips_of done told.now block }
{
    let before = (block as u64).saturating_mul(told.size);
    let behind = before.saturating_add(told.size).min(told.trips);
    Trips {
        first: done.saturating_add(before).saturating_add(1),
        last: done.saturating_add(behind),
    }
}
