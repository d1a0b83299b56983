//! DO statements whose executions are so short that none is worth a stage (own). It is seen in how
//! long a run takes, and nowhere else.

use whole_runs::Remaining;

/// A DO statement whose next executions are run in order without asking what is kept of it, while
/// they have few trips and haven't used too many turns.
#[derive(Clone, Copy, Debug)]
pub struct Brief {
    // Its line, 0 where there is none.
    line: u32,
    // The most trips of such an execution.
    trips: u64,
    // How many turns such executions may use before what is kept is asked again.
    turns: u64,
}

impl Brief {
    /// None.
    pub fn none() -> Brief {
        Brief {
            line: 0,
            trips: 0,
            turns: 0,
        }
    }

    /// The DO statement at a line, whose executions of so many trips aren't worth a stage.
    pub(crate) fn new(line: u32, trips: u64, turns: u64) -> Brief {
        Brief { line, trips, turns }
    }

    /// Whether an execution of the DO statement at a line is such a one, and these are all its
    /// trips.
    pub fn covers(&self, line: u32, remaining: Remaining) -> bool {
        line == self.line && remaining.done == 0 && remaining.trips <= self.trips && self.turns > 0
    }

    /// The same behind an execution that used so many turns.
    pub fn behind(&self, used: u64) -> Brief {
        Brief {
            turns: self.turns.saturating_sub(used),
            ..*self
        }
    }
}
