//! DO statements whose next executions are run in order at once, since none of them is worth a
//! stage.

use stage_loop::Brief;
use std::cell::Cell;
use whole_runs::Remaining;

/// Up to four of them, each kept by its line; and the turns that they used which aren't counted
/// yet. It is seen in how long a run takes, and nowhere else.
#[derive(Drop)]
pub(crate) struct Briefs {
    first: Cell<Brief>,
    second: Cell<Brief>,
    third: Cell<Brief>,
    fourth: Cell<Brief>,
    used: Cell<u64>,
}

impl Briefs {
    /// None.
    pub fn new() -> Briefs {
        Briefs {
            first: Cell::new(Brief::none()),
            second: Cell::new(Brief::none()),
            third: Cell::new(Brief::none()),
            fourth: Cell::new(Brief::none()),
            used: Cell::new(0),
        }
    }

    // Where the DO statement at a line is kept.
    fn place_of(&self, line: u32) -> &Cell<Brief> {
        match line % 4 {
            0 => &self.first,
            1 => &self.second,
            2 => &self.third,
            _ => &self.fourth,
        }
    }

    /// Whether the trips that are left of the DO statement at a line are run in order at once.
    pub fn cover(&self, line: u32, remaining: Remaining) -> bool {
        self.place_of(line).get().covers(line, remaining)
    }

    /// Takes note that its trips used so many turns.
    pub fn count(&self, line: u32, used: u64) {
        let place = self.place_of(line);
        place.set(place.get().behind(used));
        self.used.set(self.used.get().saturating_add(used));
    }

    /// Keeps a DO statement in place of another.
    pub fn keep(&self, line: u32, brief: Brief) {
        self.place_of(line).set(brief);
    }

    /// The turns that were used and aren't counted yet, which are counted then.
    pub fn take_used(&self) -> u64 {
        self.used.replace(0)
    }
}
