//! What is known of a DO statement's trips and stages, and whether the next trips are worth a
//! stage, and how large a one (own). It is counted in turns, since nothing here may read a clock;
//! it is seen in how long a run takes, and nowhere else.

ghost use Rattle.std.specs.Prelude.{◌<◌};

use meaning::plan::Plan;

// The turns that trips are worth for a try of stages, where nothing good is known of them.
const PAY: u64 = 100_000;

// The turns that trips are worth for a stage to pay for its threads and views.
const GOOD_PAY: u64 = 60_000;

// The turns of a block in a stage that is a try.
const GRAIN: u64 = 4_000;

// The turns of a trip that is a block of its own for each worker in the first try, and for two
// behind a bad one.
const HEAVY: u64 = 16_000;

/// The turns that short executions of a DO statement may use before what is known of it is asked
/// again.
pub(crate) const BRIEF: u64 = 100_000;

// The turns that a stage has behind the first good one, in all its blocks.
const REACH: u64 = 128_000;

// The most turns that trips in order have at once.
const CHUNK: u64 = 50_000;

// How many times the turns of a bad stage are run in order behind it; twice as many each time that
// it happens again.
const BACK: u64 = 4;

const MOST_BACK: u64 = 4_096;

// The most turns that are run in order behind a bad stage.
const MOST_CREDIT: u64 = 200_000_000;

/// How many trips a block has, and how many blocks a stage has at most.
#[derive(Clone, Copy)]
pub(crate) struct Size {
    pub trips: u64,
    pub blocks: u32,
    ghost some_trips: { 0 < trips },
    ghost some_blocks: { 0 < blocks },
}

/// What came of some trips: how many they were, the turns that they used, those of all blocks where
/// they were a stage's, and whether the views of these were dear.
#[derive(Clone, Copy)]
pub(crate) struct Step {
    pub done: u64,
    pub used: u64,
    pub all: Option<u64>,
    pub is_dear: bool,
}

impl Step {
    /// One trip in order.
    pub fn of_one(used: u64) -> Step {
        Step {
            done: 1,
            used,
            all: None,
            is_dear: false,
        }
    }

    /// One trip, of which a stage would be dear.
    pub fn dear(used: u64) -> Step {
        Step {
            done: 1,
            used,
            all: Some(used),
            is_dear: true,
        }
    }
}

/// What is known of a DO statement.
#[derive(Clone, Copy)]
pub(crate) struct Pace {
    // The turns of a trip, of those that were executed last; 0 where none was.
    per_trip: u64,
    // How many trips are run in order at once.
    chunk: u64,
    // How many turns are used in order before the next stage.
    credit: u64,
    // How many times as many turns as the next bad stage has will be used in order behind it.
    back: u64,
    // The turns of the next stage in all its blocks; 0 where it is a try.
    reach: u64,
}

/// Whether a block's view took too much time for its turns, by what it weighs.
pub(crate) fn is_dear(turns: u64, weight: u64) -> bool {
    weight.saturating_mul(2) > turns.saturating_mul(3)
}

// A number, or 1 in place of 0.
fn some(number: u64) -> u64
    ensures { 0 < result }
{
    if number == 0 { 1 } else { number }
}

// How many trips are worth so many turns; one at least.
fn trips_worth(turns: u64, per_trip: u64) -> u64
    ensures { 0 < result }
{
    if per_trip == 0 {
        return 1;
    }
    some(turns / per_trip)
}

impl Pace {
    /// Nothing is known.
    pub fn new() -> Pace {
        Pace {
            per_trip: 0,
            chunk: 1,
            credit: 0,
            back: BACK,
            reach: 0,
        }
    }

    /// Whether the next of so many trips are worth a stage, which has two blocks at least, by what
    /// they are likely to use.
    pub fn is_worth(&self, plan: &Plan, left: u64) -> bool {
        let has_two = left > 1 && plan.window() > 1;
        let likely = left.saturating_mul(self.per_trip);
        let is_tried = self.reach > 0 || likely >= PAY;
        has_two && self.credit == 0 && likely >= GOOD_PAY && is_tried
    }

    /// Whether stages were bad, and more turns are used in order before the next one.
    pub fn is_waiting(&self) -> bool {
        self.credit > 0
    }

    /// Whether a trip that is executed in order may hold DO statements that are worth stages; so
    /// may one of which nothing is known.
    pub fn may_hold_stages(&self) -> bool {
        self.per_trip == 0 || self.per_trip >= PAY
    }

    /// How many trips are run in order at once.
    pub fn chunk(&self) -> u64
        ensures { 0 < result }
    {
        some(self.chunk)
    }

    /// The most trips that are far from being worth a stage, and hold no DO statement that is worth
    /// one; 0 where that isn't known.
    pub fn brief_trips(&self) -> u64 {
        if self.per_trip == 0 {
            return 0;
        }
        GOOD_PAY / 4 / some(self.per_trip)
    }

    /// The size of the next stage, of so many trips that are left: two blocks to try it, or one for
    /// each worker where trips are heavy and no stage was bad yet, and behind a good stage as many
    /// as the window has.
    pub fn size(&self, plan: &Plan, left: u64) -> Size {
        let window = plan.window();
        let (blocks, grain) = if self.reach > 0 {
            (window, self.reach / some(window))
        } else if self.per_trip < HEAVY || self.back > BACK {
            (window.min(2), GRAIN)
        } else {
            (window.min(plan.workers()), GRAIN)
        };
        let blocks = some(blocks);
        let fair = (left / blocks).saturating_add(1);
        Size {
            trips: some(trips_worth(grain, self.per_trip).min(fair)),
            blocks: blocks.min(256) as u32,
        }
    }

    /// How many turns so many trips are likely to use.
    pub fn turns_of(&self, trips: u64) -> u64 {
        self.per_trip.saturating_mul(trips)
    }

    /// What is known behind some trips more.
    pub fn behind(&self, step: Step) -> Pace {
        let per_trip = trips_worth(step.used, step.done);
        match step.all {
            None => Pace {
                per_trip,
                chunk: self
                    .chunk
                    .saturating_mul(4)
                    .min(trips_worth(CHUNK, per_trip)),
                credit: self.credit.saturating_sub(step.used),
                ..*self
            },
            Some(all) => self.behind_stage(per_trip, step, all),
        }
    }

    // What is known behind a stage whose blocks used so many turns. It is bad where less than three
    // quarters of them were committed, or views were dear, and good where all were.
    fn behind_stage(&self, per_trip: u64, step: Step, all: u64) -> Pace {
        let chunk = trips_worth(CHUNK, per_trip);
        if step.is_dear || step.used.saturating_mul(4) < all.saturating_mul(3) {
            return Pace {
                per_trip,
                chunk,
                credit: all.saturating_mul(self.back).min(MOST_CREDIT),
                back: self.back.saturating_mul(2).min(MOST_BACK),
                reach: 0,
            };
        }
        let reach = if step.used < all {
            self.reach
        } else {
            all.saturating_mul(2).max(REACH)
        };
        Pace {
            per_trip,
            chunk,
            credit: 0,
            back: if step.used < all { self.back } else { BACK },
            reach,
        }
    }

    /// The same for the next execution, whose trips will use as many turns as those of this one did
    /// on the whole.
    pub fn on_the_whole(&self, done: u64, used: u64) -> Pace {
        let per_trip = trips_worth(used, done);
        Pace {
            per_trip,
            chunk: trips_worth(CHUNK, per_trip),
            ..*self
        }
    }
}
