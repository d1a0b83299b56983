//! How many threads can help with a stage (own). To start one where other programs keep all
//! processors busy takes milliseconds, since a new thread waits for the rest of their time slices.
//! It is seen in how long a run takes, and nowhere else.

ghost use Rattle.std.specs.Prelude.{◌<◌};

use crate::watcher::Observer;

// The turns for which an answer holds by which all workers can help, and one by which some can.
const HOLDS: u64 = 200_000;

const HOLDS_OF_SOME: u64 = 50_000;

// The same of one by which none can: at first, four times as many each time that it is given
// again, and at most. Threads of the stage before may be about to end, so the first is soon asked
// again.
const LEAST_WAIT: u64 = 10_000;

const MOST_WAIT: u64 = 640_000;

/// How many threads can help, as far as is known.
#[derive(Clone, Copy)]
pub(crate) struct Helpers {
    // As many as were idle when that was asked last; none where it isn't known.
    idle: Option<u32>,
    // How many turns were used when it is asked again.
    until: u64,
    // For how many turns an answer will hold by which none can.
    wait: u64,
}

// Whether so many idle processors are enough for all of so many workers, one of which is the
// calling thread.
fn is_enough(idle: Option<u32>, most: u32) -> bool {
    match idle {
        Some(idle) => idle >= most.saturating_sub(1),
        None => true,
    }
}

impl Helpers {
    /// Nothing was asked yet.
    pub fn new() -> Helpers {
        Helpers {
            idle: None,
            until: 0,
            wait: LEAST_WAIT,
        }
    }

    /// What is known where so many turns were used, for a stage of so many workers at most: it is
    /// asked where the last answer holds no more.
    pub fn asked<W: Observer>(self, used: u64, most: u32, observer: &W) -> Helpers {
        if used < self.until {
            return self;
        }
        let idle = observer.idle();
        if idle == Some(0) {
            return Helpers {
                idle,
                until: used.saturating_add(self.wait),
                wait: self.wait.saturating_mul(4).min(MOST_WAIT),
            };
        }
        let holds = if is_enough(idle, most) {
            HOLDS
        } else {
            HOLDS_OF_SOME
        };
        Helpers {
            idle,
            until: used.saturating_add(holds),
            wait: LEAST_WAIT,
        }
    }

    /// How many workers a stage has at most, of so many: the calling thread, and those that can
    /// help.
    pub fn workers(self, most: u32) -> u32
        requires { 0 < most }
        ensures { 0 < result }
    {
        match self.idle {
            Some(idle) => most.min(idle.saturating_add(1)),
            None => most,
        }
    }
}
