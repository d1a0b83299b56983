//! What is kept from one stage to the next, and from one DO statement to the next.

ghost use Rattle.std.specs.Prelude.{◌<◌};

use crate::brief::Brief;
use crate::helpers::Helpers;
use crate::pace::{BRIEF, Pace, Step};
use crate::watcher::Observer;
use block_stage::WriteSet;
use indexmap::IndexMap;
use meaning::plan::Plan;
use std::alloc::Global;
use std::mem::replace;

/// How things stand when a trip is left to the caller: the turns that are left, those that trips
/// used which weren't left so and those of them that stages committed, and how many stages were
/// dear.
#[derive(Clone, Copy)]
pub(crate) struct Left {
    turns: u64,
    used: u64,
    staged: u64,
    dear: u64,
}

/// What is known of a DO statement by its earlier executions.
#[derive(Clone, Copy)]
pub(crate) struct Known {
    // What its trips and stages were worth.
    pub pace: Pace,
    // The turns that the blocks of its first stage used when it was executed last, where it had
    // one.
    pub first: Option<u64>,
    // The turns that were left when it was executed last.
    pub begun: u64,
    // How things stood when a trip was left to the caller, where one was.
    pub left: Option<Left>,
    // Whether most of such a trip's turns were used outside of the DO statements in it.
    pub is_plain: bool,
}

/// What is kept between the stages of a DO statement, and between DO statements that are run by
/// stages: what the views of blocks were kept in, and by the line of a DO statement what is known
/// of its trips and stages; and whether each DO statement is tried, or those that are worth it. It
/// is seen in how long a run takes, and nowhere else.
#[derive(Drop)]
pub struct LoopHistory {
    spares: Vec<WriteSet>,
    is_adaptive: bool,
    // The line of the DO statement that was executed last, 0 before the first, and what is known of
    // it.
    line: u32,
    last: Known,
    // The same of the others.
    others: IndexMap<u32, Known>,
    // The turns of all trips that weren't left to the caller, those of them that stages committed,
    // and how many stages were dear.
    used: u64,
    staged: u64,
    dear: u64,
    // How many threads can help with a stage.
    helpers: Helpers,
}

impl LoopHistory {
    /// Nothing is kept yet, and each DO statement is tried, by the blocks of the plan. It takes no
    /// memory.
    pub fn new(alloc: Global) -> LoopHistory {
        LoopHistory::of(alloc, false)
    }

    /// Nothing is kept yet, and DO statements are tried where that is worth it, by what their trips
    /// cost. It takes no memory.
    pub fn adaptive(alloc: Global) -> LoopHistory {
        LoopHistory::of(alloc, true)
    }

    // Nothing is kept yet.
    fn of(alloc: Global, is_adaptive: bool) -> LoopHistory {
        LoopHistory {
            spares: Vec::new(alloc),
            is_adaptive,
            line: 0,
            last: Known::nothing(),
            others: IndexMap::new(alloc),
            used: 0,
            staged: 0,
            dear: 0,
            helpers: Helpers::new(),
        }
    }

    /// Whether DO statements are tried only where that is worth it.
    pub fn is_adaptive(&self) -> bool {
        self.is_adaptive
    }

    /// The DO statement that was executed last, where its executions of few trips aren't worth a
    /// stage; none where it stands at another line, or each is tried.
    pub fn brief_of(&self, line: u32) -> Brief {
        if self.is_adaptive && line == self.line {
            return Brief::new(line, self.last.pace.brief_trips(), BRIEF);
        }
        Brief::none()
    }

    /// Counts turns that short executions used, without asking what is kept.
    pub fn count_brief(&mut self, turns: u64) {
        self.used = self.used.saturating_add(turns);
    }

    // How many workers the next stage has at most, of those of the plan: all where each DO
    // statement is tried.
    pub(crate) fn workers_now<W: Observer>(&mut self, plan: &Plan, observer: &W) -> u32
        ensures { 0 < result }
    {
        let most = plan.workers() as u32;
        if !self.is_adaptive {
            return most;
        }
        self.helpers = self.helpers.asked(self.used, most, observer);
        self.helpers.workers(most)
    }

    // The spares, none of which is kept then.
    pub(crate) fn take_spares(&mut self, alloc: Global) -> Vec<WriteSet> {
        replace(&mut self.spares, Vec::new(alloc))
    }

    // Keeps spares in place of those that are there.
    pub(crate) fn keep_spares(&mut self, spares: Vec<WriteSet>) {
        self.spares = spares;
    }

    // What is known of the DO statement at a line where so many of its trips were executed and so
    // many turns are left: with what came of a trip that was left to the caller.
    pub(crate) fn begin(&self, line: u32, before: u64, turns: u64) -> Known {
        let known = self.known_at(line);
        if before == 0 {
            return Known {
                begun: turns,
                left: None,
                ..known
            };
        }
        match known.left {
            Some(left) => self.behind_left(known, left, turns),
            None => known,
        }
    }

    // What is known behind a trip that was left to the caller, where so many turns are left. Where
    // a stage in it was dear, one of such trips would be so too. Where its own stages were bad, and
    // those in it committed most of it, the next trips are left so as long as that goes on.
    fn behind_left(&self, known: Known, left: Left, turns: u64) -> Known {
        let used = left.turns.saturating_sub(turns);
        let held = self.used.saturating_sub(left.used);
        let staged = self.staged.saturating_sub(left.staged);
        let pace = if self.dear > left.dear {
            known.pace.behind(Step::dear(used))
        } else if known.pace.is_waiting() && staged > used / 2 {
            known.pace
        } else {
            known.pace.behind(Step::of_one(used))
        };
        Known {
            pace,
            left: None,
            is_plain: held < used / 2,
            ..known
        }
    }

    // Keeps what is known of the DO statement at a line behind a step, where so many of its trips
    // were executed and so many turns are left; for its next execution, whose trips will use as
    // many turns as those of this one on the whole.
    pub(crate) fn keep_behind(
        &mut self,
        line: u32,
        known: Known,
        step: Step,
        done: u64,
        left: u64,
    ) {
        self.used = self.used.saturating_add(step.used);
        if step.all.is_some() {
            self.staged = self.staged.saturating_add(step.used);
        }
        if step.is_dear {
            self.dear = self.dear.saturating_add(1);
        }
        let pace = known
            .pace
            .on_the_whole(done, known.begun.saturating_sub(left));
        self.keep(line, Known { pace, ..known });
    }

    // Keeps that a trip of the DO statement at a line is left to the caller.
    pub(crate) fn leave(&mut self, line: u32, known: Known, turns: u64) {
        let left = Some(Left {
            turns,
            used: self.used,
            staged: self.staged,
            dear: self.dear,
        });
        self.keep(line, Known { left, ..known });
    }

    // What is known of the DO statement at a line.
    fn known_at(&self, line: u32) -> Known {
        if line == self.line {
            return self.last;
        }
        match self.others.get(&line) {
            Some(known) => *known,
            None => Known::nothing(),
        }
    }

    // Keeps what is known of the DO statement at a line. Where a growth is refused, nothing is
    // known of one that was executed before.
    fn keep(&mut self, line: u32, known: Known) {
        if line != self.line {
            let _ = self.others.insert(self.line, self.last);
            self.line = line;
        }
        self.last = known;
    }
}

impl Known {
    // Nothing is known.
    fn nothing() -> Known {
        Known {
            pace: Pace::new(),
            first: None,
            begun: 0,
            left: None,
            is_plain: false,
        }
    }
}
