//! DO statements without output by calls, which may start threads.

ghost use Rattle.executor.specs.Calls.{IsAsked, IsGiven};

use array_store::Whole;
use meaning::ending::Fault;
use meaning::syntax::Loop;
use program::{Program, Repeat};
use program_runs::{InOrder, QuietLoops};
use stage_loop::Observer;
use whole_runs::{Advance, Remaining};

/// By calls of a closure, each of which executes trips of a DO statement.
#[derive(Drop)]
pub struct Staged<'w, F, W: Observer> {
    /// What is called.
    pub call: F,
    /// Who is told of DO statements without trips, and of a fault that ends the program.
    pub watcher: &'w W,
}

impl<
    'w,
    F: Fn(&Program, &Loop, &Repeat, Remaining, &mut Whole, &mut u64) -> Advance,
    W: Observer,
> QuietLoops for Staged<'w, F, W> {
    ghost ready = { λ s.
        ((p : _) (l : _) (r : _) (m : _) (c : _) (t : _) → IsAsked p.now l.now r.now m c.now →
        F.pre s.call p l r m c t) ×
        ((p : _) (l : _) (r : _) (m : _) (c : _) (t : _) (a : _) (d : _) (u : _) →
        IsAsked p.now l.now r.now m c.now → F.post s.call p l r m c t a d u →
        IsGiven p.now l.now m c.now d.now t.now u.now a) };

    fn run_trips(
        &self,
        program: &Program,
        repeated: &Loop,
        repeat: &Repeat,
        remaining: Remaining,
        cells: &mut Whole,
        turns: &mut u64,
    ) -> Advance {
        (self.call)(program, repeated, repeat, remaining, cells, turns)
    }

    fn without_trips(&self, line: u32) {
        self.watcher.reached(line, 0);
    }

    fn faulted(&self, program: &Program, fault: Fault, cells: &Whole) {
        self.watcher.faulted(program, fault, cells);
    }
}

/// One trip after another, with somebody who is told of a fault that ends the program.
#[derive(Drop)]
pub struct Watched<'w, W: Observer> {
    /// Who is told.
    pub watcher: &'w W,
}

impl<'w, W: Observer> QuietLoops for Watched<'w, W> {
    ghost ready = { λ _. Unit {0} };

    fn run_trips(
        &self,
        program: &Program,
        repeated: &Loop,
        repeat: &Repeat,
        remaining: Remaining,
        cells: &mut Whole,
        turns: &mut u64,
    ) -> Advance {
        InOrder.run_trips(program, repeated, repeat, remaining, cells, turns)
    }

    fn faulted(&self, program: &Program, fault: Fault, cells: &Whole) {
        self.watcher.faulted(program, fault, cells);
    }
}
