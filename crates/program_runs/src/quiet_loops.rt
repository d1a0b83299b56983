//! How DO statements without output are executed: one trip after another, or in any way that gives
//! the same.

ghost use Rattle.std.specs.Prelude.{◌≡◌, ◌≢◌, ◌≤◌, ℤ, length, pos};
ghost use Rattle.meaning.specs.declared.syntax.Loop.{out-Loop};
ghost use Rattle.meaning.specs.Syntax.{shape_tree};
ghost use Rattle.storage.specs.Checked.{count_in};
ghost use Rattle.program.specs.Acts.{Repeats};
ghost use Rattle.whole_runs.specs.Trips.{IsQuietLoop, LeavesIn, trips_in};

use array_store::Whole;
use meaning::ending::{Fault, Outcome};
use meaning::syntax::Loop;
use program::{Program, Repeat};
use whole_runs::{Advance, Remaining, trips_whole};

/// Executes trips of DO statements without output.
pub trait QuietLoops {
    /// What it needs before it executes any.
    ghost ready: { Self → Type 0 };

    /// Executes some of the trips that are left of a DO statement whose range writes nothing, from
    /// the next one on: all of them, a part, or none. Its variable has its value in the next one.
    /// Answers how many they were, and how the last of them ended. Where none was executed nothing
    /// is changed, and the caller executes the next one. It has no refusal: where a growth was
    /// refused, it does the same without what it wanted memory for.
    fn run_trips(
        &self,
        program: &Program,
        repeated: &Loop,
        repeat: &Repeat,
        remaining: Remaining,
        cells: &mut Whole,
        turns: &mut u64,
    ) -> Advance
        requires ready { ready self.now }
        requires quiet { IsQuietLoop program.now repeated.now }
        requires repeats { Repeats program.now repeat.now
            (shape_tree (out-Loop repeated.now).head.form.shape.value) }
        requires moves { remaining.span.step ≢ pos 0 }
        requires sized { length cells.old ≡ count_in program.now }
        ensures done { result.done ≤ remaining.trips }
        ensures leaves { (first : ℤ) → LeavesIn program.now cells.old cells.new
            (trips_in program.now repeated.now first remaining.span.step result.done)
            turns.old turns.new result.outcome }
        ensures nothing { result.done ≡ 0 →
            (cells.new ≡ cells.old) × (turns.new ≡ turns.old) }
        ensures len { length cells.new ≡ length cells.old };

    /// Takes note of a DO statement whose range writes nothing and that has no trips, where it is
    /// executed. It changes nothing.
    fn without_trips(&self, line: u32) {}

    /// Takes note of a fault that ended the program. It is called once, behind the fault, with the
    /// cells as that left them, and changes nothing: the run ends as it would without it.
    fn faulted(&self, program: &Program, fault: Fault, cells: &Whole) {}
}

/// One trip after another.
pub struct InOrder;

impl QuietLoops for InOrder {
    ghost ready = { λ _. Unit {0} };

    fn run_trips(
        &self,
        program: &Program,
        repeated: &Loop,
        repeat: &Repeat,
        remaining: Remaining,
        cells: &mut Whole,
        turns: &mut u64,
    ) -> Advance {
        let done = remaining.trips;
        if done == 0 {
            let outcome = Outcome::Normal;
            return Advance { done, outcome };
        }
        let step = remaining.span.step;
        let outcome = trips_whole(program, repeated, repeat, step, done, cells, turns);
        Advance { done, outcome }
    }
}
