//! Some trips of a DO statement without output, over a whole store (ANSI X3.9-1978, 11.10.4 to
//! 11.10.7).

ghost use Rattle.std.specs.Prelude.{◌≡◌, ◌<◌, ◌↔◌, ℕ, ℤ, List, [], true, length};
ghost use Rattle.meaning.specs.declared.syntax.Loop.{out-Loop};
ghost use Rattle.meaning.specs.Syntax.{shape_tree};
ghost use Rattle.storage.specs.Checked.{count_in};
ghost use Rattle.storage.specs.Starts.{map_of};
ghost use Rattle.program.specs.Acts.{Repeats};
ghost use Rattle.program.specs.Codes.{IsCell};
ghost use Rattle.whole_runs.specs.Trips.{IsQuietLoop, LeavesIn, trips_in};

use array_store::Whole;
use evaluator::{Span, run_further_trips};
use meaning::cell::Cell;
use meaning::ending::Outcome;
use meaning::syntax::Loop;
use program::{Program, Repeat};

/// What is left of a DO statement's trips: the values of its limits, how many trips were executed,
/// and how many are left.
#[derive(Clone, Copy)]
pub struct Remaining {
    pub span: Span,
    pub done: u64,
    pub trips: u64,
}

/// How far a DO statement came: how many trips more were executed, and how the last of them ended.
#[derive(Clone, Copy)]
pub struct Advance {
    pub done: u64,
    pub outcome: Outcome,
}

impl Advance {
    /// Whether the last of the trips ended normally, so that the DO statement goes on behind them.
    pub fn is_normal(&self) -> bool
        ensures { (result ≡ true) ↔ (self.now.outcome ≡ Outcome.Normal) }
    {
        match self.outcome {
            Outcome::Normal => true,
            Outcome::Left(_) => false,
            Outcome::Stopped(_) => false,
            Outcome::Fault(_) => false,
        }
    }
}

/// The value of a variable, by its cell.
pub fn variable_whole(program: &Program, cell: usize, cells: &Whole) -> i32
    requires small { cell < count_in program.now }
    requires sized { length cells.now ≡ count_in program.now }
    ensures { (n : List ℕ) → IsCell program.now n cell →
        map_of program.now cells.now n [] ≡ result }
{
    cells.read(Cell(cell))
}

/// Executes the range of a DO statement, which writes nothing, so often; its variable has its value
/// in the first of these trips, and the step is added to it behind each.
pub fn trips_whole(
    program: &Program,
    repeated: &Loop,
    repeat: &Repeat,
    step: i32,
    trips: u64,
    cells: &mut Whole,
    turns: &mut u64,
) -> Outcome
    requires quiet { IsQuietLoop program.now repeated.now }
    requires repeats { Repeats program.now repeat.now
        (shape_tree (out-Loop repeated.now).head.form.shape.value) }
    requires sized { length cells.old ≡ count_in program.now }
    ensures leaves { (first : ℤ) → LeavesIn program.now cells.old cells.new
        (trips_in program.now repeated.now first step trips) turns.old turns.new result }
    ensures len { length cells.new ≡ length cells.old }
{
    match run_further_trips(program, repeated, repeat, step, trips, cells, *turns) {
        Ok(run) => {
            *turns -= run.turns_used;
            run.outcome
        }
        // A whole store refuses no write.
        Err(_) => Outcome::Normal,
    }
}
