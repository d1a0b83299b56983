//! The run of a program in order, and in any way of executing DO statements without output that
//! gives the same.

ghost use Rattle.std.specs.Prelude.{◌≡◌, ◌≢◌, ◌↔◌, Ok, false, true};
ghost use Rattle.meaning.specs.Answers.{answer_of, ending_of};
ghost use Rattle.meaning.specs.Promise.{Keeps};
ghost use Rattle.storage.specs.Checked.{items_in, tree_of};
ghost use Rattle.evaluator.specs.Statements.{outcome_of};
ghost use Rattle.program_runs.specs.Reported.{IsReportOf};

use crate::halt::Halt;
use crate::quiet_loops::QuietLoops;
use crate::walk::execute;
use meaning::ending::{Ending, Outcome, Report, Run};
use program::Program;
use record_sinks::Sink;
use std::alloc::Global;

// How a run ends that its statements ended. What a STOP statement tells is moved out of the
// program: no memory is allocated.
fn ending_by(alloc: Global, program: Program, outcome: Outcome) -> Ending
    ensures told { result ≡ ending_of (items_in program) (outcome_of outcome) }
    ensures written { result ≢ Ending.WriteRefused }
{
    match outcome {
        Outcome::Normal => {
            drop(program);
            Ending::Ended
        }
        // The rules leave no transfer out of the program unit's body.
        Outcome::Left(_) => {
            drop(program);
            Ending::Ended
        }
        Outcome::Stopped(line) => Ending::Stopped(program.into_message(alloc, line)),
        Outcome::Fault(fault) => {
            drop(program);
            Ending::Fault(fault)
        }
    }
}

// What is told of a run that its statements ended.
fn report_of(alloc: Global, program: Program, run: Run) -> Report
    ensures told { IsReportOf (items_in program) run result }
    ensures written { result.ending ≢ Ending.WriteRefused }
{
    Report {
        ending: ending_by(alloc, program, run.outcome),
        turns: Some(run.turns_used),
    }
}

/// Runs a program, whose DO statements without output are executed as the caller wants it. Its
/// promise is that of the main theorem for sources that spell the program. The program is used up.
pub fn run_program<S: Sink, Q: QuietLoops>(
    alloc: Global,
    program: Program,
    quiet_loops: &Q,
    turns: u64,
    sink: &mut S,
) -> Report
    requires ready { Q.ready quiet_loops.now }
    requires unrefused { (S.told sink.old).refused ≡ false }
    ensures promise { Keeps (answer_of (Ok (tree_of program)) turns)
        (S.told sink.old) (S.told sink.new) result }
    ensures refused { (result.ending ≡ Ending.WriteRefused) ↔ ((S.told sink.new).refused ≡ true) }
{
    match execute(alloc, &program, quiet_loops, turns, sink) {
        Ok(run) => report_of(alloc, program, run),
        Err(Halt::Memory) => {
            drop(program);
            Report {
                ending: Ending::Memory,
                turns: None,
            }
        }
        Err(Halt::WriteRefused) => {
            drop(program);
            Report {
                ending: Ending::WriteRefused,
                turns: None,
            }
        }
    }
}
