//! The run of a source in order, and in any way of executing DO statements without output that
//! gives the same.

ghost use Rattle.std.specs.Prelude.{◌≡◌, ◌↔◌, false, true};
ghost use Rattle.meaning.specs.Answers.{answer};
ghost use Rattle.meaning.specs.Promise.{Keeps};

use crate::source::program_in;
use meaning::ending::{Ending, Report};
use meaning::plan::Plan;
use meaning::refusal::Refusal;
use program_runs::{InOrder, QuietLoops, run_program};
use record_sinks::Sink;
use std::alloc::Global;

/// Runs a source, whose DO statements without output are executed as the caller wants it. Its
/// promise is that of `run_in_order`.
pub fn run_by<S: Sink, Q: QuietLoops>(
    alloc: Global,
    quiet_loops: &Q,
    source: &[u8],
    turns: u64,
    sink: &mut S,
) -> Report
    requires ready { Q.ready quiet_loops.now }
    requires unrefused { (S.told sink.old).refused ≡ false }
    ensures promise { Keeps (answer source.now turns) (S.told sink.old) (S.told sink.new) result }
    ensures refused { (result.ending ≡ Ending.WriteRefused) ↔ ((S.told sink.new).refused ≡ true) }
{
    let program = match program_in(alloc, source) {
        Ok(program) => program,
        Err(Refusal::Memory) => {
            return Report {
                ending: Ending::Memory,
                turns: None,
            };
        }
        Err(Refusal::Rule { rule, line }) => {
            return Report {
                ending: Ending::Refused(rule, line),
                turns: None,
            };
        }
    };
    run_program(alloc, program, quiet_loops, turns, sink)
}

/// Runs a source in order, with the turns of the plan, and puts what it writes into a sink that
/// hasn't refused.
///
/// The main theorem is its contract, and the ending has the turns that were used with it. One of
/// three holds: the bytes and the ending are the answer's, those of the statements executed one
/// after another; or the ending says that memory was refused, and the bytes are some first pieces
/// of the answer's, each whole; or the ending says that a write was refused, and the bytes are a
/// beginning of the answer's. It waits for nobody and always returns.
pub fn run_in_order<S: Sink>(alloc: Global, source: &[u8], plan: &Plan, sink: &mut S) -> Report
    requires { (S.told sink.old).refused ≡ false }
    ensures promise { Keeps (answer source.now plan.now.turns)
        (S.told sink.old) (S.told sink.new) result }
    ensures refused { (result.ending ≡ Ending.WriteRefused) ↔ ((S.told sink.new).refused ≡ true) }
{
    run_by(alloc, &InOrder, source, plan.turns(), sink)
}
