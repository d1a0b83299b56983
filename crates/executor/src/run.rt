//! The run of a source: from its bytes to the records that it writes.

ghost use Rattle.std.specs.Prelude.{◌≡◌, ◌↔◌, false, true};
ghost use Rattle.meaning.specs.Answers.{answer};
ghost use Rattle.meaning.specs.Promise.{Keeps};
ghost use Rattle.executor.specs.Calls.{IsAsked, IsGiven};

use crate::briefs::Briefs;
use crate::staged::{Staged, Watched};
use array_store::Whole;
pub use in_order::{run_by, run_in_order};
use meaning::ending::{Ending, Report};
use meaning::plan::Plan;
use meaning::syntax::Loop;
use program::{Program, Repeat};
use program_runs::{InOrder, QuietLoops};
use record_sinks::Sink;
use stage_loop::{DoLoop, Gate, LoopHistory, Observer, Speculation, Unwatched, run_some_trips};
use std::alloc::Global;
use std::cell::Cell;
use std::sync::Wait;
use std::thread::Threads;
use whole_runs::{Advance, Remaining};

/// Runs a source with the plan: each DO statement without output that stands in no other such one
/// by stages, whose blocks enter the gate, and all else in order. With one worker it is
/// `run_in_order`. What it promises is the same for each plan and gate. It may wait for the
/// workers, and what is promised holds if it returns.
pub fn run<R: Threads + Wait + Sync, S: Sink, G: Gate + Sync>(
    rt: &R,
    alloc: Global,
    source: &[u8],
    plan: &Plan,
    sink: &mut S,
    gate: &G,
) -> Report
    requires { (S.told sink.old).refused ≡ false }
    ensures promise { Keeps (answer source.now plan.now.turns)
        (S.told sink.old) (S.told sink.new) result }
    ensures refused { (result.ending ≡ Ending.WriteRefused) ↔ ((S.told sink.new).refused ≡ true) }
{
    if plan.workers() < 2 {
        return run_in_order(alloc, source, plan, sink);
    }
    run_watched(rt, alloc, source, plan, sink, gate, &Unwatched)
}

/// The same with a watcher, which is told of each DO statement that is run by stages, and of its
/// stages; with one worker there are none. It is told of a fault that ends the program, too. What
/// it does is never seen in the answer.
pub fn run_watched<R: Threads + Wait + Sync, S: Sink, G: Gate + Sync, W: Observer>(
    rt: &R,
    alloc: Global,
    source: &[u8],
    plan: &Plan,
    sink: &mut S,
    gate: &G,
    watcher: &W,
) -> Report
    requires { (S.told sink.old).refused ≡ false }
    ensures promise { Keeps (answer source.now plan.now.turns)
        (S.told sink.old) (S.told sink.new) result }
    ensures refused { (result.ending ≡ Ending.WriteRefused) ↔ ((S.told sink.new).refused ≡ true) }
{
    run_keeping(
        rt,
        alloc,
        source,
        plan,
        sink,
        gate,
        watcher,
        LoopHistory::new(alloc),
    )
}

/// The same, where DO statements are tried only as far as that is worth it, by what their trips
/// cost and what came of earlier stages. The plan's blocks say nothing then; its window is the most
/// blocks of a stage, and its workers are the most workers.
pub fn run_adaptive<R: Threads + Wait + Sync, S: Sink, G: Gate + Sync, W: Observer>(
    rt: &R,
    alloc: Global,
    source: &[u8],
    plan: &Plan,
    sink: &mut S,
    gate: &G,
    watcher: &W,
) -> Report
    requires { (S.told sink.old).refused ≡ false }
    ensures promise { Keeps (answer source.now plan.now.turns)
        (S.told sink.old) (S.told sink.new) result }
    ensures refused { (result.ending ≡ Ending.WriteRefused) ↔ ((S.told sink.new).refused ≡ true) }
{
    run_keeping(
        rt,
        alloc,
        source,
        plan,
        sink,
        gate,
        watcher,
        LoopHistory::adaptive(alloc),
    )
}

// Runs a source, where this is what is known of its DO statements at first.
fn run_keeping<R: Threads + Wait + Sync, S: Sink, G: Gate + Sync, W: Observer>(
    rt: &R,
    alloc: Global,
    source: &[u8],
    plan: &Plan,
    sink: &mut S,
    gate: &G,
    watcher: &W,
    first: LoopHistory,
) -> Report
    requires { (S.told sink.old).refused ≡ false }
    ensures promise { Keeps (answer source.now plan.now.turns)
        (S.told sink.old) (S.told sink.new) result }
    ensures refused { (result.ending ≡ Ending.WriteRefused) ↔ ((S.told sink.new).refused ≡ true) }
{
    if plan.workers() < 2 {
        drop(first);
        return run_by(alloc, &Watched { watcher }, source, plan.turns(), sink);
    }
    // What one DO statement leaves for those behind it, and those that are run in order without
    // asking that.
    let kept = Cell::new(first);
    let briefs = Briefs::new();
    let context = Speculation {
        rt,
        alloc,
        plan,
        gate,
    };
    let staged = Staged {
        call: |program: &Program, repeated: &Loop, repeat: &Repeat, remaining: Remaining, cells: &mut Whole, turns: &mut u64| -> Advance
            requires { IsAsked program.now repeated.now repeat.now remaining cells.now }
            ensures { IsGiven program.now repeated.now remaining cells.old cells.new
                turns.old turns.new result }
        {
            let line = repeated.head.line;
            if briefs.cover(line, remaining) {
                let given = *turns;
                watcher.reached(line, remaining.trips);
                let advance = InOrder.run_trips(program, repeated, repeat, remaining, cells, turns);
                watcher.passed(line, advance.done);
                briefs.count(line, given.saturating_sub(*turns));
                return advance;
            }
            let mut own = kept.replace(LoopHistory::new(alloc));
            own.count_brief(briefs.take_used());
            let statement = DoLoop {
                program,
                repeated,
                repeat,
            };
            let advance = run_some_trips(
                &context, watcher, &statement, remaining, cells, turns, &mut own,
            );
            briefs.keep(line, own.brief_of(line));
            kept.set(own);
            advance
        },
        watcher,
    };
    run_by(alloc, &staged, source, plan.turns(), sink)
}
