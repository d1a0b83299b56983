//! The whole of a DO statement without output.

ghost use Rattle.std.specs.Prelude.{◌≡◌, ◌≢◌, ◌-◌, ◌≤◌, ℤ, [], pos, IfSome, length};
ghost use Rattle.meaning.specs.declared.syntax.Loop.{out-Loop};
ghost use Rattle.meaning.specs.Trees.{flat, item_tree};
ghost use Rattle.label_targets.specs.Kept.{IsKept};
ghost use Rattle.label_targets.specs.Quiet.{WritesNothing};
ghost use Rattle.storage.specs.Checked.{count_in, items_in};
ghost use Rattle.storage.specs.Starts.{map_of};
ghost use Rattle.program.specs.Acts.{Repeats};
ghost use Rattle.program.specs.Programs.{IsStatement};
ghost use Rattle.evaluator.specs.Known.{AreStatements};
ghost use Rattle.evaluator.specs.Over.{MovesIn, loop_as};
ghost use Rattle.evaluator.specs.Statements.{Spends};
ghost use Rattle.evaluator.specs.Unset.{LeavesItsVariable};
ghost use Rattle.block_stage.specs.Jobs.{range_in, shape_in, variable_in};
ghost use Rattle.whole_runs.specs.Trips.{IsQuietLoop, LeavesIn, trips_in};
ghost use Rattle.stage_loop.specs.Loops.{AreIntegers};

use crate::kept::LoopHistory;
use crate::speculation::{DoLoop, Speculation};
use crate::stages::run_stages;
use crate::watcher::{Observer, Unwatched};
use array_store::Whole;
use block_stage::{Gate, TripsLeft};
use evaluator::{Span, count_of, repeat_in, take_turn};
use meaning::ending::{Fault, FaultKind, Outcome, Run};
use meaning::plan::Plan;
use meaning::syntax::Loop;
use program::{Program, Repeat};
use std::alloc::Global;
use std::sync::Wait;
use std::thread::Threads;
use whole_runs::{Advance, Remaining, limits_whole, set_whole, trips_whole, variable_whole};

// Executes the range once for each trip: by stages, and in order what these leave.
fn run_all<R: Threads + Wait + Sync, G: Gate + Sync, W: Observer>(
    rt: &R,
    alloc: Global,
    program: &Program,
    repeated: &Loop,
    repeat: &Repeat,
    course: TripsLeft,
    plan: &Plan,
    kept: &mut LoopHistory,
    cells: &mut Whole,
    turns: &mut u64,
    gate: &G,
    watcher: &W,
) -> Outcome
    requires quiet { IsQuietLoop program.now repeated.now }
    requires repeats { Repeats program.now repeat.now (shape_in repeated.now) }
    requires moves { course.step ≢ pos 0 }
    requires fits { AreIntegers course.value course.step course.trips }
    requires sized { length cells.old ≡ count_in program.now }
    requires has { map_of program.now cells.old (variable_in repeated.now) [] ≡ course.value }
    ensures leaves { LeavesIn program.now cells.old cells.new
        (trips_in program.now repeated.now course.value course.step course.trips)
        turns.old turns.new result }
    ensures len { length cells.new ≡ length cells.old }
{
    let advance = run_stages(
        rt, alloc, program, repeated, repeat, course, 0, plan, kept, cells, turns, gate, watcher,
    );
    if !advance.is_normal() {
        return advance.outcome;
    }
    let trips = course.trips - advance.done;
    trips_whole(program, repeated, repeat, course.step, trips, cells, turns)
}

// Executes a DO statement with its range.
fn run_do<R: Threads + Wait + Sync, G: Gate + Sync, W: Observer>(
    rt: &R,
    alloc: Global,
    program: &Program,
    repeated: &Loop,
    repeat: &Repeat,
    plan: &Plan,
    kept: &mut LoopHistory,
    cells: &mut Whole,
    turns: &mut u64,
    gate: &G,
    watcher: &W,
) -> Outcome
    requires named { AreStatements program.now (flat (range_in repeated.now)) }
    requires kept { IsKept program.now (range_in repeated.now) }
    requires quiet { WritesNothing (range_in repeated.now) }
    requires leaves { LeavesItsVariable repeated.now }
    requires head { IsStatement program.now (item_tree (out-Loop repeated.now).head) }
    requires repeats { Repeats program.now repeat.now (shape_in repeated.now) }
    requires sized { length cells.old ≡ count_in program.now }
    ensures moves { MovesIn program.now cells.old cells.new
        (loop_as (items_in program.now) (shape_in repeated.now) repeated.now)
        turns.old turns.new result }
    ensures spends { Spends result turns.old turns.new }
    ensures len { length cells.new ≡ length cells.old }
{
    let line = repeated.head.line;
    if !take_turn(turns) {
        return Outcome::Fault(Fault {
            kind: FaultKind::F4,
            line,
        });
    }
    match limits_whole(program, repeat, cells) {
        Ok(span) => {
            set_whole(program, repeat.variable, span.first, cells);
            let course = TripsLeft {
                value: span.first,
                step: span.step,
                trips: count_of(span),
            };
            run_all(
                rt, alloc, program, repeated, repeat, course, plan, kept, cells, turns, gate,
                watcher,
            )
        }
        Err(kind) => Outcome::Fault(Fault { kind, line }),
    }
}

// Executes a DO statement with its range; what is no DO statement is passed over.
fn run_any<R: Threads + Wait + Sync, G: Gate + Sync, W: Observer>(
    rt: &R,
    alloc: Global,
    program: &Program,
    repeated: &Loop,
    plan: &Plan,
    kept: &mut LoopHistory,
    cells: &mut Whole,
    turns: &mut u64,
    gate: &G,
    watcher: &W,
) -> Outcome
    requires named { AreStatements program.now (flat (range_in repeated.now)) }
    requires kept { IsKept program.now (range_in repeated.now) }
    requires quiet { WritesNothing (range_in repeated.now) }
    requires leaves { LeavesItsVariable repeated.now }
    requires head { IsStatement program.now (item_tree (out-Loop repeated.now).head) }
    requires sized { length cells.old ≡ count_in program.now }
    ensures moves { MovesIn program.now cells.old cells.new
        (loop_as (items_in program.now) (shape_in repeated.now) repeated.now)
        turns.old turns.new result }
    ensures spends { Spends result turns.old turns.new }
    ensures len { length cells.new ≡ length cells.old }
{
    match repeat_in(program, &repeated.head) {
        Some(repeat) => run_do(
            rt, alloc, program, repeated, repeat, plan, kept, cells, turns, gate, watcher,
        ),
        None => Outcome::Normal,
    }
}

/// Executes a DO statement with its range, which writes nothing, its own turn and limits included,
/// by the stages of a plan; what is no DO statement is passed over. Answers how it ended and the
/// turns that it used, which are the same for each plan and gate. It has no refusal: where memory
/// is refused, the trips of a block are run in order.
pub fn run_loop<R: Threads + Wait + Sync, G: Gate + Sync>(
    rt: &R,
    alloc: Global,
    program: &Program,
    repeated: &Loop,
    cells: &mut Whole,
    turns: u64,
    plan: &Plan,
    gate: &G,
) -> Run
    requires named { AreStatements program.now (flat (range_in repeated.now)) }
    requires kept { IsKept program.now (range_in repeated.now) }
    requires quiet { WritesNothing (range_in repeated.now) }
    requires leaves { LeavesItsVariable repeated.now }
    requires head { IsStatement program.now (item_tree (out-Loop repeated.now).head) }
    requires sized { length cells.old ≡ count_in program.now }
    ensures moves { MovesIn program.now cells.old cells.new
        (loop_as (items_in program.now) (shape_in repeated.now) repeated.now)
        turns (turns - result.turns_used) result.outcome }
    ensures spends { Spends result.outcome turns (turns - result.turns_used) }
    ensures within { result.turns_used ≤ turns }
    ensures len { length cells.new ≡ length cells.old }
{
    let mut kept = LoopHistory::new(alloc);
    run_loop_watched(
        rt, alloc, program, repeated, cells, turns, plan, &mut kept, gate, &Unwatched,
    )
}

// The same with what is kept of DO statements that were executed before, and for those that are
// executed later, and with an observer, which is told of the DO statement and its stages. What is
// kept, and what the observer does, is never seen in the answer.
fn run_loop_watched<R: Threads + Wait + Sync, G: Gate + Sync, W: Observer>(
    rt: &R,
    alloc: Global,
    program: &Program,
    repeated: &Loop,
    cells: &mut Whole,
    turns: u64,
    plan: &Plan,
    kept: &mut LoopHistory,
    gate: &G,
    watcher: &W,
) -> Run
    requires named { AreStatements program.now (flat (range_in repeated.now)) }
    requires kept { IsKept program.now (range_in repeated.now) }
    requires quiet { WritesNothing (range_in repeated.now) }
    requires leaves { LeavesItsVariable repeated.now }
    requires head { IsStatement program.now (item_tree (out-Loop repeated.now).head) }
    requires sized { length cells.old ≡ count_in program.now }
    ensures moves { MovesIn program.now cells.old cells.new
        (loop_as (items_in program.now) (shape_in repeated.now) repeated.now)
        turns (turns - result.turns_used) result.outcome }
    ensures spends { Spends result.outcome turns (turns - result.turns_used) }
    ensures within { result.turns_used ≤ turns }
    ensures len { length cells.new ≡ length cells.old }
{
    let mut left = turns;
    let outcome = run_any(
        rt, alloc, program, repeated, plan, kept, cells, &mut left, gate, watcher,
    );
    let turns_used = turns - left;
    Run {
        outcome,
        turns_used,
    }
}

// The trips that are left, where the variable has this value in the next one. None where not each
// of them would have an INTEGER.
fn course_of(value: i32, remaining: Remaining) -> Option<TripsLeft>
    requires { remaining.span.step ≢ pos 0 }
    ensures step { IfSome result (λ c. c.step ≡ remaining.span.step) }
    ensures value { IfSome result (λ c. c.value ≡ value) }
    ensures trips { IfSome result (λ c. c.trips ≡ remaining.trips) }
    ensures fits { IfSome result (λ c. AreIntegers c.value c.step c.trips) }
{
    let Span { last, step, .. } = remaining.span;
    let trips = remaining.trips;
    let first = value;
    if trips > count_of(Span { first, last, step }) {
        return None;
    }
    Some(TripsLeft { value, step, trips })
}

// Executes some of the trips that are left of a DO statement, from the next one on.
fn run_course<R: Threads + Wait + Sync, G: Gate + Sync, W: Observer>(
    rt: &R,
    alloc: Global,
    program: &Program,
    repeated: &Loop,
    repeat: &Repeat,
    remaining: Remaining,
    cells: &mut Whole,
    turns: &mut u64,
    plan: &Plan,
    kept: &mut LoopHistory,
    gate: &G,
    watcher: &W,
) -> Advance
    requires quiet { IsQuietLoop program.now repeated.now }
    requires repeats { Repeats program.now repeat.now (shape_in repeated.now) }
    requires moves { remaining.span.step ≢ pos 0 }
    requires sized { length cells.old ≡ count_in program.now }
    ensures done { result.done ≤ remaining.trips }
    ensures leaves { (first : ℤ) → LeavesIn program.now cells.old cells.new
        (trips_in program.now repeated.now first remaining.span.step result.done)
        turns.old turns.new result.outcome }
    ensures nothing { result.done ≡ 0 → (cells.new ≡ cells.old) × (turns.new ≡ turns.old) }
    ensures len { length cells.new ≡ length cells.old }
{
    let value = variable_whole(program, repeat.variable, cells);
    match course_of(value, remaining) {
        Some(course) => run_stages(
            rt,
            alloc,
            program,
            repeated,
            repeat,
            course,
            remaining.done,
            plan,
            kept,
            cells,
            turns,
            gate,
            watcher,
        ),
        None => {
            let outcome = Outcome::Normal;
            Advance { done: 0, outcome }
        }
    }
}

/// Executes some of the trips that are left of a DO statement whose range writes nothing, from the
/// next one on, by stages and in order: all of them, a part, or none. Its variable has its value in
/// the next one. Answers how many they were, and how the last of them ended. Where none was
/// executed nothing is changed: the caller executes the next one then, so that DO statements in its
/// range come to such a call themselves. What is kept decides that, and where each DO statement is
/// tried all trips are executed here.
pub fn run_some_trips<R: Threads + Wait + Sync, G: Gate + Sync, W: Observer>(
    context: &Speculation<'_, R, G>,
    observer: &W,
    statement: &DoLoop<'_>,
    remaining: Remaining,
    cells: &mut Whole,
    turns: &mut u64,
    history: &mut LoopHistory,
) -> Advance
    requires quiet { IsQuietLoop statement.now.program.now statement.now.repeated.now }
    requires repeats { Repeats statement.now.program.now statement.now.repeat.now
        (shape_in statement.now.repeated.now) }
    requires moves { remaining.span.step ≢ pos 0 }
    requires sized { length cells.old ≡ count_in statement.now.program.now }
    ensures done { result.done ≤ remaining.trips }
    ensures leaves { (first : ℤ) → LeavesIn statement.now.program.now cells.old cells.new
        (trips_in statement.now.program.now statement.now.repeated.now first remaining.span.step
        result.done)
        turns.old turns.new result.outcome }
    ensures nothing { result.done ≡ 0 → (cells.new ≡ cells.old) × (turns.new ≡ turns.old) }
    ensures len { length cells.new ≡ length cells.old }
{
    run_course(
        context.rt,
        context.alloc,
        statement.program,
        statement.repeated,
        statement.repeat,
        remaining,
        cells,
        turns,
        context.plan,
        history,
        context.gate,
        observer,
    )
}
