//! The stages of a DO statement without output.

ghost use Rattle.std.specs.Prelude.{◌≡◌, ◌≢◌, ◌-◌, ◌<◌, ◌≤◌, [], pos, IfNone, IfSome, length};
ghost use Rattle.storage.specs.Checked.{count_in, items_in};
ghost use Rattle.storage.specs.Starts.{map_of};
ghost use Rattle.program.specs.Acts.{Repeats};
ghost use Rattle.evaluator.specs.Over.{repeated_as};
ghost use Rattle.block_stage.specs.Jobs.{shape_in, variable_in};
ghost use Rattle.stage_loop.specs.Fronts.{IsFront};
ghost use Rattle.whole_runs.specs.Trips.{IsQuietLoop, LeavesIn, trips_in};
ghost use Rattle.stage_loop.specs.Loops.{AreIntegers};

use crate::course::behind;
use crate::held::holds_loops;
use crate::kept::{Known, LoopHistory};
use crate::pace::{Pace, Size, Step, is_dear};
use crate::shown::{no_cells, shown_in, worth_showing};
use crate::size::{blocks_of, trips_in, workers_of};
use crate::watcher::{Observer, Watch};
use array_store::Whole;
use block_stage::{CellRun, Committed, Gate, Job, TripsLeft, cut, run_stage_in};
use evaluator::run_trips;
use meaning::ending::{Outcome, Run};
use meaning::plan::Plan;
use meaning::syntax::Loop;
use program::{Program, Repeat};
use std::alloc::Global;
use std::sync::Wait;
use std::thread::Threads;
use whole_runs::Advance as Progress;

// The first blocks of a stage, up to its cut: how many they are, what is taken of them, the turns
// that all its blocks used, and whether the first view was dear.
#[derive(Drop)]
struct CommittedFront {
    cut: usize,
    taken: Committed,
    turns: u64,
    is_dear: bool,
}

// What a stage did: how many trips, how they ended, and the turns that all its blocks used, also
// those past the cut.
#[derive(Clone, Copy)]
struct Stage {
    done: u64,
    outcome: Outcome,
    turns: u64,
    is_dear: bool,
}

// How far the loop came: how many trips more, how the last one ended, and the turns of all blocks,
// where it was a stage.
#[derive(Clone, Copy)]
struct Advance {
    done: u64,
    outcome: Outcome,
    turns: Option<u64>,
    is_dear: bool,
}

// Runs the blocks of a job, and takes those before the cut. None where memory was refused or the
// first block was lost.
fn take_blocks<'a, R: Threads + Wait + Sync, G: Gate + Sync, W: Observer>(
    rt: &R,
    alloc: Global,
    job: &Job<'a>,
    workers: u32,
    kept: &mut LoopHistory,
    gate: &'a G,
    watch: &Watch<'_, W>,
) -> Option<CommittedFront>
    requires { 0 < workers }
    ensures { IfSome result (λ f. IsFront job.now f.cut f.taken) }
{
    let spares = kept.take_spares(alloc);
    let posted = match run_stage_in(rt, alloc, job, workers, gate, spares) {
        Some(posted) => posted,
        None => return None,
    };
    let turns = posted.turns();
    let (used, weight) = posted.first_weight();
    let is_dear = is_dear(used, weight);
    let blocks = cut(&posted);
    watch.tell(&posted, blocks);
    if blocks == 0 {
        kept.keep_spares(posted.into_spares());
        return None;
    }
    Some(CommittedFront {
        cut: blocks,
        taken: posted.taken(blocks),
        turns,
        is_dear,
    })
}

// Runs some first trips as a stage, which stands on the cells themselves, and commits the blocks
// before its cut. None where memory was refused or the first block was lost, and nothing is done
// then.
fn run_blocks<R: Threads + Wait + Sync, G: Gate + Sync, W: Observer>(
    rt: &R,
    alloc: Global,
    program: &Program,
    repeated: &Loop,
    repeat: &Repeat,
    course: TripsLeft,
    most: u32,
    size: Size,
    shown: CellRun,
    last: Option<u64>,
    kept: &mut LoopHistory,
    cells: &mut Whole,
    turns: &mut u64,
    gate: &G,
    watch: &Watch<'_, W>,
) -> Option<Stage>
    requires quiet { IsQuietLoop program.now repeated.now }
    requires repeats { Repeats program.now repeat.now (shape_in repeated.now) }
    requires moves { course.step ≢ pos 0 }
    requires some { 0 < course.trips }
    requires most { 0 < most }
    requires fits { AreIntegers course.value course.step course.trips }
    requires sized { length cells.old ≡ count_in program.now }
    ensures some { IfSome result (λ s. 0 < s.done) }
    ensures done { IfSome result (λ s. s.done ≤ course.trips) }
    ensures leaves { IfSome result (λ s. LeavesIn program.now cells.old cells.new
        (repeated_as (items_in program.now) repeated.now course.value course.step s.done)
        turns.old turns.new s.outcome) }
    ensures nothing { IfNone result ((cells.new ≡ cells.old) × (turns.new ≡ turns.old)) }
    ensures len { length cells.new ≡ length cells.old }
{
    let Size { trips, blocks } = size;
    let size = trips;
    let blocks = blocks_of(course.trips, size, blocks);
    let workers = workers_of(most, blocks, last);
    let job = Job::over(
        program, repeated, repeat, cells, course, size, blocks, *turns,
    )
    .showing(shown);
    let front = match take_blocks(rt, alloc, &job, workers, kept, gate, watch) {
        Some(front) => front,
        None => return None,
    };
    drop(job);
    let CommittedFront {
        cut,
        taken,
        turns: all,
        is_dear,
    } = front;
    let run = taken.apply(cells);
    kept.keep_spares(taken.into_spares());
    *turns -= run.turns_used;
    Some(Stage {
        done: trips_in(cut as u64, size, course.trips),
        outcome: run.outcome,
        turns: all,
        is_dear,
    })
}

// Runs some first trips in order.
fn run_in_order(
    program: &Program,
    repeated: &Loop,
    course: TripsLeft,
    trips: u64,
    cells: &mut Whole,
    turns: &mut u64,
) -> Advance
    requires quiet { IsQuietLoop program.now repeated.now }
    requires some { 0 < course.trips }
    requires trips { 0 < trips }
    requires sized { length cells.old ≡ count_in program.now }
    ensures some { 0 < result.done }
    ensures done { result.done ≤ course.trips }
    ensures leaves { LeavesIn program.now cells.old cells.new
        (repeated_as (items_in program.now) repeated.now course.value course.step result.done)
        turns.old turns.new result.outcome }
    ensures len { length cells.new ≡ length cells.old }
{
    let done = trips.min(course.trips);
    match run_trips(
        program,
        repeated,
        course.value,
        course.step,
        done,
        cells,
        *turns,
    ) {
        Ok(run) => {
            *turns -= run.turns_used;
            Advance {
                done,
                outcome: run.outcome,
                turns: None,
                is_dear: false,
            }
        }
        // A whole store refuses no write.
        Err(_) => Advance {
            done,
            outcome: Outcome::Normal,
            turns: None,
            is_dear: false,
        },
    }
}

// The size of the next stage: the plan's, or what the trips are worth.
fn size_of(kept: &LoopHistory, pace: Pace, plan: &Plan, left: u64) -> Size {
    if kept.is_adaptive() {
        return pace.size(plan, left);
    }
    Size {
        trips: plan.block(),
        blocks: plan.window() as u32,
    }
}

// The turns that say how many workers the next stage has: those of the stage before, or what its
// blocks are likely to use.
fn turns_ahead(kept: &LoopHistory, pace: Pace, size: Size, last: Option<u64>) -> Option<u64> {
    if !kept.is_adaptive() {
        return last;
    }
    let trips = size.trips.saturating_mul(u64::from(size.blocks));
    // A thread is started for eight times what its start costs.
    Some(pace.turns_of(trips) / 8)
}

// The cells that are exposed from the start in the blocks of the next stage, by what is known of
// the range once this was asked; none where each DO statement is tried.
fn shown_ahead(
    alloc: Global,
    program: &Program,
    repeated: &Loop,
    kept: &LoopHistory,
    pace: Pace,
    size: Size,
    shown: &mut Option<CellRun>,
) -> CellRun {
    if !kept.is_adaptive() {
        return no_cells();
    }
    let run = match *shown {
        Some(run) => run,
        None => shown_in(alloc, program, repeated),
    };
    *shown = Some(run);
    worth_showing(run, pace, size)
}

// Runs some first trips as a stage, or in order where they aren't worth one, where no thread could
// help, or where none could be made.
fn run_next<R: Threads + Wait + Sync, G: Gate + Sync, W: Observer>(
    rt: &R,
    alloc: Global,
    program: &Program,
    repeated: &Loop,
    repeat: &Repeat,
    course: TripsLeft,
    plan: &Plan,
    pace: Pace,
    shown: &mut Option<CellRun>,
    last: Option<u64>,
    kept: &mut LoopHistory,
    cells: &mut Whole,
    turns: &mut u64,
    gate: &G,
    watch: &Watch<'_, W>,
) -> Advance
    requires quiet { IsQuietLoop program.now repeated.now }
    requires repeats { Repeats program.now repeat.now (shape_in repeated.now) }
    requires moves { course.step ≢ pos 0 }
    requires some { 0 < course.trips }
    requires fits { AreIntegers course.value course.step course.trips }
    requires sized { length cells.old ≡ count_in program.now }
    ensures some { 0 < result.done }
    ensures done { result.done ≤ course.trips }
    ensures leaves { LeavesIn program.now cells.old cells.new
        (repeated_as (items_in program.now) repeated.now course.value course.step result.done)
        turns.old turns.new result.outcome }
    ensures len { length cells.new ≡ length cells.old }
{
    if kept.is_adaptive() && !pace.is_worth(plan, course.trips) {
        return run_in_order(program, repeated, course, pace.chunk(), cells, turns);
    }
    let most = kept.workers_now(plan, watch.watcher);
    if kept.is_adaptive() && most < 2 {
        return run_in_order(program, repeated, course, pace.chunk(), cells, turns);
    }
    let size = size_of(kept, pace, plan, course.trips);
    let ahead = turns_ahead(kept, pace, size, last);
    let run = shown_ahead(alloc, program, repeated, kept, pace, size, shown);
    match run_blocks(
        rt, alloc, program, repeated, repeat, course, most, size, run, ahead, kept, cells, turns,
        gate, watch,
    ) {
        Some(stage) => Advance {
            done: stage.done,
            outcome: stage.outcome,
            turns: Some(stage.turns),
            is_dear: stage.is_dear,
        },
        None => run_in_order(program, repeated, course, size.trips, cells, turns),
    }
}

// What is known behind some trips more; of the first stage what its blocks used.
fn known_behind(known: Known, step: Step, is_first: bool) -> Known {
    let first = if is_first && step.all.is_some() {
        step.all
    } else {
        known.first
    };
    Known {
        pace: known.pace.behind(step),
        first,
        ..known
    }
}

// What is known of a DO statement at a line where so many of its trips are executed and others are
// ahead; a watcher is told of the first.
fn begun<W: Observer>(
    kept: &LoopHistory,
    line: u32,
    before: u64,
    trips: u64,
    turns: u64,
    watcher: &W,
) -> Known {
    if before == 0 {
        watcher.reached(line, trips);
    }
    kept.begin(line, before, turns)
}

// Keeps that the next trip is left to the caller, where none was executed before it and one is
// ahead; a watcher is told of it.
fn leave<W: Observer>(
    kept: &mut LoopHistory,
    line: u32,
    known: Known,
    done: u64,
    ahead: u64,
    turns: u64,
    watcher: &W,
) {
    if done == 0 && ahead > 0 {
        watcher.passed(line, 1);
        kept.leave(line, known, turns);
    }
}

// Whether the next trip is left to the caller: it is executed in order, and most of it are DO
// statements that may be worth stages.
fn is_left(kept: &LoopHistory, known: Known, plan: &Plan, repeated: &Loop, trips: u64) -> bool {
    let pace = known.pace;
    kept.is_adaptive()
        && !known.is_plain
        && !pace.is_worth(plan, trips)
        && pace.may_hold_stages()
        && holds_loops(&repeated.range)
}

/// Executes the range once for each trip, by stages, as far as trips aren't left to the caller; the
/// variable has its value in the first of them, before which so many were executed.
pub(crate) fn run_stages<R: Threads + Wait + Sync, G: Gate + Sync, W: Observer>(
    rt: &R,
    alloc: Global,
    program: &Program,
    repeated: &Loop,
    repeat: &Repeat,
    course: TripsLeft,
    before: u64,
    plan: &Plan,
    kept: &mut LoopHistory,
    cells: &mut Whole,
    turns: &mut u64,
    gate: &G,
    watcher: &W,
) -> Progress
    requires quiet { IsQuietLoop program.now repeated.now }
    requires repeats { Repeats program.now repeat.now (shape_in repeated.now) }
    requires moves { course.step ≢ pos 0 }
    requires fits { AreIntegers course.value course.step course.trips }
    requires sized { length cells.old ≡ count_in program.now }
    requires has { map_of program.now cells.old (variable_in repeated.now) [] ≡ course.value }
    ensures done { result.done ≤ course.trips }
    ensures leaves { LeavesIn program.now cells.old cells.new
        (trips_in program.now repeated.now course.value course.step result.done)
        turns.old turns.new result.outcome }
    ensures nothing { result.done ≡ 0 → (cells.new ≡ cells.old) × (turns.new ≡ turns.old) }
    ensures len { length cells.new ≡ length cells.old }
{
    let line = repeated.head.line;
    let mut known = begun(kept, line, before, course.trips, *turns, watcher);
    let mut last = known.first;
    let mut shown = None;
    let mut rest = course;
    while rest.trips > 0 && !is_left(kept, known, plan, repeated, rest.trips) {
        let passed = course.trips - rest.trips;
        let watch = Watch {
            watcher,
            line,
            done: before.saturating_add(passed),
        };
        let given = *turns;
        let Advance {
            done,
            outcome,
            turns: all,
            is_dear,
        } = run_next(
            rt, alloc, program, repeated, repeat, rest, plan, known.pace, &mut shown, last, kept,
            cells, turns, gate, &watch,
        );
        if all.is_none() {
            watcher.passed(line, done);
        }
        let step = Step {
            done,
            used: given.saturating_sub(*turns),
            all,
            is_dear,
        };
        known = known_behind(known, step, passed == 0);
        let passed = passed + done;
        kept.keep_behind(line, known, step, before.saturating_add(passed), *turns);
        let progress = Progress {
            done: passed,
            outcome,
        };
        if !progress.is_normal() {
            return progress;
        }
        rest = behind(rest, done);
        last = all;
    }
    let done = course.trips - rest.trips;
    leave(kept, line, known, done, rest.trips, *turns, watcher);
    Progress {
        done,
        outcome: Outcome::Normal,
    }
}
