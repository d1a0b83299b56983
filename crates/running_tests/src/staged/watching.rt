//! Runs of a program in which the first stage of each DO statement is looked at, before the
//! statement is executed.

ghost use Rattle.std.specs.Prelude.{◌≡◌, ◌≢◌, ◌-◌, ◌*◌, ◌<◌, pos, length};
ghost use Rattle.storage.specs.Checked.{count_in};
ghost use Rattle.whole_runs.specs.Trips.{IsQuietLoop};
ghost use Rattle.stage_loop.specs.Loops.{AreIntegers};
ghost use Rattle.executor.specs.Calls.{IsAsked, IsGiven};

use crate::staged::watch::{Watch, see};
use array_store::Whole;
use block_stage::{Job, TripsLeft};
use evaluator::{Span, count_of};
use executor::run::run_by;
use executor::{InOrder, Out, QuietLoops, Staged, Unwatched};
use meaning::ending::Ending;
use meaning::syntax::Loop;
use program::{Program, Repeat};
use std::alloc::Global;
use std::process::Abort;
use std::sync::Wait;
use std::sync::atomic::{AtomicU64, Ordering};
use std::thread::Threads;
use whole_runs::{Advance, Remaining};

/// How a source ended whose DO statements were looked at, what it wrote, and how many of them were
/// looked at.
#[derive(Drop)]
pub struct Watched {
    pub ending: Ending,
    pub written: Vec<u8>,
    pub looked: u64,
}

// Looks at the first stage of each DO statement, and executes it in order.
#[derive(Drop)]
struct Watching<'a, R: Abort> {
    rt: &'a R,
    alloc: Global,
    // How many trips a block has, and how many blocks a stage at most.
    block: u64,
    window: u32,
    // What is done with each stage.
    watch: &'a Watch<'a>,
    // How many DO statements were looked at.
    looked: AtomicU64,
}

// How many blocks a stage has.
fn blocks_of(left: u64, block_size: u64, window: u32) -> u32
    requires left { 0 < left }
    requires block { 0 < block_size }
    requires window { 0 < window }
    ensures some { 0 < result }
    ensures last { (result - 1) * block_size < left }
{
    let whole = (left - 1) / block_size;
    if whole < u64::from(window) {
        return whole as u32 + 1;
    }
    window
}

// Looks at the first stage of a DO statement whose limits have these values.
fn look_at<R: Abort + Threads + Wait + Sync>(
    watching: &Watching<'_, R>,
    program: &Program,
    repeated: &Loop,
    base: &Whole,
    course: TripsLeft,
    turns_left: u64,
)
    requires quiet { IsQuietLoop program.now repeated.now }
    requires sized { length base.now ≡ count_in program.now }
    requires moves { course.step ≢ pos 0 }
    requires fits { AreIntegers course.value course.step course.trips }
{
    let rt = watching.rt;
    assert!(rt; watching.block > 0);
    assert!(rt; watching.window > 0);
    assert!(rt; course.trips > 0);
    let blocks = blocks_of(course.trips, watching.block, watching.window);
    let job = Job::new(
        program,
        repeated,
        base,
        course,
        watching.block,
        blocks,
        turns_left,
    );
    see(rt, watching.alloc, &job, blocks, base, watching.watch);
    let _ = watching.looked.fetch_add(1, Ordering::SeqCst);
}

// Looks at the first stage of a DO statement.
fn look<R: Abort + Threads + Wait + Sync>(
    watching: &Watching<'_, R>,
    program: &Program,
    repeated: &Loop,
    remaining: Remaining,
    cells: &Whole,
    turns_left: u64,
)
    requires quiet { IsQuietLoop program.now repeated.now }
    requires sized { length cells.now ≡ count_in program.now }
    requires moves { remaining.span.step ≢ pos 0 }
{
    let rt = watching.rt;
    let Span { first, step, .. } = remaining.span;
    let trips = count_of(remaining.span);
    assert!(rt; trips == remaining.trips);
    let course = TripsLeft {
        value: first,
        step,
        trips,
    };
    look_at(watching, program, repeated, cells, course, turns_left);
}

// Looks at the first stage of a DO statement, and executes its trips in order.
fn look_and_run<R: Abort + Threads + Wait + Sync>(
    watching: &Watching<'_, R>,
    program: &Program,
    repeated: &Loop,
    repeat: &Repeat,
    remaining: Remaining,
    cells: &mut Whole,
    turns: &mut u64,
) -> Advance
    requires { IsAsked program.now repeated.now repeat.now remaining cells.old }
    ensures { IsGiven program.now repeated.now remaining cells.old cells.new
        turns.old turns.new result }
{
    look(watching, program, repeated, remaining, cells, *turns);
    InOrder.run_trips(program, repeated, repeat, remaining, cells, turns)
}

// How a source ends whose DO statements are looked at, and what it writes.
fn run<R: Abort + Threads + Wait + Sync>(
    watching: &Watching<'_, R>,
    source: &[u8],
    turns: u64,
) -> (Ending, Vec<u8>) {
    let staged = Staged {
        call: |program: &Program, repeated: &Loop, repeat: &Repeat, remaining: Remaining, cells: &mut Whole, turns: &mut u64| -> Advance
            requires { IsAsked program.now repeated.now repeat.now remaining cells.now }
            ensures { IsGiven program.now repeated.now remaining cells.old cells.new
                turns.old turns.new result }
        { look_and_run(watching, program, repeated, repeat, remaining, cells, turns) },
        watcher: &Unwatched,
    };
    let mut sink = Out::new(Vec::new(watching.alloc));
    let report = run_by(watching.alloc, &staged, source, turns, &mut sink);
    (report.ending, sink.into_inner())
}

/// The run of a source whose DO statements are looked at, each in blocks of so many trips, of which
/// a stage has so many at most.
pub fn run_watched<R: Abort + Threads + Wait + Sync>(
    rt: &R,
    alloc: Global,
    watch: &Watch<'_>,
    block: u64,
    window: u32,
    source: &[u8],
    turns: u64,
) -> Watched {
    let watching = Watching {
        rt,
        alloc,
        block,
        window,
        watch,
        looked: AtomicU64::new(0),
    };
    let (ending, written) = run(&watching, source, turns);
    Watched {
        ending,
        written,
        looked: watching.looked.load(Ordering::SeqCst),
    }
}
