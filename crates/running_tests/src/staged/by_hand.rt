//! The board of a job in one thread: claims, posts and losses in a fixed order.

ghost use Rattle.std.specs.Prelude.{◌≡◌, ◌<◌};
ghost use Rattle.block_stage.specs.Jobs.{data_of};

use crate::staged::meeting::{STATES, see_only_stage};
use crate::staged::states::commit_checked;
use crate::staged::watch::Watch;
use array_store::Whole;
use block_stage::{
    Board, Cause, Event, Job, JobKey, Open, Posted, StageStats, Ticket, cut, run_block, told_of,
};
use std::alloc::Global;
use std::marker::Brand;
use std::process::Abort;
use std::sync::Wait;
use std::thread::Threads;

/// What a worker does at the board.
#[derive(Clone, Copy, Debug, PartialEq, Eq)]
pub enum Step {
    /// Asks for a block, and is given this one, or none.
    Claims(u32, Option<u32>),
    /// Runs a block, and posts the run, which is taken or not.
    Posts(u32, u32, bool),
    /// Gives a block up.
    Loses(u32, u32),
}

use Step::{Claims, Loses, Posts};

// Asks for the next block.
fn claim<J: JobKey, R: Abort>(rt: &R, board: &mut Board<'_, J>, worker: u32, wanted: Option<u32>)
    ensures { board.new.job ≡ board.old.job }
{
    assert!(rt; board.idle(worker), "{worker}");
    let given = match board.claim_in(worker) {
        Some(ticket) => Some(ticket.block),
        None => None,
    };
    assert!(rt; given == wanted, "{worker}");
}

// Runs a block of a job, and posts the run.
fn post<'a, J: JobKey, R: Abort>(
    rt: &R,
    alloc: Global,
    job: &Job<'a>,
    board: &mut Board<'a, J>,
    ticket: Ticket,
    wanted: bool,
)
    requires key { data_of job.now ≡ J.job }
    requires below { ticket.block < job.now.blocks }
    ensures { board.new.job ≡ board.old.job }
{
    match run_block::<J, Open>(alloc, job, ticket.block, &Open) {
        Ok(run) => assert!(rt; board.post_in(ticket, run) == wanted, "{ticket:?}"),
        Err(_) => assert!(rt; false, "{ticket:?}"),
    }
}

// Takes one step.
fn take_step<'a, J: JobKey, R: Abort>(
    rt: &R,
    alloc: Global,
    job: &Job<'a>,
    blocks: u32,
    board: &mut Board<'a, J>,
    step: Step,
)
    requires key { data_of job.now ≡ J.job }
    requires blocks { blocks ≡ job.now.blocks }
    ensures { board.new.job ≡ board.old.job }
{
    match step {
        Claims(worker, wanted) => claim(rt, board, worker, wanted),
        Posts(worker, block, wanted) => {
            assert!(rt; block < blocks, "{step:?}");
            post(rt, alloc, job, board, Ticket { worker, block }, wanted);
        }
        Loses(worker, block) => assert!(rt; board.lose_in(Ticket { worker, block }), "{step:?}"),
    }
}

// What is posted on the board of four workers behind these steps.
fn posted_in<'a, J: JobKey, R: Abort>(
    rt: &R,
    alloc: Global,
    job: &Job<'a>,
    blocks: u32,
    steps: &[Step],
) -> Posted<'a>
    requires key { data_of job.now ≡ J.job }
    requires blocks { blocks ≡ job.now.blocks }
    ensures { result.job ≡ job.now }
{
    let mut board: Board<'a, J> = Board::new(alloc, job, 4).expect(rt, "memory");
    for &step in steps {
        take_step(rt, alloc, job, blocks, &mut board, step);
    }
    board.close()
}

/// What is posted behind these steps on the board of four workers.
pub fn posted_by<'a, R: Abort>(
    rt: &R,
    alloc: Global,
    job: &Job<'a>,
    blocks: u32,
    steps: &[Step],
) -> Posted<'a>
    requires blocks { blocks ≡ job.now.blocks }
    ensures { result.job ≡ job.now }
{
    posted_in::<Brand, R>(rt, alloc, job, blocks, steps)
}

/// The steps of a stage, what the board tells of them, where it is cut, and the turns of the blocks
/// before that.
#[derive(Clone, Copy)]
pub struct ByHand {
    steps: &'static [Step],
    events: &'static [Event],
    cut: usize,
    turns: u64,
}

/// What is told of a stage of four blocks of two trips, one of which was lost.
fn told_with_a_loss(by_hand: &ByHand) -> StageStats {
    StageStats {
        trips: 8,
        size: 2,
        blocks: 4,
        run: 3,
        cut: by_hand.cut,
        turns: by_hand.turns,
        spent: 6,
        longest: 2,
        cause: Cause::Loss,
    }
}

/// Takes the steps of a stage, and commits it.
pub fn see_by_hand<R: Abort + Threads + Wait + Sync>(
    rt: &R,
    alloc: Global,
    job: &Job<'_>,
    blocks: u32,
    base: &Whole,
    by_hand: &ByHand,
)
    requires blocks { blocks ≡ job.now.blocks }
    requires base { base.now ≡ job.now.base }
{
    let mut target = Whole::new(alloc, base.cells()).expect(rt, "memory");
    let posted = posted_by(rt, alloc, job, blocks, by_hand.steps);
    assert!(rt; posted.events() == by_hand.events);
    let told = told_of(&posted, cut(&posted));
    assert!(rt; told == told_with_a_loss(by_hand), "{told:?}");
    let place = commit_checked(rt, posted, &mut target, STATES);
    assert!(rt; place == by_hand.cut, "{place}");
}

/// Of the copy through an array of subscripts, in four blocks of two trips, worker 1 loses block 1,
/// and comes back with it too late.
const SECOND_LOST: ByHand = ByHand {
    steps: &[
        Claims(0, Some(0)),
        Claims(1, Some(1)),
        Claims(2, Some(2)),
        Posts(2, 2, true),
        Loses(1, 1),
        Posts(0, 0, true),
        Claims(0, Some(3)),
        Posts(0, 3, true),
        Claims(0, None),
        Posts(1, 1, false),
        Claims(1, None),
    ],
    events: &[
        Event::Claim(Ticket {
            worker: 0,
            block: 0,
        }),
        Event::Claim(Ticket {
            worker: 1,
            block: 1,
        }),
        Event::Claim(Ticket {
            worker: 2,
            block: 2,
        }),
        Event::Post(Ticket {
            worker: 2,
            block: 2,
        }),
        Event::Lose(Ticket {
            worker: 1,
            block: 1,
        }),
        Event::Post(Ticket {
            worker: 0,
            block: 0,
        }),
        Event::Claim(Ticket {
            worker: 0,
            block: 3,
        }),
        Event::Post(Ticket {
            worker: 0,
            block: 3,
        }),
    ],
    cut: 1,
    turns: 2,
};

/// Worker 0 loses block 0.
const FIRST_LOST: ByHand = ByHand {
    steps: &[
        Claims(0, Some(0)),
        Claims(1, Some(1)),
        Claims(2, Some(2)),
        Posts(2, 2, true),
        Loses(0, 0),
        Posts(1, 1, true),
        Claims(1, Some(3)),
        Posts(1, 3, true),
        Claims(0, None),
    ],
    events: &[
        Event::Claim(Ticket {
            worker: 0,
            block: 0,
        }),
        Event::Claim(Ticket {
            worker: 1,
            block: 1,
        }),
        Event::Claim(Ticket {
            worker: 2,
            block: 2,
        }),
        Event::Post(Ticket {
            worker: 2,
            block: 2,
        }),
        Event::Lose(Ticket {
            worker: 0,
            block: 0,
        }),
        Event::Post(Ticket {
            worker: 1,
            block: 1,
        }),
        Event::Claim(Ticket {
            worker: 1,
            block: 3,
        }),
        Event::Post(Ticket {
            worker: 1,
            block: 3,
        }),
    ],
    cut: 0,
    turns: 0,
};

// Takes the steps for the only stage of the program.
fn play<R: Abort + Threads + Wait + Sync>(rt: &R, alloc: Global, by_hand: &ByHand) {
    see_only_stage(rt, alloc, &Watch::ByHand(by_hand));
}

#[test]
fn second_block_lost(rt: HostRuntime) {
    play(&rt, rt.alloc(), &SECOND_LOST);
}

#[test]
fn first_block_lost(rt: HostRuntime) {
    play(&rt, rt.alloc(), &FIRST_LOST);
}
