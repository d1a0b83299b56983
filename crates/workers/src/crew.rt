//! Threads that run the blocks of one board.

ghost use Rattle.std.specs.Prelude.{◌≡◌, ◌==◌, ◌&&◌, ◌+◌, ◌^◌, ◌≤◌, ◌<◌, ℕ, IfSome, IsTrue, nat_lt};
ghost use Rattle.std.specs.Int.{bit_at};
ghost use Rattle.std.specs.Thread.{IsSync, IsSend};
ghost use Rattle.schedules.specs.Schedules.{SettledOnce};
ghost use Rattle.schedules.specs.Boards.{AreEnded};

use crate::work::Work;
use schedules::{Board, Numbered, Ticket};
use std::sync::{Mutex, Wait};
use std::thread::{Threads, join};

/// What workers share under one lock: the board, and what no block has been handed yet of that in
/// which runs can be kept. A spare is handed out in the section of a claim.
#[derive(Drop)]
pub struct Desk<T: Numbered + Drop, S: Drop> {
    /// The board.
    pub board: Board<T>,
    /// The spares.
    pub spares: Vec<S>,
}

// A block that was given out, and what its run may be kept in.
#[derive(Drop)]
struct Claimed<S: Drop> {
    ticket: Ticket,
    spare: Option<S>,
}

// The next block for a worker.
fn claim<T: Numbered + Drop, S: Drop, R: Wait>(
    rt: &R,
    shared: &Mutex<Desk<T, S>>,
    worker: u32,
) -> Option<Claimed<S>>
    ensures { IfSome result (λ c. c.ticket.block < T.blocks) }
{
    let mut guard = shared.lock(rt);
    let desk = &mut *guard;
    if !desk.board.idle(worker) {
        return None;
    }
    match desk.board.claim_in(worker) {
        Some(ticket) => Some(Claimed {
            ticket,
            spare: desk.spares.pop(),
        }),
        None => None,
    }
}

// Puts what came of a block on the board.
fn put<T: Numbered + Drop, S: Drop, R: Wait>(
    rt: &R,
    shared: &Mutex<Desk<T, S>>,
    ticket: Ticket,
    run: T,
)
    requires { T.number run ≡ ticket.block }
{
    let mut guard = shared.lock(rt);
    let _ = guard.board.post_in(ticket, run);
}

// Gives a block up.
fn give_up<T: Numbered + Drop, S: Drop, R: Wait>(
    rt: &R,
    shared: &Mutex<Desk<T, S>>,
    ticket: Ticket,
) {
    let mut guard = shared.lock(rt);
    let _ = guard.board.lose_in(ticket);
}

// Runs blocks until all are given out.
fn work_on<T: Numbered + Drop, S: Drop, W: Work<T, S>, R: Wait>(
    rt: &R,
    work: &W,
    shared: &Mutex<Desk<T, S>>,
    worker: u32,
    blocks: u32,
) {
    for _ in 0..blocks {
        let Some(claimed) = claim(rt, shared, worker) else {
            return;
        };
        let Claimed { ticket, spare } = claimed;
        match work.run(ticket.block, spare) {
            Some(run) => put(rt, shared, ticket, run),
            None => give_up(rt, shared, ticket),
        }
    }
}

// Whether a worker isn't to be started. The first one is the calling thread, and always works.
fn is_missing(missing: u64, worker: u32) -> bool
    ensures { result ≡ (nat_lt 0 worker && nat_lt worker 64 && bit_at missing worker == 1) }
{
    0 < worker && worker < 64 && missing >> worker & 1 == 1
}

// The workers up to one: it is in the calling thread if it is the first; each other is in a thread
// of its own where one can be made, and in none if it is missing.
#[cycle(line)]
fn work_up_to<
    T: Numbered + Drop + Send,
    S: Drop + Send,
    W: Work<T, S> + Sync,
    R: Threads + Wait + Sync,
>(rt: &R, work: &W, shared: &Mutex<Desk<T, S>>, blocks: u32, missing: u64, worker: u32) {
    if worker == 0 {
        work_on(rt, work, shared, 0, blocks);
        return;
    }
    if is_missing(missing, worker) {
        work_up_to(rt, work, shared, blocks, missing, worker - 1);
        return;
    }
    join(
        rt,
        move ||
            requires { IsSync R.row × IsSync W.row × IsSend T.row × IsSend S.row }
        { work_on(rt, work, shared, worker, blocks) },
        move ||
            requires { IsSync R.row × IsSync W.row × IsSend T.row × IsSend S.row × (0 < worker) }
        { work_up_to(rt, work, shared, blocks, missing, worker - 1) },
    );
}

// The workers up to one behind the first, and before their threads one that does nothing. Linux
// hands the first thread that a running thread starts to the processor of that one, where it waits
// for some milliseconds, and those behind it to other processors: so no worker waits there.
fn work_apart<
    T: Numbered + Drop + Send,
    S: Drop + Send,
    W: Work<T, S> + Sync,
    R: Threads + Wait + Sync,
>(rt: &R, work: &W, shared: &Mutex<Desk<T, S>>, blocks: u32, missing: u64, last: u32) {
    join(
        rt,
        || {},
        move ||
            requires { IsSync R.row × IsSync W.row × IsSend T.row × IsSend S.row }
        { work_up_to(rt, work, shared, blocks, missing, last) },
    );
}

/// Runs the blocks of a board by so many workers at once, each in a thread of its own where one can
/// be made, and the first in the caller's; worker k, for k from 1 to 63, isn't started where bit k
/// of `missing` is set. Each block's run is handed one of the spares, while there are any.
/// Afterwards each block was posted or lost, once.
pub fn run_all<
    T: Numbered + Drop + Send,
    S: Drop + Send,
    W: Work<T, S> + Sync,
    R: Threads + Wait + Sync,
>(rt: &R, desk: Desk<T, S>, work: &W, blocks: u32, workers: u32, missing: u64) -> Desk<T, S>
    requires some { 0 < workers }
    requires room { workers < 2 ^ 32 }
    ensures once { SettledOnce T.blocks result.board.events }
    ensures ended { AreEnded result.board.places }
{
    let shared = Mutex::new(desk);
    if workers == 1 {
        work_on(rt, work, &shared, 0, blocks);
    } else {
        work_apart(rt, work, &shared, blocks, missing, workers - 1);
    }
    let mut desk = shared.into_inner();
    desk.board.settle();
    desk
}
