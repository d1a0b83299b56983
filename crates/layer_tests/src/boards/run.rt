//! Runs for tests.

use schedules::{BlockSlot, Board, Numbered, Ticket};

/// A run of a block of a stage of so many.
#[derive(Drop, Debug)]
pub struct Run<const BLOCKS: u32> {
    pub block: u32,
    pub value: u32,
}

impl<const BLOCKS: u32> Numbered for Run<BLOCKS> {
    ghost number = { λ r. r.block };

    ghost blocks = { BLOCKS };
}

/// The next block, for a worker that may be busy.
pub fn claim<const BLOCKS: u32>(board: &mut Board<Run<BLOCKS>>, worker: u32) -> Option<Ticket> {
    if board.idle(worker) {
        board.claim_in(worker)
    } else {
        None
    }
}

/// Posts a run with a value.
pub fn post<const BLOCKS: u32>(
    board: &mut Board<Run<BLOCKS>>,
    worker: u32,
    block: u32,
    value: u32,
) -> bool {
    board.post_in(Ticket { worker, block }, Run { block, value })
}

/// Gives a block up.
pub fn lose<const BLOCKS: u32>(board: &mut Board<Run<BLOCKS>>, worker: u32, block: u32) -> bool {
    board.lose_in(Ticket { worker, block })
}

/// What a board has for a block: the value of its run, `None` where it is lost, 99 where it is
/// neither.
pub fn value_at<const BLOCKS: u32>(places: &[BlockSlot<Run<BLOCKS>>], block: usize) -> Option<u32> {
    match places.get(block) {
        Some(BlockSlot::Posted(run)) => Some(run.value),
        Some(BlockSlot::Lost) => None,
        Some(BlockSlot::Open) => Some(99),
        None => Some(99),
    }
}

/// Whether a board has these for its blocks, first to last.
pub fn are_alike<const BLOCKS: u32>(
    places: &[BlockSlot<Run<BLOCKS>>],
    wanted: &[Option<u32>],
) -> bool {
    for (block, value) in wanted.iter().enumerate() {
        if value_at(places, block) != *value {
            return false;
        }
    }
    places.len() == wanted.len()
}
