//! What a board hands on.

use crate::event::Event;
use crate::place::BlockSlot;

/// What a board hands on when it is closed.
#[derive(Drop)]
pub struct Closed<T> {
    /// What it had for each block.
    pub places: Vec<BlockSlot<T>>,
    /// What happened, first to last.
    pub events: Vec<Event>,
}
