//! What happens to the blocks of a stage.

/// A block in a worker's name, both by their numbers from 0. Anyone may make one: that the block is
/// out is told by the board alone.
#[derive(Clone, Copy, Debug, PartialEq, Eq)]
pub struct Ticket {
    /// The worker.
    pub worker: u32,
    /// The block.
    pub block: u32,
}

/// What happened to a block, in a worker's name.
#[derive(Clone, Copy, Debug, PartialEq, Eq)]
pub enum Event {
    /// It was given out.
    Claim(Ticket),
    /// Its run was put on the board.
    Post(Ticket),
    /// It was given up.
    Lose(Ticket),
}
