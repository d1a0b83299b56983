//! What a board has for a block.

/// What a board has for a block.
#[derive(Drop, Debug)]
pub enum BlockSlot<T> {
    /// It was neither posted nor lost: it waits, or is out.
    Open,
    /// Its run.
    Posted(T),
    /// Nothing: it was given up.
    Lost,
}
