//! Where blocks may be watched.

/// What each block of a stage enters when the variable of its DO statement has its first value, and
/// before the first trip. A gate sees which blocks are under way, and changes nothing of what they
/// do.
pub trait Gate {
    /// A block enters.
    fn enter(&self, block: u32);
}

/// A gate that does nothing.
#[derive(Clone, Copy, Debug)]
pub struct Open;

impl Gate for Open {
    fn enter(&self, _block: u32) {}
}
