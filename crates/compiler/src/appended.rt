//! What is known of instructions that give a value.

use postfix::Change;

/// How much room they need, and their last one, where that is a change of a number which those
/// before it give.
#[derive(Clone, Copy)]
pub struct Appended {
    /// How many numbers of the stack they need at most.
    pub needs: usize,
    /// The change that is the last one; `None` where that isn't known.
    pub last: Option<Change>,
}
