//! What DO statements are run with by stages.

use meaning::plan::Plan;
use meaning::syntax::Loop;
use program::{Program, Repeat};
use std::alloc::Global;

/// What speculates: who starts threads, where memory comes from, how many workers and blocks there
/// are, and what each block enters.
#[derive(Drop)]
pub struct Speculation<'a, R, G> {
    /// Who starts threads.
    pub rt: &'a R,
    /// Where memory comes from.
    pub alloc: Global,
    /// How many workers there are, how many trips a block has, and how many blocks a stage.
    pub plan: &'a Plan,
    /// What each block enters.
    pub gate: &'a G,
}

/// A DO statement of a program with its range, and what it needs, which was looked up.
#[derive(Clone, Copy)]
pub struct DoLoop<'a> {
    /// The program in which it stands.
    pub program: &'a Program,
    /// The statement and its range.
    pub repeated: &'a Loop,
    /// What it needs.
    pub repeat: &'a Repeat,
}
