//! How the statements of a program unit nest (ANSI X3.9-1978, 3.5 and 11.6 to 11.10).
#![tactic(auto)]

mod effect;
mod nesting;
mod order;
mod unfinished;

pub use nesting::{Arranged, tree, tree_or_pairs};
