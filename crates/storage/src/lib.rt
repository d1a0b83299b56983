//! Programs that keep the rules, numbered, which tell of names, labels and formats (ANSI X3.9-1978,
//! 2.12, 5.4, 8.6 and 15.4).
#![tactic(auto)]

mod parts;
mod program;
mod queries;

pub use parts::{Entry, FunctionAt, Parts, Storage};
pub use program::CheckedProgram;
