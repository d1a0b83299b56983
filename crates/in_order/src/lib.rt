//! From the bytes of a source to a program, and its run in order (ANSI X3.9-1978, chapters 2 to
//! 18).
#![tactic(auto)]

mod run;
mod source;

pub use run::{run_by, run_in_order};
pub use source::{program_in, unit_in};
