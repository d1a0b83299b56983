//! The DO statements of a program unit in their order, and which of them are loops by stages: those
//! without output in their ranges that stand in no other such one (ANSI X3.9-1978, 11.10 and 12.8).
#![tactic(auto)]

mod listing;

pub use listing::{DoStatement, Standing, do_statements};
