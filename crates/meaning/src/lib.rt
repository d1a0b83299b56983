//! The shared types of f77run, and in `specs/` the definitions that every contract speaks of.
#![tactic(auto)]

pub mod cell;
pub mod ending;
pub mod laws;
pub mod number;
pub mod plan;
pub mod refusal;
pub mod statement;
pub mod syntax;
