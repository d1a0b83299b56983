//! The command line of f77run: what its words ask for, what is wrong with them, and the texts that
//! it shows of itself.
#![tactic(auto)]

pub mod asked;
mod culprits;
pub mod help;
pub mod options;
mod reading;
