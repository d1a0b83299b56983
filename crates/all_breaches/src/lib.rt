//! What is told of a refused source behind the least pair: the other rules that it breaks in the
//! phase that refuses it.
#![tactic(auto)]

mod phases;
mod sorted;
mod texts;
mod unit_rules;

pub use phases::further_pairs;
