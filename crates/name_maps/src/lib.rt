//! What is kept by names, and sets of names, in the order in which the names came.
#![tactic(auto)]

mod keeping;
mod sets;

pub use keeping::add_first;
pub use sets::{add_name, has_name};
