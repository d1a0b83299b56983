//! Where a name, a number or a label stands in the lines of a statement (ANSI X3.9-1978, 3.1 to
//! 3.3), for whoever points at it.
#![tactic(auto)]

mod cards;
mod marks;
mod places;
mod scan;

pub use places::{Place, place_of};

#[cfg(test)]
mod tests;
