//! The values of output lists over any store, and statements without output and the limits of DO
//! statements over a whole store, as equations of its map (ANSI X3.9-1978, 10.1, chapter 11 and
//! 12.8.2).
#![tactic(auto)]

mod listing;
mod trips;
mod whole;

pub use listing::list_values;
pub use trips::{Advance, Remaining, trips_whole, variable_whole};
pub use whole::{
    add_whole, condition_whole, item_whole, limits_whole, list_whole, set_whole, test_whole,
};
