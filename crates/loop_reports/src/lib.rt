//! What speculation did with the DO statements of a program, counted and told to people.
#![tactic(auto)]

mod advice;
mod counts;
mod lines;
mod loops;
mod noting;
mod row;
mod text;
mod trips;

pub use counts::{Counts, counts_ordered, counts_reached, counts_staged};
pub use lines::told_loops;
pub use loops::Loops;
pub use noting::{note_ordered, note_reached, note_staged};
pub use row::{Carried, Row, dependence_of};
pub use trips::{Trips, trips_of_block};
