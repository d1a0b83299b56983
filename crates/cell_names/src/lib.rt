//! The names of cells, with the subscripts of elements, for messages (ANSI X3.9-1978, 2.5 and 5.4).
#![tactic(auto)]

mod cells;
mod named;
mod names;
mod naming;

pub use named::Named;
pub use names::names_of;
pub use naming::{CellName, name_of_cell};
