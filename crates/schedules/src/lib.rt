//! Schedules of a stage (own): which blocks are given out to workers, and which came back with a
//! run or were given up.
#![tactic(auto)]

mod board;
mod closed;
mod event;
mod numbered;
mod place;

pub use board::Board;
pub use closed::Closed;
pub use event::{Event, Ticket};
pub use numbered::Numbered;
pub use place::BlockSlot;
