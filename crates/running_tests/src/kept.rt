//! The codes that a program keeps of its statements.

mod actions;
mod lengths;
mod sources;

pub use sources::program_of;
