//! The program without its streams: what it reads, writes and answers. The program itself, which
//! only hands over the standard streams, is a crate of its own: a check of a program reads
//! everything that it is linked with, and one of a library doesn't.
#![tactic(auto)]

mod idle;
mod lines;
mod notes;
mod remembering;
mod running;
mod telling;

pub use running::engine;
