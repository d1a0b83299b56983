//! f77run for C: a source in memory is run in order, or checked, and what it writes comes into the
//! caller's memory. The functions that C calls are in `exports`; include/f77run.h declares them,
//! and the structs of `shown`.
#![tactic(auto)]

mod exports;
mod output;
mod shown;

pub use shown::{MESSAGE_ROOM, Place, RunReport, Verdict};
