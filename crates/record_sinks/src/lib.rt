//! Where records go: sinks, a sink over any writer, and whole pieces put into one (ANSI X3.9-1978,
//! 12.1).
#![tactic(auto)]

mod sink;

pub use sink::{Out, Refused, Sink, put_all};
