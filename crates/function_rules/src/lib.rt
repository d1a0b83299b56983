//! The rules on subscripts, arguments, and functions (ANSI X3.9-1978, chapters 5 and 15). K8:
//! `add_miscounts`; K12: `add_bad_definitions`; K13: `add_unknown_functions`.
#![tactic(auto)]

mod arguments;
mod definitions;
mod functions;
mod measures;

pub use arguments::add_miscounts;
pub use definitions::add_bad_definitions;
pub use functions::add_unknown_functions;
