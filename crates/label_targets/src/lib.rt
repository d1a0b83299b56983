//! What is kept of the lists of a program unit: where its labels stand, and which DO statements
//! have output in their ranges; where in a slice of a list a transfer of control goes on (ANSI
//! X3.9-1978, 3.4, chapter 11 and 12.8).
#![tactic(auto)]

mod entries;
mod label_targets;
mod output;
mod places;
mod quiet;

pub use entries::place_in_slice;
pub use label_targets::LabelTargets;
pub use quiet::{is_quiet_list, output_of, statement_of};
