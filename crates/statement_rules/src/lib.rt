//! The rules on labels, transfers of control, the variables of DO statements, units and formats
//! (ANSI X3.9-1978, chapters 3, 11, 12 and 13). K1: `add_repeated_labels`; K2: `add_missed_labels`;
//! K9: `add_bad_loop_variables`; K11: `add_bad_output`, which hands on the formats that it read.
#![tactic(auto)]

mod control;
mod counters;
mod counts;
mod formats;
mod labels;
mod loops;
mod reach;
mod reading;
mod transfers;

pub use control::add_bad_loop_variables;
pub use formats::add_bad_output;
pub use labels::add_repeated_labels;
pub use reading::Formats;
pub use transfers::add_missed_labels;
