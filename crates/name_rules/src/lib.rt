//! The rule on what names are: what statements give them, and uses against that (ANSI X3.9-1978,
//! chapters 4, 8, 15 and 18). K4: `add_name_conflicts`.
#![tactic(auto)]

mod against;
mod conflicts;
mod given;
mod givings;
mod letters;
mod logicals;
mod twofold;

pub use conflicts::add_name_conflicts;
