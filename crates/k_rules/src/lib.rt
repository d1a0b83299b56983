//! All rules on a program unit, and what is known of one that breaks none (ANSI X3.9-1978, chapters
//! 2 to 15).
#![tactic(auto)]

mod pairs;
mod verdict;

pub use pairs::add_all_but_data;
pub use verdict::{Facts, judge};
