//! Programs that keep the rules, numbered for their execution (ANSI X3.9-1978, 2.5, 2.12, chapters
//! 5, 8, 9, 13 and 15).
#![tactic(auto)]

mod checked;
mod entries;
mod rules;
mod starts;

pub use checked::check;
