//! Programs with the instructions that their statements and statement functions are executed by
//! (ANSI X3.9-1978, chapters 6, 10 to 12 and 15).
#![tactic(auto)]

mod action;
mod actions;
mod lists;
mod program;

pub use action::{Action, ListCode, ListCodes, Repeat, Target, WholeArray};
pub use actions::Actions;
pub use lists::Lists;
pub use program::Program;
