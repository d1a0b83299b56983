//! The cells that a program's variables and arrays are kept in (ANSI X3.9-1978, chapters 5 and 17).
#![tactic(auto)]

mod store;
mod whole;

pub use store::Store;
pub use whole::Whole;
