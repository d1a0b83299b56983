//! As what a statement is read, by the kind that its bare text has, for whoever tells why it has no
//! reading (ANSI X3.9-1978, 3.3 and 7 to 15).
#![tactic(auto)]

mod kinds;
#[cfg(test)]
mod tests;
mod words;

pub use kinds::{Reading, reading_at};
pub use words::add_reading;
