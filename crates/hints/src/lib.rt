//! One line of advice for what old sources have: the text of the line or the statement that is
//! refused, or at fault, and the rule that it breaks tell what to write instead. Where it has none
//! of the forms of `specs/Forms.antt`, there is no hint.
#![tactic(auto)]

mod advice;
mod faults;
mod hint;
mod pattern;
mod tables;
#[cfg(test)]
mod tests;
mod view;

pub use advice::hint_of;
pub use faults::hint_of_fault;
pub use hint::Hint;
