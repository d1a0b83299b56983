//! What the rules on a program unit have in common: one pass over its statements, or over its
//! lists, that adds the pair of each line at which a rule is broken. And the one for IMPLICIT NONE,
//! a part of K4, which needs no more than the statements.
#![tactic(auto)]

mod broken;
mod either;
mod implicits;
mod pass;
mod within;

pub use broken::add_broken;
pub use either::Either;
pub use implicits::Rivals;
pub use pass::{Behind, add_told};
pub use within::{Within, add_in};
