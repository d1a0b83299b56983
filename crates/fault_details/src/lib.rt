//! What a fault was about: the array with its subscripts and the bounds of the one that is outside,
//! the operands, or a value of an output list and the edit descriptor that it meets (ANSI
//! X3.9-1978, 5.4, 6.1, 6.6, 11.10 and 13.3). It is found by evaluating the statement once more
//! over the store as the fault left it, which is read and not changed. What it says is a fault of
//! that kind, in the terms of `meaning`; that the run met this one and no other of the statement
//! isn't promised, but tested.
#![tactic(auto)]

mod detail;
mod evaluation;
mod fields;
mod finding;
mod given;
mod output;
mod statement;
mod steady;
mod subscripts;
mod text;

pub use detail::{Detail, Field, Subscripts};
pub use finding::detail_of;
pub use text::add_text;
