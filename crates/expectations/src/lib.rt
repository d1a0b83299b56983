//! The expressions of a statement, each with the type that its place asks for (ANSI X3.9-1978,
//! chapters 5 to 13).
#![tactic(auto)]

mod expected;

pub use expected::{Expectation, expectations_of};
