//! The first use of a name that passes a test.
#![tactic(auto)]

mod uses;

pub use uses::first_passing;
