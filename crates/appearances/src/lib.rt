//! The names of a program unit in the order of their first appearance, variables and then arrays,
//! and where its statement functions are defined (ANSI X3.9-1978, 2.5 and 15.4).
#![tactic(auto)]

mod functions;
mod numbers;

pub use functions::functions_in;
pub use numbers::variables_in_order;
