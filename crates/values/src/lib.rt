//! The values of expressions in a program that keeps the rules, read from any store (ANSI
//! X3.9-1978, 5.4, 6.1, 6.6, 12.8.2 and chapter 15), by their codes, which name no names.
#![tactic(auto)]

mod codes;
mod listed;

pub use codes::{cell_by, matrix_in, number_in, number_of, value, value_by, vector_in};
pub use listed::{add_array, add_value};
