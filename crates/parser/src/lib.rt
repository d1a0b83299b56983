//! Bare texts as forms.
#![tactic(auto)]

mod control;
mod declarators;
mod expression;
mod initial_values;
mod left_out;
mod list;
mod output;
mod read_error;
mod specification;
mod statement;
mod token;

pub use statement::form;
