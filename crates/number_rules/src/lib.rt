//! The rules on integer constants, constant expressions and the sizes of arrays (ANSI X3.9-1978,
//! chapters 4, 5 and 8). K6: `add_bad_constants`; K7: `add_large_arrays`.
#![tactic(auto)]

mod great;
mod numbers;
mod sizes;

pub use numbers::add_bad_constants;
pub use sizes::add_large_arrays;
