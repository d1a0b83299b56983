//! From expressions to codes: instructions that leave an expression's value on a stack, and whether
//! that is a LOGICAL one (ANSI X3.9-1978, 6.1, 6.3, 6.4, 6.6, 15.2 and 15.4).
#![tactic(auto)]

mod appended;
mod appending;
mod code;
mod fusing;
mod kinds;
pub mod laws;
mod leaves;
mod scene;

pub use code::{code_of, place_of};
pub use kinds::{Frame, is_logical};
pub use scene::Scene;
