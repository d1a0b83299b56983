//! The rules on the types of names and expressions (ANSI X3.9-1978, 4.1.2, 4.4 and chapter 6). K3:
//! `add_real_names`; K5: `add_wrong_types`.
#![tactic(auto)]

mod mistyped;
mod reals;
mod types;
mod typing;

pub use reals::add_real_names;
pub use types::add_wrong_types;
