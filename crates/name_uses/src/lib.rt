//! The uses of names in expressions and statements, and the names that were seen (ANSI X3.9-1978,
//! 18.1 and 18.2).
#![tactic(auto)]

mod hiding;
mod references;
mod seen;
mod statements;
mod used;
mod uses;

pub use hiding::{Outside, Shown, is_dummy};
pub use references::{is_bare, is_function_use};
pub use seen::{add_names, has_seen, names_passing, repeats, set_of};
pub use statements::{add_reads, add_sets};
pub use used::{reads_of, uses_of};
pub use uses::{Arguments, NameUse, Sought, add_uses, has_passing};
