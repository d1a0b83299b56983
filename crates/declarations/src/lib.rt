//! The constants and the arrays that the statements of a program unit define, and expressions that
//! have to be constants (ANSI X3.9-1978, 5.1, 6.1.3 and 8.6).
#![tactic(auto)]

mod arrays;
mod bounds;
mod known;
mod unknown;

pub use arrays::{Declared, declared_in, dimension_of};
pub use bounds::lacks_bound;
pub use known::{
    Own, Scope, Table, enter_name, leave_name, pass_constants, scope_of, table_of, value_of,
};
pub use unknown::is_no_constant;
