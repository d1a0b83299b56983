//! What the statements of a program unit say of names (ANSI X3.9-1978, chapters 4, 5, 6, 8 and 15).
#![tactic(auto)]

mod arrays;
mod constants;
mod declared;
mod functions;
mod intrinsics;
mod items;
mod names;
mod stage;

pub use arrays::{Ranks, declarators_in};
pub use declared::{Types, is_implicit_none};
pub use functions::{Function, defined_by, is_specification};
pub use intrinsics::is_intrinsic;
pub use items::items_of;
pub use names::{
    Symbols, function_named, is_array_name, is_constant_name, is_function_name, is_other_name,
    letter_types_of, rank_of_name, type_of_name,
};
pub use stage::Stage;
