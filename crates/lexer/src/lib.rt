//! Statements' texts before they are read: the bare text, and which statement it can be.
#![tactic(auto)]

mod bare_text;
mod laws;
mod scan;
mod statement_kind;
mod symbolic_name;

pub use bare_text::{bare, bare_bytes};
pub use laws::{balanced_by_counts, bare_by_places};
pub use scan::{begins, behind_closing_parenthesis, has_equals_sign, is_balanced, is_too_deep};
pub use statement_kind::{begins_with_digit, kind, kind_of_text};
pub use symbolic_name::{is_alphanumeric, is_symbolic_name};
