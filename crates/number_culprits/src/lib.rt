//! What breaks the rule on integer constants and constant expressions (ANSI X3.9-1978, 4.3, 5.1.1
//! and 8.6), for whoever tells people of it.
#![tactic(auto)]

mod constants;
mod culprit;
mod great;
mod laws;
mod text;

pub use constants::{bad_number, none_of, table_behind};
pub use culprit::NumberCulprit;
pub use laws::tells_number_witnesses;
pub use text::add_number_text;
