//! What breaks the rule on what names are (ANSI X3.9-1978, 8.1, 8.4 to 8.6 and 15.4), for whoever
//! tells people of it.
#![tactic(auto)]

mod culprit;
mod given;
mod laws;
mod names;
mod text;
mod used;

pub use culprit::{Giving, NameCulprit};
pub use laws::tells_name_witnesses;
pub use text::add_name_text;
pub use used::disputed_name;
