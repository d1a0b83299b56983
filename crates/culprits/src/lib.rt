//! What breaks a rule K at a statement of a program unit (ANSI X3.9-1978, chapters 2 to 15), for
//! whoever tells people of it.
#![tactic(auto)]

mod asked;
mod counts;
mod culprit;
mod functions;
mod labels;
mod laws;
mod names;
mod others;
mod text;

pub use asked::culprit_of;
pub use culprit::{Culprit, Wanted};
pub use laws::tells_witnesses;
pub use text::add_text;
