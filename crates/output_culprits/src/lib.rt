//! What breaks the rule on units and formats (ANSI X3.9-1978, 12.3, 12.4 and 13.1), for whoever
//! tells people of it.
#![tactic(auto)]

mod culprit;
mod laws;
mod pieces;
mod statements;
mod text;

pub use culprit::OutputCulprit;
pub use laws::tells_output_witnesses;
pub use statements::bad_output;
pub use text::add_output_text;
