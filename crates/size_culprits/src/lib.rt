//! What breaks the rule on the sizes of arrays (ANSI X3.9-1978, 5.1), for whoever tells people of
//! it.
#![tactic(auto)]

mod culprit;
mod laws;
mod sizes;
mod text;

pub use culprit::SizeCulprit;
pub use laws::tells_size_witnesses;
pub use sizes::large_array;
pub use text::add_size_text;
