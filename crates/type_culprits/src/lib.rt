//! What is of the wrong type in a statement (ANSI X3.9-1978, chapter 6), for whoever tells people
//! of it.
#![tactic(auto)]

mod clashes;
mod culprit;
mod laws;
mod naming;
mod statements;
mod text;
mod words;

pub use culprit::{Asker, Place, TypeCulprit};
pub use laws::tells_type_witnesses;
pub use statements::wrong_type;
pub use text::add_type_text;
pub use words::first_word;
