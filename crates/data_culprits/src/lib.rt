//! What breaks the rule on DATA statements (ANSI X3.9-1978, chapter 9), for whoever tells people of
//! it.
#![tactic(auto)]

mod culprit;
mod faults;
mod items;
mod laws;
mod lists;
mod statements;
mod text;
mod values;

pub use culprit::DataCulprit;
pub use laws::tells_data_witnesses;
pub use statements::bad_data;
pub use text::add_data_text;
