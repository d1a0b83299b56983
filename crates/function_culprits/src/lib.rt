//! What breaks the rule on statement functions (ANSI X3.9-1978, 15.4), for whoever tells people of
//! it.
#![tactic(auto)]

mod culprit;
mod functions;
mod laws;
mod text;

pub use culprit::FunctionCulprit;
pub use functions::misdefined_name;
pub use laws::tells_function_witnesses;
pub use text::add_function_text;
