//! What is told on standard error, in the form that editors know: where a rule is broken or a fault
//! happened, what is wrong there, and the lines of the source (GNU Coding Standards, "Formatting
//! Error Messages").
#![tactic(auto)]

mod explaining;
mod hinting;
mod knowing;
mod naming;
mod pointing;
mod putting;

pub use explaining::{About, Known, Matter, about_of, matter_of, matter_of_rule, put_about};
pub use hinting::{Cause, cause_of, tell_hint};
pub use knowing::{known_of, known_unread};
pub use naming::file_name;
pub use putting::{Texts, put, put_bytes, put_line, put_shown};
