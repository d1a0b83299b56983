//! Formats: reading their texts, and editing values under them (ANSI X3.9-1978, chapter 13).
#![tactic(auto)]

mod editing;
mod fault;
mod format;
mod laws;
mod reading;
mod records;
mod sheet;

pub use editing::{edit, reverted};
pub use fault::{EditFault, FormatFault};
pub use format::{Descriptor, Format, Part};
pub use laws::one_format;
