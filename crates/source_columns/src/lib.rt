//! The statements of a source by its lines and columns (ANSI X3.9-1978, 3.1 to 3.4).
#![tactic(auto)]

mod all_broken;
mod cards;
mod excerpt;
mod labels;
mod lines;
mod reading;
mod statement_lines;

pub use all_broken::broken_lines;
pub use excerpt::{line_at, next_continuation};
pub use reading::statements;
