//! The run of a program (ANSI X3.9-1978, chapters 10 to 13).
#![tactic(auto)]

mod halt;
mod quiet_loops;
mod run;
mod statement;
mod walk;

pub use halt::Halt;
pub use quiet_loops::{InOrder, QuietLoops};
pub use run::run_program;
pub use statement::execute_item;
