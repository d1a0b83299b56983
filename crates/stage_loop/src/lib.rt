//! The whole of a DO statement without output, its trips by stages: in each stage the next blocks
//! of trips are run side by side (after Rauchwerger and Padua, and Dang, Yu and Rauchwerger).
#![tactic(auto)]

mod brief;
mod course;
mod do_statement;
mod held;
mod helpers;
mod kept;
mod pace;
mod shown;
mod size;
mod speculation;
mod stages;
mod watcher;

pub use block_stage::{Cause, Dependence, Gate, Open, StageStats};
pub use brief::Brief;
pub use do_statement::{run_loop, run_some_trips};
pub use kept::LoopHistory;
pub use speculation::{DoLoop, Speculation};
pub use watcher::{Observer, Unwatched};
