//! Blocks of the trips of a DO statement, each run by itself on a private view, and how many of
//! them are committed (own; after Rauchwerger and Padua, and Dang, Yu and Rauchwerger).
#![tactic(auto)]

mod block;
mod board;
mod causes;
mod cuts;
mod gate;
mod job;
mod place;
mod posted;
mod stage;
mod taken;
mod told;
mod trace;

pub use block::{BlockRun, Lost, run_block, run_block_in};
pub use board::Board;
pub use causes::{Cause, Dependence, cause_of};
pub use gate::{Gate, Open};
pub use job::{Job, JobKey};
pub use place::{CellRun, TripsLeft, value_at};
pub use posted::{Posted, cut};
pub use private_view::WriteSet;
pub use schedules::{Event, Ticket};
pub use stage::{run_stage, run_stage_in, run_stage_without};
pub use taken::Committed;
pub use told::{StageStats, told_of};
