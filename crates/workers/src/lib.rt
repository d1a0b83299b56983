//! Workers of a stage (own): threads that claim blocks of one board, run them, and post the runs or
//! give them up.
#![tactic(auto)]

mod crew;
mod work;

pub use crew::{Desk, run_all};
pub use work::Work;
