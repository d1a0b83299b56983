//! Statements without output, executed over any store (ANSI X3.9-1978, 10.1, chapter 11 and
//! 12.8.2).
#![tactic(auto)]

mod assignment;
mod control;
mod each;
mod forms;
mod limits;
mod passed;
mod places;
mod prepared;
mod quiet;
mod ranges;
mod sequence;
mod several;
mod shaped;
mod shapes;
mod slices;
mod statement;
mod target;

pub use assignment::{add_to, set_variable};
pub use control::{take_turn, test_arm, test_condition};
pub use limits::{Span, count_of, values_of_codes};
pub use passed::{Passed, behind_range, ended};
pub use places::place_of;
pub use quiet::{repeat_in, run_further_trips, run_list, run_loop, run_trips, while_in};
pub use shapes::{do_of, logical_if_of};
pub use slices::body_members;
pub use statement::run_item;
