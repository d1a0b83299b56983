//! What DATA statements give variables, arrays and elements, and the rule on them (ANSI X3.9-1978,
//! chapter 9). K10: `given_by_data`, `add_bad_data`.
#![tactic(auto)]

mod data_lists;
mod data_values;
mod elements;
mod filling;
mod further;
mod giving;
mod lacking;
mod starting;
mod trips;

pub use data_lists::is_counter;
pub use data_values::{Run, Values, constant_of, count_of, is_used_up, next_value, values_in};
pub use elements::{known_value, place_in};
pub use filling::{Filling, Way, differs, give_places};
pub use further::{OneMore, add_bad_data, pass_one_more};
pub use giving::{Giving, size_of};
pub use lacking::{Known, pass_names};
pub use starting::{Passed, counted_sets, given_by_data};
pub use trips::{Trips, next_trip, trips_of, value_of_trip};
