//! What breaks a rule on lists of statements: a transfer of control, and the variable of a DO
//! statement (ANSI X3.9-1978, 11.1 to 11.4 and 11.10), for whoever tells people of it.
#![tactic(auto)]

mod culprit;
mod laws;
mod loops;
mod seats;
mod text;
mod transfers;

pub use culprit::{Kind, ListCulprit};
pub use laws::{seats_tell, tells_list_witnesses};
pub use loops::looped_name;
pub use seats::{ItemTest, Opener, Seat, seat_of};
pub use text::add_list_text;
pub use transfers::missed_label;
