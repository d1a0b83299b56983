//! Loops by stages: single blocks, where a stage is cut, boards by hand, all orders of posting,
//! blocks at once, and want of memory.

mod alone;
mod blocks;
mod by_hand;
mod faults;
mod hostile;
mod meeting;
mod orders;
mod refusals;
mod row;
mod seen;
mod spares;
mod states;
mod watch;
mod watching;
