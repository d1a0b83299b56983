//! The board of a stage, and its workers.

mod board;
mod crew;
mod run;
