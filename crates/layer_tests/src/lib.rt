//! Tests of the layers below the runs: the lines and columns of a source, and bare texts; forms;
//! formats; stores, sets of cells and private views; the board of a stage and its workers.
#![tactic(auto)]

#[cfg(test)]
mod boards;
#[cfg(test)]
mod formats;
#[cfg(test)]
mod forms;
#[cfg(test)]
mod sources;
#[cfg(test)]
mod stores;
#[cfg(test)]
mod views;
