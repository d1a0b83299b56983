//! Sets of cells, and private views of a whole store.

mod changes;
mod runs;
mod sets;
mod views;
