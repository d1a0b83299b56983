//! The cells of a store.

/// The cell of a variable or of an array element (ANSI X3.9-1978, 5.4 and 17.1), by its number,
/// counted from 0.
#[derive(Clone, Copy, Debug, PartialEq, Eq)]
pub struct Cell(pub usize);
