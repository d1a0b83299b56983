//! Forms: what they say, the deepest and the longest texts that are read, and those that are too
//! deep.

mod depths;
mod shapes;
