//! The lines and columns of a source, and bare texts.

mod bare_texts;
mod columns;
mod numbers;
