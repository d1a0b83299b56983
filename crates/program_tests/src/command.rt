//! The program without its streams, and its command line: which words ask for which plan and file,
//! and what a run answers where reads and writes fail.

mod runs;
mod words;
