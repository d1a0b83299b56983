//! Tests of the program without its streams: which plan and file a command line names, and what a
//! run answers where readers and writers fail.
#![tactic(auto)]

#[cfg(test)]
mod command;
