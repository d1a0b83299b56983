//! What the statements and the statement functions of programs that keep the rules are executed by
//! (ANSI X3.9-1978, chapters 6, 10 to 12 and 15).
#![tactic(auto)]

mod arms;
mod assigning;
mod codes;
mod functions;
mod items;
mod lists;
mod lower;
mod preparing;
mod statement;
mod stopping;

pub use lower::lowered;
