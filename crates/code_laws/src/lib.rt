//! What instructions are the code of an expression, or of an element's place, and why there may be
//! none: for those who make codes and those who run them (ANSI X3.9-1978, 5.4, 6.1, 6.6, 15.2 and
//! 15.4).
#![tactic(auto)]

ghost use Rattle.code_laws.specs.Functions.{FunctionsAreCalled};

mod no_code;

pub use no_code::NoCode;

/// Where each statement function has the code of its expression, running these codes gives the
/// functions' values.
pub fn functions_are_called()
    ensures { FunctionsAreCalled }
{}
