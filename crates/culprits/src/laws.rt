//! That what is told is a witness.

ghost use Rattle.culprits.specs.Witness.{TellsWitnesses};

/// By what is told of a rule and a line, the first statement of that line breaks the rule; where
/// nothing is told of a rule K other than K4 and K12, that statement keeps it, of K4 all but
/// letters, variables that are functions too, and LOGICAL intrinsic functions, and of K12 all but
/// how deep statement functions may go and how large they may become.
/// `list_culprits::seats_tell` says what the seats of statements are.
pub fn tells_witnesses()
    ensures { TellsWitnesses }
{}
