//! That what is told of a name is a witness.

ghost use Rattle.name_culprits.specs.Witness.{TellsWitnesses};

/// By what is told of K4 a statement breaks that rule behind others; where nothing is told, it
/// keeps all of the rule but what it says of letters, of variables that are functions too, and of
/// LOGICAL intrinsic functions.
pub fn tells_name_witnesses()
    ensures { TellsWitnesses }
{}
