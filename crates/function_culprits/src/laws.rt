//! That what is told of a statement function is a witness.

ghost use Rattle.function_culprits.specs.Witness.{TellsWitnesses};

/// By what is told of K12 a statement breaks that rule behind others; where nothing is told, it
/// keeps all of the rule but how deep statement functions may go and how large they may become.
pub fn tells_function_witnesses()
    ensures { TellsWitnesses }
{}
