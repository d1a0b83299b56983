//! That what is told of the size of an array is a witness.

ghost use Rattle.size_culprits.specs.Witness.{TellsWitnesses};

/// By what is told of K7 a statement breaks that rule behind others; where nothing is told, it
/// keeps the rule.
pub fn tells_size_witnesses()
    ensures { TellsWitnesses }
{}
