//! That what is told of a number is a witness.

ghost use Rattle.number_culprits.specs.Witness.{TellsWitnesses};

/// By what is told of K6 a statement breaks that rule behind others; where nothing is told, it
/// keeps the rule.
pub fn tells_number_witnesses()
    ensures { TellsWitnesses }
{}
