//! That what is told of a type is a witness.

ghost use Rattle.type_culprits.specs.Witness.{TellsWitnesses};

/// By what is told of K5 a statement breaks that rule behind others; where nothing is told, it
/// keeps the rule.
pub fn tells_type_witnesses()
    ensures { TellsWitnesses }
{}
