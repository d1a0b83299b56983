//! That what is told of units and formats is a witness.

ghost use Rattle.output_culprits.specs.Witness.{TellsWitnesses};

/// By what is told of K11 a statement breaks that rule behind others; where nothing is told, it
/// keeps the rule.
pub fn tells_output_witnesses()
    ensures { TellsWitnesses }
{}
