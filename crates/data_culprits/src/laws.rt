//! That what is told of DATA statements is a witness.

ghost use Rattle.data_culprits.specs.Witness.{TellsWitnesses};

/// By what is told of K10 a statement breaks that rule behind others, whether or not these keep it;
/// where nothing is told, it keeps it.
pub fn tells_data_witnesses()
    ensures { TellsWitnesses }
{}
