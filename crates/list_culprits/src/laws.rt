//! That the seats are the statements of the program unit, and that what is told is a witness.

ghost use Rattle.meaning.specs.Trees.{Nested};
ghost use Rattle.list_culprits.specs.Seats.{Seat, SeatsTell};
ghost use Rattle.list_culprits.specs.Witness.{TellsWitnesses};

/// The statements in their seats are those of the program unit, and a rule on lists is told of each
/// by what its seat says.
pub fn seats_tell()
    ensures { (t : Nested) → SeatsTell t }
{}

/// By what is told of K2 or K9 a statement breaks that rule in its seat; where nothing is told it
/// keeps it.
pub fn tells_list_witnesses()
    ensures { (t : Nested) (z : Seat) → TellsWitnesses t z }
{}
