//! Laws of lines, of constants, of execution, of cells and of formats (ANSI X3.9-1978, chapters 3
//! to 5 and 10 to 13), for those who build on their parts.

ghost use Rattle.std.specs.Prelude.{ℕ, List};
ghost use Rattle.meaning.specs.Arrays.{Dimension, Named, AreOneToOne, HaveOwnCells};
ghost use Rattle.meaning.specs.FormatLaws.{IsReadBack, MoreRepeatsChangeNothing};
ghost use Rattle.meaning.specs.Lines.{StatementLine};
ghost use Rattle.meaning.specs.LoopLaws.{RangesLeaveVariables, VariableIsLeft, VariableGoesOn};
ghost use Rattle.meaning.specs.LoopLaws.{TheirNumberCounts, PutAgain};
ghost use Rattle.meaning.specs.Statements.{IsGrouped};
ghost use Rattle.meaning.specs.TransferLaws.{TransfersArrive, TransfersStay};
ghost use Rattle.meaning.specs.Turns.{IsItsPass, UsesWhatIsGiven, MoreTurnsChangeNothing};
ghost use Rattle.meaning.specs.Turns.{EnoughTurnsAreEnough, TripsAreBounded, TripsSplit};

/// The lines of a source that are no comments are, in order, those with no initial line before them
/// and then groups of an initial line and the continuation lines behind it.
pub fn lines_are_grouped()
    ensures { (lines : List StatementLine) → IsGrouped lines }
{}

/// Executing a list of statements is one pass over it, in which each range is executed likewise.
pub fn execution_is_its_pass()
    ensures { IsItsPass }
{}

/// A run uses no more turns than it is given.
pub fn turns_used_are_given()
    ensures { UsesWhatIsGiven }
{}

/// A run that didn't meet the turn limit is the same with more turns: its outcome, what it leaves,
/// what it writes and the turns that it uses.
pub fn more_turns_change_nothing()
    ensures { MoreTurnsChangeNothing }
{}

/// A run that didn't meet the turn limit is the same with fewer turns, where it used no more than
/// those.
pub fn enough_turns_are_enough()
    ensures { EnoughTurnsAreEnough }
{}

/// Turns do nothing to the trips of a DO but bound them: no more are used than are given, and trips
/// that don't meet the limit are the same with more turns, and with fewer where they use no more
/// than those.
pub fn trips_are_bounded()
    ensures { TripsAreBounded }
{}

/// The trips of two lists, one after another, are the trips of the first and then, after a normal
/// end, those of the second with what the first left.
pub fn trips_split()
    ensures { TripsSplit }
{}

/// In a program unit that breaks no rule each transfer of control is to the label of a statement.
pub fn transfers_arrive()
    ensures { TransfersArrive }
{}

/// In a program unit that breaks no rule no transfer of control leaves the body: each goes on at a
/// statement of the list in which it stands, or of one around that.
pub fn transfers_stay()
    ensures { TransfersStay }
{}

/// A list of statements leaves each variable that none of them sets, however deep it stands.
pub fn variables_are_left()
    ensures { VariableIsLeft }
{}

/// In a program unit that breaks no rule the range of a DO statement never sets its variable (ANSI
/// X3.9-1978, 11.10.5).
pub fn ranges_leave_variables()
    ensures { RangesLeaveVariables }
{}

/// Behind trips that end normally the variable of the DO, which its range never sets, has the value
/// of the trip that would come next (ANSI X3.9-1978, 11.10).
pub fn variable_goes_on()
    ensures { VariableGoesOn }
{}

/// Only the number of the trips counts: the DO variable counts by itself.
pub fn their_number_counts()
    ensures { TheirNumberCounts }
{}

/// A value that a variable or an element has is put in again, and nothing changes.
pub fn values_are_put_again()
    ensures { PutAgain }
{}

/// Each element of an array has a place of its own, below their number, and each such place has an
/// element.
pub fn elements_have_places()
    ensures { (dimensions : List Dimension) → AreOneToOne dimensions }
{}

/// Each variable and each array element has a cell of its own, below the number of cells.
pub fn cells_are_own()
    ensures { (names : List Named) → HaveOwnCells names }
{}

/// A text whose apostrophes are doubled is read back, from a character constant and from a format.
pub fn doubled_apostrophes_are_read_back()
    ensures { (text : List ℕ) → IsReadBack text }
{}

/// Control goes back in a format once for each value at most: a format that may go back more often
/// makes the same records of values, and has the same fault.
pub fn more_repeats_change_nothing()
    ensures { MoreRepeatsChangeNothing }
{}
