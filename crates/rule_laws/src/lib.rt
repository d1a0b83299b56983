//! That program units that keep the rules are as those who run them want them.
#![tactic(auto)]

ghost use Rattle.std.specs.Prelude.{◌<◌, ◌^◌, ℕ, List};
ghost use Rattle.meaning.specs.Syntax.{ShapeTree};
ghost use Rattle.meaning.specs.Trees.{Nested, flatten};
ghost use Rattle.meaning.specs.Values.{Arrays};
ghost use Rattle.rule_laws.specs.Evaluated.{AreOwnNames, AreReady, AreReadyFunctions, AreStored};
ghost use Rattle.rule_laws.specs.Evaluated.{evaluated};
ghost use Rattle.rule_laws.specs.Lawful.{AreLawful, IsAccepted};
ghost use Rattle.rule_laws.specs.Read.{AreRead, AreShort, BodiesShort, HeadsExecute, IsRead};
ghost use Rattle.rule_laws.specs.Read.{TransfersSmall, elements_set};
ghost use Rattle.rule_laws.specs.Sized.{AreSized, AreStartsNamed, count_of};
ghost use Rattle.rule_passes.specs.InOrder.{AreInOrder};
ghost use Rattle.rule_laws.specs.Units.{Ascend, Spells, lines_in};

/// The initial lines of a program unit ascend, and are lines of a source, which has 65,535 at most.
pub fn lines_ascend()
    ensures lines { (source : List ℕ) (t : Nested) → Spells source t →
        Ascend 1 65535 (lines_in t) }
    ensures order { (source : List ℕ) (t : Nested) → Spells source t → AreInOrder (flatten t) }
{}

/// Its statements are well formed, and spelled by 1,320 characters at most.
pub fn statements_are_read()
    ensures { (source : List ℕ) (t : Nested) → Spells source t → AreRead t }
{}

/// So are the expressions that such a statement evaluates, and the element that it sets.
pub fn expressions_are_short()
    ensures evaluated { (arrays : Arrays) (s : ShapeTree) → IsRead s →
        AreShort (evaluated arrays s) }
    ensures elements { (s : ShapeTree) → IsRead s → AreShort (elements_set s) }
{}

/// So are the expressions of statement functions.
pub fn bodies_are_short()
    ensures { (source : List ℕ) (t : Nested) (arrays : Arrays) → Spells source t →
        BodiesShort arrays t }
{}

/// The labels that a statement transfers to have five digits at most.
pub fn labels_are_small()
    ensures { (s : ShapeTree) → IsRead s → TransfersSmall s }
{}

/// No statement function is defined in a range or an arm, or behind one.
pub fn functions_stand_first()
    ensures { (source : List ℕ) (t : Nested) (arrays : Arrays) → Spells source t →
        HeadsExecute arrays t.body }
{}

/// In a program unit that keeps the rules each statement breaks none of those on statements in
/// their order.
pub fn each_is_lawful()
    ensures { (t : Nested) → IsAccepted t → AreLawful t }
{}

/// Its arrays have one to seven dimensions, and elements, 16,777,216 at most.
pub fn arrays_are_sized()
    ensures { (t : Nested) → IsAccepted t → AreSized t }
{}

/// They have cells.
pub fn arrays_are_stored()
    ensures { (t : Nested) → IsAccepted t → AreStored t }
{}

/// Each of its statements is as its execution wants it: in the expressions that it evaluates
/// constants are in range, an element has as many subscripts as its array has dimensions, and a
/// function that may be called there as many arguments as it takes; what an assignment sets, and
/// what a loop counts with, has cells.
pub fn statements_are_ready()
    ensures { (t : Nested) → IsAccepted t → AreReady t }
{}

/// So is each of its statement functions, whose expression may call those before it.
pub fn functions_are_ready()
    ensures { (t : Nested) → IsAccepted t → AreReadyFunctions t }
{}

/// None of these has the name of one before it.
pub fn functions_have_own_names()
    ensures { (t : Nested) → IsAccepted t → AreOwnNames t }
{}

/// The names that its DATA statements give values are its variables' and arrays'.
pub fn starts_are_named()
    ensures { (t : Nested) → IsAccepted t → AreStartsNamed t }
{}

/// Its variables and the elements of its arrays are fewer than 2^31.
pub fn cells_are_few()
    ensures { (source : List ℕ) (t : Nested) → Spells source t → IsAccepted t →
        count_of t < 2 ^ 31 }
{}
