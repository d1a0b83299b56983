//! What nesting means: laws of the definitions.
#![tactic(auto)]

ghost use Rattle.std.specs.Prelude.{◌≡◌, ◌↔◌, List, Ok, Err};
ghost use Rattle.meaning.specs.declared.refusal.Broken.{Broken};
ghost use Rattle.meaning.specs.Nesting.{NestsAs, IsRefusedAt, nest};
ghost use Rattle.meaning.specs.RuleTold.{IsTold};
ghost use Rattle.meaning.specs.Syntax.{ItemTree};
ghost use Rattle.meaning.specs.Trees.{Nested};

/// Statements nest in one way at most.
pub fn one_nesting()
    ensures { (items : List ItemTree) (t u : Nested) → NestsAs items t → NestsAs items u → t ≡ u }
{}

/// Statements are read as a program unit exactly when they nest as it.
pub fn nests_exactly()
    ensures { (items : List ItemTree) (t : Nested) → (nest items ≡ Ok t) ↔ NestsAs items t }
{}

/// Statements are refused exactly with the least of two pairs: N2 where END is missing, and at the
/// first statement up to which no program unit begins so the least rule that it breaks behind those
/// before it.
pub fn refuses_exactly()
    ensures { (items : List ItemTree) (b : Broken) → (nest items ≡ Err b) ↔ IsRefusedAt items b }
{}

/// What is told, said of the statements one behind the other: N2 where END is missing, and at the
/// first statement up to which no program unit begins so the least rule of these. N1: it may not
/// stand behind one of those before it. N2: END is among them. N3: it is ELSE IF, ELSE or END IF
/// and the innermost open thing is no arm that it may follow, or END and it is an arm. N4: a range
/// and another one or a block IF would cross, it may not end the range that has its label, or it is
/// END in a range. N5: it opens one thing more.
pub fn rule_told()
    ensures { (items : List ItemTree) (b : Broken) → (nest items ≡ Err b) ↔ IsTold items b }
{}
