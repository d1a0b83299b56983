//! That codes can be made of program units that keep the rules (ANSI X3.9-1978, 3.3, 5.4, 6.1, 15.3
//! and 15.4).
#![tactic(auto)]

ghost use Rattle.std.specs.Prelude.{List, ℕ};
ghost use Rattle.meaning.specs.Trees.{Nested};
ghost use Rattle.rule_laws.specs.Lawful.{IsAccepted};
ghost use Rattle.rule_laws.specs.Units.{Spells};
ghost use Rattle.ruly_laws.specs.Statements.{AreCodable, AreFunctionsCodable};

/// The expressions that its statements evaluate have codes, and so have the places of the elements
/// that they set; what else they set, and what their loops count with, has cells; the labels that
/// they transfer to have five digits at most.
pub fn statements_are_codable()
    ensures { (source : List ℕ) (t : Nested) → Spells source t → IsAccepted t → AreCodable t }
{}

/// The expressions of its statement functions have codes.
pub fn functions_are_codable()
    ensures { (source : List ℕ) (t : Nested) → Spells source t → IsAccepted t →
        AreFunctionsCodable t }
{}
