//! Laws of the forms and their spellings.
#![tactic(auto)]

ghost use Rattle.std.specs.Prelude.{◌≡◌, ◌↔◌, ℕ, List, Some};
ghost use Rattle.meaning.specs.Syntax.{ShapeTree};
ghost use Rattle.meaning.specs.Spelling.{spell, IsWell, Reads};
ghost use Rattle.meaning.specs.Kinds.{kind_of, kind_of_shape};
ghost use Rattle.meaning.specs.Reading.{shape_of};

/// A bare text has one reading at most: forms that are spelled alike are the same.
pub fn one_reading()
    ensures { (a b : ShapeTree) → IsWell a → IsWell b → spell a ≡ spell b → a ≡ b }
{}

/// A bare text reads as a form exactly when the form is well formed and spelled so.
pub fn one_spelling()
    ensures { (text : List ℕ) (s : ShapeTree) → (shape_of text ≡ Some s) ↔ Reads text s }
{}

/// The kind of a spelling is its form's kind.
pub fn one_kind()
    ensures { (s : ShapeTree) → IsWell s → kind_of (spell s) ≡ kind_of_shape s }
{}
