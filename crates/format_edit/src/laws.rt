//! Which texts are formats, said without the reader.

ghost use Rattle.std.specs.Prelude.{◌≡◌, ◌↔◌, ℕ, List, Some};
ghost use Rattle.meaning.specs.Formats.{Parts, descriptors_of, Denotes};

/// A text reads as the parts of a format exactly when it denotes them.
pub fn one_format()
    ensures { (text : List ℕ) (ps : Parts) →
        (descriptors_of text ≡ Some ps) ↔ Denotes text ps }
{}
