//! A law of expressions, for those who make codes of them (ANSI X3.9-1978, 3.3 and 6.1).

ghost use Rattle.compiler.specs.Small.{PartsAreCharacters};

/// An expression has no more parts than its spelling has characters, so one that a statement spells
/// has 1,320 at most.
pub fn parts_are_characters()
    ensures { PartsAreCharacters }
{}
