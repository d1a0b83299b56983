//! Whether executable statements have come (ANSI X3.9-1978, 3.5 and 15.4).

ghost use Rattle.std.specs.Prelude.{◌≡◌, ◌++◌, ◌∷◌, [], List};
ghost use Rattle.meaning.specs.Syntax.{ItemTree};
ghost use Rattle.meaning.specs.Trees.{item_tree};
ghost use Rattle.meaning.specs.Uses.{is_defining as is_defining_behind};
ghost use Rattle.symbols.specs.SymbolsAt.{symbols_at};
ghost use Rattle.symbols.specs.Stages.{IsBehind};

use crate::functions::{defined_by, is_specification};
use crate::names::Symbols;
use meaning::syntax::Item;

/// How far one has come in the statements of a program unit.
#[derive(Clone, Copy)]
pub struct Stage {
    /// No executable statement has come.
    pub is_before_executables: bool,
}

impl Stage {
    /// In front of all statements.
    #[tactic(auto, using(crate::proofs::Staging::behind_one))]
    pub fn new() -> Stage
        ensures { (symbols : Symbols) → IsBehind symbols result [] }
    {
        Stage {
            is_before_executables: true,
        }
    }

    /// Passes a statement.
    #[tactic(auto, using(crate::proofs::Staging::behind_one))]
    pub fn pass(&mut self, symbols: &Symbols, item: &Item)
        ensures { (before : List ItemTree) → IsBehind symbols.now self.old before →
            IsBehind symbols.now self.new (before ++ item_tree item.now ∷ []) }
    {
        let shape = &*item.form.shape;
        if !is_specification(shape) && defined_by(&symbols.ranks, shape).is_none() {
            self.is_before_executables = false;
        }
    }

    /// Whether the statement that comes now is that of a statement function (ANSI X3.9-1978, 15.4).
    pub fn is_defining(&self, symbols: &Symbols, item: &Item) -> bool
        ensures { (before : List ItemTree) → IsBehind symbols.now self.now before → result
            ≡ is_defining_behind (symbols_at symbols.now) before (item_tree item.now) }
    {
        self.is_before_executables && defined_by(&symbols.ranks, &*item.form.shape).is_some()
    }
}
