//! Statement functions that break the rule on them, among the culprits of all rules (ANSI
//! X3.9-1978, 15.4).

ghost use Rattle.std.specs.Prelude.{◌≡◌, IfOk};
ghost use Rattle.meaning.specs.Trees.{item_tree};
ghost use Rattle.symbols.specs.Listed.{trees_at};
ghost use Rattle.symbols.specs.SymbolsAt.{symbols_at};
ghost use Rattle.culprits.specs.Culprits.{misdefined_function_in};
ghost use Rattle.culprits.specs.Told.{tell};

use crate::culprit::Culprit;
use function_culprits::misdefined_name;
use meaning::syntax::Item;
use std::alloc::{AllocError, Global};
use symbols::Symbols;

/// K12: what breaks the rule on statement functions at a statement behind others, but how deep they
/// go and how large they become.
pub fn misdefined_function<'a>(
    alloc: Global,
    symbols: &Symbols,
    before: &[&Item],
    item: &'a Item,
) -> Result<Option<Culprit<'a>>, AllocError>
    ensures { IfOk
        result (λ c. tell c
        ≡ misdefined_function_in (symbols_at symbols.now) (trees_at before.now)
        (item_tree item.now)) }
{
    match misdefined_name(alloc, symbols, before, item)? {
        None => Ok(None),
        Some(culprit) => Ok(Some(Culprit::Function { culprit })),
    }
}
