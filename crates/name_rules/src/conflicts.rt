//! Names that are given too much, and letters (ANSI X3.9-1978, 8.1, 8.4 to 8.6, 15.3, 15.4 and
//! 18.2).

ghost use Rattle.std.specs.Prelude.{OnOk};
ghost use Rattle.meaning.specs.NameRules.{is_disputed};
ghost use Rattle.symbols.specs.SymbolsAt.{symbols_at};
ghost use Rattle.rule_passes.specs.Telling.{AddsTold};

use crate::against::Against;
use crate::givings::Givings;
use crate::letters::Implied;
use crate::logicals::Logicals;
use crate::twofold::Twofold;
use meaning::refusal::{Broken, Rule};
use meaning::syntax::Item;
use rule_passes::{Either, Rivals, add_told};
use std::alloc::{AllocError, Global};
use symbols::Symbols;

/// K4: adds the pair of each line at which a name or a letter is given too much, or a name is used
/// against what it is.
pub fn add_name_conflicts(
    pairs: &mut Vec<Broken>,
    alloc: Global,
    symbols: &Symbols,
    items: &[&Item],
) -> Result<(), AllocError>
    ensures { OnOk result
        (AddsTold (is_disputed (symbols_at symbols.now)) Rule.K4 items.now pairs.old.items
        pairs.new.items) }
{
    let mut conflicts = Either {
        first: Givings::new(alloc, symbols),
        second: Either {
            first: Against::new(alloc, symbols),
            second: Either {
                first: Twofold::new(alloc, symbols),
                second: Either {
                    first: Logicals::new(alloc, symbols),
                    second: Either {
                        first: Implied::new(alloc),
                        second: Rivals::new(),
                    },
                },
            },
        },
    };
    add_told(pairs, &mut conflicts, Rule::K4, items)
}
