//! Expressions of the wrong type (ANSI X3.9-1978, 6.1 to 6.4).

ghost use Rattle.std.specs.Prelude.{OnOk};
ghost use Rattle.meaning.specs.NameRules.{is_wrongly_typed};
ghost use Rattle.symbols.specs.SymbolsAt.{symbols_at};
ghost use Rattle.symbols.specs.Stages.{IsBehind};
ghost use Rattle.rule_passes.specs.Telling.{AddsTold};

use crate::mistyped::has_wrong_type;
use meaning::refusal::{Broken, Rule};
use meaning::syntax::Item;
use rule_passes::{Behind, add_told};
use std::alloc::AllocError;
use symbols::{Stage, Symbols};

/// What is of the wrong type.
#[derive(Drop)]
struct WrongType<'a> {
    symbols: &'a Symbols<'a>,
    stage: Stage,
}

impl Behind for WrongType<'_> {
    ghost breaks = { λ s before x. is_wrongly_typed (symbols_at s.symbols.now) before x };

    ghost knows = { λ s before. IsBehind s.symbols.now s.stage before };

    fn is_broken(&self, item: &Item) -> Result<bool, AllocError> {
        let defines = self.stage.is_defining(self.symbols, item);
        Ok(has_wrong_type(self.symbols, defines, &*item.form.shape))
    }

    fn pass(&mut self, item: &Item) -> Result<(), AllocError> {
        self.stage.pass(self.symbols, item);
        Ok(())
    }
}

/// K5: adds the pair of each line at which an expression is of the wrong type.
pub fn add_wrong_types(
    pairs: &mut Vec<Broken>,
    symbols: &Symbols,
    items: &[&Item],
) -> Result<(), AllocError>
    ensures { OnOk result
        (AddsTold (is_wrongly_typed (symbols_at symbols.now)) Rule.K5 items.now pairs.old.items
        pairs.new.items) }
{
    let mut wrong = WrongType {
        symbols,
        stage: Stage::new(),
    };
    add_told(pairs, &mut wrong, Rule::K5, items)
}
