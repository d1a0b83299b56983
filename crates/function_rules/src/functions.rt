//! References to functions (ANSI X3.9-1978, 15.2 and 15.3).

ghost use Rattle.std.specs.Prelude.{OnOk};
ghost use Rattle.meaning.specs.NameRules.{has_unknown_function, is_unknown_function};
ghost use Rattle.symbols.specs.SymbolsAt.{symbols_at};
ghost use Rattle.symbols.specs.Stages.{IsBehind};
ghost use Rattle.rule_passes.specs.Telling.{AddsTold};

use meaning::refusal::{Broken, Rule};
use meaning::syntax::Item;
use name_uses::{NameUse, Sought, add_reads, has_passing, is_function_use};
use rule_passes::{Behind, add_told};
use std::alloc::{AllocError, Global};
use symbols::{Stage, Symbols, is_intrinsic};

/// A reference to a function that isn't known.
#[derive(Clone, Copy)]
struct Unknown<'a> {
    symbols: &'a Symbols<'a>,
}

impl Sought for Unknown<'_> {
    ghost is_use = { λ s. is_unknown_function (symbols_at s.symbols.now) };

    fn is(&self, one: &NameUse) -> bool {
        is_function_use(self.symbols, one) && !is_intrinsic(one.name)
    }
}

/// The rule on references to functions.
#[derive(Drop)]
struct UnknownFunctions<'a> {
    alloc: Global,
    symbols: &'a Symbols<'a>,
    stage: Stage,
}

impl Behind for UnknownFunctions<'_> {
    ghost breaks = { λ s before x. has_unknown_function (symbols_at s.symbols.now) before x };

    ghost knows = { λ s before. IsBehind s.symbols.now s.stage before };

    fn is_broken(&self, item: &Item) -> Result<bool, AllocError> {
        let defines = self.stage.is_defining(self.symbols, item);
        let mut reads = Vec::new(self.alloc);
        add_reads(
            &mut reads,
            self.alloc,
            self.symbols,
            defines,
            &*item.form.shape,
        )?;
        Ok(has_passing(
            &reads,
            &Unknown {
                symbols: self.symbols,
            },
        ))
    }

    fn pass(&mut self, item: &Item) -> Result<(), AllocError> {
        self.stage.pass(self.symbols, item);
        Ok(())
    }
}

/// K13: adds the pair of each line at which a function that isn't known is referred to.
pub fn add_unknown_functions(
    pairs: &mut Vec<Broken>,
    alloc: Global,
    symbols: &Symbols,
    items: &[&Item],
) -> Result<(), AllocError>
    ensures { OnOk result
        (AddsTold (has_unknown_function (symbols_at symbols.now)) Rule.K13 items.now pairs.old.items
        pairs.new.items) }
{
    let mut unknown = UnknownFunctions {
        alloc,
        symbols,
        stage: Stage::new(),
    };
    add_told(pairs, &mut unknown, Rule::K13, items)
}
