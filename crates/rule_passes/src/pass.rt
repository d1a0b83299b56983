//! One pass over the statements for one rule.

ghost use Rattle.std.specs.Prelude.{◌≡◌, Bool, List, [], IfOk, OnOk};
ghost use Rattle.meaning.specs.Syntax.{ItemTree};
ghost use Rattle.rule_passes.specs.Telling.{AddsTold, Finds, Passes, breaks_behind};

use crate::broken::add_broken;
use meaning::refusal::{Broken, Rule};
use meaning::syntax::Item;
use std::alloc::AllocError;

/// A rule that a statement breaks behind others: what is known of those that were passed, and what
/// breaks the rule.
pub trait Behind {
    /// Whether a statement breaks the rule behind others.
    ghost breaks: { Self → List ItemTree → ItemTree → Bool };

    /// What is known of the statements that were passed.
    ghost knows: { Self → List ItemTree → Type 0 };

    /// Whether a statement breaks the rule behind those that were passed. The `AllocError` comes
    /// where a growth was refused.
    fn is_broken(&self, item: &Item) -> Result<bool, AllocError>
        ensures { IfOk result (Finds (knows self.now) (breaks_behind (breaks self.now) item.now)) };

    /// Passes one statement more. The `AllocError` comes where a growth was refused.
    fn pass(&mut self, item: &Item) -> Result<(), AllocError>
        ensures knows { OnOk result (Passes (knows self.old) (knows self.new) item.now) }
        ensures same { OnOk result (breaks self.new ≡ breaks self.old) };
}

/// Adds the pair of each line at which a statement breaks a rule behind the others, in their order;
/// `behind` has passed none so far. The `AllocError` comes where a growth was refused.
pub fn add_told<B: Behind>(
    pairs: &mut Vec<Broken>,
    behind: &mut B,
    rule: Rule,
    items: &[&Item],
) -> Result<(), AllocError>
    requires { B.knows behind.old [] }
    ensures { OnOk result
        (AddsTold (B.breaks behind.old) rule items.now pairs.old.items pairs.new.items) }
{
    for item in items {
        let is_broken = behind.is_broken(item)?;
        add_broken(pairs, is_broken, item.line, rule)?;
        behind.pass(item)?;
    }
    Ok(())
}
