//! Statement labels (ANSI X3.9-1978, 3.4).

ghost use Rattle.std.specs.Prelude.{OnOk};
ghost use Rattle.meaning.specs.LabelRules.{has_repeated_label};
ghost use Rattle.rule_passes.specs.Telling.{AddsTold};
ghost use Rattle.statement_rules.specs.Labels.{AreLabels};

use meaning::refusal::{Broken, Rule};
use meaning::syntax::Item;
use rule_passes::{Behind, add_told};
use std::alloc::{AllocError, Global};
use std::collections::BTreeSet;

/// The labels of the statements that were passed.
#[derive(Drop)]
struct Labels {
    known: BTreeSet<u32>,
}

impl Behind for Labels {
    ghost breaks = { λ _ before x. has_repeated_label before x };

    ghost knows = { λ s before. AreLabels before s.known };

    fn is_broken(&self, item: &Item) -> Result<bool, AllocError> {
        match item.label {
            Some(label) => Ok(self.known.contains(&label)),
            None => Ok(false),
        }
    }

    fn pass(&mut self, item: &Item) -> Result<(), AllocError> {
        match item.label {
            Some(label) => {
                self.known.insert(label)?;
            }
            None => {}
        }
        Ok(())
    }
}

/// K1: adds the pair of each line at which an earlier statement's label stands again.
pub fn add_repeated_labels(
    pairs: &mut Vec<Broken>,
    alloc: Global,
    items: &[&Item],
) -> Result<(), AllocError>
    ensures { OnOk result
        (AddsTold has_repeated_label Rule.K1 items.now pairs.old.items pairs.new.items) }
{
    let mut labels = Labels {
        known: BTreeSet::new(alloc),
    };
    add_told(pairs, &mut labels, Rule::K1, items)
}
