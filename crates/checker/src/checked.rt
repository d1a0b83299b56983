//! The check of a program unit by the rules of the language.

ghost use Rattle.std.specs.Prelude.{◌≡◌, IfOk};
ghost use Rattle.meaning.specs.Reports.{Gives};
ghost use Rattle.meaning.specs.Rules.{checked};
ghost use Rattle.meaning.specs.Trees.{nested};
ghost use Rattle.rule_laws.specs.Units.{IsSpelled};

use crate::rules::{Kept, Names, kept_of};
use meaning::refusal::Refusal;
use meaning::syntax::Tree;
use statement_rules::Formats;
use std::alloc::Global;
use storage::{CheckedProgram, Parts};

/// Checks a program unit by the rules on labels, names, constants, arrays, DO variables, units,
/// formats, DATA and statement functions: the program, whose statements are the unit's, or the
/// least broken rule of the least line. `Memory` where a growth was refused.
pub fn check(alloc: Global, tree: Tree) -> Result<CheckedProgram, Refusal>
    requires { IsSpelled (nested tree) }
    ensures exact { Gives (λ p. nested p) result (checked (nested tree)) }
    ensures tree { IfOk result (λ p. p ≡ tree) }
{
    match kept_of(alloc, &tree) {
        Ok((kept, formats)) => {
            let Kept {
                names,
                functions,
                function_count,
                no_dummies,
                label_targets,
            } = kept;
            let Names {
                entries,
                letters,
                starts,
            } = names;
            let Formats { by_label, texts } = formats;
            Ok(CheckedProgram::new(Parts {
                tree,
                entries,
                letters,
                functions,
                function_count,
                no_dummies,
                starts,
                formats: by_label,
                texts,
                label_targets,
            }))
        }
        Err(refusal) => {
            drop(tree);
            Err(refusal)
        }
    }
}
