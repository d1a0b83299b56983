//! The rules on a whole program unit, and what is known of one that breaks none (ANSI X3.9-1978,
//! chapters 2 to 15).

ghost use Rattle.std.specs.Prelude.{◌≡◌, map, IfOk};
ghost use Rattle.meaning.specs.Reports.{Gives};
ghost use Rattle.meaning.specs.Rules.{checked};
ghost use Rattle.meaning.specs.Trees.{flatten, nested};
ghost use Rattle.rule_passes.specs.Listed.{tree_at};
ghost use Rattle.statement_rules.specs.FormatsFound.{HoldsFormats};
ghost use Rattle.rule_passes.specs.InOrder.{AreInOrder};
ghost use Rattle.k_rules.specs.Judged.{HasArrays, HasConstants, HasFormats, HasStarts, IsDecided};
ghost use Rattle.k_rules.specs.Judged.{with_data};

use crate::pairs::{add_all_but_data, least_of};
use data_rules::{Filling, Passed, given_by_data};
use declarations::{Declared, declared_in};
use expressions::Dimensions;
use indexmap::IndexMap;
use meaning::ending::Value;
use meaning::refusal::{Broken, Refusal};
use meaning::syntax::{Item, Tree};
use statement_rules::Formats;
use std::alloc::{AllocError, Global};
use symbols::{Symbols, items_of};

/// What is known of a program unit that breaks no rule.
pub struct Facts {
    /// The constants by their names, with their values.
    pub constants: IndexMap<Vec<u8>, Option<Value>>,
    /// The arrays by their names, with their dimensions.
    pub arrays: IndexMap<Vec<u8>, Dimensions>,
    /// What DATA statements give: by the names of variables and arrays the values of their places
    /// in column-major order, from 0, which is the only one of a variable. A place that was given
    /// none has none, and so have those behind the last one that is kept.
    pub starts: IndexMap<Vec<u8>, Vec<Option<Value>>>,
    /// The formats of its FORMAT statements and those in its character constants, each of which was
    /// read once.
    pub formats: Formats,
}

impl Drop for Facts {
    fn drop(self) {
        let Facts {
            constants,
            arrays,
            starts,
            formats,
        } = self;
        drop(constants);
        drop(arrays);
        drop(starts);
        drop(formats);
    }
}

impl Facts {
    /// The formats alone.
    pub fn into_formats(self) -> Formats
        ensures { result ≡ self.formats }
    {
        let Facts {
            constants,
            arrays,
            starts,
            formats,
        } = self;
        drop(constants);
        drop(arrays);
        drop(starts);
        formats
    }
}

/// What is known of statements whose formats these are, or the least of these pairs and of those of
/// the rule on DATA statements.
fn facts_of(
    alloc: Global,
    symbols: &Symbols,
    items: &[&Item],
    others: Option<Broken>,
    formats: Formats,
) -> Result<Facts, Refusal>
    requires same { map tree_at symbols.now.items.now ≡ map tree_at items.now }
    requires ordered { AreInOrder (map tree_at items.now) }
    requires formats { HoldsFormats (map tree_at items.now) formats }
    ensures exact { IsDecided (with_data (map tree_at items.now) others) result }
    ensures constants { IfOk result (HasConstants (map tree_at items.now)) }
    ensures arrays { IfOk result (HasArrays (map tree_at items.now)) }
    ensures starts { IfOk result (HasStarts (map tree_at items.now)) }
    ensures formats { IfOk result (HasFormats (map tree_at items.now)) }
{
    let declared = match declared_in(alloc, symbols) {
        Ok(declared) => declared,
        Err(AllocError) => {
            drop(formats);
            return Err(Refusal::Memory);
        }
    };
    match given_by_data(alloc, symbols, &declared.arrays, items, others) {
        Ok(passed) => {
            let Passed { broken, filling } = passed;
            match broken {
                Some(least) => {
                    drop(filling);
                    drop(declared);
                    drop(formats);
                    Err(Refusal::Rule {
                        rule: least.rule,
                        line: least.line,
                    })
                }
                None => match filling {
                    Some(filling) => {
                        let Filling { given, way: _ } = filling;
                        let Declared { table, arrays } = declared;
                        Ok(Facts {
                            constants: table.values,
                            arrays,
                            starts: given,
                            formats,
                        })
                    }
                    None => unreachable!(),
                },
            }
        }
        Err(AllocError) => {
            drop(declared);
            drop(formats);
            Err(Refusal::Memory)
        }
    }
}

/// What is known of a program unit whose statements are these, or the least pair of the rules that
/// it breaks.
fn judge_items(alloc: Global, tree: &Tree, items: &[&Item]) -> Result<Facts, Refusal>
    requires same { map tree_at items.now ≡ flatten (nested tree.now) }
    requires ordered { AreInOrder (flatten (nested tree.now)) }
    ensures exact { Gives (λ _. nested tree.now) result (checked (nested tree.now)) }
    ensures constants { IfOk result (HasConstants (flatten (nested tree.now))) }
    ensures arrays { IfOk result (HasArrays (flatten (nested tree.now))) }
    ensures starts { IfOk result (HasStarts (flatten (nested tree.now))) }
    ensures formats { IfOk result (HasFormats (flatten (nested tree.now))) }
{
    let symbols = Symbols::new(alloc, &*items)?;
    let mut pairs = Vec::new(alloc);
    let formats = add_all_but_data(&mut pairs, alloc, &symbols, &tree.body)?;
    facts_of(alloc, &symbols, items, least_of(&pairs), formats)
}

/// What is known of a program unit, or the least pair of the rules that it breaks. Its statements
/// stand in the order of their lines, as those of each source do. `Memory` comes where a growth was
/// refused.
pub fn judge(alloc: Global, tree: &Tree) -> Result<Facts, Refusal>
    requires { AreInOrder (flatten (nested tree.now)) }
    ensures exact { Gives (λ _. nested tree.now) result (checked (nested tree.now)) }
    ensures constants { IfOk result (HasConstants (flatten (nested tree.now))) }
    ensures arrays { IfOk result (HasArrays (flatten (nested tree.now))) }
    ensures starts { IfOk result (HasStarts (flatten (nested tree.now))) }
    ensures formats { IfOk result (HasFormats (flatten (nested tree.now))) }
{
    let items = items_of(alloc, tree)?;
    judge_items(alloc, tree, &items)
}
