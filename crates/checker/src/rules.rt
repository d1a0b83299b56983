//! From a program unit to a program that keeps the rules.

ghost use Rattle.std.specs.Prelude.{◌≡◌, IfOk};
ghost use Rattle.meaning.specs.Reports.{Gives};
ghost use Rattle.meaning.specs.Rules.{checked};
ghost use Rattle.meaning.specs.Trees.{nested};
ghost use Rattle.storage.specs.Agreed.{IsNumbered};
ghost use Rattle.symbols.specs.Listed.{trees_at};
ghost use Rattle.name_maps.specs.NameSets.{texts};
ghost use Rattle.rule_laws.specs.Units.{IsSpelled};
ghost use Rattle.appearances.specs.Appearing.{variables_at};
ghost use Rattle.checker.specs.Entries.{HaveRoom};
ghost use Rattle.checker.specs.Built.{AreNames, AreStarted, IsJudged, parts_by};
ghost use Rattle.storage.specs.Checked.{items_in};

use crate::entries::{Storing, entries_of};
use crate::starts::starts_of;
use appearances::{functions_in, variables_in_order};
use indexmap::IndexMap;
use k_rules::{Facts, judge};
use label_targets::LabelTargets;
use meaning::refusal::Refusal;
use meaning::syntax::{DataType, Exprs, Tree};
use statement_rules::Formats;
use std::alloc::{AllocError, Global};
use storage::{Entry, FunctionAt};
use symbols::{Symbols, items_of, letter_types_of};

/// What is kept of names.
#[derive(Drop)]
pub(crate) struct Names {
    pub entries: IndexMap<Vec<u8>, Entry>,
    pub letters: Vec<Option<DataType>>,
    pub starts: Vec<i32>,
}

/// What is kept of a program unit beside its statements and formats.
#[derive(Drop)]
pub(crate) struct Kept {
    pub names: Names,
    pub functions: IndexMap<Vec<u8>, FunctionAt>,
    pub function_count: usize,
    pub no_dummies: Exprs,
    pub label_targets: LabelTargets,
}

/// What is kept of the names of a program unit, of which these are variables and arrays, and the
/// values that the cells start with.
fn entries_with_starts(
    alloc: Global,
    symbols: &Symbols,
    facts: &Facts,
    names: &[Vec<u8>],
) -> Result<(IndexMap<Vec<u8>, Entry>, Vec<i32>), AllocError>
    requires { HaveRoom facts.now (texts names.now) }
    ensures { IfOk result (λ k. AreStarted facts.now symbols.now (texts names.now) k.0 k.1) }
{
    let Storing { entries, next } = entries_of(alloc, symbols, facts, names)?;
    match starts_of(alloc, facts, names, next) {
        Ok(starts) => Ok((entries, starts)),
        Err(AllocError) => {
            drop(entries);
            Err(AllocError)
        }
    }
}

/// What is kept of the names of a program unit, and the values that the cells start with.
fn names_of(alloc: Global, symbols: &Symbols, facts: &Facts) -> Result<Names, AllocError>
    requires { HaveRoom facts.now (variables_at symbols.now) }
    ensures { IfOk result (AreNames facts.now symbols.now) }
{
    let letters = letter_types_of(alloc, symbols)?;
    let names = variables_in_order(alloc, symbols)?;
    let (entries, starts) = entries_with_starts(alloc, symbols, facts, names.as_slice())?;
    Ok(Names {
        entries,
        letters,
        starts,
    })
}

/// What is kept of a program unit that breaks no rule, by what its statements say of names.
fn kept_in(alloc: Global, tree: &Tree, facts: &Facts, symbols: &Symbols) -> Result<Kept, AllocError>
    requires spelled { IsSpelled (nested tree.now) }
    requires judged { IsJudged tree.now facts.now }
    requires listed { trees_at symbols.now.items.now ≡ items_in tree.now }
    ensures { IfOk result (λ k. IsNumbered (parts_by tree.now facts.now.formats k)) }
{
    let label_targets = LabelTargets::new(alloc, &tree.body)?;
    let names = names_of(alloc, symbols, facts)?;
    match functions_in(alloc, symbols, &tree.body) {
        Ok(functions) => Ok(Kept {
            names,
            functions,
            function_count: symbols.functions.len(),
            no_dummies: Exprs::Empty,
            label_targets,
        }),
        Err(AllocError) => {
            drop(names);
            Err(AllocError)
        }
    }
}

/// What is kept of a program unit that breaks no rule.
fn kept_by(alloc: Global, tree: &Tree, facts: &Facts) -> Result<Kept, AllocError>
    requires spelled { IsSpelled (nested tree.now) }
    requires judged { IsJudged tree.now facts.now }
    ensures { IfOk result (λ k. IsNumbered (parts_by tree.now facts.now.formats k)) }
{
    let items = items_of(alloc, tree)?;
    let symbols = Symbols::new(alloc, items.as_slice())?;
    let kept = kept_in(alloc, tree, facts, &symbols);
    drop(symbols);
    kept
}

/// What is kept of a program unit, with its formats, or the least broken rule of the least line.
/// `Memory` where a growth was refused.
pub(crate) fn kept_of(alloc: Global, tree: &Tree) -> Result<(Kept, Formats), Refusal>
    requires { IsSpelled (nested tree.now) }
    ensures exact { Gives (λ _. nested tree.now) result (checked (nested tree.now)) }
    ensures numbered { IfOk result (λ k. IsNumbered (parts_by tree.now k.1 k.0)) }
{
    let facts = judge(alloc, tree)?;
    match kept_by(alloc, tree, &facts) {
        Ok(kept) => Ok((kept, facts.into_formats())),
        Err(AllocError) => {
            drop(facts);
            Err(Refusal::Memory)
        }
    }
}
