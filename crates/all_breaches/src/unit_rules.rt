//! The pairs of the rules K that a program unit breaks (ANSI X3.9-1978, chapters 2 to 15).

ghost use Rattle.std.specs.Prelude.{◌≡◌, map, IfOk, OnOk};
ghost use Rattle.meaning.specs.Rules.{broken_rules};
ghost use Rattle.meaning.specs.Trees.{members_tree, nested};
ghost use Rattle.rule_passes.specs.Listed.{tree_at};
ghost use Rattle.k_rules.specs.Judged.{AddsOthers};
ghost use Rattle.all_breaches.specs.Adding.{AddsData, by_symbols, units_of};
ghost use Rattle.all_breaches.specs.Ordered.{HaveSame};
ghost use Rattle.all_breaches.specs.Parts.{pairs_of_members};

use data_rules::add_bad_data;
use declarations::declared_in;
use k_rules::add_all_but_data;
use meaning::refusal::Broken;
use meaning::syntax::{Item, Member, Tree};
use std::alloc::{AllocError, Global};
use symbols::{Symbols, items_of};

/// Adds those of the rule on DATA statements.
fn add_data(pairs: &mut Vec<Broken>, alloc: Global, symbols: &Symbols) -> Result<(), AllocError>
    ensures { OnOk result (AddsData symbols.now pairs.old.items pairs.new.items) }
{
    let declared = declared_in(alloc, symbols)?;
    match add_bad_data(pairs, alloc, symbols, &declared.arrays, symbols.items) {
        Ok(()) => {
            drop(declared);
            Ok(())
        }
        Err(AllocError) => {
            drop(declared);
            Err(AllocError)
        }
    }
}

/// Adds those of all other rules.
fn add_others(
    pairs: &mut Vec<Broken>,
    alloc: Global,
    symbols: &Symbols,
    members: &[Member],
) -> Result<(), AllocError>
    ensures { OnOk result (AddsOthers symbols.now members.now pairs.old.items pairs.new.items) }
{
    let formats = add_all_but_data(pairs, alloc, symbols, members)?;
    drop(formats);
    Ok(())
}

/// The pairs of a program unit, by what is known of its names.
fn pairs_in(alloc: Global, symbols: &Symbols, members: &[Member]) -> Result<Vec<Broken>, AllocError>
    ensures { IfOk result (λ v. v.items ≡ by_symbols (units_of members.now) symbols.now) }
{
    let mut pairs = Vec::new(alloc);
    add_data(&mut pairs, alloc, symbols)?;
    add_others(&mut pairs, alloc, symbols, members)?;
    Ok(pairs)
}

/// The pairs of a program unit with these statements.
fn pairs_by(alloc: Global, items: &[&Item], members: &[Member]) -> Result<Vec<Broken>, AllocError>
    ensures { IfOk
        result (λ v. v.items
        ≡ pairs_of_members (map tree_at items.now) (members_tree members.now)) }
{
    let symbols = Symbols::new(alloc, &*items)?;
    pairs_in(alloc, &symbols, members)
}

/// The pairs of the rules K that a program unit breaks.
pub fn unit_pairs(alloc: Global, tree: &Tree) -> Result<Vec<Broken>, AllocError>
    ensures { IfOk result (λ v. HaveSame v.items (broken_rules (nested tree.now))) }
{
    let items = items_of(alloc, tree)?;
    let pairs = pairs_by(alloc, &items, &tree.body)?;
    Ok(pairs)
}
