//! The pairs of the rules on a program unit, each line that breaks one (ANSI X3.9-1978, chapters 2
//! to 15).

ghost use Rattle.std.specs.Prelude.{◌≡◌, map, Some, IfOk, OnOk};
ghost use Rattle.meaning.specs.Refusals.{least, merge};
ghost use Rattle.rule_passes.specs.Listed.{tree_at};
ghost use Rattle.statement_rules.specs.FormatsFound.{HoldsFormats};
ghost use Rattle.k_rules.specs.Judged.{AddsFirst, AddsInLists, AddsLast, AddsNames, AddsOthers};

use function_rules::{add_bad_definitions, add_miscounts, add_unknown_functions};
use meaning::refusal::{Broken, lesser};
use meaning::syntax::Member;
use name_rules::add_name_conflicts;
use number_rules::{add_bad_constants, add_large_arrays};
use statement_rules::{
    Formats, add_bad_loop_variables, add_bad_output, add_missed_labels, add_repeated_labels,
};
use std::alloc::{AllocError, Global};
use symbols::Symbols;
use type_rules::{add_real_names, add_wrong_types};

/// The lesser of the least pair so far and another one.
fn lesser_with(best: Option<Broken>, pair: &Broken) -> Option<Broken>
    ensures { result ≡ merge best (Some pair.now) }
{
    lesser(best, Some(*pair))
}

/// The least of the pairs.
pub fn least_of(pairs: &[Broken]) -> Option<Broken>
    ensures { result ≡ least pairs.now }
{
    let mut best = None;
    for pair in pairs {
        best = lesser_with(best, pair);
    }
    best
}

/// Adds those of the rules on names.
fn add_names(pairs: &mut Vec<Broken>, alloc: Global, symbols: &Symbols) -> Result<(), AllocError>
    ensures { OnOk result (AddsNames symbols.now pairs.old.items pairs.new.items) }
{
    add_real_names(pairs, alloc, symbols, symbols.items)?;
    add_name_conflicts(pairs, alloc, symbols, symbols.items)?;
    add_wrong_types(pairs, symbols, symbols.items)?;
    add_miscounts(pairs, alloc, symbols, symbols.items)?;
    add_bad_definitions(pairs, alloc, symbols, symbols.items)?;
    add_unknown_functions(pairs, alloc, symbols, symbols.items)
}

/// Adds those of the rules on the statements in their order that stand before that on DATA
/// statements.
fn add_first(pairs: &mut Vec<Broken>, alloc: Global, symbols: &Symbols) -> Result<(), AllocError>
    ensures { OnOk result (AddsFirst symbols.now pairs.old.items pairs.new.items) }
{
    add_repeated_labels(pairs, alloc, symbols.items)?;
    add_names(pairs, alloc, symbols)?;
    add_bad_constants(pairs, alloc, symbols, symbols.items)?;
    add_large_arrays(pairs, alloc, symbols, symbols.items)
}

/// Adds those of the rules on lists of statements.
fn add_in_lists(
    pairs: &mut Vec<Broken>,
    alloc: Global,
    symbols: &Symbols,
    members: &[Member],
) -> Result<(), AllocError>
    ensures { OnOk result (AddsInLists symbols.now members.now pairs.old.items pairs.new.items) }
{
    add_missed_labels(pairs, alloc, symbols, symbols.items, members)?;
    add_bad_loop_variables(pairs, alloc, symbols, members)
}

/// Adds those of the rules that stand after that on DATA statements; the formats of the statements.
fn add_last(
    pairs: &mut Vec<Broken>,
    alloc: Global,
    symbols: &Symbols,
    members: &[Member],
) -> Result<Formats, AllocError>
    ensures told { OnOk result (AddsLast symbols.now members.now pairs.old.items pairs.new.items) }
    ensures formats { IfOk result (λ f. HoldsFormats (map tree_at symbols.now.items.now) f) }
{
    let formats = add_bad_output(pairs, alloc, symbols)?;
    match add_in_lists(pairs, alloc, symbols, members) {
        Ok(()) => Ok(formats),
        Err(AllocError) => {
            drop(formats);
            Err(AllocError)
        }
    }
}

/// Adds the pair of each line of a program unit that breaks a rule, rule by rule, for all rules but
/// that on DATA statements. The formats of the unit, each of which is read once.
///
/// # Errors
///
/// `AllocError` only where a growth was refused.
pub fn add_all_but_data(
    pairs: &mut Vec<Broken>,
    alloc: Global,
    symbols: &Symbols,
    members: &[Member],
) -> Result<Formats, AllocError>
    ensures told { OnOk result
        (AddsOthers symbols.now members.now pairs.old.items pairs.new.items) }
    ensures formats { IfOk result (λ f. HoldsFormats (map tree_at symbols.now.items.now) f) }
{
    add_first(pairs, alloc, symbols)?;
    add_last(pairs, alloc, symbols, members)
}
