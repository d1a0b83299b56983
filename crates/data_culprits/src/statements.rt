//! DATA statements that break the rule on them (ANSI X3.9-1978, chapter 9).

ghost use Rattle.std.specs.Prelude.{◌≡◌, map, IfOk};
ghost use Rattle.meaning.specs.Syntax.{data_set_tree, data_value_tree, list_items_tree, shape_tree};
ghost use Rattle.meaning.specs.Trees.{item_tree};
ghost use Rattle.symbols.specs.Listed.{trees_at};
ghost use Rattle.symbols.specs.SymbolsAt.{symbols_at};
ghost use Rattle.declarations.specs.ArraysKept.{AreArrays};
ghost use Rattle.declarations.specs.Tables.{known_at};
ghost use Rattle.data_rules.specs.DataRuns.{values_of};
ghost use Rattle.data_rules.specs.DataSets.{stage_by, with_values};
ghost use Rattle.data_rules.specs.Lacking.{names_kept};
ghost use Rattle.data_culprits.specs.Behind.{outcome_at, tell_counted};
ghost use Rattle.data_culprits.specs.Lists.{to_list};
ghost use Rattle.data_culprits.specs.Outcomes.{told_in};
ghost use Rattle.data_culprits.specs.Sets.{bad_in, to_set, to_sets};
ghost use Rattle.data_culprits.specs.Told.{tell};

use crate::culprit::DataCulprit;
use crate::lists::bad_list;
use crate::values::bad_values;
use data_rules::{Filling, Giving, Known, Way, counted_sets, pass_names, pass_one_more, values_in};
use declarations::{Table, declared_in, scope_of, table_of};
use expressions::Dimensions;
use indexmap::IndexMap;
use meaning::syntax::{DataSet, Item};
use std::alloc::{AllocError, Global};
use symbols::Symbols;

/// What comes of sets: what was given, or what is told.
#[derive(Drop)]
pub enum SetsOutcome<'a> {
    /// What was given.
    Filled(Filling),
    /// What is told.
    Stopped(DataCulprit<'a>),
}

/// Gives the list of a set its values.
fn list_outcome<'a: 'b, 'b>(
    filling: Filling,
    alloc: Global,
    table: &'b Table<'b>,
    arrays: &IndexMap<Vec<u8>, Dimensions>,
    set: &'a DataSet,
) -> Result<SetsOutcome<'a>, AllocError>
    requires { AreArrays (symbols_at table.now.symbols.now) arrays.now }
    ensures { IfOk
        result (λ o. outcome_at o
        ≡ to_list (symbols_at table.now.symbols.now) (known_at table.now)
        (list_items_tree set.now.list)
        (with_values (values_of (known_at table.now) (map data_value_tree set.now.values.items))
        (stage_by filling))) }
{
    let mut giving = Giving {
        filling,
        values: values_in(table, &set.values),
        scope: scope_of(alloc, table),
    };
    match bad_list(&mut giving, alloc, arrays, &set.list) {
        Ok(None) => {
            let Giving {
                filling,
                values: _,
                scope,
            } = giving;
            drop(scope);
            Ok(SetsOutcome::Filled(filling))
        }
        Ok(Some(culprit)) => {
            drop(giving);
            Ok(SetsOutcome::Stopped(culprit))
        }
        Err(refused) => {
            drop(giving);
            Err(refused)
        }
    }
}

/// Gives a set its values, unless one of them is none.
fn set_outcome<'a: 'b, 'b>(
    filling: Filling,
    alloc: Global,
    table: &'b Table<'b>,
    arrays: &IndexMap<Vec<u8>, Dimensions>,
    set: &'a DataSet,
) -> Result<SetsOutcome<'a>, AllocError>
    requires { AreArrays (symbols_at table.now.symbols.now) arrays.now }
    ensures { IfOk
        result (λ o. outcome_at o
        ≡ to_set (symbols_at table.now.symbols.now) (known_at table.now) (data_set_tree set.now)
        (stage_by filling)) }
{
    match bad_values(table, &set.values) {
        Some(culprit) => {
            drop(filling);
            Ok(SetsOutcome::Stopped(culprit))
        }
        None => list_outcome(filling, alloc, table, arrays, set),
    }
}

/// What is told of the first of some sets that is bad.
fn bad_sets<'a: 'b, 'b>(
    filling: Filling,
    alloc: Global,
    table: &'b Table<'b>,
    arrays: &IndexMap<Vec<u8>, Dimensions>,
    sets: &'a [DataSet],
) -> Result<Option<DataCulprit<'a>>, AllocError>
    requires { AreArrays (symbols_at table.now.symbols.now) arrays.now }
    ensures { IfOk
        result (λ c. tell c
        ≡ told_in (to_sets (symbols_at table.now.symbols.now) (known_at table.now)
        (map data_set_tree sets.now) (stage_by filling))) }
{
    let mut so_far = filling;
    for set in sets {
        match set_outcome(so_far, alloc, table, arrays, set)? {
            SetsOutcome::Filled(more) => so_far = more,
            SetsOutcome::Stopped(culprit) => return Ok(Some(culprit)),
        }
    }
    drop(so_far);
    Ok(None)
}

/// What is told of a statement by what is known there, and what was given before.
fn bad_statement<'a: 'b, 'b>(
    filling: Filling,
    alloc: Global,
    table: &'b Table<'b>,
    sizeless: &[&[u8]],
    arrays: &IndexMap<Vec<u8>, Dimensions>,
    item: &'a Item,
) -> Result<Option<DataCulprit<'a>>, AllocError>
    requires { AreArrays (symbols_at table.now.symbols.now) arrays.now }
    ensures { IfOk
        result (λ c. tell c
        ≡ tell_counted table.now (names_kept sizeless.now) (item_tree item.now).shape
        (stage_by filling)) }
{
    let known = Known { table, sizeless };
    let sets = counted_sets(&known, &*item.form.shape);
    bad_sets(filling, alloc, table, arrays, sets)
}

/// What is told of a statement behind others, by the arrays of a program unit.
fn bad_behind<'a>(
    alloc: Global,
    symbols: &Symbols,
    arrays: &IndexMap<Vec<u8>, Dimensions>,
    before: &[&Item],
    item: &'a Item,
) -> Result<Option<DataCulprit<'a>>, AllocError>
    requires { AreArrays (symbols_at symbols.now) arrays.now }
    ensures { IfOk
        result (λ c. tell c
        ≡ bad_in (symbols_at symbols.now) (trees_at before.now) (item_tree item.now)) }
{
    let mut table = table_of(alloc, &*symbols);
    let mut sizeless = Vec::new(alloc);
    let mut filling = Filling::new(alloc, Way::Once);
    for &earlier in before {
        let one_more = pass_one_more(filling, alloc, &table, &sizeless, arrays, earlier)?;
        filling = one_more.filling;
        pass_names(&mut table, &mut sizeless, alloc, earlier)?;
    }
    bad_statement(filling, alloc, &table, &sizeless, arrays, item)
}

/// K10: what breaks the rule on DATA statements at a statement behind others, whether or not these
/// keep it.
///
/// # Errors
///
/// `AllocError` only where a growth was refused.
pub fn bad_data<'a>(
    alloc: Global,
    symbols: &Symbols,
    before: &[&Item],
    item: &'a Item,
) -> Result<Option<DataCulprit<'a>>, AllocError>
    ensures { IfOk
        result (λ c. tell c
        ≡ bad_in (symbols_at symbols.now) (trees_at before.now) (item_tree item.now)) }
{
    let declared = declared_in(alloc, &*symbols)?;
    bad_behind(alloc, symbols, &declared.arrays, before, item)
}
