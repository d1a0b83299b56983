//! What DATA statements give, one statement after another (ANSI X3.9-1978, chapter 9).

ghost use Rattle.std.specs.Prelude.{◌≡◌, map, IfOk};
ghost use Rattle.meaning.specs.Initial.{sets_of};
ghost use Rattle.meaning.specs.Syntax.{data_set_tree, shape_tree};
ghost use Rattle.meaning.specs.Trees.{item_tree};
ghost use Rattle.symbols.specs.SymbolsAt.{symbols_at};
ghost use Rattle.data_rules.specs.DataPassed.{GoesOn, IsPassed, IsSettled, IsSettledBehind};
ghost use Rattle.data_rules.specs.DataPassed.{comes_first};
ghost use Rattle.rule_passes.specs.InOrder.{AreInOrder};
ghost use Rattle.rule_passes.specs.Listed.{tree_at};
ghost use Rattle.declarations.specs.ArraysKept.{AreArrays};
ghost use Rattle.data_rules.specs.DataGiving.{symbols_in};
ghost use Rattle.data_rules.specs.DataSets.{FillsSet, FillsSets};
ghost use Rattle.data_rules.specs.DataTargets.{FillsList};
ghost use Rattle.data_rules.specs.Lacking.{names_kept, sets_counted};

use crate::data_lists::give_items;
use crate::data_values::{is_used_up, values_in};
use crate::filling::{Filling, Way};
use crate::giving::Giving;
use crate::lacking::{Known, lack_value, pass_names};
use declarations::{Table, scope_of, table_of};
use expressions::Dimensions;
use indexmap::IndexMap;
use meaning::refusal::{Broken, Rule};
use meaning::syntax::{DataSet, Item, ListItems, Shape};
use std::alloc::{AllocError, Global};
use symbols::Symbols;

/// Gives a list the values of its set; false where an item doesn't get its value, or a value is
/// left over.
fn give_list<'a>(
    giving: &mut Giving<'a>,
    alloc: Global,
    arrays: &IndexMap<Vec<u8>, Dimensions>,
    list: &'a ListItems,
) -> Result<bool, AllocError>
    requires { AreArrays (symbols_in giving.old) arrays.now }
    ensures { IfOk result (FillsList list.entry giving.old giving.new) }
{
    let given = give_items(giving, alloc, arrays, list)?;
    if !given {
        return Ok(false);
    }
    Ok(is_used_up(&mut giving.values))
}

/// Fills a set, unless what its list stands for and its values don't fit.
fn give_set<'a>(
    filling: Filling,
    alloc: Global,
    table: &'a Table<'a>,
    arrays: &IndexMap<Vec<u8>, Dimensions>,
    set: &'a DataSet,
) -> Result<Option<Filling>, AllocError>
    requires { AreArrays (symbols_at table.now.symbols.now) arrays.now }
    ensures { IfOk result (FillsSet table.now set.entry filling) }
{
    let mut giving = Giving {
        filling,
        values: values_in(table, &set.values),
        scope: scope_of(alloc, table),
    };
    match give_list(&mut giving, alloc, arrays, &set.list) {
        Ok(given) => {
            if given {
                let Giving {
                    filling,
                    values: _,
                    scope,
                } = giving;
                drop(scope);
                Ok(Some(filling))
            } else {
                drop(giving);
                Ok(None)
            }
        }
        Err(refused) => {
            drop(giving);
            Err(refused)
        }
    }
}

/// Fills sets, unless one of them doesn't fit.
pub fn give_sets<'a>(
    filling: Filling,
    alloc: Global,
    table: &'a Table<'a>,
    arrays: &IndexMap<Vec<u8>, Dimensions>,
    sets: &'a [DataSet],
) -> Result<Option<Filling>, AllocError>
    requires { AreArrays (symbols_at table.now.symbols.now) arrays.now }
    ensures { IfOk result (FillsSets table.now sets.entry filling) }
{
    let mut so_far = filling;
    for set in sets {
        match give_set(so_far, alloc, table, arrays, set)? {
            Some(more) => so_far = more,
            None => return Ok(None),
        }
    }
    Ok(Some(so_far))
}

/// The sets of a DATA statement.
fn sets_in(shape: &Shape) -> &[DataSet]
    ensures { map data_set_tree result.now ≡ sets_of (shape_tree shape.now) }
{
    match shape {
        Shape::Data(sets) => sets,
        _ => &[],
    }
}

/// The sets of a DATA statement that count: none where a constant among them has no value, or an
/// array no size.
pub fn counted_sets<'a>(known: &Known, shape: &'a Shape) -> &'a [DataSet]
    ensures { map data_set_tree result.now ≡ sets_counted known.now (shape_tree shape.now) }
{
    let sets = sets_in(shape);
    if lack_value(known, sets) {
        return &[];
    }
    sets
}

/// Whether a DATA statement at a line would break its rule before others are broken.
fn is_first(line: u32, others: Option<Broken>) -> bool
    ensures { result ≡ comes_first line others }
{
    match others {
        None => true,
        Some(other) => {
            line < other.line || (line == other.line && Rule::K10.rank() < other.rule.rank())
        }
    }
}

/// What the statements that were passed come to: the least broken pair, and what DATA statements
/// have given; nothing where one doesn't fit, or stands behind that pair.
#[derive(Drop)]
pub struct Passed {
    /// The least broken pair.
    pub broken: Option<Broken>,
    /// What was given.
    pub filling: Option<Filling>,
}

/// Passes a statement. Where one was passed that isn't filled, it stands no earlier than that one.
fn pass_data<'a>(
    passed: Passed,
    alloc: Global,
    table: &'a Table<'a>,
    sizeless: &[&[u8]],
    arrays: &IndexMap<Vec<u8>, Dimensions>,
    item: &'a Item,
) -> Result<Passed, AllocError>
    requires arrays { AreArrays (symbols_at table.now.symbols.now) arrays.now }
    requires settled { IsSettled item.now.line passed }
    ensures passed { IfOk result (λ p.
        GoesOn table.now (names_kept sizeless.now) (item_tree item.entry.now) passed p) }
    ensures settled { IfOk result (IsSettledBehind item.entry.now.line) }
{
    let Passed { broken, filling } = passed;
    match filling {
        None => Ok(Passed {
            broken,
            filling: None,
        }),
        Some(so_far) => {
            if !is_first(item.line, broken) {
                drop(so_far);
                return Ok(Passed {
                    broken,
                    filling: None,
                });
            }
            let known = Known { table, sizeless };
            let sets = counted_sets(&known, &*item.form.shape);
            match give_sets(so_far, alloc, table, arrays, sets)? {
                Some(more) => Ok(Passed {
                    broken,
                    filling: Some(more),
                }),
                None => Ok(Passed {
                    broken: Some(Broken {
                        line: item.line,
                        rule: Rule::K10,
                    }),
                    filling: None,
                }),
            }
        }
    }
}

/// K10: the least pair of the others and of the DATA statements, and what they give where there is
/// none. The `AllocError` comes where a growth was refused.
pub fn given_by_data(
    alloc: Global,
    symbols: &Symbols,
    arrays: &IndexMap<Vec<u8>, Dimensions>,
    items: &[&Item],
    others: Option<Broken>,
) -> Result<Passed, AllocError>
    requires arrays { AreArrays (symbols_at symbols.now) arrays.now }
    requires ordered { AreInOrder (map tree_at items.now) }
    ensures { IfOk
        result (λ p. IsPassed (symbols_at symbols.now) others (map tree_at items.now) p) }
{
    let mut table = table_of(alloc, symbols);
    let mut sizeless = Vec::new(alloc);
    let mut passed = Passed {
        broken: others,
        filling: Some(Filling::new(alloc, Way::Once)),
    };
    for &item in items {
        passed = pass_data(passed, alloc, &table, &sizeless, arrays, item)?;
        pass_names(&mut table, &mut sizeless, alloc, item)?;
    }
    Ok(passed)
}
