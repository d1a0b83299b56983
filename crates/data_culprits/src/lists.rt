//! Values for the lists of DATA statements, up to the first item that doesn't get its values (ANSI
//! X3.9-1978, 9.1 and 9.3).

ghost use Rattle.std.specs.Prelude.{◌≡◌, IfOk, OnOk};
ghost use Rattle.meaning.specs.Initial.{with_value};
ghost use Rattle.meaning.specs.Syntax.{list_item_tree, list_items_tree};
ghost use Rattle.declarations.specs.ArraysKept.{AreArrays};
ghost use Rattle.data_rules.specs.DataGiving.{known_there, stage_of, symbols_in};
ghost use Rattle.data_rules.specs.DataSets.{stage_by};
ghost use Rattle.data_rules.specs.DataTrips.{AreIntegers, trips_by};
ghost use Rattle.data_rules.specs.SameScope.{IsSameScope};
ghost use Rattle.data_culprits.specs.Lists.{each_trip, to_item, to_items, to_list};
ghost use Rattle.data_culprits.specs.Outcomes.{Tells};

use crate::culprit::DataCulprit;
use crate::faults::bad_limits;
use crate::items::bad_value;
use data_rules::{Giving, Trips, is_counter, is_used_up, next_trip, trips_of, value_of_trip};
use declarations::{enter_name, leave_name};
use expressions::Dimensions;
use indexmap::IndexMap;
use meaning::ending::Value;
use meaning::syntax::{ListItem, ListItems};
use std::alloc::{AllocError, Global};

/// Gives values to the items of an implied DO, trip after trip, or what is told of them.
#[cycle(bad_lists)]
fn bad_trips<'a: 'b, 'b>(
    giving: &mut Giving<'b>,
    alloc: Global,
    arrays: &IndexMap<Vec<u8>, Dimensions>,
    items: &'a ListItems,
    variable: &'a [u8],
    trips: Trips,
) -> Result<Option<DataCulprit<'a>>, AllocError>
    requires arrays { AreArrays (symbols_in giving.old) arrays.now }
    requires integers { AreIntegers trips }
    ensures told { IfOk result (Tells
        (each_trip (λ i. to_items (symbols_in giving.old) (list_items_tree items.now)
        (with_value variable.now i (known_there giving.old))) (trips_by trips)
        (stage_of giving.old)) (stage_of giving.new)) }
    ensures same { OnOk result (IsSameScope giving.old.scope giving.new.scope) }
{
    let mut value = i64::from(trips.first);
    for _ in 0..trips.count {
        let here = value_of_trip(value);
        enter_name(&mut giving.scope, variable, Some(Value::Int(here)))?;
        let told = bad_items(giving, alloc, arrays, items)?;
        leave_name(&mut giving.scope);
        match told {
            Some(culprit) => return Ok(Some(culprit)),
            None => {}
        }
        value = next_trip(value, trips.step);
    }
    Ok(None)
}

/// Gives values to what an item stands for, or what is told of it.
#[cycle(bad_lists)]
fn bad_item<'a: 'b, 'b>(
    giving: &mut Giving<'b>,
    alloc: Global,
    arrays: &IndexMap<Vec<u8>, Dimensions>,
    item: &'a ListItem,
) -> Result<Option<DataCulprit<'a>>, AllocError>
    requires { AreArrays (symbols_in giving.old) arrays.now }
    ensures told { IfOk result (Tells
        (to_item (symbols_in giving.old) (list_item_tree item.now) (known_there giving.old)
        (stage_of giving.old)) (stage_of giving.new)) }
    ensures same { OnOk result (IsSameScope giving.old.scope giving.new.scope) }
{
    match item {
        ListItem::Value(expression) => bad_value(giving, alloc, arrays, expression),
        ListItem::Loop {
            items,
            variable,
            limits,
        } => {
            if !is_counter(giving.scope.table.symbols, variable) {
                return Ok(Some(DataCulprit::Counter { name: variable }));
            }
            match trips_of(&giving.scope, limits) {
                Some(trips) => bad_trips(giving, alloc, arrays, items, variable, trips),
                None => {
                    let culprit = bad_limits(alloc, &giving.scope, variable, limits)?;
                    Ok(Some(culprit))
                }
            }
        }
    }
}

/// Gives values to what items stand for, or what is told of the first that doesn't get its values.
#[cycle(bad_lists)]
fn bad_items<'a: 'b, 'b>(
    giving: &mut Giving<'b>,
    alloc: Global,
    arrays: &IndexMap<Vec<u8>, Dimensions>,
    items: &'a ListItems,
) -> Result<Option<DataCulprit<'a>>, AllocError>
    requires { AreArrays (symbols_in giving.old) arrays.now }
    ensures told { IfOk result (Tells
        (to_items (symbols_in giving.old) (list_items_tree items.now) (known_there giving.old)
        (stage_of giving.old)) (stage_of giving.new)) }
    ensures same { OnOk result (IsSameScope giving.old.scope giving.new.scope) }
{
    match items {
        ListItems::Empty => Ok(None),
        ListItems::More(item, rest) => match bad_item(giving, alloc, arrays, item)? {
            Some(culprit) => Ok(Some(culprit)),
            None => bad_items(giving, alloc, arrays, rest),
        },
    }
}

/// Gives a list the values of its set, or what is told of the first item that doesn't get its
/// values, or of a value that is left over.
pub fn bad_list<'a: 'b, 'b>(
    giving: &mut Giving<'b>,
    alloc: Global,
    arrays: &IndexMap<Vec<u8>, Dimensions>,
    list: &'a ListItems,
) -> Result<Option<DataCulprit<'a>>, AllocError>
    requires { AreArrays (symbols_in giving.old) arrays.now }
    ensures { IfOk result (Tells
        (to_list (symbols_in giving.old) (known_there giving.old) (list_items_tree list.now)
        (stage_of giving.old)) (stage_by giving.new.filling)) }
{
    match bad_items(giving, alloc, arrays, list)? {
        Some(culprit) => Ok(Some(culprit)),
        None => {
            if is_used_up(&mut giving.values) {
                Ok(None)
            } else {
                Ok(Some(DataCulprit::LeftOver))
            }
        }
    }
}
