//! What the lists of DATA statements are given (ANSI X3.9-1978, 9.1 and 9.3).

ghost use Rattle.std.specs.Prelude.{◌≡◌, IfOk, OnOk};
ghost use Rattle.meaning.specs.Initial.{is_counter as is_counter_by};
ghost use Rattle.data_rules.specs.SameScope.{IsSameScope};
ghost use Rattle.symbols.specs.SymbolsAt.{symbols_at};
ghost use Rattle.declarations.specs.ArraysKept.{AreArrays};
ghost use Rattle.data_rules.specs.DataGiving.{symbols_in};
ghost use Rattle.data_rules.specs.DataTargets.{FillsItem, FillsItems, Repeats};
ghost use Rattle.data_rules.specs.DataTrips.{AreIntegers};

use crate::giving::{Giving, give_value};
use crate::trips::{Trips, next_trip, trips_of, value_of_trip};
use declarations::{enter_name, leave_name};
use expressions::Dimensions;
use indexmap::IndexMap;
use meaning::ending::Value;
use meaning::syntax::{DataType, ListItem, ListItems};
use std::alloc::{AllocError, Global};
use symbols::{Symbols, is_other_name, type_of_name};

/// Whether a name can be that of the variable of an implied DO.
pub fn is_counter(symbols: &Symbols, name: &[u8]) -> bool
    ensures { result ≡ is_counter_by (symbols_at symbols.now) name.now }
{
    match type_of_name(symbols, name) {
        Some(DataType::Integer) => is_other_name(symbols, name),
        Some(DataType::Logical) => false,
        None => false,
    }
}

/// Gives values to the items of an implied DO, trip after trip; false where one doesn't get its
/// value.
#[cycle(data_lists)]
fn give_trips<'a>(
    giving: &mut Giving<'a>,
    alloc: Global,
    arrays: &IndexMap<Vec<u8>, Dimensions>,
    items: &'a ListItems,
    variable: &'a [u8],
    trips: Trips,
) -> Result<bool, AllocError>
    requires arrays { AreArrays (symbols_in giving.old) arrays.now }
    requires integers { AreIntegers trips }
    ensures filled { IfOk result (Repeats items.entry variable.entry trips giving.old giving.new) }
    ensures same { OnOk result (IsSameScope giving.old.scope giving.new.scope) }
{
    let mut value = i64::from(trips.first);
    for _ in 0..trips.count {
        let here = value_of_trip(value);
        enter_name(&mut giving.scope, variable, Some(Value::Int(here)))?;
        let given = give_items(giving, alloc, arrays, items)?;
        leave_name(&mut giving.scope);
        if !given {
            return Ok(false);
        }
        value = next_trip(value, trips.step);
    }
    Ok(true)
}

/// Gives values to what an item stands for; false where it stands for nothing, or doesn't get its
/// values.
#[cycle(data_lists)]
fn give_item<'a>(
    giving: &mut Giving<'a>,
    alloc: Global,
    arrays: &IndexMap<Vec<u8>, Dimensions>,
    item: &'a ListItem,
) -> Result<bool, AllocError>
    requires { AreArrays (symbols_in giving.old) arrays.now }
    ensures filled { IfOk result (FillsItem item.entry giving.old giving.new) }
    ensures same { OnOk result (IsSameScope giving.old.scope giving.new.scope) }
{
    match item {
        ListItem::Value(expression) => give_value(giving, alloc, arrays, expression),
        ListItem::Loop {
            items,
            variable,
            limits,
        } => {
            if !is_counter(giving.scope.table.symbols, variable) {
                return Ok(false);
            }
            match trips_of(&giving.scope, limits) {
                Some(trips) => give_trips(giving, alloc, arrays, items, variable, trips),
                None => Ok(false),
            }
        }
    }
}

/// Gives values to what items stand for; false where one stands for nothing, or doesn't get its
/// values.
#[cycle(data_lists)]
pub fn give_items<'a>(
    giving: &mut Giving<'a>,
    alloc: Global,
    arrays: &IndexMap<Vec<u8>, Dimensions>,
    items: &'a ListItems,
) -> Result<bool, AllocError>
    requires { AreArrays (symbols_in giving.old) arrays.now }
    ensures filled { IfOk result (FillsItems items.entry giving.old giving.new) }
    ensures same { OnOk result (IsSameScope giving.old.scope giving.new.scope) }
{
    match items {
        ListItems::Empty => Ok(true),
        ListItems::More(item, rest) => {
            if !give_item(giving, alloc, arrays, item)? {
                return Ok(false);
            }
            give_items(giving, alloc, arrays, rest)
        }
    }
}
