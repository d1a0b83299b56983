//! Values for variables, arrays and elements in the lists of DATA statements, up to the first that
//! doesn't get its value (ANSI X3.9-1978, 9.1).

ghost use Rattle.std.specs.Prelude.{◌≡◌, ◌-◌, ◌^◌, ℕ, min, IfOk};
ghost use Rattle.std.specs.List.{range_with_len};
ghost use Rattle.expressions.specs.Places.{capped};
ghost use Rattle.meaning.specs.Syntax.{expr_tree, exprs_tree};
ghost use Rattle.meaning.specs.Uses.{is_other};
ghost use Rattle.declarations.specs.ArraysKept.{AreArrays};
ghost use Rattle.data_rules.specs.DataGiving.{known_there, stage_of, symbols_in};
ghost use Rattle.data_culprits.specs.Lists.{next_to, next_to_each, to_element, to_name, to_value};
ghost use Rattle.data_culprits.specs.Outcomes.{Tells};

use crate::culprit::DataCulprit;
use crate::faults::bad_subscripts;
use data_rules::{Giving, differs, give_places, next_value, place_in, size_of};
use expressions::Dimensions;
use indexmap::IndexMap;
use meaning::syntax::{Expr, Exprs};
use std::alloc::{AllocError, Global};
use symbols::{is_other_name, type_of_name};
use type_culprits::first_word;

/// Gives the next value to a place of a name, which is counted to 2^64-1; or what is told where
/// there is none, it is of another type, or the place has one.
fn bad_place<'a>(
    giving: &mut Giving,
    alloc: Global,
    name: &'a [u8],
    place: u64,
) -> Result<Option<DataCulprit<'a>>, AllocError>
    ensures told { (i : ℕ) → place ≡ capped i → IfOk result (Tells
        (next_to (symbols_in giving.old).names.types name.now i (stage_of giving.old))
        (stage_of giving.new)) }
    ensures same { giving.new.scope ≡ giving.old.scope }
{
    let symbols = giving.scope.table.symbols;
    let mut ahead = giving.values;
    match next_value(&mut ahead) {
        None => Ok(Some(DataCulprit::Unserved { name })),
        Some(value) => {
            if differs(type_of_name(symbols, name), value) {
                return Ok(Some(DataCulprit::Mistyped { name, value }));
            }
            let given = give_places(
                &mut giving.filling,
                &mut giving.values,
                alloc,
                symbols,
                name,
                place,
                1,
            )?;
            if given {
                Ok(None)
            } else {
                Ok(Some(DataCulprit::Again { name }))
            }
        }
    }
}

/// Gives the next values to so many places of a name, which are counted to 2^64-1; or what is told
/// of the first that doesn't get its value. The `AllocError` comes where a growth was refused, as
/// it is for 2^64-1 places.
fn bad_places<'a>(
    giving: &mut Giving,
    alloc: Global,
    name: &'a [u8],
    count: u64,
) -> Result<Option<DataCulprit<'a>>, AllocError>
    ensures told { (n : ℕ) → count ≡ min n (2 ^ 64 - 1) → IfOk result (Tells
        (next_to_each (symbols_in giving.old).names.types name.now (range_with_len 0 n)
        (stage_of giving.old)) (stage_of giving.new)) }
    ensures same { giving.new.scope ≡ giving.old.scope }
{
    for place in 0..count {
        match bad_place(giving, alloc, name, place)? {
            Some(culprit) => return Ok(Some(culprit)),
            None => {}
        }
    }
    if count == u64::MAX {
        return Err(AllocError);
    }
    Ok(None)
}

/// Gives values to a variable or a whole array, or what is told of it.
fn bad_name<'a>(
    giving: &mut Giving,
    alloc: Global,
    arrays: &IndexMap<Vec<u8>, Dimensions>,
    name: &'a [u8],
) -> Result<Option<DataCulprit<'a>>, AllocError>
    requires { AreArrays (symbols_in giving.old) arrays.now }
    ensures told { IfOk result (Tells
        (to_name (symbols_in giving.old).names.types ((symbols_in giving.old).names.arrays name.now)
        (is_other (symbols_in giving.old) name.now) name.now (stage_of giving.old))
        (stage_of giving.new)) }
    ensures same { giving.new.scope ≡ giving.old.scope }
{
    match arrays.get(name) {
        Some(dimensions) => bad_places(giving, alloc, name, size_of(dimensions)),
        None => {
            if is_other_name(giving.scope.table.symbols, name) {
                bad_place(giving, alloc, name, 0)
            } else {
                Ok(Some(DataCulprit::Item { word: name }))
            }
        }
    }
}

/// Gives a value to an array element, or what is told of it.
fn bad_element<'a>(
    giving: &mut Giving,
    alloc: Global,
    arrays: &IndexMap<Vec<u8>, Dimensions>,
    name: &'a [u8],
    subscripts: &'a Exprs,
) -> Result<Option<DataCulprit<'a>>, AllocError>
    requires { AreArrays (symbols_in giving.old) arrays.now }
    ensures told { IfOk result (Tells
        (to_element (symbols_in giving.old).names.types (known_there giving.old)
        ((symbols_in giving.old).names.arrays name.now) name.now (exprs_tree subscripts.now)
        (stage_of giving.old)) (stage_of giving.new)) }
    ensures same { giving.new.scope ≡ giving.old.scope }
{
    match arrays.get(name) {
        Some(dimensions) => match place_in(&giving.scope, dimensions, subscripts) {
            Some(place) => bad_place(giving, alloc, name, place),
            None => {
                let culprit = bad_subscripts(alloc, &giving.scope, name, dimensions, subscripts)?;
                Ok(Some(culprit))
            }
        },
        None => Ok(Some(DataCulprit::Item { word: name })),
    }
}

/// Gives values to what an item that is no implied DO stands for, or what is told of it.
pub fn bad_value<'a>(
    giving: &mut Giving,
    alloc: Global,
    arrays: &IndexMap<Vec<u8>, Dimensions>,
    expression: &'a Expr,
) -> Result<Option<DataCulprit<'a>>, AllocError>
    requires { AreArrays (symbols_in giving.old) arrays.now }
    ensures told { IfOk result (Tells
        (to_value (symbols_in giving.old) (known_there giving.old) (expr_tree expression.now)
        (stage_of giving.old)) (stage_of giving.new)) }
    ensures same { giving.new.scope ≡ giving.old.scope }
{
    match expression {
        Expr::Name(name) => bad_name(giving, alloc, arrays, name),
        Expr::Element(name, subscripts) => bad_element(giving, alloc, arrays, name, subscripts),
        _ => Ok(Some(DataCulprit::Item {
            word: first_word(expression),
        })),
    }
}
