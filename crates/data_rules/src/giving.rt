//! What the items in the lists of DATA statements are given (ANSI X3.9-1978, 9.1).

ghost use Rattle.std.specs.Prelude.{◌≡◌, ◌-◌, ◌^◌, map, min, IfOk};
ghost use Rattle.meaning.specs.Arrays.{size};
ghost use Rattle.expressions.specs.Dimensions.{dimension};
ghost use Rattle.declarations.specs.ArraysKept.{AreArrays};
ghost use Rattle.data_rules.specs.DataGiving.{symbols_in};
ghost use Rattle.data_rules.specs.DataTargets.{FillsElement, FillsName, FillsValue};

use crate::data_values::Values;
use crate::elements::place_in;
use crate::filling::{Filling, give_places};
use declarations::Scope;
use expressions::{Dimension, Dimensions};
use indexmap::IndexMap;
use meaning::syntax::{Expr, Exprs};
use std::alloc::{AllocError, Global};
use symbols::is_other_name;

/// What DATA statements have given so far, the values of a set that are left, and the names that
/// are known in its list.
#[derive(Drop)]
pub struct Giving<'a> {
    pub filling: Filling,
    pub values: Values<'a>,
    pub scope: Scope<'a>,
}

/// How many elements an array of these dimensions has, or 2^64-1 where it has more.
pub fn size_of(dimensions: &[Dimension]) -> u64
    ensures { result ≡ min (size (map dimension dimensions.now)) (2 ^ 64 - 1) }
{
    match dimensions.split_first() {
        None => 1,
        Some((first, more)) => first.extent().saturating_mul(size_of(more)),
    }
}

/// Gives values to a variable or a whole array; false where the name is neither, or a value is
/// missing or doesn't fit.
fn give_name(
    giving: &mut Giving,
    alloc: Global,
    arrays: &IndexMap<Vec<u8>, Dimensions>,
    name: &[u8],
) -> Result<bool, AllocError>
    requires { AreArrays (symbols_in giving.old) arrays.now }
    ensures filled { IfOk result (FillsName name.entry giving.old giving.new) }
    ensures same { giving.new.scope ≡ giving.old.scope }
{
    let symbols = giving.scope.table.symbols;
    match arrays.get(name) {
        Some(dimensions) => {
            let size = size_of(dimensions);
            give_places(
                &mut giving.filling,
                &mut giving.values,
                alloc,
                symbols,
                name,
                0,
                size,
            )
        }
        None => {
            if is_other_name(symbols, name) {
                give_places(
                    &mut giving.filling,
                    &mut giving.values,
                    alloc,
                    symbols,
                    name,
                    0,
                    1,
                )
            } else {
                Ok(false)
            }
        }
    }
}

/// Gives a value to an array element; false where there is none, or the value is missing or doesn't
/// fit.
fn give_element(
    giving: &mut Giving,
    alloc: Global,
    arrays: &IndexMap<Vec<u8>, Dimensions>,
    name: &[u8],
    subscripts: &Exprs,
) -> Result<bool, AllocError>
    requires { AreArrays (symbols_in giving.old) arrays.now }
    ensures filled { IfOk result (FillsElement name.entry subscripts.now giving.old giving.new) }
    ensures same { giving.new.scope ≡ giving.old.scope }
{
    match arrays.get(name) {
        Some(dimensions) => match place_in(&giving.scope, dimensions, subscripts) {
            Some(place) => {
                let symbols = giving.scope.table.symbols;
                give_places(
                    &mut giving.filling,
                    &mut giving.values,
                    alloc,
                    symbols,
                    name,
                    place,
                    1,
                )
            }
            None => Ok(false),
        },
        None => Ok(false),
    }
}

/// Gives values to what an item of a list that is no implied DO stands for; false where it stands
/// for nothing, or a value is missing or doesn't fit.
pub fn give_value(
    giving: &mut Giving,
    alloc: Global,
    arrays: &IndexMap<Vec<u8>, Dimensions>,
    expression: &Expr,
) -> Result<bool, AllocError>
    requires { AreArrays (symbols_in giving.old) arrays.now }
    ensures filled { IfOk result (FillsValue expression.entry giving.old giving.new) }
    ensures same { giving.new.scope ≡ giving.old.scope }
{
    match expression {
        Expr::Name(name) => give_name(giving, alloc, arrays, name),
        Expr::Element(name, subscripts) => give_element(giving, alloc, arrays, name, subscripts),
        _ => Ok(false),
    }
}
