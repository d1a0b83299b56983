//! The arrays of a program unit with their bounds (ANSI X3.9-1978, 5.1).

ghost use Rattle.std.specs.Prelude.{◌≡◌, ◌≤◌, ◌∷◌, [], length, map, IfOk, IsOk, OnOk};
ghost use Rattle.expressions.specs.Dimensions.{dimension};
ghost use Rattle.declarations.specs.ArraysKept.{AreArrays, AreConstants, GainsDeclared};
ghost use Rattle.declarations.specs.Dimensioned.{bound_at, dimension_at, dimensions_at};
ghost use Rattle.declarations.specs.Tables.{known_at};
ghost use Rattle.symbols.specs.SymbolsAt.{symbols_at};

use crate::known::{Table, pass_constants, table_of, value_of};
use expressions::{Dimension, Dimensions, as_integer};
use indexmap::IndexMap;
use meaning::syntax::{Bounds, Declarator, Expr};
use std::alloc::{AllocError, Global};
use symbols::{Symbols, declarators_in};

/// The value of a bound; 0 where it has none.
fn bound(table: &Table, expression: &Expr) -> i32
    ensures { result ≡ bound_at table.now expression.now }
{
    match value_of(table, expression) {
        Some(value) => as_integer(value),
        None => 0,
    }
}

/// The dimension that bounds give.
pub fn dimension_of(table: &Table, bounds: &Bounds) -> Dimension
    ensures { dimension result ≡ dimension_at table.now bounds.now }
{
    let lower = match &bounds.lower {
        Some(lower) => bound(table, lower),
        None => 1,
    };
    Dimension {
        lower,
        upper: bound(table, &bounds.upper),
    }
}

/// The dimensions that several bounds give. The `AllocError` comes where they are more than seven,
/// and a growth was refused.
fn dimensions_by(alloc: Global, table: &Table, bounds: &[Bounds]) -> Result<Dimensions, AllocError>
    ensures are { IfOk result (λ v. map dimension v.items ≡ dimensions_at table.now bounds.now) }
    ensures inline { length bounds.now ≤ 7 → IsOk result }
{
    let mut found = Dimensions::new(alloc);
    for one in bounds {
        found.push(dimension_of(table, one))?;
    }
    Ok(found)
}

/// Keeps the dimensions of a declarator, if it is the first that gives its name bounds.
fn add_array(
    arrays: &mut IndexMap<Vec<u8>, Dimensions>,
    alloc: Global,
    table: &Table,
    declarator: &Declarator,
) -> Result<(), AllocError>
    ensures { OnOk result (GainsDeclared table.now arrays.old arrays.new (declarator.now ∷ [])) }
{
    let name = declarator.name.as_slice();
    if declarator.bounds.len() > 0 && !arrays.contains_key(name) {
        let dimensions = dimensions_by(alloc, table, &declarator.bounds)?;
        let own = Vec::from_slice(alloc, name)?;
        arrays.insert(own, dimensions)?;
    }
    Ok(())
}

/// Keeps the dimensions of declarators that are the first to give their names bounds.
fn add_arrays(
    arrays: &mut IndexMap<Vec<u8>, Dimensions>,
    alloc: Global,
    table: &Table,
    declarators: &[Declarator],
) -> Result<(), AllocError>
    ensures { OnOk result (GainsDeclared table.now arrays.old arrays.new declarators.now) }
{
    for declarator in declarators {
        add_array(arrays, alloc, table, declarator)?;
    }
    Ok(())
}

/// The constants and the arrays of a program unit.
#[derive(Drop)]
pub struct Declared<'a> {
    /// The constants behind all statements.
    pub table: Table<'a>,
    /// The arrays with their dimensions.
    pub arrays: IndexMap<Vec<u8>, Dimensions>,
}

/// The constants and the arrays that the statements of a unit define (ANSI X3.9-1978, 5.1 and 8.6).
/// The `AllocError` comes where a growth was refused.
pub fn declared_in<'a>(alloc: Global, symbols: &'a Symbols<'a>) -> Result<Declared<'a>, AllocError>
    ensures symbols { IfOk result (λ declared. declared.table.symbols.now ≡ symbols.now) }
    ensures constants { IfOk
        result (λ declared. AreConstants symbols.now (known_at declared.table)) }
    ensures arrays { IfOk result (λ declared. AreArrays (symbols_at symbols.now) declared.arrays) }
{
    let mut table = table_of(alloc, symbols);
    let mut arrays = IndexMap::new(alloc);
    for item in symbols.items {
        add_arrays(
            &mut arrays,
            alloc,
            &table,
            declarators_in(&*item.form.shape),
        )?;
        pass_constants(&mut table, alloc, item)?;
    }
    Ok(Declared { table, arrays })
}
