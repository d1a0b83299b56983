//! The name of a cell.

ghost use Rattle.std.specs.Prelude.{◌≡◌, ◌+ℤ◌, ◌<◌, ◌≤◌, pos, map, Some, IfNone, IfOk, IfSome};
ghost use Rattle.std.specs.Prelude.{option_map};
ghost use Rattle.cell_names.specs.Cells.{AreApart, are_named};
ghost use Rattle.cell_names.specs.Told.{subscripts_at, told_at, told_by};
ghost use Rattle.expressions.specs.Dimensions.{dimension, dimension as in_dimension};
ghost use Rattle.meaning.specs.Arrays.{cell_of, cells_of, extent as extent_of, size};

use crate::named::Named;
use expressions::Dimension;
use std::alloc::{AllocError, Global};

/// A name with the subscripts of an element, none where it is a variable's.
#[derive(Drop)]
pub struct CellName {
    /// The name.
    pub name: Vec<u8>,
    /// The subscripts.
    pub subscripts: Vec<i32>,
}

/// The name of the variable or of the array element that has a cell. `None` where no name has it.
pub fn name_of_cell(
    alloc: Global,
    names: &[Named],
    cell: usize,
) -> Result<Option<CellName>, AllocError>
    ensures told { IfOk result
        (λ found. option_map told_by found ≡ told_at (are_named names.now) cell) }
    ensures own { AreApart (are_named names.now) → IfOk result (λ found. IfSome found
        (λ c. cell_of (are_named names.now) c.name.items c.subscripts.items ≡ Some cell)) }
    ensures past { IfOk result (λ found. IfNone found (cells_of (are_named names.now) ≤ cell)) }
{
    let mut place = cell;
    for one in names {
        if place < one.cells {
            return Ok(Some(name_at(alloc, one, place)?));
        }
        place -= one.cells;
    }
    Ok(None)
}

// The name with the subscripts of its element at a place.
fn name_at(alloc: Global, one: &Named, place: usize) -> Result<CellName, AllocError>
    requires { place < one.now.cells }
    ensures name { IfOk result (λ c. c.name.items ≡ one.now.name.items) }
    ensures subscripts { IfOk result
        (λ c. c.subscripts.items ≡ subscripts_at (map dimension one.now.dimensions.items) place) }
{
    let name = Vec::from_slice(alloc, &one.name)?;
    let subscripts = subscripts_of(alloc, &one.dimensions, place)?;
    Ok(CellName { name, subscripts })
}

// The subscripts of the element at a place.
fn subscripts_of(
    alloc: Global,
    dimensions: &[Dimension],
    place: usize,
) -> Result<Vec<i32>, AllocError>
    requires { place < size (map dimension dimensions.now) }
    ensures { IfOk result
        (λ found. found.items ≡ subscripts_at (map dimension dimensions.now) place) }
{
    let mut found = Vec::new(alloc);
    let mut left = place as u64;
    for one in dimensions {
        let extent = one.extent();
        found.push(subscript(*one, left % extent))?;
        left /= extent;
    }
    Ok(found)
}

// The subscript that stands so far above the lower bound.
fn subscript(dimension: Dimension, above: u64) -> i32
    requires { above < extent_of (in_dimension dimension) }
    ensures { result ≡ dimension.lower +ℤ pos above }
{
    (i64::from(dimension.lower) + above as i64) as i32
}
