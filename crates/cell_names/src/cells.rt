//! Names with their dimensions and how many cells they take.

ghost use Rattle.std.specs.Prelude.{◌≡◌, ◌*◌, map, IfOk};
ghost use Rattle.cell_names.specs.Cells.{are_named};
ghost use Rattle.declarations.specs.ArraysKept.{arrays_kept};
ghost use Rattle.expressions.specs.Dimensions.{dimension};
ghost use Rattle.meaning.specs.Arrays.{size};
ghost use Rattle.meaning.specs.Values.{dimensions_in};
ghost use Rattle.name_maps.specs.NameSets.{texts};
ghost use Rattle.storage.specs.Numbered.{named};

use crate::named::Named;
use expressions::{Dimension, Dimensions};
use indexmap::IndexMap;
use std::alloc::{AllocError, Global};

/// Names with their dimensions.
pub(crate) fn with_dimensions(
    alloc: Global,
    arrays: &IndexMap<Vec<u8>, Dimensions>,
    names: &[Vec<u8>],
) -> Result<Vec<Named>, AllocError>
    ensures { IfOk result
        (λ found. are_named found.items ≡ named (arrays_kept arrays.now) (texts names.now)) }
{
    let mut found = Vec::new(alloc);
    for name in names {
        let dimensions = dimensions_named(alloc, arrays, name)?;
        let own = Vec::from_slice(alloc, name)?;
        let cells = cells_in(&dimensions)?;
        found.push(Named {
            name: own,
            dimensions,
            cells,
        })?;
    }
    Ok(found)
}

// The dimensions of a name, none where it is no array's.
fn dimensions_named(
    alloc: Global,
    arrays: &IndexMap<Vec<u8>, Dimensions>,
    name: &[u8],
) -> Result<Dimensions, AllocError>
    ensures { IfOk result
        (λ found. map dimension found.items ≡ dimensions_in (arrays_kept arrays.now name.now)) }
{
    match arrays.get(name) {
        Some(dimensions) => Dimensions::from_slice(alloc, dimensions),
        None => Ok(Dimensions::new(alloc)),
    }
}

// How many cells dimensions take. The `AllocError` comes where there are 2^64 or more.
fn cells_in(dimensions: &[Dimension]) -> Result<usize, AllocError>
    ensures { IfOk result (λ cells. cells ≡ size (map dimension dimensions.now)) }
{
    let mut found: usize = 1;
    for one in dimensions {
        found = times(found, one.extent() as usize)?;
    }
    Ok(found)
}

// A product. The `AllocError` comes where it is 2^64 or more.
fn times(a: usize, b: usize) -> Result<usize, AllocError>
    ensures { IfOk result (λ product. product ≡ a * b) }
{
    match a.checked_mul(b) {
        Some(product) => Ok(product),
        None => Err(AllocError),
    }
}
