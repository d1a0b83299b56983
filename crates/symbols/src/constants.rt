//! The names of constants (ANSI X3.9-1978, 8.6).

ghost use Rattle.std.specs.Prelude.{◌≡◌, [], map, IfOk, OnOk};
ghost use Rattle.meaning.specs.Scopes.{constants_in};
ghost use Rattle.meaning.specs.Syntax.{constant_tree, shape_tree};
ghost use Rattle.meaning.specs.Uses.{defined_constants};
ghost use Rattle.symbols.specs.Listed.{trees_at};
ghost use Rattle.name_maps.specs.NameSets.{texts, with_names};

use indexmap::IndexSet;
use meaning::syntax::{Item, NamedConstant, Shape};
use name_maps::add_name;
use std::alloc::{AllocError, Global};

/// Puts the names of constants behind those that are there.
fn add_constants(
    names: &mut IndexSet<Vec<u8>>,
    alloc: Global,
    constants: &[NamedConstant],
) -> Result<(), AllocError>
    ensures { OnOk result
        (texts names.new.keys
        ≡ with_names (texts names.old.keys) (map (λ c. c.name) (map constant_tree constants.now))) }
{
    for constant in constants {
        add_name(names, alloc, &constant.name)?;
    }
    Ok(())
}

/// Puts the names of the constants that a statement defines behind those that are there.
fn add_constants_in(
    names: &mut IndexSet<Vec<u8>>,
    alloc: Global,
    shape: &Shape,
) -> Result<(), AllocError>
    ensures { OnOk result
        (texts names.new.keys
        ≡ with_names (texts names.old.keys)
        (map (λ c. c.name) (constants_in (shape_tree shape.now)))) }
{
    match shape {
        Shape::Parameter(constants) => add_constants(names, alloc, constants),
        _ => Ok(()),
    }
}

/// The names of the constants that the statements define.
pub fn constants_of(alloc: Global, items: &[&Item]) -> Result<IndexSet<Vec<u8>>, AllocError>
    ensures { IfOk
        result (λ names. texts names.keys
        ≡ with_names [] (defined_constants (trees_at items.now))) }
{
    let mut names = IndexSet::new(alloc);
    for item in items {
        add_constants_in(&mut names, alloc, &*item.form.shape)?;
    }
    Ok(names)
}
