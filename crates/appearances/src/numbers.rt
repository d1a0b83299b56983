//! The order of variables and arrays (ANSI X3.9-1978, 2.5).

ghost use Rattle.std.specs.Prelude.{◌≡◌, ◌∷◌, [], ℕ, Bool, List, IfOk, OnOk};
ghost use Rattle.name_maps.specs.NameSets.{texts};
ghost use Rattle.symbols.specs.SymbolsAt.{symbols_at};
ghost use Rattle.appearances.specs.Appearing.{Puts, PutsNames, appearing_at, named, used};
ghost use Rattle.appearances.specs.Appearing.{variables_at, variables_first_at};
ghost use Rattle.storage.specs.Numbered.{is_variable as is_variable_name, with_those};

use indexmap::IndexSet;
use meaning::syntax::{Declarator, Item};
use name_maps::add_name;
use name_uses::{NameUse, uses_of};
use std::alloc::{AllocError, Global};
use symbols::{Stage, Symbols, declarators_in, is_array_name, is_other_name};

/// Whether a name is that of a variable or an array.
fn is_variable(symbols: &Symbols, name: &[u8]) -> bool
    ensures { result ≡ is_variable_name (symbols_at symbols.now) name.now }
{
    is_array_name(symbols, name) || is_other_name(symbols, name)
}

/// Puts a name behind those that are there, if it is wanted and isn't one of them.
#[tactic(auto, using(crate::proofs::Appearance::passing_more, crate::proofs::Appearance::failing_more))]
fn add_wanted(
    names: &mut IndexSet<Vec<u8>>,
    alloc: Global,
    wanted: bool,
    name: &[u8],
) -> Result<(), AllocError>
    ensures { (test : List ℕ → Bool) → wanted ≡ test name.now → OnOk result
        (texts names.new.keys ≡ with_those test (texts names.old.keys) (name.now ∷ [])) }
{
    if wanted {
        add_name(names, alloc, name)
    } else {
        Ok(())
    }
}

/// Puts a name behind those that are there, if it is that of a variable or an array and isn't one
/// of them.
fn add_variable(
    names: &mut IndexSet<Vec<u8>>,
    alloc: Global,
    symbols: &Symbols,
    name: &[u8],
) -> Result<(), AllocError>
    ensures { OnOk result (Puts symbols.now names.old.keys names.new.keys (name.now ∷ [])) }
{
    add_wanted(names, alloc, is_variable(symbols, name), name)
}

/// Puts the names of variables and arrays in declarators behind those that are there.
fn add_declared(
    names: &mut IndexSet<Vec<u8>>,
    alloc: Global,
    symbols: &Symbols,
    declarators: &[Declarator],
) -> Result<(), AllocError>
    ensures { OnOk result (Puts symbols.now names.old.keys names.new.keys (named declarators.now)) }
{
    for declarator in declarators {
        add_variable(names, alloc, symbols, &declarator.name)?;
    }
    Ok(())
}

/// Puts the names of variables and arrays that are used behind those that are there.
fn add_used(
    names: &mut IndexSet<Vec<u8>>,
    alloc: Global,
    symbols: &Symbols,
    uses: &[NameUse],
) -> Result<(), AllocError>
    ensures { OnOk result (Puts symbols.now names.old.keys names.new.keys (used uses.now)) }
{
    for one in uses {
        add_variable(names, alloc, symbols, one.name)?;
    }
    Ok(())
}

/// Puts the variables and arrays of a statement behind those that are there.
fn add_names_at(
    names: &mut IndexSet<Vec<u8>>,
    alloc: Global,
    symbols: &Symbols,
    stage: &Stage,
    item: &Item,
) -> Result<(), AllocError>
    ensures { OnOk result (PutsNames symbols.now stage.now item.now names.old.keys names.new.keys) }
{
    let shape = &*item.form.shape;
    let uses = uses_of(alloc, symbols, stage.is_defining(symbols, item), shape)?;
    add_declared(names, alloc, symbols, declarators_in(shape))?;
    add_used(names, alloc, symbols, &uses)?;
    Ok(())
}

/// The variables and arrays of the statements, in the order of their first appearance.
fn names_appearing(alloc: Global, symbols: &Symbols) -> Result<IndexSet<Vec<u8>>, AllocError>
    ensures { IfOk result (λ names. texts names.keys ≡ appearing_at symbols.now) }
{
    let mut names = IndexSet::new(alloc);
    let mut stage = Stage::new();
    for item in symbols.items {
        add_names_at(&mut names, alloc, symbols, &stage, item)?;
        stage.pass(symbols, item);
    }
    Ok(names)
}

/// Those of the names that are variables, and then those that are arrays.
fn variables_then_arrays(
    alloc: Global,
    symbols: &Symbols,
    names: &[Vec<u8>],
) -> Result<IndexSet<Vec<u8>>, AllocError>
    ensures { IfOk result
        (λ ordered. texts ordered.keys ≡ variables_first_at symbols.now (texts names.now)) }
{
    let mut ordered = IndexSet::new(alloc);
    'variables: for name in names {
        add_wanted(&mut ordered, alloc, is_other_name(symbols, name), name)?;
    }
    'arrays: for name in names {
        add_wanted(&mut ordered, alloc, is_array_name(symbols, name), name)?;
    }
    Ok(ordered)
}

/// The variables of the statements in the order of their first appearance, and then the arrays in
/// that of theirs. So variables have the first cells, however large arrays are.
pub fn variables_in_order(alloc: Global, symbols: &Symbols) -> Result<IndexSet<Vec<u8>>, AllocError>
    ensures { IfOk result (λ names. texts names.keys ≡ variables_at symbols.now) }
{
    let names = names_appearing(alloc, symbols)?;
    variables_then_arrays(alloc, symbols, names.as_slice())
}
