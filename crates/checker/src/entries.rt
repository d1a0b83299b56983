//! What is kept of names (ANSI X3.9-1978, 2.12, 4.1.2, 5.4 and 8.6).

ghost use Rattle.std.specs.Prelude.{◌≡◌, ◌≤◌, ◌<◌, ◌+◌, ◌^◌, ◌∷◌, [], length, map, IfOk, IsOk};
ghost use Rattle.std.specs.Prelude.{OnOk};
ghost use Rattle.meaning.specs.Arrays.{cells_of, size};
ghost use Rattle.meaning.specs.Scopes.{constants_in};
ghost use Rattle.meaning.specs.Syntax.{constant_tree, shape_tree};
ghost use Rattle.expressions.specs.Dimensions.{dimension};
ghost use Rattle.name_maps.specs.NameSets.{texts};
ghost use Rattle.k_rules.specs.Judged.{constant_in};
ghost use Rattle.checker.specs.Entries.{AddsOne, AddsCells, AreCountable, AreSaid, AreStored};
ghost use Rattle.checker.specs.Entries.{HaveRoom, Tells, given_in, cells_at, declared, defined};
ghost use Rattle.checker.specs.Entries.{dimensions_at, given, named_by, said};

use expressions::{Dimension, Dimensions};
use indexmap::IndexMap;
use k_rules::Facts;
use meaning::ending::Value;
use meaning::syntax::{Declarator, Item, NamedConstant, Shape};
use std::alloc::{AllocError, Global};
use storage::{Entry, Storage};
use symbols::{Symbols, declarators_in, type_of_name};

/// The value of a name, if it is a constant's.
fn constant_named(facts: &Facts, name: &[u8]) -> Option<Value>
    ensures { result ≡ constant_in facts.now name.now }
{
    match facts.constants.get(name) {
        Some(value) => *value,
        None => None,
    }
}

/// The dimensions of a name, none where it is no array's. The `AllocError` comes where they are
/// more than seven, and a growth was refused.
fn dimensions_named(alloc: Global, facts: &Facts, name: &[u8]) -> Result<Dimensions, AllocError>
    ensures are { IfOk result (λ v. map dimension v.items ≡ dimensions_at facts.now name.now) }
    ensures inline { length (dimensions_at facts.now name.now) ≤ 7 → IsOk result }
{
    match facts.arrays.get(name) {
        Some(dimensions) => Dimensions::from_slice(alloc, dimensions),
        None => Ok(Dimensions::new(alloc)),
    }
}

/// How many cells dimensions take.
pub(crate) fn cells_in(dimensions: &[Dimension]) -> usize
    requires { AreCountable (map dimension dimensions.now) }
    ensures { result ≡ size (map dimension dimensions.now) }
{
    let mut found: usize = 1;
    for one in dimensions {
        found *= one.extent() as usize;
    }
    found
}

/// Keeps what is so of a name, unless something is kept of it.
fn add_entry(
    entries: &mut IndexMap<Vec<u8>, Entry>,
    alloc: Global,
    name: &[u8],
    entry: Entry,
) -> Result<(), AllocError>
    ensures { OnOk result (AddsOne entries.old entries.new name.now (said entry)) }
{
    if entries.contains_key(name) {
        drop(entry);
        return Ok(());
    }
    let own = Vec::from_slice(alloc, name)?;
    entries.insert(own, entry)?;
    Ok(())
}

/// What is kept of names, and the number of the next cell.
#[derive(Drop)]
pub(crate) struct Storing {
    pub entries: IndexMap<Vec<u8>, Entry>,
    pub next: usize,
}

/// Gives a variable or an array the next cells.
fn add_stored(
    storing: &mut Storing,
    alloc: Global,
    symbols: &Symbols,
    facts: &Facts,
    name: &[u8],
) -> Result<(), AllocError>
    requires countable { AreCountable (dimensions_at facts.now name.now) }
    requires room { storing.old.next + cells_at facts.now name.now < 2 ^ 64 }
    ensures next { OnOk result (storing.new.next ≡ storing.old.next + cells_at facts.now name.now) }
    ensures entries { OnOk result
        (AddsCells facts.now symbols.now name.now storing.old storing.new) }
{
    let dimensions = dimensions_named(alloc, facts, name)?;
    let first = storing.next;
    let cells = cells_in(&dimensions);
    let next = first + cells;
    let entry = Entry {
        value: constant_named(facts, name),
        data_type: type_of_name(symbols, name),
        storage: Some(Storage { first, dimensions }),
    };
    storing.next = next;
    add_entry(&mut storing.entries, alloc, name, entry)?;
    Ok(())
}

/// Gives variables and arrays their cells, one behind another.
fn store_names(
    alloc: Global,
    symbols: &Symbols,
    facts: &Facts,
    names: &[Vec<u8>],
) -> Result<Storing, AllocError>
    requires { HaveRoom facts.now (texts names.now) }
    ensures next { IfOk result (λ s. s.next ≡ cells_of (named_by facts.now names.now)) }
    ensures entries { IfOk result (λ s. AreStored facts.now symbols.now names.now s.entries) }
{
    let mut storing = Storing {
        entries: IndexMap::new(alloc),
        next: 0,
    };
    for name in names {
        add_stored(&mut storing, alloc, symbols, facts, name)?;
    }
    Ok(storing)
}

/// Keeps the value and the type of a name, unless something is kept of it.
fn add_described(
    entries: &mut IndexMap<Vec<u8>, Entry>,
    alloc: Global,
    symbols: &Symbols,
    facts: &Facts,
    name: &[u8],
) -> Result<(), AllocError>
    ensures { OnOk result (Tells facts.now symbols.now entries.old entries.new (name.now ∷ [])) }
{
    let entry = Entry {
        value: constant_named(facts, name),
        data_type: type_of_name(symbols, name),
        storage: None,
    };
    add_entry(entries, alloc, name, entry)?;
    Ok(())
}

/// Keeps the values and the types of the names in declarators.
fn add_declared(
    entries: &mut IndexMap<Vec<u8>, Entry>,
    alloc: Global,
    symbols: &Symbols,
    facts: &Facts,
    declarators: &[Declarator],
) -> Result<(), AllocError>
    ensures { OnOk result
        (Tells facts.now symbols.now entries.old entries.new (declared declarators.now)) }
{
    for declarator in declarators {
        add_described(entries, alloc, symbols, facts, &declarator.name)?;
    }
    Ok(())
}

/// Keeps the values and the types of constants.
fn add_constants(
    entries: &mut IndexMap<Vec<u8>, Entry>,
    alloc: Global,
    symbols: &Symbols,
    facts: &Facts,
    constants: &[NamedConstant],
) -> Result<(), AllocError>
    ensures { OnOk result
        (Tells facts.now symbols.now entries.old entries.new (defined constants.now)) }
{
    for constant in constants {
        add_described(entries, alloc, symbols, facts, &constant.name)?;
    }
    Ok(())
}

/// The constants that a statement defines.
fn constants_of(shape: &Shape) -> &[NamedConstant]
    ensures { map constant_tree result.now ≡ constants_in (shape_tree shape.now) }
{
    match shape {
        Shape::Parameter(constants) => constants,
        _ => &[],
    }
}

/// Keeps the values and the types of the names that a statement declares and of the constants that
/// it defines.
fn add_given(
    entries: &mut IndexMap<Vec<u8>, Entry>,
    alloc: Global,
    symbols: &Symbols,
    facts: &Facts,
    shape: &Shape,
) -> Result<(), AllocError>
    ensures { OnOk result (Tells facts.now symbols.now entries.old entries.new (given shape.now)) }
{
    add_declared(entries, alloc, symbols, facts, declarators_in(shape))?;
    add_constants(entries, alloc, symbols, facts, constants_of(shape))?;
    Ok(())
}

/// Keeps the values and the types of the names that statements declare and of the constants that
/// they define.
fn add_all_given(
    entries: &mut IndexMap<Vec<u8>, Entry>,
    alloc: Global,
    symbols: &Symbols,
    facts: &Facts,
    items: &[&Item],
) -> Result<(), AllocError>
    ensures { OnOk result
        (Tells facts.now symbols.now entries.old entries.new (given_in items.now)) }
{
    for item in items {
        add_given(entries, alloc, symbols, facts, &*item.form.shape)?;
    }
    Ok(())
}

/// What is kept of the names of a program unit, of which these are variables and arrays, and how
/// many cells they take.
pub(crate) fn entries_of(
    alloc: Global,
    symbols: &Symbols,
    facts: &Facts,
    names: &[Vec<u8>],
) -> Result<Storing, AllocError>
    requires { HaveRoom facts.now (texts names.now) }
    ensures next { IfOk result (λ s. s.next ≡ cells_of (named_by facts.now names.now)) }
    ensures entries { IfOk result (λ s. AreSaid facts.now symbols.now (texts names.now) s.entries) }
{
    let mut storing = store_names(alloc, symbols, facts, names)?;
    add_all_given(&mut storing.entries, alloc, symbols, facts, symbols.items)?;
    Ok(storing)
}
