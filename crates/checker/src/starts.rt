//! The values that cells start with (ANSI X3.9-1978, chapters 9 and 17).

ghost use Rattle.std.specs.Prelude.{◌≡◌, ◌++◌, map, IfOk, OnOk};
ghost use Rattle.std.specs.List.{range_with_len};
ghost use Rattle.data_rules.specs.Slots.{slot_at};
ghost use Rattle.name_maps.specs.NameSets.{texts};
ghost use Rattle.checker.specs.Entries.{AreCountable, HaveRoom, cells_at, dimensions_at};
ghost use Rattle.checker.specs.Given.{number_given, starts_by, values_in, values_of};

use crate::entries::cells_in;
use expressions::as_integer;
use k_rules::Facts;
use meaning::ending::Value;
use std::alloc::{AllocError, Global};

/// The value of a cell whose place was given this, which is 0 where it was given none.
fn number_of(slot: Option<Value>) -> i32
    ensures { result ≡ number_given slot }
{
    match slot {
        Some(value) => as_integer(value),
        None => 0,
    }
}

/// What a place was given.
fn slot_of(slots: &[Option<Value>], place: usize) -> Option<Value>
    ensures { result ≡ slot_at slots.now place }
{
    match slots.get(place) {
        Some(slot) => *slot,
        None => None,
    }
}

/// Adds the values of so many cells of a name whose places were given these.
fn add_values(
    starts: &mut Vec<i32>,
    slots: &[Option<Value>],
    cells: usize,
) -> Result<(), AllocError>
    ensures { OnOk result
        (starts.new.items ≡ starts.old.items ++ values_in (slot_at slots.now) cells) }
{
    for place in 0..cells {
        starts.push(number_of(slot_of(slots, place)))?;
    }
    Ok(())
}

/// How many cells a name has.
fn cells_of(facts: &Facts, name: &[u8]) -> usize
    requires { AreCountable (dimensions_at facts.now name.now) }
    ensures { result ≡ cells_at facts.now name.now }
{
    match facts.arrays.get(name) {
        Some(dimensions) => cells_in(dimensions),
        None => 1,
    }
}

/// Adds the values that the cells of a name start with.
fn add_starts(starts: &mut Vec<i32>, facts: &Facts, name: &[u8]) -> Result<(), AllocError>
    requires { AreCountable (dimensions_at facts.now name.now) }
    ensures { OnOk result (starts.new.items ≡ starts.old.items ++ values_of facts.now name.now) }
{
    let cells = cells_of(facts, name);
    match facts.starts.get(name) {
        Some(slots) => add_values(starts, slots, cells),
        None => add_values(starts, &[], cells),
    }
}

/// The values that so many cells, which are those of these names, one behind another, start with:
/// what DATA statements give, and 0 elsewhere.
pub(crate) fn starts_of(
    alloc: Global,
    facts: &Facts,
    names: &[Vec<u8>],
    count: usize,
) -> Result<Vec<i32>, AllocError>
    requires { HaveRoom facts.now (texts names.now) }
    ensures { IfOk result (λ v. v.items ≡ starts_by facts.now (texts names.now)) }
{
    let mut starts = Vec::new(alloc);
    starts.reserve(count)?;
    for name in names {
        add_starts(&mut starts, facts, name)?;
    }
    Ok(starts)
}
