//! What DATA statements give, one variable or element after another (ANSI X3.9-1978, 9.1).

ghost use Rattle.std.specs.Prelude.{◌≡◌, ◌+◌, ◌-◌, ◌^◌, ◌<◌, ◌≤◌, ℕ, true, is_some, IfOk, OnOk};
ghost use Rattle.expressions.specs.Places.{capped};
ghost use Rattle.meaning.specs.Initial.{value_type};
ghost use Rattle.meaning.specs.Typing.{clash};
ghost use Rattle.data_rules.specs.DataSlots.{GivesSlot, GivesSlots, StandsFor, slots_at, with_slot};
ghost use Rattle.data_rules.specs.DataStages.{keeps as is_kept_by, stops as is_stopped_by};
ghost use Rattle.data_rules.specs.DataStages.{way_behind as goes_on_by};
ghost use Rattle.data_rules.specs.Filled.{GivesPlaces, stage_at};
ghost use Rattle.data_rules.specs.Slots.{slot_at};

use crate::data_values::{Values, next_value};
use indexmap::IndexMap;
use meaning::ending::Value;
use meaning::syntax::DataType;
use std::alloc::{AllocError, Global};
use symbols::{Symbols, type_of_name};

/// How places are given values.
#[derive(Clone, Copy)]
pub enum Way {
    /// Once: a place that has a value is given no other.
    Once,
    /// A place that has a value is given another, too.
    Again {
        /// Whether one had a value.
        twice: bool,
    },
    /// No value is kept.
    Dry,
}

/// What DATA statements have given so far.
#[derive(Drop)]
pub struct Filling {
    /// By the names of variables and arrays the values of their places in column-major order, from
    /// 0, which is the only one of a variable. A place that was given none has none, and so have
    /// those behind the last one that is kept.
    pub given: IndexMap<Vec<u8>, Vec<Option<Value>>>,
    /// How places are given values.
    pub way: Way,
}

impl Filling {
    ghost use Rattle.data_rules.specs.DataSets.{stage_by, stage_empty};

    /// Nothing so far.
    pub fn new(alloc: Global, way: Way) -> Filling
        ensures { stage_by result ≡ stage_empty way }
    {
        Filling {
            given: IndexMap::new(alloc),
            way,
        }
    }
}

/// Whether a value is refused to a place that has one, or has none.
fn stops(way: Way, has_one: bool) -> bool
    ensures { result ≡ is_stopped_by way has_one }
{
    match way {
        Way::Once => has_one,
        Way::Again { .. } => false,
        Way::Dry => false,
    }
}

/// Whether values are kept.
fn keeps(way: Way) -> bool
    ensures { result ≡ is_kept_by way }
{
    match way {
        Way::Once => true,
        Way::Again { .. } => true,
        Way::Dry => false,
    }
}

/// The way behind a place that had a value, or had none.
fn way_behind(way: Way, has_one: bool) -> Way
    ensures { result ≡ goes_on_by way has_one }
{
    match way {
        Way::Once => Way::Once,
        Way::Again { twice } => Way::Again {
            twice: twice || has_one,
        },
        Way::Dry => Way::Dry,
    }
}

/// Whether a place, which is counted to 2^64-1, was given a value; so many places aren't kept.
fn is_given(slots: &[Option<Value>], place: u64) -> bool
    ensures { (i : ℕ) → place ≡ capped i → result ≡ is_some (slot_at slots.now i) }
{
    match slots.get(place as usize) {
        Some(slot) => slot.is_some(),
        None => false,
    }
}

/// Gives a place a value. The `AllocError` comes where a growth was refused, as it is for 2^64-1
/// places.
fn put(slots: &mut Vec<Option<Value>>, place: u64, value: Value) -> Result<(), AllocError>
    ensures put { OnOk result (
        slot_at slots.new.items ≡ with_slot place value (slot_at slots.old.items)) }
    ensures kept { OnOk result (place < 2 ^ 64 - 2) }
{
    let place = place as usize;
    if place < slots.len() {
        slots[place] = Some(value);
        return Ok(());
    }
    slots.resize(place, None)?;
    slots.push(Some(value))?;
    Ok(())
}

/// Whether a value is of another type, where the type is known.
pub fn differs(data_type: Option<DataType>, value: Value) -> bool
    ensures { result ≡ clash data_type (value_type value) }
{
    match data_type {
        Some(DataType::Integer) => match value {
            Value::Int(_) => false,
            Value::Bool(_) => true,
        },
        Some(DataType::Logical) => match value {
            Value::Int(_) => true,
            Value::Bool(_) => false,
        },
        None => false,
    }
}

/// Gives the next value to a place of a name of this type, which is counted to 2^64-1; false where
/// there is none, it is of another type, or it is refused to a place that has one.
fn give(
    slots: &mut Vec<Option<Value>>,
    values: &mut Values,
    way: &mut Way,
    data_type: Option<DataType>,
    place: u64,
) -> Result<bool, AllocError>
    ensures given { (i : ℕ) → place ≡ capped i → IfOk result (GivesSlot data_type i
        (slots_at slots.old values.old way.old) (slots_at slots.new values.new way.new)) }
{
    match next_value(values) {
        Some(value) => {
            let has_one = is_given(slots, place);
            if differs(data_type, value) || stops(*way, has_one) {
                return Ok(false);
            }
            if keeps(*way) {
                put(slots, place, value)?;
            }
            *way = way_behind(*way, has_one);
            Ok(true)
        }
        None => Ok(false),
    }
}

/// Gives the next values to so many places of a name of this type, from this one on; false where
/// one of them doesn't get its value. A single place is counted to 2^64-1. So many places have no
/// room, whether or not values are kept.
fn give_each(
    slots: &mut Vec<Option<Value>>,
    values: &mut Values,
    way: &mut Way,
    data_type: Option<DataType>,
    first: u64,
    count: u64,
) -> Result<bool, AllocError>
    requires { first + count ≤ 2 ^ 64 }
    ensures given { (i : ℕ) → StandsFor first count i → IfOk result (GivesSlots data_type i count
        (slots_at slots.old values.old way.old) (slots_at slots.new values.new way.new)) }
    ensures kept { IfOk result (λ given. given ≡ true → count < 2 ^ 64 - 1) }
{
    for behind in 0..count {
        if !give(slots, values, way, data_type, first + behind)? {
            return Ok(false);
        }
    }
    if count == u64::MAX {
        return Err(AllocError);
    }
    Ok(true)
}

/// Gives the next values to so many places of a name, from this one on; false where one of them
/// doesn't get its value. A single place is counted to 2^64-1. The `AllocError` comes where a
/// growth was refused, and for 2^64-1 places.
pub fn give_places(
    filling: &mut Filling,
    values: &mut Values,
    alloc: Global,
    symbols: &Symbols,
    name: &[u8],
    first: u64,
    count: u64,
) -> Result<bool, AllocError>
    requires { first + count ≤ 2 ^ 64 }
    ensures given { (i : ℕ) → StandsFor first count i →
        IfOk result (GivesPlaces symbols.now name.now i count
        (stage_at filling.old values.old) (stage_at filling.new values.new)) }
    ensures kept { IfOk result (λ given. given ≡ true → count < 2 ^ 64 - 1) }
{
    let data_type = type_of_name(symbols, name);
    match filling.given.get_mut(name) {
        Some(slots) => give_each(slots, values, &mut filling.way, data_type, first, count),
        None => {
            let mut slots = Vec::new(alloc);
            if !give_each(
                &mut slots,
                values,
                &mut filling.way,
                data_type,
                first,
                count,
            )? {
                return Ok(false);
            }
            let own = Vec::from_slice(alloc, name)?;
            filling.given.insert(own, slots)?;
            Ok(true)
        }
    }
}
