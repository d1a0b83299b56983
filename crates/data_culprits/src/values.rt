//! What is wrong with the values of a DATA statement (ANSI X3.9-1978, 9.1).

ghost use Rattle.std.specs.Prelude.{◌≡◌, map, option_map};
ghost use Rattle.meaning.specs.Syntax.{data_constant_tree, data_value_tree, repeat_tree};
ghost use Rattle.declarations.specs.Tables.{known_at};
ghost use Rattle.data_culprits.specs.Told.{tell};
ghost use Rattle.data_culprits.specs.Values.{constant_fault, count_fault, value_fault};
ghost use Rattle.data_culprits.specs.Values.{count_word as count_word_of, values_fault};

use crate::culprit::DataCulprit;
use data_rules::count_of;
use declarations::Table;
use expressions::Constants;
use meaning::syntax::{DataConstant, DataValue, RepeatCount};
use number_culprits::NumberCulprit;

/// A repeat count as it is written.
fn count_word(repeat_count: &RepeatCount) -> &[u8]
    ensures { result.now ≡ count_word_of (repeat_tree repeat_count.now) }
{
    match repeat_count {
        RepeatCount::Number(digits) => digits,
        RepeatCount::Name(name) => name,
    }
}

/// A repeat count that is none.
fn bad_count<'a>(table: &Table, repeat_count: &'a Option<RepeatCount>) -> Option<DataCulprit<'a>>
    ensures { tell result
        ≡ count_fault (known_at table.now) (option_map repeat_tree repeat_count.now) }
{
    match repeat_count {
        None => None,
        Some(written) => {
            if count_of(table, repeat_count).is_none() {
                Some(DataCulprit::Count {
                    text: count_word(written),
                })
            } else {
                None
            }
        }
    }
}

/// A name among the values that is no constant's.
fn bad_name<'a>(table: &Table, constant: &'a DataConstant) -> Option<DataCulprit<'a>>
    ensures { tell result
        ≡ constant_fault (known_at table.now) (data_constant_tree constant.now) }
{
    match constant {
        DataConstant::Number(_, _) => None,
        DataConstant::Truth(_) => None,
        DataConstant::Name(name) => {
            if table.constant(name).is_none() {
                Some(DataCulprit::Number {
                    culprit: NumberCulprit::Unknown { name },
                })
            } else {
                None
            }
        }
    }
}

/// What is wrong with a value.
fn bad_value<'a>(table: &Table, value: &'a DataValue) -> Option<DataCulprit<'a>>
    ensures { tell result ≡ value_fault (known_at table.now) (data_value_tree value.now) }
{
    match bad_count(table, &value.repeat_count) {
        Some(culprit) => Some(culprit),
        None => bad_name(table, &value.constant),
    }
}

/// What is wrong with the first of some values that is bad.
pub fn bad_values<'a>(table: &Table, values: &'a [DataValue]) -> Option<DataCulprit<'a>>
    ensures { tell result
        ≡ values_fault (known_at table.now) (map data_value_tree values.now) }
{
    for value in values {
        match bad_value(table, value) {
            Some(culprit) => return Some(culprit),
            None => {}
        }
    }
    None
}
