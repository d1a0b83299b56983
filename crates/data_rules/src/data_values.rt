//! The values of DATA statements, one after another (ANSI X3.9-1978, 9.1).

ghost use Rattle.std.specs.Prelude.{◌≡◌, ◌<◌, [], pos, map, IfSome};
ghost use Rattle.meaning.specs.Initial.{number_given, sign_value};
ghost use Rattle.meaning.specs.Syntax.{data_value_tree};
ghost use Rattle.data_rules.specs.DataRuns.{constant_at, count_at, run_of, values_at, values_left};
ghost use Rattle.data_rules.specs.DataRuns.{values_of};
ghost use Rattle.data_rules.specs.DataStages.{behind_first, first_of, is_empty_list};
ghost use Rattle.declarations.specs.Tables.{known_at};

use declarations::Table;
use expressions::Constants;
use meaning::ending::Value;
use meaning::number::number;
use meaning::syntax::{DataConstant, DataValue, RepeatCount, Sign};

/// The number that digits spell, or 2147483647 where it is more, which breaks another rule at the
/// same line.
fn number_by(digits: &[u8]) -> u64
    ensures { pos result ≡ number_given digits.now }
{
    let number = number(digits);
    if number > 2_147_483_647 {
        2_147_483_647
    } else {
        number
    }
}

/// How often a constant stands, if that is 1 or more.
pub fn count_of(table: &Table, repeat_count: &Option<RepeatCount>) -> Option<u64>
    ensures value { result ≡ count_at table.now repeat_count.now }
    ensures some { IfSome result (λ n. 0 < n) }
{
    match repeat_count {
        None => Some(1),
        Some(RepeatCount::Number(digits)) => {
            let count = number_by(digits);
            if count > 0 { Some(count) } else { None }
        }
        Some(RepeatCount::Name(name)) => match table.constant(name) {
            Some(Value::Int(count)) => { if count > 0 { Some(count as u64) } else { None } }
            Some(Value::Bool(_)) => None,
            None => None,
        },
    }
}

/// The number that a sign and digits spell, or the greatest of this sign where it is above
/// 2147483647 without its sign.
fn integer_by(sign: Option<Sign>, digits: &[u8]) -> i32
    ensures { result ≡ sign_value sign (number_given digits.now) }
{
    let value = number_by(digits) as i32;
    match sign {
        Some(Sign::Minus) => -value,
        Some(Sign::Plus) => value,
        None => value,
    }
}

/// The value of a constant in a DATA statement, if it has one.
pub fn constant_of(table: &Table, constant: &DataConstant) -> Option<Value>
    ensures { result ≡ constant_at table.now constant.now }
{
    match constant {
        DataConstant::Number(sign, digits) => Some(Value::Int(integer_by(*sign, digits))),
        DataConstant::Truth(truth) => Some(Value::Bool(*truth)),
        DataConstant::Name(name) => table.constant(name),
    }
}

/// A value so many times, or what is none.
#[derive(Clone, Copy)]
pub struct Run {
    pub count: u64,
    pub value: Option<Value>,
}

/// The run of a constant and its repeat count.
fn run_by(table: &Table, value: &DataValue) -> Run
    ensures run { run_of result ≡ values_at table.now value.now }
    ensures some { 0 < result.count }
{
    let none = Run {
        count: 1,
        value: None,
    };
    match count_of(table, &value.repeat_count) {
        Some(count) => match constant_of(table, &value.constant) {
            Some(value) => Run {
                count,
                value: Some(value),
            },
            None => none,
        },
        None => none,
    }
}

/// The values of a set that are left.
#[derive(Clone, Copy)]
pub struct Values<'a> {
    pub table: &'a Table<'a>,
    pub run: Run,
    pub rest: &'a [DataValue],
}

/// All values of a set.
pub fn values_in<'a>(table: &'a Table<'a>, values: &'a [DataValue]) -> Values<'a>
    ensures { values_left result ≡ values_of (known_at table.now) (map data_value_tree values.now) }
{
    Values {
        table,
        run: Run {
            count: 0,
            value: None,
        },
        rest: values,
    }
}

/// Takes up the next run, where the last one is used up.
fn fill_run(values: &mut Values)
    ensures left { values_left values.new ≡ values_left values.old }
    ensures empty { values.new.run.count ≡ 0 → values_left values.new ≡ [] }
    ensures table { values.new.table ≡ values.old.table }
{
    if values.run.count == 0 {
        match values.rest.split_first() {
            Some((first, more)) => {
                values.run = run_by(values.table, first);
                values.rest = more;
            }
            None => {}
        }
    }
}

/// Whether no value is left.
pub fn is_used_up(values: &mut Values) -> bool
    ensures { result ≡ is_empty_list (values_left values.old) }
{
    fill_run(values);
    values.run.count == 0
}

/// Takes the next value, if there is one.
pub fn next_value(values: &mut Values) -> Option<Value>
    ensures first { result ≡ first_of (values_left values.old) }
    ensures rest { values_left values.new ≡ behind_first (values_left values.old) }
{
    fill_run(values);
    if values.run.count == 0 {
        return None;
    }
    values.run.count -= 1;
    values.run.value
}
