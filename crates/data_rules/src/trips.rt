//! The trips of implied DOs in DATA statements (ANSI X3.9-1978, 9.3 and 11.10.3).

ghost use Rattle.std.specs.Prelude.{◌≡◌, ◌+ℤ◌, option_map, FitsSigned, IfSome};
ghost use Rattle.std.specs.Int.{w32};
ghost use Rattle.meaning.specs.Initial.{trips_if};
ghost use Rattle.data_rules.specs.DataTrips.{AreIntegers, step_in, trips_by, trips_in};

use crate::elements::known_value;
use declarations::Scope;
use expressions::trip_count;
use meaning::syntax::{Expr, Limits};

/// The trips: the first value of the variable, the step, and how many there are, one at least.
#[derive(Clone, Copy)]
pub struct Trips {
    pub first: i32,
    pub step: i32,
    pub count: u64,
}

/// The trips with these limits, if there are any.
fn trips_between(first: i32, last: i32, step: i32) -> Option<Trips>
    ensures trips { option_map trips_by result ≡ trips_if first last step }
    ensures integers { IfSome result AreIntegers }
{
    if step == 0 {
        return None;
    }
    let count = trip_count(first, last, step);
    if count == 0 {
        None
    } else {
        Some(Trips { first, step, count })
    }
}

/// The value of a step, which is 1 where none is written.
fn step_of(scope: &Scope, step: &Option<Expr>) -> Option<i32>
    ensures { result ≡ step_in scope.now step.now }
{
    match step {
        Some(step) => known_value(scope, step),
        None => Some(1),
    }
}

/// The trips of an implied DO, if its limits are known and there are any.
pub fn trips_of(scope: &Scope, limits: &Limits) -> Option<Trips>
    ensures trips { option_map trips_by result ≡ trips_in scope.now limits.now }
    ensures integers { IfSome result AreIntegers }
{
    match known_value(scope, &limits.first) {
        None => None,
        Some(first) => match known_value(scope, &limits.last) {
            None => None,
            Some(last) => match step_of(scope, &limits.step) {
                None => None,
                Some(step) => trips_between(first, last, step),
            },
        },
    }
}

/// The value of a variable, which is an INTEGER.
pub fn value_of_trip(value: i64) -> i32
    requires { FitsSigned w32 value }
    ensures { result ≡ value }
{
    value as i32
}

/// The value one trip on.
pub fn next_trip(value: i64, step: i32) -> i64
    requires { FitsSigned w32 value }
    ensures { result ≡ value +ℤ step }
{
    value + i64::from(step)
}
