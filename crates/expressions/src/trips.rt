//! How often a DO is executed (ANSI X3.9-1978, 11.10.3).

ghost use Rattle.std.specs.Prelude.{◌≡◌, ◌≢◌, int_div, pos};
ghost use Rattle.std.specs.Int.{CanDivide, w64};
ghost use Rattle.meaning.specs.Characters.{at_least_zero};
ghost use Rattle.meaning.specs.Trips.{trip_count as trips_counted};

/// A quotient towards zero, and 0 where it is negative.
fn quotient_or_zero(dividend: i64, divisor: i64) -> u64
    requires { CanDivide w64 dividend divisor }
    ensures { result ≡ at_least_zero (int_div dividend divisor) }
{
    let quotient = dividend / divisor;
    if quotient < 0 { 0 } else { quotient as u64 }
}

/// How many trips a DO has with these limits, the step of which isn't zero.
pub fn trip_count(first: i32, last: i32, step: i32) -> u64
    requires { step ≢ pos 0 }
    ensures { result ≡ trips_counted first last step }
{
    let lower = i64::from(first);
    let by = i64::from(step);
    let distance = i64::from(last) - lower;
    quotient_or_zero(distance + by, by)
}
