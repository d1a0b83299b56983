//! The trips that are left of a DO statement.

ghost use Rattle.std.specs.Prelude.{◌≡◌, ◌≢◌, ◌-◌, ◌<◌, ◌≤◌, pos, ◌+ℤ◌, ◌*ℤ◌};
ghost use Rattle.stage_loop.specs.Loops.{AreIntegers};

use block_stage::{TripsLeft, value_at};

/// The trips that are left behind some first ones.
pub(crate) fn behind(course: TripsLeft, done: u64) -> TripsLeft
    requires moves { course.step ≢ pos 0 }
    requires within { done ≤ course.trips }
    requires fits { AreIntegers course.value course.step course.trips }
    ensures step { result.step ≡ course.step }
    ensures trips { result.trips ≡ course.trips - done }
    ensures value { done < course.trips → result.value ≡ course.value +ℤ pos done *ℤ course.step }
{
    let TripsLeft { value, step, trips } = course;
    if done < trips {
        return TripsLeft {
            value: value_at(value, step, done),
            step,
            trips: trips - done,
        };
    }
    TripsLeft {
        value,
        step,
        trips: 0,
    }
}
