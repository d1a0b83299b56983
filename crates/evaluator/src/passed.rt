//! How a member of a list is passed: it ends, or execution goes on at its place again.

ghost use Rattle.std.specs.Prelude.{◌≡◌};
ghost use Rattle.evaluator.specs.Passed.{ended_by, passed_behind};

use meaning::ending::Outcome;

/// How a member of a list is passed.
#[derive(Clone, Copy)]
pub enum Passed {
    /// It ended, so.
    Ended(Outcome),
    /// The range of a DO WHILE statement ended normally: the statement is executed again.
    Again,
}

/// A member that ended so, or what cut it short.
#[inline(always)]
pub fn ended<E>(outcome: Result<Outcome, E>) -> Result<Passed, E>
    ensures { result ≡ ended_by outcome }
{
    match outcome {
        Ok(outcome) => Ok(Passed::Ended(outcome)),
        Err(error) => Err(error),
    }
}

/// A DO WHILE statement whose range ended so.
#[inline(always)]
pub fn behind_range(outcome: Outcome) -> Passed
    ensures { result ≡ passed_behind outcome }
{
    match outcome {
        Outcome::Normal => Passed::Again,
        Outcome::Left(label) => Passed::Ended(Outcome::Left(label)),
        Outcome::Stopped(line) => Passed::Ended(Outcome::Stopped(line)),
        Outcome::Fault(fault) => Passed::Ended(Outcome::Fault(fault)),
    }
}
