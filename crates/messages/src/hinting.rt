//! What to write in place of what is refused or at fault.

ghost use Rattle.std.specs.Prelude.{◌≡◌, IfOk, true};
ghost use Rattle.messages.specs.Hinted.{IsHintLine, IsHinted, cause_of, hint_in};
ghost use Rattle.messages.specs.Shown.{Adds};

use crate::putting::{put_hint, put_line};
use hints::{Hint, hint_of, hint_of_fault};
use meaning::ending::{Ending, FaultKind};
use meaning::refusal::Rule;
use record_sinks::Sink;
use std::alloc::{AllocError, Global};

/// What a hint is asked for: a rule that is broken at a line, or a fault there.
#[derive(Clone, Copy, Debug)]
pub enum Cause {
    /// A rule.
    Rule(Rule, u32),
    /// A fault.
    Fault(FaultKind, u32),
}

/// What a hint of an ending is asked for, if anything.
pub fn cause_of(ending: &Ending) -> Option<Cause>
    ensures { result ≡ cause_of ending.now }
{
    match ending {
        Ending::Refused(rule, line) => Some(Cause::Rule(*rule, *line)),
        Ending::Fault(fault) => Some(Cause::Fault(fault.kind, fault.line)),
        _ => None,
    }
}

/// Writes the hint that there is for a cause, if that is wanted.
pub fn tell_hint<S: Sink>(
    is_wanted: bool,
    alloc: Global,
    source: &[u8],
    cause: Option<Cause>,
    err: &mut S,
)
    ensures { Adds is_wanted (IsHinted source.now cause) (S.told err.old) (S.told err.new) }
{
    if is_wanted {
        put_hinted(alloc, source, cause, err);
    }
}

// Writes the hint that there is for a cause.
fn put_hinted<S: Sink>(alloc: Global, source: &[u8], cause: Option<Cause>, err: &mut S)
    ensures { Adds true (IsHinted source.now cause) (S.told err.old) (S.told err.new) }
{
    match cause {
        Some(cause) => match hint_in(alloc, source, cause) {
            Ok(hint) => put_found(hint, err),
            Err(_) => put_line(b"NOT TOLD", err),
        },
        None => {}
    }
}

// Writes a hint, if there is one.
fn put_found<S: Sink>(hint: Option<Hint>, err: &mut S)
    ensures { Adds true (IsHintLine hint) (S.told err.old) (S.told err.new) }
{
    match hint {
        Some(hint) => put_hint(hint.text(), err),
        None => {}
    }
}

// The hint that there is for a cause.
fn hint_in(alloc: Global, source: &[u8], cause: Cause) -> Result<Option<Hint>, AllocError>
    ensures { IfOk result (λ h. h ≡ hint_in source.now cause) }
{
    match cause {
        Cause::Rule(rule, line) => hint_of(alloc, source, rule, line),
        Cause::Fault(kind, line) => hint_of_fault(alloc, source, kind, line),
    }
}
