//! What C is shown of a run and of a check (include/f77run.h).

ghost use Rattle.std.specs.Prelude.{◌≡◌, slice_index};
ghost use Rattle.c_library.specs.Shown.{ending_number, fault_number, message_of, place_of, Tells};

use crate::output::put;
use meaning::ending::{Ending, FaultKind, Report};
use meaning::refusal::Rule;

/// The room for what a STOP statement tells, which has fewer characters: a statement has no more
/// than these.
pub const MESSAGE_ROOM: usize = 1320;

/// A fault or a rule, by its letter and its number, and the line where it was met: zeros where
/// there is none.
#[repr(C)]
#[derive(Clone, Copy)]
pub struct Place {
    /// `F` of a fault; of a rule `C`, `G`, `N` or `K`.
    pub letter: u32,
    /// Its number behind the letter.
    pub number: u32,
    /// The line in the source, counted from 1.
    pub line: u32,
}

/// How a run ended.
#[repr(C)]
pub struct RunReport {
    /// 0 at END, 1 by a STOP statement, 2 by a fault, 3 where the source was refused, 4 where
    /// memory was, and 5 where the output had no room left.
    pub ending: u32,
    /// The fault or the rule.
    pub place: Place,
    /// The turns that were used, where statements ended the run, and else 0.
    pub turns: u64,
    /// How many bytes were written to the front of the output.
    pub written: usize,
    /// How many characters a STOP statement tells.
    pub message_size: usize,
    /// These characters at the front; what stands after them stays as it was.
    pub message: [u8; MESSAGE_ROOM],
}

/// What a check of a source gives.
#[repr(C)]
#[derive(Clone, Copy)]
pub struct Verdict {
    /// 0 where the source is accepted, 3 where it is refused, 4 where memory was.
    pub ending: u32,
    /// The rule.
    pub place: Place,
}

// The number of each ending.
const ENDED: u32 = 0;

const STOPPED: u32 = 1;

const FAULT: u32 = 2;

const REFUSED: u32 = 3;

const MEMORY: u32 = 4;

const FULL: u32 = 5;

// Where neither a fault nor a rule was met.
const NOWHERE: Place = Place {
    letter: 0,
    number: 0,
    line: 0,
};

/// The verdict on a source that is accepted.
pub const ACCEPTED: Verdict = Verdict {
    ending: ENDED,
    place: NOWHERE,
};

/// The verdict where memory was refused.
pub const NO_MEMORY: Verdict = Verdict {
    ending: MEMORY,
    place: NOWHERE,
};

// The letter of a name.
fn letter_in(name: &str) -> u32
    ensures { result ≡ slice_index name.now 0 }
{
    match name.as_bytes().first() {
        Some(letter) => u32::from(*letter),
        None => 0,
    }
}

// The number of a fault.
fn number_in(kind: FaultKind) -> u32
    ensures { result ≡ fault_number kind }
{
    match kind {
        FaultKind::F1 => 1,
        FaultKind::F2 => 2,
        FaultKind::F3 => 3,
        FaultKind::F4 => 4,
        FaultKind::F5 => 5,
        FaultKind::F6 => 6,
        FaultKind::F7 => 7,
        FaultKind::F8 => 8,
    }
}

// What an ending was met by, and where.
fn place_in(ending: &Ending) -> Place
    ensures { result ≡ place_of ending.now }
{
    match ending {
        Ending::Fault(fault) => Place {
            letter: letter_in(fault.kind.name()),
            number: number_in(fault.kind),
            line: fault.line,
        },
        Ending::Refused(rule, line) => Place {
            letter: letter_in(rule.name()),
            number: u32::from(rule.rank()),
            line: *line,
        },
        Ending::Ended => NOWHERE,
        Ending::Stopped(_) => NOWHERE,
        Ending::Memory => NOWHERE,
        Ending::WriteRefused => NOWHERE,
    }
}

// The number of an ending.
fn number_of(ending: &Ending) -> u32
    ensures { result ≡ ending_number ending.now }
{
    match ending {
        Ending::Ended => ENDED,
        Ending::Stopped(_) => STOPPED,
        Ending::Fault(_) => FAULT,
        Ending::Refused(_, _) => REFUSED,
        Ending::Memory => MEMORY,
        Ending::WriteRefused => FULL,
    }
}

// What a STOP statement tells; nothing of another ending.
fn message_in(ending: &Ending) -> &[u8]
    ensures { result.now ≡ message_of ending.now }
{
    match ending {
        Ending::Stopped(message) => message.text(),
        Ending::Ended => &[],
        Ending::Fault(_) => &[],
        Ending::Refused(_, _) => &[],
        Ending::Memory => &[],
        Ending::WriteRefused => &[],
    }
}

/// Shows a report, and how many bytes were written.
pub fn tell(report: &Report, written: usize, shown: &mut RunReport)
    ensures told { Tells report.now shown.old shown.new }
    ensures written { shown.new.written ≡ written }
{
    shown.ending = number_of(&report.ending);
    shown.place = place_in(&report.ending);
    shown.turns = report.turns.unwrap_or(0);
    shown.written = written;
    let message = message_in(&report.ending);
    shown.message_size = message.len();
    put(message, &mut shown.message);
}

/// The verdict on a source that breaks a rule at a line.
pub fn refused_at(rule: Rule, line: u32) -> Verdict
    ensures { result ≡ record { ending = 3; place = place_of (Ending.Refused rule line) } }
{
    Verdict {
        ending: REFUSED,
        place: place_in(&Ending::Refused(rule, line)),
    }
}
