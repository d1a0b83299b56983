//! Values, faults and how a run ends.

ghost use Rattle.std.specs.Prelude.{◌≡◌, Some, bytes_eq};
ghost use Rattle.meaning.specs.Names.{fault_name};
ghost use Rattle.std.specs.Cmp.{partial_equiv_from_equiv};
ghost use Rattle.std.specs.Cmp.Lexicographic.{nat_list_eq_equiv};

use crate::refusal::Rule;
use std::fmt;
use std::marker::Model;

/// A value of an expression.
#[derive(Clone, Copy, Debug, PartialEq, Eq)]
pub enum Value {
    /// An INTEGER.
    Int(i32),
    /// A LOGICAL.
    Bool(bool),
}

/// What went wrong in a statement that was being executed.
#[derive(Clone, Copy, Debug, PartialEq, Eq)]
pub enum FaultKind {
    /// A zero divisor.
    F1,
    /// A result outside the range of INTEGER.
    F2,
    /// A subscript outside its bounds.
    F3,
    /// The turn limit.
    F4,
    /// A DO increment of zero.
    F5,
    /// A base of zero with an exponent of zero or less.
    F6,
    /// A value that meets a descriptor of the other type, or for which no descriptor comes.
    F7,
    /// A WRITE that is too large.
    F8,
}

impl FaultKind {
    /// The name that the program prints.
    pub fn name(self) -> &'static str
        ensures { result.now ≡ fault_name self }
    {
        match self {
            FaultKind::F1 => "F1",
            FaultKind::F2 => "F2",
            FaultKind::F3 => "F3",
            FaultKind::F4 => "F4",
            FaultKind::F5 => "F5",
            FaultKind::F6 => "F6",
            FaultKind::F7 => "F7",
            FaultKind::F8 => "F8",
        }
    }
}

impl fmt::Display for FaultKind {
    ghost output = { λ kind. Some (fault_name kind) };

    fn fmt<W: fmt::Write>(&self, f: &mut fmt::Formatter<W>) -> fmt::Result {
        f.write_str(self.name())
    }
}

/// A fault, and the initial line of the statement that was being executed.
#[derive(Clone, Copy, Debug, PartialEq, Eq)]
pub struct Fault {
    pub kind: FaultKind,
    pub line: u32,
}

/// How the statements of a list, or one of them, end.
#[derive(Clone, Copy, Debug, PartialEq, Eq)]
pub enum Outcome {
    /// Normally: execution goes on behind them (ANSI X3.9-1978, 11.1).
    Normal,
    /// By a transfer of control to the statement with this label, which isn't one of the list (11.1
    /// to 11.4).
    Left(u32),
    /// By the STOP statement at this line (11.12).
    Stopped(u32),
    /// By a fault.
    Fault(Fault),
}

/// How a run of statements ended, and how many turns it used.
#[derive(Clone, Copy, Debug, PartialEq, Eq)]
pub struct Run {
    pub outcome: Outcome,
    pub turns_used: u64,
}

/// What a STOP statement tells (ANSI X3.9-1978, 11.12): its digits as they were written, or the
/// characters of its character constant. It is empty where the statement has neither.
#[derive(Drop, Debug)]
pub struct StopMessage {
    text: Vec<u8>,
}

impl Model for StopMessage {
    ghost use Rattle.std.specs.Prelude.{ℕ, List};

    ghost Value = { List ℕ };

    ghost view = { λ s. s.text.items };
}

impl StopMessage {
    /// The message with these characters.
    pub fn new(text: Vec<u8>) -> Self
        ensures { result ≡ text.items }
    {
        StopMessage { text }
    }

    /// Its characters.
    pub fn text(&self) -> &[u8]
        ensures { result.now ≡ self.now }
    {
        &self.text
    }
}

impl PartialEq for StopMessage {
    ghost eq = { bytes_eq };

    ghost laws = { partial_equiv_from_equiv nat_list_eq_equiv };

    fn eq(&self, other: &Self) -> bool {
        self.text == other.text
    }
}

impl Eq for StopMessage {
    ghost laws = { nat_list_eq_equiv };
}

/// How a run ends.
#[derive(Drop, Debug, PartialEq, Eq)]
pub enum Ending {
    /// END was reached.
    Ended,
    /// A STOP statement was executed.
    Stopped(StopMessage),
    /// A statement faulted.
    Fault(Fault),
    /// The source broke a rule, and nothing of it was executed.
    Refused(Rule, u32),
    /// Memory was refused.
    Memory,
    /// The sink refused a write.
    WriteRefused,
}

/// What is told of a run: how it ended, and how many turns it used. Those are told of a run that
/// was ended by its statements, and of no other: where the source was refused, memory or a write,
/// there is no number.
#[derive(Drop, Debug, PartialEq, Eq)]
pub struct Report {
    pub ending: Ending,
    pub turns: Option<u64>,
}
