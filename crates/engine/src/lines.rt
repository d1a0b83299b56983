//! The lines on standard error: of endings, of the turns that a run used, and of what kept a source
//! from being run.

ghost use Rattle.std.specs.Prelude.{codes, ◌++◌, ◌≡◌};
ghost use Rattle.messages.specs.Shown.{IsTold};
ghost use Rattle.engine.specs.Lines.{behind_stop, line_at, line_of, turns_line};
ghost use Rattle.engine.specs.Status.{status_of};

use itoa::Buffer;
use meaning::ending::Ending;
use messages::{put, put_bytes};
use record_sinks::Sink;

/// Writes the line of an ending, if it has one, and answers the exit status. A line that can't be
/// written changes nothing.
pub fn tell_ending<S: Sink>(ending: Ending, err: &mut S) -> u8
    ensures status { result ≡ status_of ending }
    ensures line { IsTold (line_of ending) (S.told err.old) (S.told err.new) }
{
    match ending {
        Ending::Ended => 0,
        Ending::Stopped(message) => {
            put_stop(message.text(), err);
            0
        }
        Ending::Fault(fault) => {
            put_at("FAULT ", fault.kind.name(), fault.line, err);
            1
        }
        Ending::Refused(rule, line) => {
            put_at("REFUSED ", rule.name(), line, err);
            2
        }
        Ending::Memory => {
            put("NO MEMORY\n", err);
            4
        }
        Ending::WriteRefused => {
            put("WRITE REFUSED\n", err);
            5
        }
    }
}

/// Writes the line of the turns that a run used, where they are asked for and there are any.
#[tactic(auto, using(crate::proofs::Told::told_turns))]
pub fn tell_turns<S: Sink>(count: bool, turns: Option<u64>, err: &mut S)
    ensures { IsTold (turns_line count turns) (S.told err.old) (S.told err.new) }
{
    if count {
        if let Some(turns) = turns {
            put("TURNS ", err);
            put(Buffer::new().format(turns), err);
            put("\n", err);
        }
    }
}

// Writes the line of a STOP statement: STOP, and what it tells if that isn't empty.
#[tactic(auto, using(crate::proofs::Told::told_stop, crate::proofs::Told::told_silent_stop))]
fn put_stop<S: Sink>(message: &[u8], err: &mut S)
    ensures { IsTold (codes "STOP" ++ behind_stop message.now ++ codes "\n") (S.told err.old)
        (S.told err.new) }
{
    put("STOP", err);
    if !message.is_empty() {
        put(" ", err);
        put_bytes(message, err);
    }
    put("\n", err);
}

/// Writes a word, a name and the number of a line.
#[tactic(auto, using(crate::proofs::Told::told_at))]
pub fn put_at<S: Sink>(word: &str, name: &str, line: u32, err: &mut S)
    ensures { IsTold (line_at word.now name.now line) (S.told err.old) (S.told err.new) }
{
    put(word, err);
    put(name, err);
    put(" LINE ", err);
    put(Buffer::new().format(line), err);
    put("\n", err);
}
