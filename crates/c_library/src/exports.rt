//! The functions that C calls.

ghost use Rattle.std.specs.Prelude.{◌≡◌, ◌≤◌, if◌then◌else◌};
ghost use Rattle.meaning.specs.Endings as reports;
ghost use Rattle.c_library.specs.Runs.{IsShown, IsVerdict, Ran};

use crate::output::{Output, put};
use crate::shown::{ACCEPTED, NO_MEMORY, RunReport, Verdict, refused_at, tell};
use in_order::{program_in, run_by};
use meaning::ending::{Ending, Report};
use meaning::refusal::Refusal;
use program_runs::InOrder;
use std::alloc::Global;

// The report where the output is full, or else memory was refused.
fn broken_off(is_full: bool) -> Report
    ensures { result ≡ (if is_full then reports.WriteRefused else reports.Memory) }
{
    Report {
        ending: if is_full {
            Ending::WriteRefused
        } else {
            Ending::Memory
        },
        turns: None,
    }
}

// Runs a source in order, and keeps what it writes, for which there is so much room. A sink may be
// refused a byte for want of memory too, which its length tells. That it never has more bytes than
// there is room for, the contract of a run doesn't say.
fn run_kept(alloc: Global, source: &[u8], turns: u64, room: usize) -> (Report, Vec<u8>)
    ensures { Ran source.now turns room result.0 result.1.items }
{
    let mut output = Output::new(Vec::new(alloc), room);
    let report = run_by(alloc, &InOrder, source, turns, &mut output);
    let mut bytes = output.into_bytes();
    if bytes.len() > room {
        bytes.truncate(room);
        return (broken_off(true), bytes);
    }
    match report.ending {
        Ending::WriteRefused => (broken_off(bytes.len() == room), bytes),
        _ => (report, bytes),
    }
}

/// Runs a source in order, under a limit on turns. What it writes comes to the front of the output,
/// and how it ended into the report. It waits for nobody and always returns.
#[unsafe(no_mangle)]
pub extern "C" fn f77run_run(
    alloc: Global,
    source: &[u8],
    turns: u64,
    output: &mut [u8],
    report: &mut RunReport,
)
    ensures shown { IsShown source.now turns output.old output.new report.old report.new }
    ensures limited { report.new.turns ≤ turns }
{
    let (ended, bytes) = run_kept(alloc, source, turns, output.len());
    let written = put(&bytes, output);
    tell(&ended, written, report);
}

/// Says of a source whether it is accepted, and else which rule it breaks at which line, without
/// running it.
#[unsafe(no_mangle)]
pub extern "C" fn f77run_check(alloc: Global, source: &[u8], verdict: &mut Verdict)
    ensures { IsVerdict source.now verdict.new }
{
    *verdict = match program_in(alloc, source) {
        Ok(program) => {
            drop(program);
            ACCEPTED
        }
        Err(Refusal::Rule { rule, line }) => refused_at(rule, line),
        Err(Refusal::Memory) => NO_MEMORY,
    };
}
