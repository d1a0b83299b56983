//! Sinks over writers that take all, some or nothing of what they are given.

use crate::outcomes::{MANY, Meter, make_meter, stopped_with};
use executor::run::run;
use executor::{Open, Out, Refused, Sink, put_all};
use meaning::ending::{Ending, Fault, FaultKind};
use meaning::plan::Plan;
use std::alloc::{AllocError, Global};
use std::process::Abort;
use std::sync::Wait;
use std::test::*;
use std::thread::Threads;

/// A source; what it writes; and the line at which it divides by zero behind that, if it doesn't
/// end.
type Written = (&'static str, &'static str, Option<u32>);

/// Two WRITEs of a record each; three records of one WRITE, by a format that is gone back to; these
/// behind a DO statement whose trips are tried by stages; and a fault behind them.
const WRITTEN: &[Written] = &[
    (
        "      WRITE (6,10) 123\n      WRITE (6,20) 45\n   10 FORMAT (I6)\n   20 FORMAT (I7)\n      END\n",
        "   123\n     45\n",
        None,
    ),
    (
        "      WRITE (6,10) 1,2,3,4,5,6\n   10 FORMAT (I2,2(I3))\n      END\n",
        " 1  2  3\n  4  5\n  6\n",
        None,
    ),
    (
        "      INTEGER A(6)\n      DO 10 I=1,6\n   10 A(I)=I\n      WRITE (6,20) A\n   20 FORMAT (I2,2(I3))\n      END\n",
        " 1  2  3\n  4  5\n  6\n",
        None,
    ),
    (
        "      INTEGER A(6)\n      DO 10 I=1,6\n   10 A(I)=I\n      WRITE (6,20) A\n   20 FORMAT (I2,2(I3))\n      I=1/(J-J)\n      WRITE (6,20) 7\n      END\n",
        " 1  2  3\n  4  5\n  6\n",
        Some(6),
    ),
];

/// How many bytes a writer takes at most of a piece: a byte, a few, all.
const STEPS: &[usize] = &[1, 3, usize::MAX];

/// How many workers run a source: one, in order, and four.
const WORKERS: &[u64] = &[1, 4];

/// Runs a source over a writer by so many workers, in blocks of two trips: its ending, whether the
/// sink has refused, and the writer.
fn run_over<R: Abort + Threads + Wait + Sync>(
    rt: &R,
    alloc: Global,
    source: &str,
    workers: u64,
    meter: Meter,
) -> (Ending, bool, Meter) {
    let mut sink = Out::new(meter);
    let plan = Plan::new(workers, 2, 8, MANY).expect(rt, "a plan");
    let report = run(rt, alloc, source.as_bytes(), &plan, &mut sink, &Open);
    let refused = sink.refused();
    (report.ending, refused, sink.into_inner())
}

/// Whether a source over a writer comes to this ending, refused or not, these bytes are taken, and
/// the writer isn't called again once it has refused.
fn agrees_over<R: Abort + Threads + Wait + Sync>(
    rt: &R,
    alloc: Global,
    source: &str,
    workers: u64,
    meter: Meter,
    want: &Ending,
    taken: &[u8],
) -> bool {
    let (ending, refused, meter) = run_over(rt, alloc, source, workers, meter);
    let Meter {
        bytes,
        refusals,
        ..
    } = meter;
    let broken = *want == Ending::WriteRefused;
    let told = ending == *want && refused == broken;
    told && refusals == u64::from(broken) && bytes.as_slice() == taken
}

/// How a source ends that divides by zero at a line, or doesn't.
fn ending_at(line: Option<u32>) -> Ending {
    match line {
        Some(line) => Ending::Fault(Fault {
            kind: FaultKind::F1,
            line,
        }),
        None => Ending::Ended,
    }
}

/// Runs a source over a writer with so much room, by each number of workers.
fn runs<R: Abort + Threads + Wait + Sync>(
    rt: &R,
    alloc: Global,
    written: Written,
    step: usize,
    room: usize,
    errs: bool,
) {
    let (source, records, line) = written;
    let whole = records.as_bytes();
    let taken = whole.get(..room).unwrap_or(whole);
    let want = if taken.len() < whole.len() {
        Ending::WriteRefused
    } else {
        ending_at(line)
    };
    for &workers in WORKERS {
        let meter = make_meter(alloc, step, room, errs);
        let same = agrees_over(rt, alloc, source, workers, meter, &want, taken);
        assert!(rt; same, "{workers} {step} {room} {errs}: {source}");
    }
}

/// A writer that takes so many bytes and no more has exactly these, whether it answers 0 then or an
/// error.
#[test]
fn refused_writes(rt: HostRuntime) {
    for &written in WRITTEN {
        for &step in STEPS {
            for room in 0..22usize {
                runs(&rt, rt.alloc(), written, step, room, false);
                runs(&rt, rt.alloc(), written, step, room, true);
            }
        }
    }
}

/// One record, of 11 bytes.
const ONE_RECORD: &str = "      WRITE (6,10)\n   10 FORMAT ('ABCDEFGHIJ')\n      END\n";

/// Three records, of 7 bytes each, and a statement behind them.
const THREE_RECORDS: &str =
    "      DO 10 I=1,3\n   10 WRITE (6,20) I\n   20 FORMAT (I6)\n      STOP 'LATER'\n      END\n";

/// Runs a source over a writer with so much room, by each number of workers.
fn records_in<R: Abort + Threads + Wait + Sync>(
    rt: &R,
    alloc: Global,
    source: &str,
    room: usize,
    want: &Ending,
    taken: &str,
) {
    for &workers in WORKERS {
        let meter = make_meter(alloc, usize::MAX, room, true);
        let same = agrees_over(rt, alloc, source, workers, meter, want, taken.as_bytes());
        assert!(rt; same, "{workers}: {source}");
    }
}

/// Room for a part of a record, for all records but one byte, and for all: what stands behind a
/// refused write isn't executed.
#[test]
fn records_before_a_refused_write(rt: HostRuntime) {
    let broken = Ending::WriteRefused;
    records_in(&rt, rt.alloc(), ONE_RECORD, 3, &broken, "ABC");
    let kept = "     1\n     2\n     3";
    records_in(&rt, rt.alloc(), THREE_RECORDS, 20, &broken, kept);
    let stopped = stopped_with(&rt, rt.alloc(), "LATER");
    let all = "     1\n     2\n     3\n";
    records_in(&rt, rt.alloc(), THREE_RECORDS, 21, &stopped, all);
}

/// How many bytes a piece has.
const LENGTHS: &[usize] = &[0, 1, 4096, 4097, 1_048_576];

/// Bytes that differ from those near them.
fn piece_of(alloc: Global, length: usize) -> Result<Vec<u8>, AllocError> {
    let mut piece = Vec::new(alloc);
    for place in 0..length {
        piece.push(u8::try_from(place % 251).unwrap_or(0))?;
    }
    Ok(piece)
}

/// Whether a sink has refused or not, and its writer has exactly so many bytes of the front of a
/// piece.
fn has_front(sink: Out<Meter>, refuses: bool, piece: &[u8], count: usize) -> bool {
    let refused = sink.refused();
    let Meter { bytes, .. } = sink.into_inner();
    refused == refuses && bytes.len() == count && piece.starts_with(&bytes)
}

/// Puts a piece once: what the writer takes of it is told, and the sink refuses where the writer
/// takes nothing of a byte or more.
fn puts_once(rt: &impl Abort, piece: &[u8], meter: Meter) {
    let taken = piece.len().min(meter.step).min(meter.room);
    let refuses = taken == 0 && !piece.is_empty();
    let mut sink = Out::new(meter);
    let told = sink.put(piece);
    let want = if refuses { Err(Refused) } else { Ok(taken) };
    let same = has_front(sink, refuses, piece, taken);
    assert!(rt; told == want && same);
}

/// Puts the whole of a piece: the writer has it, or as much as it has room for, and the sink has
/// refused then.
fn puts_whole(rt: &impl Abort, piece: &[u8], meter: Meter) {
    let kept = piece.len().min(meter.room);
    let refuses = kept < piece.len();
    let mut sink = Out::new(meter);
    let told = put_all(&mut sink, piece);
    let same = has_front(sink, refuses, piece, kept);
    assert!(rt; told.is_err() == refuses && same);
}

/// Puts a piece into writers with this room, that answer 0 or an error past it.
fn puts(rt: &impl Abort, alloc: Global, piece: &[u8], room: usize) {
    for &step in STEPS {
        puts_once(rt, piece, make_meter(alloc, step, room, false));
        puts_once(rt, piece, make_meter(alloc, step, room, true));
        puts_whole(rt, piece, make_meter(alloc, step, room, false));
        puts_whole(rt, piece, make_meter(alloc, step, room, true));
    }
}

/// Room for nothing, for half a piece, for all but a byte, for the whole and for more.
#[test]
fn pieces(rt: HostRuntime) -> Result<(), Fail> {
    for &length in LENGTHS {
        let piece = piece_of(rt.alloc(), length)?;
        puts(&rt, rt.alloc(), &piece, 0);
        puts(&rt, rt.alloc(), &piece, length / 2);
        puts(&rt, rt.alloc(), &piece, length.saturating_sub(1));
        puts(&rt, rt.alloc(), &piece, length);
        puts(&rt, rt.alloc(), &piece, usize::MAX);
    }
    Ok(())
}
