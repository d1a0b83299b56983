//! The whole program over words, and over readers and writers in memory that fail: its exit status
//! and its line on standard error. What it says of all else is asked of the program as it is built,
//! by `tests/run`.

use engine::engine;
use std::env::{Env, FillError};
use std::io;
use std::io::{ErrorKind, Read, Write};
use std::test::*;

/// The words of a command line.
#[derive(Drop)]
struct Words<'a> {
    words: &'a [&'a [u8]],
}

impl Env for Words<'_> {
    fn arg(&self, i: usize, buf: &mut [u8]) -> Result<usize, FillError> {
        match self.words.get(i) {
            None => Err(FillError::NotPresent),
            Some(word) => {
                if word.len() > buf.len() {
                    return Err(FillError::TooLong);
                }
                buf[..word.len()].copy_from_slice(word);
                Ok(word.len())
            }
        }
    }

    fn var(&self, _name: &str, _buf: &mut [u8]) -> Result<usize, FillError> {
        Err(FillError::NotPresent)
    }

    fn var_at(&self, _i: usize, _buf: &mut [u8]) -> Result<usize, FillError> {
        Err(FillError::NotPresent)
    }
}

/// A reader that fails.
#[derive(Drop)]
struct Broken {
    kind: ErrorKind,
}

impl Read for Broken {
    fn read(&mut self, _buf: &mut [u8]) -> io::Result<usize> {
        Err(io::Error::from(self.kind))
    }
}

/// A writer that takes `room` bytes in all and then fails, at a flush too.
#[derive(Drop)]
struct Narrow {
    room: usize,
}

impl Write for Narrow {
    fn write(&mut self, buf: &[u8]) -> io::Result<usize> {
        if self.room == 0 {
            return Err(io::Error::from(ErrorKind::BrokenPipe));
        }
        let count = buf.len().min(self.room);
        self.room -= count;
        Ok(count)
    }

    fn flush(&mut self) -> io::Result<()> {
        if self.room == 0 {
            return Err(io::Error::from(ErrorKind::BrokenPipe));
        }
        Ok(())
    }
}

const ANSWER: &str = "      WRITE (6,10) 42\n   10 FORMAT (1X,I5)\n      END\n";

// A value past the labels of a computed GO TO, a record, an arithmetic IF that goes past a STOP
// statement, and another.
const NEXT_AND_STOP: &str =
    "      GO TO (30,40),3\n      WRITE (6,10)\n   10 FORMAT ('NEXT')\n   30 IF (0) 40,50,40\n   40 STOP 'WRONG'\n   50 STOP 7\n      END\n";

// A record, and a fault behind it.
const DIVIDED: &str = "      I=1\n      PRINT '(I5)', I\n      J=I/(I-1)+1\n      END\n";

const ALONE: &str = "WRITE REFUSED\n";

const EXPLAINED: &str = "WRITE REFUSED\n<stdout>: broken pipe\n";

// Words, a source, how many bytes of what is written there is room for, or with the flush behind
// them, and what is told.
const REFUSED: &[(&[&[u8]], &str, usize, &str)] = &[
    // in the record, and at the flush behind it
    (&[b"f77run"], ANSWER, 0, ALONE),
    (&[b"f77run"], ANSWER, 3, ALONE),
    (&[b"f77run"], ANSWER, 7, ALONE),
    // at the flush behind a STOP statement
    (&[b"f77run"], NEXT_AND_STOP, 5, ALONE),
    // of a write that is refused only why is told
    (&[b"f77run", b"--explain"], DIVIDED, 3, EXPLAINED),
    (&[b"f77run", b"--stages"], ANSWER, 3, ALONE),
    // in a text that is asked for, and at the flush behind it
    (&[b"f77run", b"--help"], "", 3, ALONE),
    (&[b"f77run", b"--version"], "", 12, ALONE),
    (&[b"f77run", b"--version"], "", 13, ALONE),
    (&[b"f77run", b"--rule"], "", 3, ALONE),
    (&[b"f77run", b"--rule", b"K3"], "", 3, ALONE),
    (&[b"f77run", b"--rule", b"N2"], "", 135, ALONE),
    (&[b"f77run", b"--rule", b"N2"], "", 136, ALONE),
];

#[test]
fn writes_that_are_refused(rt: HostRuntime) {
    for &(words, source, room, told) in REFUSED {
        let mut err = Vec::new(rt.alloc());
        let mut input = source.as_bytes();
        let status = engine(&rt, &Words { words }, &mut input, Narrow { room }, &mut err);
        assert!(rt; status == 5 && err.as_slice() == told.as_bytes(), "{room}");
    }
}

// Words, a source, how many bytes of standard error there is room for, the exit status, and the
// records.
const UNTOLD: &[(&[&[u8]], &str, usize, u8, &str)] = &[
    (&[b"f77run"], NEXT_AND_STOP, 0, 0, "NEXT\n"),
    (&[b"f77run"], NEXT_AND_STOP, 4, 0, "NEXT\n"),
    (&[b"f77run"], NEXT_AND_STOP, 6, 0, "NEXT\n"),
    (&[b"f77run", b"--turns", b"0"], "", 0, 3, ""),
];

/// A line that can't be written, in part or at all, changes no status and no record.
#[test]
fn lines_that_are_refused(rt: HostRuntime) {
    for &(words, source, room, wanted, records) in UNTOLD {
        let mut out = Vec::new(rt.alloc());
        let mut input = source.as_bytes();
        let mut err = Narrow { room };
        let status = engine(&rt, &Words { words }, &mut input, &mut out, &mut err);
        assert!(rt;
            status == wanted && out.as_slice() == records.as_bytes(),
            "{room}"
        );
    }
}

// Words, how standard input fails, the exit status, and the line on standard error.
const BROKEN: &[(&[&[u8]], ErrorKind, u8, &str)] = &[
    (&[b"f77run"], ErrorKind::BrokenPipe, 5, "FILE REFUSED\n"),
    (
        &[b"f77run", b"-"],
        ErrorKind::BrokenPipe,
        5,
        "FILE REFUSED\n",
    ),
    (&[b"f77run"], ErrorKind::OutOfMemory, 4, "NO MEMORY\n"),
    // standard input isn't read
    (
        &[b"f77run", b"no such file.f"],
        ErrorKind::OutOfMemory,
        5,
        "FILE REFUSED\n",
    ),
];

#[test]
fn reads_that_fail(rt: HostRuntime) {
    for &(words, kind, wanted, line) in BROKEN {
        let mut out = Vec::new(rt.alloc());
        let mut err = Vec::new(rt.alloc());
        let mut input = Broken { kind };
        let status = engine(&rt, &Words { words }, &mut input, &mut out, &mut err);
        let is_told = err.as_slice() == line.as_bytes();
        assert!(rt; status == wanted && is_told && out.is_empty(), "{line}");
    }
}
