//! Writers in memory that refuse writes, and the ending at a STOP statement.

use meaning::ending::{Ending, StopMessage};
use std::alloc::Global;
use std::io;
use std::io::{ErrorKind, Write};
use std::process::Abort;

/// A writer in memory that takes at most `step` bytes a call and `room` bytes in all; past that it
/// answers 0, or an error, and counts such calls.
#[derive(Drop)]
pub struct Meter {
    pub bytes: Vec<u8>,
    pub step: usize,
    pub room: usize,
    pub refusals: u64,
    errs: bool,
}

impl Write for Meter {
    fn write(&mut self, buf: &[u8]) -> io::Result<usize> {
        let count = buf.len().min(self.step).min(self.room);
        if count == 0 && !buf.is_empty() {
            self.refusals = self.refusals.saturating_add(1);
            if self.errs {
                return Err(io::Error::from(ErrorKind::BrokenPipe));
            }
        }
        self.bytes.extend_from_slice(&buf[..count])?;
        self.room -= count;
        Ok(count)
    }

    fn flush(&mut self) -> io::Result<()> {
        if self.room == 0 && self.errs {
            Err(io::Error::from(ErrorKind::BrokenPipe))
        } else {
            Ok(())
        }
    }
}

pub fn make_meter(alloc: Global, step: usize, room: usize, errs: bool) -> Meter {
    Meter {
        bytes: Vec::new(alloc),
        step,
        room,
        refusals: 0,
        errs,
    }
}

/// More turns than a test takes.
pub const MANY: u64 = 1_000_000_000;

/// The ending at a STOP statement that tells this.
pub fn stopped_with(rt: &impl Abort, alloc: Global, text: &str) -> Ending {
    let text = Vec::from_slice(alloc, text.as_bytes()).expect(rt, "memory");
    Ending::Stopped(StopMessage::new(text))
}
