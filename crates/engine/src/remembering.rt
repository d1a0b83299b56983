//! A writer that remembers why it failed last.

use std::io;
use std::io::Write;

/// A writer, and why it failed last, if it did.
#[derive(Drop)]
pub struct Remembering<O: Write + Drop> {
    /// The writer.
    pub out: O,
    /// Why it failed.
    pub error: Option<io::Error>,
}

impl<O: Write + Drop> Write for Remembering<O> {
    ghost contents = { λ w. O.contents w.out };

    fn write(&mut self, bytes: &[u8]) -> io::Result<usize> {
        let written = self.out.write(bytes);
        if let Err(error) = written {
            self.error = Some(error);
        }
        written
    }

    fn flush(&mut self) -> io::Result<()> {
        let flushed = self.out.flush();
        if let Err(error) = flushed {
            self.error = Some(error);
        }
        flushed
    }
}
