//! Bytes for people: printable characters alone, and nothing to a sink that has refused.

ghost use Rattle.std.specs.Prelude.{◌≡◌, decimal, map};
ghost use Rattle.messages.specs.Shown.{IsTold, hint_line, shown, told_line};

use itoa::Buffer;
use record_sinks::{Sink, put_all};
use std::fmt;

/// Writes bytes, unless a write was refused.
pub fn put_bytes<S: Sink>(bytes: &[u8], err: &mut S)
    ensures { IsTold bytes.now (S.told err.old) (S.told err.new) }
{
    if !err.refused() {
        let _ = put_all(err, bytes);
    }
}

/// Writes a text, unless a write was refused.
pub fn put<S: Sink>(text: &str, err: &mut S)
    ensures { IsTold text.now (S.told err.old) (S.told err.new) }
{
    put_bytes(text.as_bytes(), err);
}

/// Writes a number.
pub(crate) fn put_number<S: Sink>(number: u32, err: &mut S)
    ensures { IsTold (decimal number) (S.told err.old) (S.told err.new) }
{
    put(Buffer::new().format(number), err);
}

/// Writes bytes one by one, a question mark in place of each that isn't printable.
pub fn put_shown<S: Sink>(bytes: &[u8], err: &mut S)
    ensures { IsTold (map shown bytes.now) (S.told err.old) (S.told err.new) }
{
    for byte in bytes {
        put_bytes(&[shown(*byte)], err);
    }
}

/// Writes a line behind two blanks.
pub fn put_line<S: Sink>(line: &[u8], err: &mut S)
    ensures { IsTold (told_line line.now) (S.told err.old) (S.told err.new) }
{
    put("  ", err);
    put_shown(line, err);
    put("\n", err);
}

/// Writes a hint in a line.
pub(crate) fn put_hint<S: Sink>(text: &str, err: &mut S)
    ensures { IsTold (hint_line text.now) (S.told err.old) (S.told err.new) }
{
    put("  HINT: ", err);
    put_shown(text.as_bytes(), err);
    put("\n", err);
}

// A printable character of ASCII, or a question mark in its place.
fn shown(byte: u8) -> u8
    ensures { result ≡ shown byte }
{
    if byte >= 32 && byte <= 126 {
        byte
    } else {
        b'?'
    }
}

/// A sink as a writer of texts, of which it is given printable characters alone.
#[derive(Drop)]
pub struct Texts<'a, S: Sink> {
    /// The sink.
    pub sink: &'a mut S,
}

impl<'a, S: Sink> fmt::Write for Texts<'a, S> {
    fn write_str(&mut self, text: &str) -> fmt::Result {
        put_shown(text.as_bytes(), self.sink);
        Ok(())
    }
}
