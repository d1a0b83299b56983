//! Where the records of a run go, and what of them the caller gets.

ghost use Rattle.std.specs.Prelude.{◌≡◌, Some, false, length, min};
ghost use Rattle.c_library.specs.Shown.{put_front};

use record_sinks::{Refused, Sink};
use std::io::Write;

/// The bytes that a program writes, as many as there is room for: the next one is refused.
pub struct Output {
    bytes: Vec<u8>,
    room: usize,
    refused: bool,
}

impl Output {
    /// These bytes, and room for so many in all.
    pub fn new(bytes: Vec<u8>, room: usize) -> Self
        ensures bytes { result.bytes ≡ bytes }
        ensures refused { result.refused ≡ false }
    {
        Output {
            bytes,
            room,
            refused: false,
        }
    }

    /// Its bytes.
    pub fn into_bytes(self) -> Vec<u8>
        ensures { result ≡ self.bytes }
    {
        let Output {
            bytes,
            room: _,
            refused: _,
        } = self;
        bytes
    }
}

impl Sink for Output {
    ghost told = { λ s. record { bytes = Some s.bytes.items; refused = s.refused } };

    fn put(&mut self, piece: &[u8]) -> Result<usize, Refused> {
        let left = self.room.saturating_sub(self.bytes.len());
        let count = piece.len().min(left);
        if count == 0 && !piece.is_empty() {
            self.refused = true;
            return Err(Refused);
        }
        match self.bytes.write(&piece[..count]) {
            Ok(_) => Ok(count),
            Err(_) => {
                self.refused = true;
                Err(Refused)
            }
        }
    }

    fn refused(&self) -> bool {
        self.refused
    }
}

/// Puts bytes at the front of a room, as many as it has room for, and answers how many these are.
pub fn put(bytes: &[u8], room: &mut [u8]) -> usize
    ensures room { room.new ≡ put_front bytes.now room.old }
    ensures count { result ≡ min (length bytes.now) (length room.old) }
{
    let count = bytes.len().min(room.len());
    room[..count].copy_from_slice(&bytes[..count]);
    count
}
