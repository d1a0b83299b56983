//! What stands between the commas of a format's text (ANSI X3.9-1978, 13.1 and 13.2).

ghost use Rattle.std.specs.Prelude.{◌≡◌, ◌<◌, ◌+◌, ◌^◌, ◌&&◌, drop, is_none, IfOk};
ghost use Rattle.meaning.specs.Formats.{descriptors_of};
ghost use Rattle.output_culprits.specs.Pieces.{depth_behind as depth_after};
ghost use Rattle.output_culprits.specs.Pieces.{ends_piece as ends_piece_at, is_bad as is_bad_front};
ghost use Rattle.output_culprits.specs.Pieces.{piece_of, scan_behind, scan_start};

use format_edit::{Format, FormatFault};
use std::alloc::{AllocError, Global};

/// How far one has come in a format's text.
#[derive(Clone, Copy)]
pub struct Scan {
    /// In a text between apostrophes.
    pub quoted: bool,
    /// In so many groups.
    pub depth: usize,
    /// The place behind the last comma outside of both.
    pub start: usize,
}

/// In how many groups one is behind a character outside of texts.
fn depth_behind(code: u8, depth: usize) -> usize
    requires { depth + 1 < 2 ^ 64 }
    ensures { result ≡ depth_after code depth }
{
    if code == b'(' {
        depth + 1
    } else if code == b')' {
        depth.saturating_sub(1)
    } else {
        depth
    }
}

/// Whether a character is a comma outside of groups and texts.
fn ends_piece(scan: Scan, code: u8) -> bool
    ensures { result ≡ ends_piece_at scan code }
{
    code == b',' && !scan.quoted && scan.depth == 0
}

impl Scan {
    /// In front of a format.
    fn new() -> Scan
        ensures { result ≡ scan_start }
    {
        Scan {
            quoted: false,
            depth: 0,
            start: 0,
        }
    }

    /// Behind a character at a place.
    fn behind(self, place: usize, code: u8) -> Scan
        requires place { place + 1 < 2 ^ 64 }
        requires depth { self.depth + 1 < 2 ^ 64 }
        ensures { result ≡ scan_behind place code self }
    {
        if self.quoted {
            return Scan {
                quoted: code != b'\'',
                depth: self.depth,
                start: self.start,
            };
        }
        Scan {
            quoted: code == b'\'',
            depth: depth_behind(code, self.depth),
            start: if ends_piece(self, code) {
                place + 1
            } else {
                self.start
            },
        }
    }
}

/// Whether a text is no format.
pub fn is_no_format(alloc: Global, text: &[u8]) -> Result<bool, AllocError>
    ensures { IfOk result (λ b. b ≡ is_none (descriptors_of text.now)) }
{
    match Format::read_inside(alloc, text) {
        Ok(format) => {
            drop(format);
            Ok(false)
        }
        Err(FormatFault::Broken) => Ok(true),
        Err(FormatFault::Memory) => Err(AllocError),
    }
}

/// Whether what stands before a comma is nothing, or no format.
fn is_bad(alloc: Global, front: &[u8]) -> Result<bool, AllocError>
    ensures { IfOk result (λ b. b ≡ is_bad_front front.now) }
{
    if front.is_empty() {
        return Ok(true);
    }
    is_no_format(alloc, front)
}

/// Whether a character is such a comma, and what stands before it is bad.
fn ends_badly(alloc: Global, scan: Scan, front: &[u8], code: u8) -> Result<bool, AllocError>
    ensures { IfOk result (λ b. b ≡ (ends_piece_at scan code && is_bad_front front.now)) }
{
    if ends_piece(scan, code) {
        return is_bad(alloc, front);
    }
    Ok(false)
}

/// What comes from a place on.
fn from_place(text: &[u8], place: usize) -> &[u8]
    ensures { result.now ≡ drop place text.now }
{
    if place <= text.len() {
        &text[place..]
    } else {
        &[]
    }
}

/// Of a text that is no format what stands between two commas outside of groups and texts, up to
/// which it is none; behind the last of them, if it is one up to there.
pub fn bad_piece<'a>(alloc: Global, text: &'a [u8]) -> Result<&'a [u8], AllocError>
    ensures { IfOk result (λ p. p.now ≡ piece_of text.now) }
{
    let mut scan = Scan::new();
    for (place, code) in text.iter().enumerate() {
        let front = &text[..place];
        if ends_badly(alloc, scan, front, *code)? {
            return Ok(from_place(front, scan.start));
        }
        scan = scan.behind(place, *code);
    }
    Ok(from_place(text, scan.start))
}
