//! Where a message points, and the lines of the source that it shows.

ghost use Rattle.std.specs.Prelude.{◌≡◌, ◌<◌, ◌≤◌, IfSome, MatchOption, None, drop, length};
ghost use Rattle.std.specs.Prelude.{position, take};
ghost use Rattle.std.proofs.Math.ListN.{replicate};
ghost use Rattle.meaning.specs.Lines.{lines_of};
ghost use Rattle.source_columns.specs.Excerpts.{continued, excerpt};
ghost use Rattle.messages.specs.Pointed.{IsFirst, IsUnprintable, behind_mark, body, byte_text};
ghost use Rattle.messages.specs.Pointed.{column_of, further, is_character, is_unprintable, line_in};
ghost use Rattle.messages.specs.Pointed.{mark_line, numbered, pointed, statement_field};
ghost use Rattle.messages.specs.Shown.{IsTold};

use crate::putting::{put, put_shown};
use itoa::Buffer;
use record_sinks::Sink;
use source_columns::{line_at, next_continuation};
use word_places::Place;

// The line of this number, empty where there is none.
fn line_in(source: &[u8], number: u32) -> &[u8]
    ensures { result.now ≡ line_in number source.now }
{
    match line_at(source, number) {
        Some((line, _)) => line,
        None => &[],
    }
}

/// The place of the first character of the statement that begins at a line, behind its label;
/// column 1 where the line has no character in columns 7 to 72.
pub(crate) fn first_place(source: &[u8], line: u32) -> Place
    ensures { IsFirst source.now line result }
{
    let column = column_of(line_in(source, line));
    Place { line, column }
}

/// The column of the first byte in columns 1 to 72 of a line that isn't printable, and what it is;
/// none where all are.
pub(crate) fn unprintable(source: &[u8], line: u32) -> Option<(u32, &'static [u8])>
    ensures { MatchOption result
        (position is_unprintable (take 72 (line_in line source.now)) ≡ None)
        (λ x. IsUnprintable (take 72 (line_in line source.now)) x.0 x.1.now) }
{
    let columns = columns(line_in(source, line));
    match first_unprintable(columns) {
        Some(at) => Some((at as u32 + 1, byte_text(columns[at]))),
        None => None,
    }
}

// The index of the first byte that isn't printable.
fn first_unprintable(bytes: &[u8]) -> Option<usize>
    ensures is { result ≡ position is_unprintable bytes.now }
    ensures within { IfSome result (λ i. i < length bytes.now) }
{
    bytes.iter().position(|byte| *byte < 32 || *byte > 126)
}

// What a byte is that isn't printable.
fn byte_text(byte: u8) -> &'static [u8]
    ensures { result.now ≡ byte_text byte }
{
    if byte == b'\t' {
        b"a tab"
    } else if byte < 128 {
        b"a control character"
    } else {
        b"a character that isn't ASCII"
    }
}

// The index of the first byte that is no blank.
fn first_character(bytes: &[u8]) -> Option<usize>
    ensures is { result ≡ position is_character bytes.now }
    ensures within { IfSome result (λ i. i < length bytes.now) }
{
    bytes.iter().position(|byte| *byte != b' ')
}

// Columns 1 to 72.
fn columns(line: &[u8]) -> &[u8]
    ensures is { result.now ≡ take 72 line.now }
    ensures short { length result.now ≤ 72 }
{
    if line.len() > 72 { &line[..72] } else { line }
}

// What stands behind column 6.
fn behind_column_6(line: &[u8]) -> &[u8]
    ensures { result.now ≡ drop 6 line.now }
{
    match line.get(6..) {
        Some(field) => field,
        None => &[],
    }
}

// Columns 7 to 72.
fn statement_field(line: &[u8]) -> &[u8]
    ensures is { result.now ≡ statement_field line.now }
    ensures short { length result.now ≤ 66 }
{
    behind_column_6(columns(line))
}

// The column of the first character in columns 7 to 72, or 1 where there is none.
fn column_of(line: &[u8]) -> u32
    ensures { result ≡ column_of line.now }
{
    match first_character(statement_field(line)) {
        Some(before) => before as u32 + 7,
        None => 1,
    }
}

/// Writes the line of a place with its number, a mark below its column, and up to two continuation
/// lines behind it; nothing where there is no such line.
pub(crate) fn put_pointed<S: Sink>(source: &[u8], place: Place, err: &mut S)
    ensures { IsTold (pointed place (excerpt place.line source.now)) (S.told err.old)
        (S.told err.new) }
{
    if let Some((first, behind)) = line_at(source, place.line) {
        put_numbered(place.line, first, err);
        put_mark(place.column, err);
        put_behind(behind, err);
    }
}

// Writes a line of the source with its number.
fn put_numbered<S: Sink>(number: u32, line: &[u8], err: &mut S)
    ensures { IsTold (numbered number line.now) (S.told err.old) (S.told err.new) }
{
    let mut buffer = Buffer::new();
    let digits = buffer.format(number);
    put_blanks(5usize.saturating_sub(digits.len()), err);
    put(digits, err);
    put_body(line, err);
}

// Writes columns 1 to 72 of a line of the source behind a bar.
fn put_body<S: Sink>(line: &[u8], err: &mut S)
    ensures { IsTold (body line.now) (S.told err.old) (S.told err.new) }
{
    put(" | ", err);
    put_shown(columns(line), err);
    put("\n", err);
}

// Writes a mark below a column.
fn put_mark<S: Sink>(column: u32, err: &mut S)
    ensures { IsTold (mark_line column) (S.told err.old) (S.told err.new) }
{
    put("      | ", err);
    put_blanks(column.saturating_sub(1) as usize, err);
    put("^\n", err);
}

// Writes blanks.
fn put_blanks<S: Sink>(count: usize, err: &mut S)
    ensures { IsTold (replicate count 32) (S.told err.old) (S.told err.new) }
{
    for _ in 0..count {
        put(" ", err);
    }
}

// Writes up to two of the continuation lines that come first among lines.
fn put_behind<S: Sink>(source: &[u8], err: &mut S)
    ensures { IsTold (behind_mark (continued (lines_of source.now))) (S.told err.old)
        (S.told err.new) }
{
    if let Some((first, behind)) = next_continuation(source) {
        put_further(first, err);
        if let Some((second, _)) = next_continuation(behind) {
            put_further(second, err);
        }
    }
}

// Writes a line of the source without its number.
fn put_further<S: Sink>(line: &[u8], err: &mut S)
    ensures { IsTold (further line.now) (S.told err.old) (S.told err.new) }
{
    put("     ", err);
    put_body(line, err);
}
