//! Putting bytes into records (ANSI X3.9-1978, 12.9.5 and 13.5).

ghost use Rattle.std.specs.Prelude.{◌≡◌, ◌≤◌, ◌<◌, ◌+◌, ◌-◌, ◌^◌, ◌++◌, ◌↔◌, IsTrue, length};
ghost use Rattle.std.specs.Prelude.{vec_len, replicate, OnOk, Ok, []};
ghost use Rattle.meaning.specs.Records.{Course, stops, puts, moves, ends, justified, sign_of};
ghost use Rattle.meaning.specs.Records.{integer_text, logical_text};
ghost use Rattle.format_edit.specs.Edits.{Follows};
ghost use Rattle.format_edit.specs.Ahead.{ahead};

use crate::fault::EditFault;
use crate::sheet::Sheet;
use itoa::Buffer;
use std::alloc::{AllocError, Global};

/// The most bytes that a WRITE statement writes, each record's line feed included.
const BYTE_LIMIT: usize = 1_048_576;

/// Puts a byte so many times behind others. Where memory is refused they are no more than that
/// longer.
fn put_run(bytes: &mut Vec<u8>, byte: u8, count: usize) -> Result<(), AllocError>
    requires { vec_len bytes.old + count ≤ 1048576 }
    ensures items { OnOk result (bytes.new.items ≡ bytes.old.items ++ replicate count byte) }
    ensures len { vec_len bytes.new ≤ vec_len bytes.old + count }
{
    let len = bytes.len() + count;
    bytes.resize(len, byte)
}

/// The start of a WRITE statement.
pub(crate) fn blank_sheet(alloc: Global) -> Sheet
    ensures bytes { result.bytes.items ≡ [] }
    ensures gap { result.gap ≡ 0 }
{
    Sheet {
        bytes: Vec::new(alloc),
        gap: 0,
    }
}

/// Moves n positions to the right.
pub(crate) fn skip(sheet: &mut Sheet, n: usize)
    ensures { (c : Course) → ahead sheet.old (moves n c) ≡ ahead sheet.new c }
{
    sheet.gap = sheet.gap.saturating_add(n);
}

/// Whether so many bytes have room behind the blanks that are due.
fn has_room(sheet: &Sheet, count: usize, len: usize) -> bool
    ensures { IsTrue result ↔
        (length sheet.now.bytes.items + sheet.now.gap + (count + len) ≤ 1048576) }
{
    let room = BYTE_LIMIT - sheet.bytes.len();
    if room < sheet.gap {
        return false;
    }
    let room = room - sheet.gap;
    count <= room && len <= room - count
}

/// Puts a byte so many times and then a text, behind the blanks that are due. Nothing where both
/// are empty.
pub(crate) fn put(sheet: &mut Sheet, fill: u8, count: usize, text: &[u8]) -> Result<(), EditFault>
    ensures { (c : Course) →
        Follows result
        (ahead sheet.old (puts (replicate count fill ++ text.now) c)) (λ _. ahead sheet.new c) }
{
    let len = text.len();
    if count == 0 && len == 0 {
        return Ok(());
    }
    if !has_room(sheet, count, len) {
        return Err(EditFault::F8);
    }
    put_run(&mut sheet.bytes, b' ', sheet.gap)?;
    put_run(&mut sheet.bytes, fill, count)?;
    sheet.bytes.extend_from_slice(text)?;
    sheet.gap = 0;
    Ok(())
}

/// Puts a text right justified, or asterisks where it doesn't fit.
fn put_justified(sheet: &mut Sheet, width: usize, text: &[u8]) -> Result<(), EditFault>
    ensures { (c : Course) →
        Follows result
        (ahead sheet.old (puts (justified width text.now) c)) (λ _. ahead sheet.new c) }
{
    if width < text.len() {
        put(sheet, b'*', width, &[])
    } else {
        put(sheet, b' ', width - text.len(), text)
    }
}

/// The sign that is written before a number.
fn sign_of(value: i32) -> &'static [u8]
    ensures { result.now ≡ sign_of value }
{
    if value < 0 { b"-" } else { b"" }
}

/// Puts a sign, and digits with zeros before them where they are less than asked for, right
/// justified; or asterisks where they don't fit.
fn put_digits(
    sheet: &mut Sheet,
    width: usize,
    least: usize,
    sign: &[u8],
    digits: &[u8],
) -> Result<(), EditFault>
    requires { length sign.now + (least + length digits.now) < 2 ^ 32 }
    ensures { (c : Course) → Follows result
        (ahead sheet.old
        (puts (justified width
        (sign.now ++ (replicate (least - length digits.now) 48 ++ digits.now))) c))
        (λ _. ahead sheet.new c) }
{
    let zeros = least.saturating_sub(digits.len());
    let len = sign.len() + zeros + digits.len();
    if width < len {
        return put(sheet, b'*', width, &[]);
    }
    put(sheet, b' ', width - len, sign)?;
    put(sheet, b'0', zeros, digits)
}

/// Puts an integer right justified, with at least so many digits, none where it is 0 and none is
/// asked for; or asterisks where it doesn't fit (ANSI X3.9-1978, 13.5.9.1).
pub(crate) fn put_integer(
    sheet: &mut Sheet,
    width: usize,
    least: u16,
    value: i32,
) -> Result<(), EditFault>
    ensures { (c : Course) → Follows result
        (ahead sheet.old (puts (justified width (integer_text least value)) c)) (λ _. ahead
        sheet.new c) }
{
    let magnitude = value.unsigned_abs();
    if least == 0 && magnitude == 0 {
        return put(sheet, b' ', width, &[]);
    }
    let mut buffer = Buffer::new();
    let digits = buffer.format(magnitude).as_bytes();
    put_digits(sheet, width, usize::from(least), sign_of(value), digits)
}

/// Puts T or F right justified (ANSI X3.9-1978, 13.5.10).
pub(crate) fn put_logical(sheet: &mut Sheet, width: usize, value: bool) -> Result<(), EditFault>
    ensures { (c : Course) →
        Follows result
        (ahead sheet.old (puts (justified width (logical_text value)) c)) (λ _. ahead sheet.new c) }
{
    let text = if value { b"T" } else { b"F" };
    put_justified(sheet, width, text)
}

/// Puts characters as they are.
pub(crate) fn put_characters(sheet: &mut Sheet, text: &[u8]) -> Result<(), EditFault>
    ensures { (c : Course) →
        Follows result (ahead sheet.old (puts text.now c)) (λ _. ahead sheet.new c) }
{
    put(sheet, b' ', 0, text)
}

/// Ends the record: a line feed, and no blanks are due.
pub(crate) fn end_record(sheet: &mut Sheet) -> Result<(), EditFault>
    ensures leads { (c : Course) →
        Follows result (ahead sheet.old (ends c)) (λ _. ahead sheet.new c) }
    // Where it is the last one.
    ensures closes { Follows result (ahead sheet.old stops) (λ _. Ok sheet.new.bytes.items) }
{
    sheet.gap = 0;
    if !has_room(sheet, 0, 1) {
        return Err(EditFault::F8);
    }
    sheet.bytes.push(b'\n')?;
    Ok(())
}
