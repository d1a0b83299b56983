//! Editing values under a format (ANSI X3.9-1978, 13.3).

ghost use Rattle.std.specs.Prelude.{◌≡◌, [], ◌∷◌, length, if◌then◌else◌};
ghost use Rattle.meaning.specs.Formats.{integer_field, logical_field, characters, skip as move};
ghost use Rattle.meaning.specs.Formats.{colon, slash};
ghost use Rattle.meaning.specs.Records.{times, unrolled, pass, is_field, has_field, have_field};
ghost use Rattle.meaning.specs.Records.{is_group, reverted, sequence, course, stops, edited};
ghost use Rattle.format_edit.specs.Formatted.{descriptor_of, part_of, parts_of, descriptors};
ghost use Rattle.format_edit.specs.Edits.{Follows, Edits};
ghost use Rattle.format_edit.specs.Ahead.{ahead, onward, Walks};

use crate::fault::EditFault;
use crate::format::{Descriptor, Format, Part};
use crate::records::{blank_sheet, end_record, put_characters, put_integer, put_logical, skip};
use crate::sheet::Sheet;
use meaning::ending::Value;
use std::alloc::Global;

/// Edits the next value as an integer. This and the functions below answer the values that are
/// left, or `None` where editing stops because the list is used up.
fn edit_integer<'a>(
    sheet: &mut Sheet,
    width: u16,
    least: u16,
    values: &'a [Value],
) -> Result<Option<&'a [Value]>, EditFault>
    ensures { Walks result sheet.old values.now (integer_field width least ∷ []) sheet.new }
{
    let Some((value, rest)) = values.split_first() else {
        return Ok(None);
    };
    match value {
        Value::Int(z) => put_integer(sheet, usize::from(width), least, *z)?,
        Value::Bool(_) => return Err(EditFault::F7),
    }
    Ok(Some(rest))
}

/// Edits the next value as a logical one.
fn edit_logical<'a>(
    sheet: &mut Sheet,
    width: u16,
    values: &'a [Value],
) -> Result<Option<&'a [Value]>, EditFault>
    ensures { Walks result sheet.old values.now (logical_field width ∷ []) sheet.new }
{
    let Some((value, rest)) = values.split_first() else {
        return Ok(None);
    };
    match value {
        Value::Int(_) => return Err(EditFault::F7),
        Value::Bool(b) => put_logical(sheet, usize::from(width), *b)?,
    }
    Ok(Some(rest))
}

/// Stops where the list is used up.
fn edit_colon<'a>(sheet: &mut Sheet, values: &'a [Value]) -> Result<Option<&'a [Value]>, EditFault>
    ensures { Walks result sheet.old values.now (colon ∷ []) sheet.new }
{
    if values.is_empty() {
        return Ok(None);
    }
    Ok(Some(values))
}

/// Writes characters.
#[tactic(auto, unfolding(meaning::specs::Records::course))]
fn edit_characters<'a>(
    sheet: &mut Sheet,
    text: &[u8],
    values: &'a [Value],
) -> Result<Option<&'a [Value]>, EditFault>
    ensures { Walks result sheet.old values.now (characters text.now ∷ []) sheet.new }
{
    put_characters(sheet, text)?;
    Ok(Some(values))
}

/// Moves n positions to the right.
#[tactic(auto, unfolding(meaning::specs::Records::course))]
fn edit_skip<'a>(
    sheet: &mut Sheet,
    n: u16,
    values: &'a [Value],
) -> Result<Option<&'a [Value]>, EditFault>
    ensures { Walks result sheet.old values.now (move n ∷ []) sheet.new }
{
    skip(sheet, usize::from(n));
    Ok(Some(values))
}

/// Ends the record.
#[tactic(auto, unfolding(meaning::specs::Records::course))]
fn edit_slash<'a>(sheet: &mut Sheet, values: &'a [Value]) -> Result<Option<&'a [Value]>, EditFault>
    ensures { Walks result sheet.old values.now (slash ∷ []) sheet.new }
{
    end_record(sheet)?;
    Ok(Some(values))
}

/// Edits one descriptor.
fn edit_descriptor<'a>(
    sheet: &mut Sheet,
    descriptor: &Descriptor,
    values: &'a [Value],
) -> Result<Option<&'a [Value]>, EditFault>
    ensures { Walks result sheet.old values.now (descriptor_of descriptor.now ∷ []) sheet.new }
{
    match descriptor {
        Descriptor::Integer { width, least } => edit_integer(sheet, *width, *least, values),
        Descriptor::Logical(width) => edit_logical(sheet, *width, values),
        Descriptor::Characters(text) => edit_characters(sheet, text, values),
        Descriptor::Skip(n) => edit_skip(sheet, *n, values),
        Descriptor::Slash => edit_slash(sheet, values),
        Descriptor::Colon => edit_colon(sheet, values),
    }
}

/// Edits one descriptor so many times.
fn edit_single<'a>(
    sheet: &mut Sheet,
    repeat: u16,
    descriptor: &Descriptor,
    values: &'a [Value],
) -> Result<Option<&'a [Value]>, EditFault>
    ensures { Walks result sheet.old values.now (times repeat (descriptor_of descriptor.now ∷ []))
        sheet.new }
{
    let mut left = values;
    for _ in 0..repeat {
        let Some(rest) = edit_descriptor(sheet, descriptor, left)? else {
            return Ok(None);
        };
        left = rest;
    }
    Ok(Some(left))
}

/// Edits the parts of a group so many times.
#[cycle(parts)]
fn edit_group<'a>(
    sheet: &mut Sheet,
    repeat: u16,
    parts: &[Part],
    values: &'a [Value],
) -> Result<Option<&'a [Value]>, EditFault>
    ensures { Walks result sheet.old values.now (times repeat (pass (parts_of parts.now)))
        sheet.new }
{
    let mut left = values;
    for _ in 0..repeat {
        let Some(rest) = edit_parts(sheet, parts, left)? else {
            return Ok(None);
        };
        left = rest;
    }
    Ok(Some(left))
}

/// Edits one part, as often as it says.
#[cycle(parts)]
fn edit_part<'a>(
    sheet: &mut Sheet,
    part: &Part,
    values: &'a [Value],
) -> Result<Option<&'a [Value]>, EditFault>
    ensures { Walks result sheet.old values.now (unrolled (part_of part.now)) sheet.new }
{
    match part {
        Part::Single(repeat, descriptor) => edit_single(sheet, *repeat, descriptor, values),
        Part::Group(repeat, parts) => edit_group(sheet, *repeat, parts, values),
    }
}

/// Edits parts once, from the first to the last.
#[cycle(parts)]
fn edit_parts<'a>(
    sheet: &mut Sheet,
    parts: &[Part],
    values: &'a [Value],
) -> Result<Option<&'a [Value]>, EditFault>
    ensures { Walks result sheet.old values.now (pass (parts_of parts.now)) sheet.new }
{
    let mut left = values;
    for part in parts {
        let Some(rest) = edit_part(sheet, part, left)? else {
            return Ok(None);
        };
        left = rest;
    }
    Ok(Some(left))
}

/// Whether a descriptor takes values.
fn is_field(descriptor: &Descriptor) -> bool
    ensures { result ≡ is_field (descriptor_of descriptor.now) }
{
    match descriptor {
        Descriptor::Integer { .. } => true,
        Descriptor::Logical(_) => true,
        Descriptor::Characters(_) => false,
        Descriptor::Skip(_) => false,
        Descriptor::Slash => false,
        Descriptor::Colon => false,
    }
}

/// Whether a part has a descriptor that takes values.
#[cycle(fields)]
fn has_field(part: &Part) -> bool
    ensures { result ≡ has_field (part_of part.now) }
{
    match part {
        Part::Single(_, descriptor) => is_field(descriptor),
        Part::Group(_, parts) => have_field(parts),
    }
}

/// Whether some part has a descriptor that takes values.
#[cycle(fields)]
fn have_field(parts: &[Part]) -> bool
    ensures { result ≡ have_field (parts_of parts.now) }
{
    for part in parts {
        if has_field(part) {
            return true;
        }
    }
    false
}

/// Whether a part is a group.
fn is_group(part: &Part) -> bool
    ensures { result ≡ is_group (part_of part.now) }
{
    match part {
        Part::Single(_, _) => false,
        Part::Group(_, _) => true,
    }
}

/// These parts where the first of them is a group, and else those that were found before.
fn from_group<'a>(part: &Part, from_part: &'a [Part], found: &'a [Part]) -> &'a [Part]
    ensures { result.now ≡ if is_group (part_of part.now) then from_part.now else found.now }
{
    if is_group(part) { from_part } else { found }
}

/// What control goes back to where parts are used up and values are left: those from the last group
/// on, or all where there is none (ANSI X3.9-1978, 13.3).
pub fn reverted(parts: &[Part]) -> &[Part]
    ensures { parts_of result.now ≡ reverted (parts_of parts.now) }
{
    let mut found = parts;
    let mut rest = parts;
    while let Some((part, behind)) = rest.split_first() {
        found = from_group(part, rest, found);
        rest = behind;
    }
    found
}

/// Where nothing of a format is left: `F7` if values are.
fn close(sheet: &Sheet, left: &[Value]) -> Result<(), EditFault>
    ensures { Follows result (ahead sheet.now (course [] left.now)) (λ _. ahead sheet.now stops) }
{
    match left.first() {
        None => Ok(()),
        Some(_) => Err(EditFault::F7),
    }
}

/// Walks a new record and the parts that control goes back to, so many times at most, until the
/// list is used up.
fn go_back(
    sheet: &mut Sheet,
    parts: &[Part],
    values: &[Value],
    most: usize,
) -> Result<(), EditFault>
    ensures { Follows result
        (ahead sheet.old
        (course (times most (colon ∷ (slash ∷ pass (parts_of parts.now)))) values.now))
        (λ _. ahead sheet.new stops) }
{
    let mut left = values;
    for _ in 0..most {
        if left.is_empty() {
            return Ok(());
        }
        end_record(sheet)?;
        let Some(rest) = edit_parts(sheet, parts, left)? else {
            return Ok(());
        };
        left = rest;
    }
    close(sheet, left)
}

/// Walks a format over values: one pass, and where the part that control goes back to takes values,
/// then again and again a new record and that part, until the list is used up.
fn walk(sheet: &mut Sheet, parts: &[Part], values: &[Value]) -> Result<(), EditFault>
    ensures { Follows result
        (ahead sheet.old (course (sequence (parts_of parts.now) (length values.now)) values.now))
        (λ _. ahead sheet.new stops) }
{
    let Some(left) = edit_parts(sheet, parts, values)? else {
        return Ok(());
    };
    let again = reverted(parts);
    if have_field(again) {
        go_back(sheet, again, left, values.len())
    } else {
        close(sheet, left)
    }
}

/// The records that a format makes of values, each with a line feed behind (ANSI X3.9-1978, 13.3).
/// Memory is that of the bytes, and time is linear in them and in the items that are walked. `F7`
/// where a value meets a descriptor of another type or none, `F8` where the bytes would pass
/// 1,048,576, whichever is met first; `Memory` where a growth was refused.
pub fn edit(alloc: Global, format: &Format, values: &[Value]) -> Result<Vec<u8>, EditFault>
    ensures { Edits result (edited (descriptors format.now) values.now) }
{
    let mut sheet = blank_sheet(alloc);
    walk(&mut sheet, &format.parts, values)?;
    end_record(&mut sheet)?;
    let Sheet { bytes, .. } = sheet;
    Ok(bytes)
}
