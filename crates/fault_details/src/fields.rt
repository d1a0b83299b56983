//! The edit descriptors to which values go (ANSI X3.9-1978, 13.3).

ghost use Rattle.std.specs.Prelude.{◌≡◌, ◌<◌, ◌-◌, ◌^◌, Some, None, length, min, option_map};
ghost use Rattle.std.specs.Prelude.{slice_get, if◌then◌else◌};
ghost use Rattle.meaning.specs.Records.{unrolled, pass, is_field};
ghost use Rattle.format_edit.specs.Formatted.{descriptor_of, part_of, parts_of, descriptors};
ghost use Rattle.fault_details.specs.Fields.{field_of, fields, field_for};

use crate::detail::Field;
use format_edit::{Descriptor, Format, Part, reverted};

// An edit descriptor, if values go to it.
fn field_in(descriptor: &Descriptor) -> Option<Field>
    ensures { option_map field_of result ≡
        if is_field (descriptor_of descriptor.now) then Some (descriptor_of descriptor.now)
        else None }
{
    match descriptor {
        Descriptor::Integer { width, least } => Some(Field::Integer {
            width: *width,
            least: *least,
        }),
        Descriptor::Logical(width) => Some(Field::Logical { width: *width }),
        Descriptor::Characters(_) => None,
        Descriptor::Skip(_) => None,
        Descriptor::Slash => None,
        Descriptor::Colon => None,
    }
}

// How many values an edit descriptor takes.
fn taken(descriptor: &Descriptor) -> usize
    ensures { result ≡ if is_field (descriptor_of descriptor.now) then 1 else 0 }
{
    match descriptor {
        Descriptor::Integer { width: _, least: _ } => 1,
        Descriptor::Logical(_) => 1,
        Descriptor::Characters(_) => 0,
        Descriptor::Skip(_) => 0,
        Descriptor::Slash => 0,
        Descriptor::Colon => 0,
    }
}

// How many values a part takes, or 2^64-1 where it takes more.
#[cycle(count)]
fn count_of(part: &Part) -> usize
    ensures { result ≡ min (length (fields (unrolled (part_of part.now)))) (2 ^ 64 - 1) }
{
    match part {
        Part::Single(repeat, descriptor) => usize::from(*repeat).saturating_mul(taken(descriptor)),
        Part::Group(repeat, parts) => usize::from(*repeat).saturating_mul(count(parts)),
    }
}

// How many values parts take in one pass, or 2^64-1 where they take more.
#[cycle(count)]
fn count(parts: &[Part]) -> usize
    ensures { result ≡ min (length (fields (pass (parts_of parts.now)))) (2 ^ 64 - 1) }
{
    let mut sum: usize = 0;
    for part in parts {
        sum = sum.saturating_add(count_of(part));
    }
    sum
}

// The edit descriptor to which the value behind so many others of a part goes.
#[cycle(field)]
fn field_of_part(part: &Part, before: usize) -> Option<Field>
    requires small { before < 2 ^ 64 - 1 }
    requires inside { before < length (fields (unrolled (part_of part.now))) }
    ensures { option_map field_of result ≡ slice_get (fields (unrolled (part_of part.now))) before }
{
    match part {
        Part::Single(_, descriptor) => field_in(descriptor),
        Part::Group(_, parts) => field_among(parts, before % count(parts)),
    }
}

// The edit descriptor to which the value behind so many others of a pass goes.
#[cycle(field)]
fn field_among(parts: &[Part], before: usize) -> Option<Field>
    requires small { before < 2 ^ 64 - 1 }
    ensures { option_map field_of result ≡ slice_get (fields (pass (parts_of parts.now))) before }
{
    let mut left = before;
    for part in parts {
        let count = count_of(part);
        if left < count {
            return field_of_part(part, left);
        }
        left -= count;
    }
    None
}

/// The edit descriptor to which the value behind so many others of an output list goes, with
/// repeats written out and control going back where the format is used up.
pub(crate) fn field_for(format: &Format, before: usize) -> Option<Field>
    requires { before < 2 ^ 64 - 1 }
    ensures { option_map field_of result ≡ field_for (descriptors format.now) before }
{
    let first = count(&format.parts);
    if before < first {
        return field_among(&format.parts, before);
    }
    let again = reverted(&format.parts);
    let further = count(again);
    if further == 0 {
        return None;
    }
    field_among(again, (before - first) % further)
}
