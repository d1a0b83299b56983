//! Reading the text of a format (ANSI X3.9-1978, 13.1 and 13.2).

ghost use Rattle.std.specs.Prelude.{◌≡◌, ◌-◌, ◌^◌, min, Some, [], ◌∷◌, option_map, option_copied};
ghost use Rattle.std.specs.Prelude.{IfOk};
ghost use Rattle.std.specs.List.{prefix_len};
ghost use Rattle.meaning.specs.Characters.{is_digit, number_of};
ghost use Rattle.meaning.specs.Reading.{run, after, when};
ghost use Rattle.meaning.specs.Formats.{is_least, count_in, items_of, items, is_short_pass};
ghost use Rattle.meaning.specs.Formats.{least_at, integer_at, logical_at, quoted_at, characters_at};
ghost use Rattle.meaning.specs.Formats.{times_read, group_at, behind_count, counted_at, part_at};
ghost use Rattle.meaning.specs.Formats.{marks, is_separator, next_at, parts_in, descriptors_of};
ghost use Rattle.meaning.specs.Formats.{between_parentheses, format_in, undoubled};
ghost use Rattle.format_edit.specs.Formatted.{descriptor_of, part_of, parts_of, counted};
ghost use Rattle.format_edit.specs.Formatted.{character_at, Gives, Formatted};

use crate::fault::FormatFault;
use crate::format::{Descriptor, Format, Part};
use lexer::bare_bytes;
use meaning::number::number;
use std::alloc::{AllocError, Global};

/// The most items that one pass of a format has when repeats are written out.
const MOST_ITEMS: u64 = 65_536;

/// How many levels of parentheses a format has at most: 16 of groups in the outer ones.
const MOST_LEVELS: u8 = 17;

/// How many digits stand at the front of a text.
fn digit_count(text: &[u8]) -> usize
    ensures { result ≡ prefix_len is_digit text.now }
{
    text.iter().take_while(|c| c.is_ascii_digit()).count()
}

/// Splits a text behind the digits at its front.
fn split_digits(text: &[u8]) -> (&[u8], &[u8])
    ensures { (result.0.now, result.1.now) ≡ run is_digit text.now }
{
    let count = digit_count(text);
    text.split_at(count)
}

/// The number that digits spell, where it is 1 to 9999.
#[tactic(auto, unfolding(crate::specs::Formatted::counted))]
fn number_in(digits: &[u8]) -> Option<u16>
    ensures { result ≡ counted (number_of digits.now) }
{
    let number = number(digits);
    if 1 <= number && number <= 9999 {
        Some(number as u16)
    } else {
        None
    }
}

/// The count that digits before a letter spell: 1 where there are none.
#[tactic(auto, unfolding(crate::specs::Formatted::counted))]
fn count(digits: &[u8]) -> Option<u16>
    ensures { result ≡ counted (count_in digits.now) }
{
    if digits.is_empty() {
        return Some(1);
    }
    number_in(digits)
}

/// The number that digits behind a point spell, where there are some and it is at most 9999.
#[tactic(auto, unfolding(meaning::specs::Reading::when))]
fn least_in(digits: &[u8]) -> Option<u16>
    ensures { result ≡ when (is_least digits.now) (Some (number_of digits.now)) }
{
    if digits.is_empty() {
        return None;
    }
    let number = number(digits);
    if number <= 9999 {
        Some(number as u16)
    } else {
        None
    }
}

/// What stands behind a character at the front.
#[tactic(auto, unfolding(meaning::specs::Reading::after, meaning::specs::Reading::when))]
fn behind(character: u8, text: &[u8]) -> Option<&[u8]>
    ensures { option_copied result ≡ after (character ∷ []) text.now }
{
    let (first, rest) = text.split_first()?;
    if character == *first {
        Some(rest)
    } else {
        None
    }
}

/// How many digits are written at least: those behind a point, or 1 where there is none.
#[tactic(auto, unfolding(meaning::specs::Formats::least_at, meaning::specs::Reading::either, meaning::specs::Reading::when))]
fn least_at(text: &[u8]) -> Option<(u16, &[u8])>
    ensures { option_map (λ x. (x.0, x.1.now)) result ≡ least_at text.now }
{
    match behind(b'.', text) {
        None => Some((1, text)),
        Some(rest) => {
            let (digits, rest) = split_digits(rest);
            let least = least_in(digits)?;
            Some((least, rest))
        }
    }
}

/// The width behind an I, and what follows a point.
#[tactic(auto, unfolding(crate::specs::Formatted::counted, meaning::specs::Formats::integer_at, meaning::specs::Reading::when))]
fn integer_at(text: &[u8]) -> Option<(Descriptor, &[u8])>
    ensures { option_map (λ x. (descriptor_of x.0, x.1.now)) result ≡ integer_at text.now }
{
    let (digits, rest) = split_digits(text);
    let width = number_in(digits)?;
    let (least, rest) = least_at(rest)?;
    Some((Descriptor::Integer { width, least }, rest))
}

/// The width behind an L.
#[tactic(auto, unfolding(crate::specs::Formatted::counted, meaning::specs::Formats::logical_at, meaning::specs::Reading::when))]
fn logical_at(text: &[u8]) -> Option<(Descriptor, &[u8])>
    ensures { option_map (λ x. (descriptor_of x.0, x.1.now)) result ≡ logical_at text.now }
{
    let (digits, rest) = split_digits(text);
    let width = number_in(digits)?;
    Some((Descriptor::Logical(width), rest))
}

/// The next character inside apostrophes, a doubled apostrophe being one, and what stands behind
/// it.
#[tactic(auto, unfolding(crate::specs::Formatted::character_at, meaning::specs::Reading::after, meaning::specs::Reading::when))]
fn character_at(text: &[u8]) -> Option<(u8, &[u8])>
    ensures { option_map (λ x. (x.0, x.1.now)) result ≡ character_at text.now }
{
    let (first, rest) = text.split_first()?;
    if *first != b'\'' {
        return Some((*first, rest));
    }
    let next = behind(b'\'', rest)?;
    Some((b'\'', next))
}

/// The characters up to the apostrophe that ends them, which isn't doubled.
fn quoted_at(alloc: Global, text: &[u8]) -> Result<(Vec<u8>, &[u8]), FormatFault>
    ensures { Gives (λ x. (x.0.items, x.1.now)) result (quoted_at text.now) }
{
    let mut characters = Vec::new(alloc);
    let mut rest = text;
    while let Some((character, next)) = character_at(rest) {
        characters.push(character)?;
        rest = next;
    }
    match behind(b'\'', rest) {
        None => Err(FormatFault::Broken),
        Some(rest) => Ok((characters, rest)),
    }
}

/// A text between apostrophes, behind the first.
#[tactic(auto, unfolding(meaning::specs::Formats::characters_at))]
fn characters_at(alloc: Global, text: &[u8]) -> Result<(Part, &[u8]), FormatFault>
    ensures { Gives (λ x. (part_of x.0, x.1.now)) result (characters_at text.now) }
{
    let (characters, rest) = quoted_at(alloc, text)?;
    Ok((Part::Single(1, Descriptor::Characters(characters)), rest))
}

/// A descriptor so many times.
fn times_read(repeat: u16, read: Option<(Descriptor, &[u8])>) -> Result<(Part, &[u8]), FormatFault>
    ensures { Gives (λ x. (part_of x.0, x.1.now)) result
        (times_read repeat (option_map (λ x. (descriptor_of x.0, x.1.now)) read.entry)) }
{
    match read {
        None => Err(FormatFault::Broken),
        Some((descriptor, rest)) => Ok((Part::Single(repeat, descriptor), rest)),
    }
}

/// The parts of a group behind its opening parenthesis, and the closing one.
#[cycle(reading)]
#[tactic(auto, unfolding(meaning::specs::Formats::group_at))]
fn group_at(
    alloc: Global,
    levels: u8,
    repeat: u16,
    text: &[u8],
) -> Result<(Part, &[u8]), FormatFault>
    ensures { Gives (λ x. (part_of x.0, x.1.now)) result
        (group_at (parts_in levels) repeat text.now) }
{
    let (parts, rest) = parts_in(alloc, levels, text)?;
    match behind(b')', rest) {
        None => Err(FormatFault::Broken),
        Some(rest) => Ok((Part::Group(repeat, parts), rest)),
    }
}

/// The letter of a descriptor or the parenthesis of a group behind its count, and what belongs to
/// it.
#[cycle(reading)]
#[tactic(auto, unfolding(meaning::specs::Formats::behind_count))]
fn behind_count(
    alloc: Global,
    levels: u8,
    count: u16,
    text: &[u8],
) -> Result<(Part, &[u8]), FormatFault>
    ensures { Gives (λ x. (part_of x.0, x.1.now)) result
        (behind_count (parts_in levels) count text.now) }
{
    let Some((letter, rest)) = text.split_first() else {
        return Err(FormatFault::Broken);
    };
    match *letter {
        b'X' => Ok((Part::Single(1, Descriptor::Skip(count)), rest)),
        b'I' => times_read(count, integer_at(rest)),
        b'L' => times_read(count, logical_at(rest)),
        b'(' => group_at(alloc, levels, count, rest),
        _ => Err(FormatFault::Broken),
    }
}

/// A part that begins with a count, or with what a count stands before.
#[cycle(reading)]
#[tactic(auto, unfolding(crate::specs::Formatted::counted, meaning::specs::Formats::counted_at, meaning::specs::Reading::when))]
fn counted_at(alloc: Global, levels: u8, text: &[u8]) -> Result<(Part, &[u8]), FormatFault>
    ensures { Gives (λ x. (part_of x.0, x.1.now)) result (counted_at (parts_in levels) text.now) }
{
    let (digits, rest) = split_digits(text);
    let Some(count) = count(digits) else {
        return Err(FormatFault::Broken);
    };
    behind_count(alloc, levels, count, rest)
}

/// The part at the front of a text, whose groups have so many levels of parentheses at most.
#[cycle(reading)]
#[tactic(auto, unfolding(meaning::specs::Formats::part_at))]
fn part_at(alloc: Global, levels: u8, text: &[u8]) -> Result<(Part, &[u8]), FormatFault>
    ensures { Gives (λ x. (part_of x.0, x.1.now)) result (part_at (parts_in levels) text.now) }
{
    let Some((first, rest)) = text.split_first() else {
        return Err(FormatFault::Broken);
    };
    match *first {
        b'\'' => characters_at(alloc, rest),
        b'/' => Ok((Part::Single(1, Descriptor::Slash), rest)),
        b':' => Ok((Part::Single(1, Descriptor::Colon), rest)),
        _ => counted_at(alloc, levels, text),
    }
}

/// Parts in so many levels of parentheses, one at least.
#[cycle(reading)]
fn parts_in(alloc: Global, levels: u8, text: &[u8]) -> Result<(Vec<Part>, &[u8]), FormatFault>
    ensures { Gives (λ x. (parts_of x.0.items, x.1.now)) result (parts_in levels text.now) }
{
    if levels == 0 {
        return Err(FormatFault::Broken);
    }
    let mut parts = Vec::new(alloc);
    let mut rest = text;
    // Each part has a character at least.
    let most = text.len() + 1;
    for _ in 0..most {
        let (part, behind) = part_at(alloc, levels - 1, rest)?;
        let is_separator = is_separator(&part);
        parts.push(part)?;
        let Some(next) = next_at(is_separator, behind) else {
            return Ok((parts, behind));
        };
        rest = next;
    }
    Err(FormatFault::Broken)
}

/// Whether a part is a slash or a colon.
fn is_separator(part: &Part) -> bool
    ensures { result ≡ is_separator (part_of part.now) }
{
    match part {
        Part::Single(_, descriptor) => is_mark(descriptor),
        Part::Group(_, _) => false,
    }
}

/// Whether a descriptor is a slash or a colon.
fn is_mark(descriptor: &Descriptor) -> bool
    ensures { result ≡ marks (descriptor_of descriptor.now) }
{
    match descriptor {
        Descriptor::Slash => true,
        Descriptor::Colon => true,
        Descriptor::Integer { .. } => false,
        Descriptor::Logical(_) => false,
        Descriptor::Characters(_) => false,
        Descriptor::Skip(_) => false,
    }
}

/// Where the next part begins, if there is one: behind a comma, at a slash or a colon, or behind
/// one.
#[tactic(auto, unfolding(meaning::specs::Formats::next_at))]
fn next_at(behind_separator: bool, text: &[u8]) -> Option<&[u8]>
    ensures { option_copied result ≡ next_at behind_separator text.now }
{
    let (first, rest) = text.split_first()?;
    if *first == b',' {
        return Some(rest);
    }
    if *first == b'/' || *first == b':' || (behind_separator && *first != b')') {
        Some(text)
    } else {
        None
    }
}

/// How many items of a pass a part makes, or 2^64-1 where there are more.
#[cycle(items)]
fn items_of(part: &Part) -> u64
    ensures { result ≡ min (items_of (part_of part.now)) (2 ^ 64 - 1) }
{
    match part {
        Part::Single(repeat, _) => u64::from(*repeat),
        Part::Group(repeat, parts) => u64::from(*repeat).saturating_mul(items(parts)),
    }
}

/// How many items of a pass parts make, or 2^64-1 where there are more.
#[cycle(items)]
fn items(parts: &[Part]) -> u64
    ensures { result ≡ min (items (parts_of parts.now)) (2 ^ 64 - 1) }
{
    let mut sum: u64 = 0;
    for part in parts {
        sum = sum.saturating_add(items_of(part));
    }
    sum
}

/// Whether one pass has at most 65,536 items when repeats are written out.
fn is_short_pass(parts: &[Part]) -> bool
    ensures { result ≡ is_short_pass (parts_of parts.now) }
{
    items(parts) <= MOST_ITEMS
}

/// The text that a character constant stands for: of two apostrophes in it the second is left out
/// (4.8).
#[tactic(auto, unfolding(meaning::specs::Formats::single_behind, meaning::specs::Formats::undoubled))]
fn undouble(alloc: Global, text: &[u8]) -> Result<Vec<u8>, AllocError>
    ensures { IfOk result (λ v. v.items ≡ undoubled text.now) }
{
    let mut single = Vec::new(alloc);
    let mut pending = false;
    for &c in text {
        if pending && c == b'\'' {
            pending = false;
        } else {
            single.push(c)?;
            pending = c == b'\'';
        }
    }
    Ok(single)
}

/// What stands between the parentheses of a bare text.
#[tactic(auto, using(meaning::proofs::Readers::before_is), unfolding(meaning::specs::Formats::between_parentheses))]
fn inside(bare: &[u8]) -> Option<&[u8]>
    ensures { option_map (λ x. x.now) result ≡ between_parentheses bare.now }
{
    behind(b'(', bare)?.strip_suffix(b")")
}

impl Format {
    /// Reads what stands between the parentheses of a FORMAT statement, its bare text (ANSI
    /// X3.9-1978, 13.1): edit descriptors and groups, or nothing. A comma may be left out beside a
    /// slash or a colon, counts, widths and numbers of positions are 1 to 9999, groups nest at most
    /// 16 deep, and one pass has at most 65,536 items. `Broken` where it is no format, `Memory`
    /// where a growth was refused.
    pub fn read_inside(alloc: Global, text: &[u8]) -> Result<Format, FormatFault>
        ensures { Formatted result (descriptors_of text.now) }
    {
        if text.is_empty() {
            return Ok(Format {
                parts: Vec::new(alloc),
            });
        }
        let (parts, rest) = parts_in(alloc, MOST_LEVELS, text)?;
        if !rest.is_empty() {
            return Err(FormatFault::Broken);
        }
        if !is_short_pass(&parts) {
            return Err(FormatFault::Broken);
        }
        Ok(Format { parts })
    }

    /// Reads a format with its parentheses, in which blanks outside apostrophes have no meaning and
    /// lower case letters stand for upper case ones. `Broken` where it is no format, or more stands
    /// outside the parentheses; `Memory` where a growth was refused.
    #[tactic(auto, unfolding(meaning::specs::Formats::format_in))]
    pub fn read(alloc: Global, text: &[u8]) -> Result<Format, FormatFault>
        ensures { Formatted result (format_in text.now) }
    {
        let bare = bare_bytes(alloc, text)?;
        match inside(&bare) {
            Some(inner) => Format::read_inside(alloc, inner),
            None => Err(FormatFault::Broken),
        }
    }

    /// Reads the format in a character constant, of which this stands between the apostrophes: a
    /// format with its parentheses (ANSI X3.9-1978, 13.1.2). Faults are those of `read`.
    pub fn read_constant(alloc: Global, text: &[u8]) -> Result<Format, FormatFault>
        ensures { Formatted result (format_in (undoubled text.now)) }
    {
        let single = undouble(alloc, text)?;
        Format::read(alloc, &single)
    }
}
