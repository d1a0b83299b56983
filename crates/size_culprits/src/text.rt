//! What breaks the rule on the sizes of arrays, as text: `A has 20000000 elements, 16777216 at
//! most`.

ghost use Rattle.std.specs.Prelude.{◌≡◌, ◌++◌, OnOk};
ghost use Rattle.std.specs.Fmt.{decimal, signed_decimal};
ghost use Rattle.size_culprits.specs.Told.{told_at};
ghost use Rattle.size_culprits.specs.Texts.{before_text, count_text, elements_text, reversed_text};
ghost use Rattle.size_culprits.specs.Texts.{told_text};

use crate::culprit::SizeCulprit;
use itoa::Buffer;
use std::alloc::AllocError;

/// Puts a text behind others.
fn add(bytes: &mut Vec<u8>, text: &str) -> Result<(), AllocError>
    ensures { OnOk result (bytes.new.items ≡ bytes.old.items ++ text.now) }
{
    bytes.extend_from_slice(text.as_bytes())
}

/// Puts a number.
fn add_number(bytes: &mut Vec<u8>, number: usize) -> Result<(), AllocError>
    ensures { OnOk result (bytes.new.items ≡ bytes.old.items ++ decimal number) }
{
    add(bytes, Buffer::new().format(number))
}

/// Puts a bound.
fn add_bound(bytes: &mut Vec<u8>, bound: i32) -> Result<(), AllocError>
    ensures { OnOk result (bytes.new.items ≡ bytes.old.items ++ signed_decimal bound) }
{
    add(bytes, Buffer::new().format(bound))
}

/// Puts how many elements there are.
fn add_count(bytes: &mut Vec<u8>, count: u64) -> Result<(), AllocError>
    ensures { OnOk result (bytes.new.items ≡ bytes.old.items ++ count_text count) }
{
    if count == 18_446_744_073_709_551_615 {
        add(bytes, "more than 18446744073709551614")
    } else {
        add(bytes, Buffer::new().format(count))
    }
}

/// Puts how many elements stand before, if some do.
fn add_before(bytes: &mut Vec<u8>, before: u64) -> Result<(), AllocError>
    ensures { OnOk result (bytes.new.items ≡ bytes.old.items ++ before_text before) }
{
    if before == 0 {
        Ok(())
    } else {
        add(bytes, " with ")?;
        add_count(bytes, before)?;
        add(bytes, " before it")
    }
}

/// Puts what is told of the bounds of a dimension.
fn add_reversed(bytes: &mut Vec<u8>, lower: i32, upper: i32) -> Result<(), AllocError>
    ensures { OnOk result (bytes.new.items ≡ bytes.old.items ++ reversed_text lower upper) }
{
    add(bytes, " has bounds ")?;
    add_bound(bytes, lower)?;
    add(bytes, " TO ")?;
    add_bound(bytes, upper)
}

/// Puts what is told of the number of elements.
fn add_elements(bytes: &mut Vec<u8>, own: u64, before: u64) -> Result<(), AllocError>
    ensures { OnOk result (bytes.new.items ≡ bytes.old.items ++ elements_text own before) }
{
    add(bytes, " has ")?;
    add_count(bytes, own)?;
    add(bytes, " elements")?;
    add_before(bytes, before)?;
    add(bytes, ", 16777216 at most")
}

/// Puts what breaks the rule on the sizes of arrays behind a text, in the words of a message. The
/// `AllocError` comes only where a growth was refused, and leaves a part of it there.
pub fn add_size_text(bytes: &mut Vec<u8>, culprit: SizeCulprit) -> Result<(), AllocError>
    ensures { OnOk result (bytes.new.items ≡ bytes.old.items ++ told_text (told_at culprit.entry)) }
{
    bytes.extend_from_slice(culprit.word())?;
    match culprit {
        SizeCulprit::Dimensions { number, .. } => {
            add(bytes, " has ")?;
            add_number(bytes, number)?;
            add(bytes, " dimensions, 7 at most")
        }
        SizeCulprit::Reversed { lower, upper, .. } => add_reversed(bytes, lower, upper),
        SizeCulprit::Elements { own, before, .. } => add_elements(bytes, own, before),
    }
}
