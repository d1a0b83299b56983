//! What breaks a rule, as text: `X is REAL, by its first letter`, `label 10 stands at line 3 too`.

ghost use Rattle.std.specs.Prelude.{◌≡◌, ◌++◌, OnOk};
ghost use Rattle.std.specs.Fmt.{decimal};
ghost use Rattle.culprits.specs.Told.{told_at};
ghost use Rattle.culprits.specs.Texts.{given_text, miscounted_text, told_text, untyped_text};
ghost use Rattle.culprits.specs.Texts.{wanted_text};

use crate::culprit::{Culprit, Wanted};
use data_culprits::add_data_text;
use function_culprits::add_function_text;
use itoa::Buffer;
use list_culprits::add_list_text;
use name_culprits::add_name_text;
use number_culprits::add_number_text;
use output_culprits::add_output_text;
use size_culprits::add_size_text;
use std::alloc::AllocError;
use type_culprits::add_type_text;

/// Puts a text behind others.
fn add(bytes: &mut Vec<u8>, text: &str) -> Result<(), AllocError>
    ensures { OnOk result (bytes.new.items ≡ bytes.old.items ++ text.now) }
{
    bytes.extend_from_slice(text.as_bytes())
}

/// Puts a number.
fn add_number(bytes: &mut Vec<u8>, number: u32) -> Result<(), AllocError>
    ensures { OnOk result (bytes.new.items ≡ bytes.old.items ++ decimal number) }
{
    add(bytes, Buffer::new().format(number))
}

/// Puts a number.
fn add_count(bytes: &mut Vec<u8>, number: usize) -> Result<(), AllocError>
    ensures { OnOk result (bytes.new.items ≡ bytes.old.items ++ decimal number) }
{
    add(bytes, Buffer::new().format(number))
}

/// Why a name has no type.
fn untyped(without_letters: bool) -> &'static str
    ensures { result.now ≡ untyped_text without_letters }
{
    if without_letters {
        " has no type, and IMPLICIT NONE wants one"
    } else {
        " is REAL, by its first letter"
    }
}

/// Puts what is told of a label.
fn add_repeated(bytes: &mut Vec<u8>, label: u32, earlier: u32) -> Result<(), AllocError>
    ensures { OnOk result
        (bytes.new.items ≡ bytes.old.items
        ++ told_text (told_at (Culprit.Repeated label earlier))) }
{
    add(bytes, "label ")?;
    add_number(bytes, label)?;
    add(bytes, " stands at line ")?;
    add_number(bytes, earlier)?;
    add(bytes, " too")
}

/// Puts what a name wants.
fn add_wanted(bytes: &mut Vec<u8>, wanted: Wanted) -> Result<(), AllocError>
    ensures { OnOk result (bytes.new.items ≡ bytes.old.items ++ wanted_text wanted) }
{
    match wanted {
        Wanted::Subscripts(number) => {
            add_count(bytes, number)?;
            add(
                bytes,
                if number == 1 {
                    " subscript"
                } else {
                    " subscripts"
                },
            )
        }
        Wanted::Arguments(number) => {
            add_count(bytes, number)?;
            add(
                bytes,
                if number == 1 {
                    " argument"
                } else {
                    " arguments"
                },
            )
        }
        Wanted::ArgumentsOrMore(number) => {
            add_count(bytes, number)?;
            add(bytes, " arguments or more")
        }
    }
}

/// Puts what it has.
fn add_given(bytes: &mut Vec<u8>, given: Option<usize>) -> Result<(), AllocError>
    ensures { OnOk result (bytes.new.items ≡ bytes.old.items ++ given_text given) }
{
    match given {
        None => add(bytes, "none"),
        Some(number) => add_count(bytes, number),
    }
}

/// Puts a name that wants another number of subscripts or arguments.
fn add_miscounted(
    bytes: &mut Vec<u8>,
    name: &[u8],
    wanted: Wanted,
    given: Option<usize>,
) -> Result<(), AllocError>
    ensures { OnOk result
        (bytes.new.items ≡ bytes.old.items ++ miscounted_text name.now wanted given) }
{
    bytes.extend_from_slice(name)?;
    add(bytes, " wants ")?;
    add_wanted(bytes, wanted)?;
    add(bytes, " and has ")?;
    add_given(bytes, given)
}

/// Puts what breaks a rule behind a text, in the words of a message. The `AllocError` comes only
/// where a growth was refused, and leaves a part of it there.
pub fn add_text(bytes: &mut Vec<u8>, culprit: Culprit) -> Result<(), AllocError>
    ensures { OnOk result (bytes.new.items ≡ bytes.old.items ++ told_text (told_at culprit.entry)) }
{
    match culprit {
        Culprit::Repeated { label, earlier } => add_repeated(bytes, label, earlier),
        Culprit::Real {
            name,
            without_letters,
        } => {
            bytes.extend_from_slice(name)?;
            add(bytes, untyped(without_letters))
        }
        Culprit::Miscounted {
            name,
            wanted,
            given,
        } => add_miscounted(bytes, name, wanted, given),
        Culprit::Type { culprit } => add_type_text(bytes, culprit),
        Culprit::Number { culprit } => add_number_text(bytes, culprit),
        Culprit::Size { culprit } => add_size_text(bytes, culprit),
        Culprit::Name { culprit } => add_name_text(bytes, culprit),
        Culprit::Data { culprit } => add_data_text(bytes, culprit),
        Culprit::Output { culprit } => add_output_text(bytes, culprit),
        Culprit::Function { culprit } => add_function_text(bytes, culprit),
        Culprit::Unknown { name } => {
            bytes.extend_from_slice(name)?;
            add(bytes, " is neither an array nor a function")
        }
        Culprit::Listed { culprit } => add_list_text(bytes, culprit),
    }
}
