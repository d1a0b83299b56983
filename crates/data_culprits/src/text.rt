//! What breaks the rule on DATA statements, as text: `L is LOGICAL, and 5 is INTEGER`.

ghost use Rattle.std.specs.Prelude.{◌≡◌, ◌++◌, codes, OnOk};
ghost use Rattle.std.specs.Fmt.{signed_decimal};
ghost use Rattle.type_culprits.specs.Words.{truth_word as truth_word_of};
ghost use Rattle.data_culprits.specs.Told.{told_at};
ghost use Rattle.data_culprits.specs.Texts.{mistyped_text, outside_text, told_text};

use crate::culprit::DataCulprit;
use itoa::Buffer;
use meaning::ending::Value;
use number_culprits::add_number_text;
use std::alloc::AllocError;

/// Puts a text behind others.
fn add(bytes: &mut Vec<u8>, text: &str) -> Result<(), AllocError>
    ensures { OnOk result (bytes.new.items ≡ bytes.old.items ++ text.now) }
{
    bytes.extend_from_slice(text.as_bytes())
}

/// Puts three texts.
fn add_all(bytes: &mut Vec<u8>, front: &str, middle: &str, back: &str) -> Result<(), AllocError>
    ensures { OnOk result
        (bytes.new.items ≡ bytes.old.items ++ (front.now ++ (middle.now ++ back.now))) }
{
    add(bytes, front)?;
    add(bytes, middle)?;
    add(bytes, back)
}

/// Puts a number between texts.
fn add_integer(bytes: &mut Vec<u8>, front: &str, number: i32, back: &str) -> Result<(), AllocError>
    ensures { OnOk result
        (bytes.new.items ≡ bytes.old.items ++ (front.now ++ (signed_decimal number ++ back.now))) }
{
    add_all(bytes, front, Buffer::new().format(number), back)
}

/// Puts the bounds of a dimension.
fn add_bounds(bytes: &mut Vec<u8>, lower: i32, upper: i32) -> Result<(), AllocError>
    ensures { OnOk result
        (bytes.new.items
        ≡ bytes.old.items ++ (signed_decimal lower ++ (codes " TO " ++ signed_decimal upper))) }
{
    add(bytes, Buffer::new().format(lower))?;
    add(bytes, " TO ")?;
    add(bytes, Buffer::new().format(upper))
}

/// Puts a name and what is said of it.
fn add_name(bytes: &mut Vec<u8>, name: &[u8], text: &str) -> Result<(), AllocError>
    ensures { OnOk result (bytes.new.items ≡ bytes.old.items ++ (name.now ++ text.now)) }
{
    bytes.extend_from_slice(name)?;
    add(bytes, text)
}

/// Puts a text and a name.
fn add_behind(bytes: &mut Vec<u8>, text: &str, name: &[u8]) -> Result<(), AllocError>
    ensures { OnOk result (bytes.new.items ≡ bytes.old.items ++ (text.now ++ name.now)) }
{
    add(bytes, text)?;
    bytes.extend_from_slice(name)
}

/// Puts a subscript and the bounds that it is outside of.
fn add_outside(
    bytes: &mut Vec<u8>,
    subscript: i32,
    lower: i32,
    upper: i32,
) -> Result<(), AllocError>
    ensures { OnOk result
        (bytes.new.items ≡ bytes.old.items ++ outside_text subscript lower upper) }
{
    add_integer(bytes, " has the subscript ", subscript, ", and bounds ")?;
    add_bounds(bytes, lower, upper)
}

/// How a logical constant is written.
fn truth_word(value: bool) -> &'static str
    ensures { result.now ≡ truth_word_of value }
{
    if value { ".TRUE." } else { ".FALSE." }
}

/// Puts a value and its type, where another one is wanted.
fn add_mistyped(bytes: &mut Vec<u8>, value: Value) -> Result<(), AllocError>
    ensures { OnOk result (bytes.new.items ≡ bytes.old.items ++ mistyped_text value) }
{
    match value {
        Value::Int(number) => add_integer(bytes, " is LOGICAL, and ", number, " is INTEGER"),
        Value::Bool(truth) => {
            add_all(bytes, " is INTEGER, and ", truth_word(truth), " is LOGICAL")
        }
    }
}

/// Puts what breaks the rule on DATA statements behind a text, in the words of a message. The
/// `AllocError` comes only where a growth was refused, and leaves a part of it there.
pub fn add_data_text(bytes: &mut Vec<u8>, culprit: DataCulprit) -> Result<(), AllocError>
    ensures { OnOk result (bytes.new.items ≡ bytes.old.items ++ told_text (told_at culprit.entry)) }
{
    match culprit {
        DataCulprit::Item { word } => add_name(bytes, word, " can't be given a value by DATA"),
        DataCulprit::Number { culprit } => add_number_text(bytes, culprit),
        DataCulprit::Outside {
            name,
            subscript,
            lower,
            upper,
        } => {
            bytes.extend_from_slice(name)?;
            add_outside(bytes, subscript, lower, upper)
        }
        DataCulprit::Unmatched { name } => {
            add_name(
                bytes,
                name,
                " has another number of subscripts than dimensions",
            )
        }
        DataCulprit::Counter { name } => add_name(bytes, name, " is no INTEGER variable"),
        DataCulprit::Trips { name } => add_name(bytes, name, " gets no value from its limits"),
        DataCulprit::Count { text } => add_name(bytes, text, " is no repeat count"),
        DataCulprit::Mistyped { name, value } => {
            bytes.extend_from_slice(name)?;
            add_mistyped(bytes, value)
        }
        DataCulprit::Unserved { name } => add_behind(bytes, "no value is left for ", name),
        DataCulprit::Again { name } => add_name(bytes, name, " is given a value twice"),
        DataCulprit::LeftOver => add(bytes, "a value is left over"),
    }
}
