//! What breaks the rule on units and formats, as text: `label 10 is that of no FORMAT statement`.

ghost use Rattle.std.specs.Prelude.{◌≡◌, ◌++◌, OnOk};
ghost use Rattle.output_culprits.specs.Told.{told_at};
ghost use Rattle.output_culprits.specs.Texts.{constant_text, label_text, piece_text, told_text};

use crate::culprit::OutputCulprit;
use std::alloc::AllocError;

/// Puts a text behind others.
fn add(bytes: &mut Vec<u8>, text: &str) -> Result<(), AllocError>
    ensures { OnOk result (bytes.new.items ≡ bytes.old.items ++ text.now) }
{
    bytes.extend_from_slice(text.as_bytes())
}

/// Puts a label and what is said of it.
fn add_label(bytes: &mut Vec<u8>, label: &[u8], text: &str) -> Result<(), AllocError>
    ensures { OnOk result (bytes.new.items ≡ bytes.old.items ++ label_text label.now text.now) }
{
    add(bytes, "label ")?;
    bytes.extend_from_slice(label)?;
    add(bytes, text)
}

/// Puts what stands between two commas.
fn add_piece(bytes: &mut Vec<u8>, text: &[u8]) -> Result<(), AllocError>
    ensures { OnOk result (bytes.new.items ≡ bytes.old.items ++ piece_text text.now) }
{
    if text.is_empty() {
        return add(bytes, "an item is missing beside a comma");
    }
    bytes.extend_from_slice(text)?;
    add(bytes, " can't stand in a format")
}

/// Puts a character constant.
fn add_constant(bytes: &mut Vec<u8>, text: &[u8]) -> Result<(), AllocError>
    ensures { OnOk result (bytes.new.items ≡ bytes.old.items ++ constant_text text.now) }
{
    add(bytes, "'")?;
    bytes.extend_from_slice(text)?;
    add(bytes, "' is no format")
}

/// Puts what breaks the rule on units and formats behind a text, in the words of a message. The
/// `AllocError` comes only where a growth was refused, and leaves a part of it there.
pub fn add_output_text(bytes: &mut Vec<u8>, culprit: OutputCulprit) -> Result<(), AllocError>
    ensures { OnOk result (bytes.new.items ≡ bytes.old.items ++ told_text (told_at culprit.entry)) }
{
    match culprit {
        OutputCulprit::Unit { .. } => add(bytes, "the unit is neither 6 nor *"),
        OutputCulprit::Missing { label } => {
            add_label(bytes, label, " is that of no FORMAT statement")
        }
        OutputCulprit::Unlabelled => add(bytes, "the FORMAT statement has no label"),
        OutputCulprit::Piece { text } => add_piece(bytes, text),
        OutputCulprit::Constant { text } => add_constant(bytes, text),
    }
}
