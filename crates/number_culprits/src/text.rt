//! What breaks the rule on integer constants and constant expressions, as text: `2147483648 is more
//! than 2147483647`.

ghost use Rattle.std.specs.Prelude.{◌≡◌, ◌++◌, OnOk};
ghost use Rattle.number_culprits.specs.Told.{told_at};
ghost use Rattle.number_culprits.specs.Texts.{said_of, told_text};

use crate::culprit::NumberCulprit;
use std::alloc::AllocError;

/// What is said of the constant or the name.
fn said(culprit: NumberCulprit) -> &'static str
    ensures { result.now ≡ said_of (told_at culprit.entry) }
{
    match culprit {
        NumberCulprit::Great { .. } => " is more than 2147483647",
        NumberCulprit::Unknown { .. } => " is no constant here",
        NumberCulprit::Referenced { .. } => " has parentheses, and a constant has none",
        NumberCulprit::Faulty { .. } => " has an expression without a value",
        NumberCulprit::Unbounded { .. } => " has a bound without a value",
    }
}

/// Puts what breaks the rule on integer constants and constant expressions behind a text, in the
/// words of a message. The `AllocError` comes only where a growth was refused, and leaves a part of
/// it there.
pub fn add_number_text(bytes: &mut Vec<u8>, culprit: NumberCulprit) -> Result<(), AllocError>
    ensures { OnOk result (bytes.new.items ≡ bytes.old.items ++ told_text (told_at culprit.entry)) }
{
    bytes.extend_from_slice(culprit.word())?;
    bytes.extend_from_slice(said(culprit).as_bytes())
}
