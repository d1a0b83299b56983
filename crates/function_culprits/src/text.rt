//! What breaks the rule on statement functions, as text: `M refers to itself`.

ghost use Rattle.std.specs.Prelude.{◌≡◌, ◌++◌, OnOk};
ghost use Rattle.function_culprits.specs.Told.{told_at};
ghost use Rattle.function_culprits.specs.Texts.{said_of, told_text};

use crate::culprit::FunctionCulprit;
use std::alloc::AllocError;

/// What is said of the name.
fn said(culprit: FunctionCulprit) -> &'static str
    ensures { result.now ≡ said_of (told_at culprit.entry) }
{
    match culprit {
        FunctionCulprit::Late { .. } => " is no array, and it is too late for a statement function",
        FunctionCulprit::Conditional { .. } => {
            " is no array, and a logical IF has no statement function"
        }
        FunctionCulprit::Crowded { .. } => " has more than 16 dummy arguments",
        FunctionCulprit::Unnamed { .. } => " has a dummy argument that is no name",
        FunctionCulprit::Doubled { .. } => " is a dummy argument twice",
        FunctionCulprit::Called { .. } => " is a dummy argument and no function",
        FunctionCulprit::Recursive { .. } => " refers to itself",
        FunctionCulprit::Later { .. } => " is a statement function that stands later",
    }
}

/// Puts what breaks the rule on statement functions behind a text, in the words of a message. The
/// `AllocError` comes only where a growth was refused, and leaves a part of it there.
pub fn add_function_text(bytes: &mut Vec<u8>, culprit: FunctionCulprit) -> Result<(), AllocError>
    ensures { OnOk result (bytes.new.items ≡ bytes.old.items ++ told_text (told_at culprit.entry)) }
{
    bytes.extend_from_slice(culprit.word())?;
    bytes.extend_from_slice(said(culprit).as_bytes())
}
