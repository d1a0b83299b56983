//! What breaks the rule on what names are, as text: `A gets bounds at line 3`.

ghost use Rattle.std.specs.Prelude.{◌≡◌, ◌++◌, OnOk};
ghost use Rattle.std.specs.Fmt.{decimal};
ghost use Rattle.name_culprits.specs.Told.{told_at};
ghost use Rattle.name_culprits.specs.Texts.{given_text, giving_text, rival_text, told_text};

use crate::culprit::{Giving, NameCulprit};
use itoa::Buffer;
use std::alloc::AllocError;

/// Puts a text behind others.
fn add(bytes: &mut Vec<u8>, text: &str) -> Result<(), AllocError>
    ensures { OnOk result (bytes.new.items ≡ bytes.old.items ++ text.now) }
{
    bytes.extend_from_slice(text.as_bytes())
}

/// Puts a number.
fn add_line(bytes: &mut Vec<u8>, line: u32) -> Result<(), AllocError>
    ensures { OnOk result (bytes.new.items ≡ bytes.old.items ++ decimal line) }
{
    add(bytes, Buffer::new().format(line))
}

/// What a name is given.
fn giving_text(giving: Giving) -> &'static str
    ensures { result.now ≡ giving_text giving }
{
    match giving {
        Giving::Typed => " gets a type at line ",
        Giving::Bounds => " gets bounds at line ",
        Giving::Value => " gets a value at line ",
        Giving::Expression => " is a statement function of line ",
        Giving::Either => " is an array or a statement function of line ",
    }
}

/// Puts a name, what it is given, and where.
fn add_given(bytes: &mut Vec<u8>, name: &[u8], giving: Giving, line: u32) -> Result<(), AllocError>
    ensures { OnOk result (bytes.new.items ≡ bytes.old.items ++ given_text name.now giving line) }
{
    bytes.extend_from_slice(name)?;
    add(bytes, giving_text(giving))?;
    add_line(bytes, line)
}

/// Puts a name and a text.
fn add_said(bytes: &mut Vec<u8>, name: &[u8], text: &str) -> Result<(), AllocError>
    ensures { OnOk result (bytes.new.items ≡ bytes.old.items ++ (name.now ++ text.now)) }
{
    bytes.extend_from_slice(name)?;
    add(bytes, text)
}

/// Puts the line of an IMPLICIT statement.
fn add_rival(bytes: &mut Vec<u8>, line: u32) -> Result<(), AllocError>
    ensures { OnOk result (bytes.new.items ≡ bytes.old.items ++ rival_text line) }
{
    add(bytes, "line ")?;
    add_line(bytes, line)?;
    add(bytes, " has IMPLICIT too")
}

/// Puts what breaks the rule on what names are behind a text, in the words of a message. The
/// `AllocError` comes only where a growth was refused, and leaves a part of it there.
pub fn add_name_text(bytes: &mut Vec<u8>, culprit: NameCulprit) -> Result<(), AllocError>
    ensures { OnOk result (bytes.new.items ≡ bytes.old.items ++ told_text (told_at culprit.entry)) }
{
    match culprit {
        NameCulprit::Given { name, giving, line } => add_given(bytes, name, giving, line),
        NameCulprit::Bare { name } => {
            add_said(
                bytes,
                name,
                " is a statement function and wants parentheses",
            )
        }
        NameCulprit::Referenced { name } => {
            add_said(bytes, name, " is a constant and has no parentheses")
        }
        NameCulprit::Set { name } => add_said(bytes, name, " is a constant and can't be set"),
        NameCulprit::Rival { line } => add_rival(bytes, line),
    }
}
