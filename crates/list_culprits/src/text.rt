//! What breaks a rule on lists, as text: `label 30 stands nowhere`, `I is the DO variable of line
//! 12`.

ghost use Rattle.std.specs.Prelude.{◌≡◌, ◌++◌, OnOk};
ghost use Rattle.std.specs.Fmt.{decimal};
ghost use Rattle.list_culprits.specs.Told.{told_at};
ghost use Rattle.list_culprits.specs.Texts.{closed_text, kind_text, label_text, told_text};

use crate::culprit::{Kind, ListCulprit};
use itoa::Buffer;
use std::alloc::AllocError;

/// Puts a text behind others.
fn add(bytes: &mut Vec<u8>, text: &str) -> Result<(), AllocError>
    ensures { OnOk result (bytes.new.items ≡ bytes.old.items ++ text.now) }
{
    bytes.extend_from_slice(text.as_bytes())
}

/// Puts a number.
fn add_line(bytes: &mut Vec<u8>, line: u32) -> Result<(), AllocError>
    ensures { OnOk result (bytes.new.items ≡ bytes.old.items ++ decimal line) }
{
    add(bytes, Buffer::new().format(line))
}

/// Puts a label and what is said of it.
fn add_label(bytes: &mut Vec<u8>, label: &[u8], text: &str) -> Result<(), AllocError>
    ensures { OnOk result (bytes.new.items ≡ bytes.old.items ++ label_text label.now text.now) }
{
    add(bytes, "label ")?;
    bytes.extend_from_slice(label)?;
    add(bytes, text)
}

/// A statement of a kind.
fn text_of(kind: Kind) -> &'static str
    ensures { result.now ≡ kind_text kind }
{
    match kind {
        Kind::Program => "a PROGRAM statement",
        Kind::Implicit => "an IMPLICIT statement",
        Kind::Parameter => "a PARAMETER statement",
        Kind::Integer => "an INTEGER statement",
        Kind::Logical => "a LOGICAL statement",
        Kind::Dimension => "a DIMENSION statement",
        Kind::Data => "a DATA statement",
        Kind::Format => "a FORMAT statement",
        Kind::StatementFunction => "a statement function",
        Kind::ElseIf => "an ELSE IF statement",
        Kind::Else => "an ELSE statement",
    }
}

/// Puts a label and the kind of statement that it is of.
fn add_closed(bytes: &mut Vec<u8>, label: &[u8], kind: Kind) -> Result<(), AllocError>
    ensures { OnOk result (bytes.new.items ≡ bytes.old.items ++ closed_text label.now kind) }
{
    add_label(bytes, label, " is that of ")?;
    add(bytes, text_of(kind))
}

/// Puts what breaks a rule on lists behind a text, in the words of a message. The `AllocError`
/// comes only where a growth was refused, and leaves a part of it there.
pub fn add_list_text(bytes: &mut Vec<u8>, culprit: ListCulprit) -> Result<(), AllocError>
    ensures { OnOk result (bytes.new.items ≡ bytes.old.items ++ told_text (told_at culprit.entry)) }
{
    match culprit {
        ListCulprit::Nowhere { label } => add_label(bytes, label, " stands nowhere"),
        ListCulprit::Closed { label, kind } => add_closed(bytes, label, kind),
        ListCulprit::InRange { label, line } => {
            add_label(bytes, label, " stands in the DO range that begins at line ")?;
            add_line(bytes, line)
        }
        ListCulprit::InBlock { label, line } => {
            add_label(bytes, label, " stands in the block that begins at line ")?;
            add_line(bytes, line)
        }
        ListCulprit::Apart { label } => {
            add_label(bytes, label, " stands where no transfer from here may go")
        }
        ListCulprit::Shared { label } => {
            add_label(bytes, label, " stands at more than one statement")
        }
        ListCulprit::Uncounted { name } => {
            bytes.extend_from_slice(name)?;
            add(bytes, " is no INTEGER variable")
        }
        ListCulprit::Counting { name, line } => {
            bytes.extend_from_slice(name)?;
            add(bytes, " is the DO variable of line ")?;
            add_line(bytes, line)
        }
        ListCulprit::Implied { name } => {
            bytes.extend_from_slice(name)?;
            add(bytes, " is the variable of an implied DO around it")
        }
    }
}
