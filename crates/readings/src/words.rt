//! As what a statement is read, in words.

ghost use Rattle.std.specs.Prelude.{◌≡◌, ◌++◌, OnOk};
ghost use Rattle.readings.specs.Readings.{form_text, may_stand as may_stand_under, name_text};
ghost use Rattle.readings.specs.Readings.{reading_text, text_under as text_there};

use crate::kinds::Reading;
use meaning::syntax::Kind;
use std::alloc::AllocError;

/// What a statement of this kind is called; `no statement` for a text that is none.
fn name_of(kind: Kind) -> &'static str
    ensures { result.now ≡ name_text kind }
{
    match kind {
        Kind::Assignment => "an assignment",
        Kind::Write => "a WRITE statement",
        Kind::Format => "a FORMAT statement",
        Kind::Do => "a DO statement",
        Kind::DoWhile => "a DO WHILE statement",
        Kind::EndDo => "an END DO statement",
        Kind::Continue => "a CONTINUE statement",
        Kind::Integer => "an INTEGER statement",
        Kind::End => "an END statement",
        Kind::Program => "a PROGRAM statement",
        Kind::Implicit => "an IMPLICIT statement",
        Kind::ImplicitNone => "an IMPLICIT NONE statement",
        Kind::Logical => "a LOGICAL statement",
        Kind::Dimension => "a DIMENSION statement",
        Kind::Parameter => "a PARAMETER statement",
        Kind::Data => "a DATA statement",
        Kind::GoTo => "a GO TO statement",
        Kind::ComputedGoTo => "a computed GO TO statement",
        Kind::ArithmeticIf => "an arithmetic IF statement",
        Kind::LogicalIf => "a logical IF statement",
        Kind::IfThen => "a block IF statement",
        Kind::ElseIf => "an ELSE IF statement",
        Kind::Else => "an ELSE statement",
        Kind::EndIf => "an END IF statement",
        Kind::Stop => "a STOP statement",
        Kind::Print => "a PRINT statement",
        Kind::Other => "no statement",
    }
}

/// The form that such a statement has (ANSI X3.9-1978, chapters 8 to 15).
fn form_of(kind: Kind) -> &'static str
    ensures { result.now ≡ form_text kind }
{
    match kind {
        Kind::Assignment => ", which is a variable or an element, = and an expression",
        Kind::Write => ", which is WRITE (unit, format) and a list or nothing",
        Kind::Format => ", which is FORMAT (text) with paired parentheses",
        Kind::Do => ", which is DO [label] variable = limit, limit [, step]",
        Kind::DoWhile => ", which is DO [label] WHILE (expression)",
        Kind::EndDo => ", which is END DO and nothing more",
        Kind::Continue => ", which is CONTINUE and nothing more",
        Kind::Integer => ", which is INTEGER and names, or names (bounds)",
        Kind::End => ", which is END and nothing more",
        Kind::Program => ", which is PROGRAM and a name",
        Kind::Implicit => ", which is IMPLICIT and types (letters)",
        Kind::ImplicitNone => ", which is IMPLICIT NONE and nothing more",
        Kind::Logical => ", which is LOGICAL and names, or names (bounds)",
        Kind::Dimension => ", which is DIMENSION and names (bounds)",
        Kind::Parameter => ", which is PARAMETER (name = expression, ..)",
        Kind::Data => ", which is DATA and sets of the form list/values/",
        Kind::GoTo => ", which is GO TO and a label",
        Kind::ComputedGoTo => ", which is GO TO (labels), expression",
        Kind::ArithmeticIf => ", which is IF (expression) and three labels",
        Kind::LogicalIf => ", which is IF (expression) and a statement",
        Kind::IfThen => ", which is IF (expression) THEN",
        Kind::ElseIf => ", which is ELSE IF (expression) THEN",
        Kind::Else => ", which is ELSE and nothing more",
        Kind::EndIf => ", which is END IF and nothing more",
        Kind::Stop => ", which is STOP [1 to 5 digits or a constant]",
        Kind::Print => ", which is PRINT format [, list]",
        Kind::Other => ": no = stands outside parentheses, and none begins so",
    }
}

/// Whether a statement of this kind may stand under a logical IF (ANSI X3.9-1978, 11.5), or is
/// none.
fn may_stand(kind: Kind) -> bool
    ensures { result ≡ may_stand_under kind }
{
    matches!(
        kind,
        Kind::Assignment
            | Kind::Write
            | Kind::Print
            | Kind::Continue
            | Kind::GoTo
            | Kind::ComputedGoTo
            | Kind::ArithmeticIf
            | Kind::Stop
            | Kind::Other
    )
}

/// What is said of a statement of this kind under a logical IF.
fn text_under(kind: Kind) -> &'static str
    ensures { result.now ≡ text_there kind }
{
    if may_stand(kind) {
        form_of(kind)
    } else {
        ", which may not stand there"
    }
}

/// Puts a text behind others.
fn add(bytes: &mut Vec<u8>, text: &str) -> Result<(), AllocError>
    ensures { OnOk result (bytes.new.items ≡ bytes.old.items ++ text.now) }
{
    bytes.extend_from_slice(text.as_bytes())
}

/// Puts as what a statement is read behind other bytes, with the form that such a statement has;
/// of a logical IF the statement under it.
///
/// # Errors
///
/// `AllocError` only where a growth was refused; some of the text may stand there then.
pub fn add_reading(bytes: &mut Vec<u8>, reading: Reading) -> Result<(), AllocError>
    ensures { OnOk result (bytes.new.items ≡ bytes.old.items ++ reading_text reading) }
{
    match reading {
        Reading::Alone(kind) => {
            add(bytes, "read as ")?;
            add(bytes, name_of(kind))?;
            add(bytes, form_of(kind))
        }
        Reading::Under(kind) => {
            add(bytes, "read as IF (expression) and ")?;
            add(bytes, name_of(kind))?;
            add(bytes, text_under(kind))
        }
    }
}
