//! Which statement a bare text can be.

ghost use Rattle.std.specs.Prelude.{◌≡◌};
ghost use Rattle.std.specs.List.{prefix_len};
ghost use Rattle.meaning.specs.Characters.{is_digit};
ghost use Rattle.meaning.specs.Kinds.{kind_of, begins_with_digit as digit_first};
ghost use Rattle.meaning.specs.Kinds.{behind_digits as digits_left, behind_comma as comma_left};
ghost use Rattle.meaning.specs.Kinds.{begins_while as while_first, kind_by_keyword as keyword_kind};
ghost use Rattle.meaning.specs.Kinds.{kind_by_control_keyword as control_kind};
ghost use Rattle.meaning.specs.Kinds.{kind_outside_if as other_kind, kind_behind_if as if_kind};

use crate::scan::{begins, behind_closing_parenthesis, has_comma_behind, has_equals_sign};
use meaning::statement::Bare;
use meaning::syntax::Kind;

/// How many digits stand at the front.
fn digits_len(text: &[u8]) -> usize
    ensures { result ≡ prefix_len is_digit text.now }
{
    text.iter().take_while(|c| c.is_ascii_digit()).count()
}

/// What stands behind digits.
#[tactic(auto, using(crate::proofs::Scans::digits_dropped, crate::proofs::Scans::digits_within))]
fn behind_digits(text: &[u8]) -> &[u8]
    ensures { result.now ≡ digits_left text.now }
{
    text.split_at(digits_len(text)).1
}

/// What stands behind a comma, or the whole where none does.
fn behind_comma(text: &[u8]) -> &[u8]
    ensures { result.now ≡ comma_left text.now }
{
    match text.split_first() {
        None => text,
        Some((first, rest)) => if *first == b',' { rest } else { text },
    }
}

/// Whether a text begins with `DO`, digits or none, a comma or none, and `WHILE(`.
fn begins_while(text: &[u8]) -> bool
    ensures { result ≡ while_first text.now }
{
    begins(text, b"DO") && begins(behind_comma(behind_digits(&text[2..])), b"WHILE(")
}

/// What the first keyword of a text says, of those that control the execution.
#[tactic(auto, unfolding(meaning::specs::Kinds::kind_by_control_keyword))]
fn kind_by_control_keyword(text: &[u8]) -> Kind
    ensures { result ≡ control_kind text.now }
{
    if begins(text, b"ENDIF") {
        Kind::EndIf
    } else if begins(text, b"ENDDO") {
        Kind::EndDo
    } else if begins(text, b"END") {
        Kind::End
    } else if begins(text, b"CONTINUE") {
        Kind::Continue
    } else if begins(text, b"GOTO(") {
        Kind::ComputedGoTo
    } else if begins(text, b"GOTO") {
        Kind::GoTo
    } else if begins(text, b"ELSEIF(") {
        Kind::ElseIf
    } else if begins(text, b"ELSE") {
        Kind::Else
    } else if begins(text, b"STOP") {
        Kind::Stop
    } else if begins_while(text) {
        Kind::DoWhile
    } else {
        Kind::Other
    }
}

/// What the first keyword of a text says.
#[tactic(auto, unfolding(meaning::specs::Kinds::kind_by_keyword))]
fn kind_by_keyword(text: &[u8]) -> Kind
    ensures { result ≡ keyword_kind text.now }
{
    if begins(text, b"WRITE(") {
        Kind::Write
    } else if begins(text, b"PRINT") {
        Kind::Print
    } else if begins(text, b"FORMAT(") {
        Kind::Format
    } else if begins(text, b"INTEGER") {
        Kind::Integer
    } else if begins(text, b"LOGICAL") {
        Kind::Logical
    } else if begins(text, b"DIMENSION") {
        Kind::Dimension
    } else if begins(text, b"PARAMETER(") {
        Kind::Parameter
    } else if begins(text, b"PROGRAM") {
        Kind::Program
    } else if begins(text, b"IMPLICITNONE") {
        Kind::ImplicitNone
    } else if begins(text, b"IMPLICIT") {
        Kind::Implicit
    } else if begins(text, b"DATA") {
        Kind::Data
    } else {
        kind_by_control_keyword(text)
    }
}

/// With an equals sign outside parentheses and apostrophes a DO statement, if such a comma stands
/// behind the first one, and else an assignment; without one what the first keyword says.
#[tactic(auto, unfolding(meaning::specs::Kinds::kind_outside_if))]
fn kind_outside_if(text: &[u8]) -> Kind
    ensures { result ≡ other_kind text.now }
{
    if has_equals_sign(text) {
        if has_comma_behind(text) {
            Kind::Do
        } else {
            Kind::Assignment
        }
    } else {
        kind_by_keyword(text)
    }
}

/// Whether a text begins with a digit.
pub fn begins_with_digit(text: &[u8]) -> bool
    ensures { result ≡ digit_first text.now }
{
    match text.split_first() {
        None => false,
        Some((first, _)) => first.is_ascii_digit(),
    }
}

/// Which IF it is, by what stands behind its parentheses; with an equals sign there it is an
/// assignment to an array IF.
#[tactic(auto, unfolding(meaning::specs::Kinds::kind_behind_if))]
fn kind_behind_if(text: &[u8], rest: &[u8]) -> Kind
    ensures { result ≡ if_kind text.now rest.now }
{
    if begins(rest, b"=") {
        kind_outside_if(text)
    } else if begins_with_digit(rest) {
        Kind::ArithmeticIf
    } else if begins(rest, b"THEN") && !has_equals_sign(rest) {
        Kind::IfThen
    } else {
        Kind::LogicalIf
    }
}

/// Which statement a text without blanks can be, a whole one or what stands behind `IF(..)`, by the
/// rule of [`kind`].
#[tactic(auto, unfolding(meaning::specs::Kinds::kind_of))]
pub fn kind_of_text(text: &[u8]) -> Kind
    ensures { result ≡ kind_of text.now }
{
    if begins(text, b"IF(") {
        kind_behind_if(text, behind_closing_parenthesis(&text[3..]))
    } else {
        kind_outside_if(text)
    }
}

/// Which statement a bare text can be. Behind `IF(..)` a label makes it an arithmetic IF, `THEN` a
/// block IF, an equals sign an assignment, and anything else a logical IF. Else, where an equals
/// sign stands outside parentheses and apostrophes, it is a DO statement if such a comma stands
/// behind the first one, and an assignment if none does; where no equals sign stands, its first
/// keyword decides.
pub fn kind(bare: &Bare) -> Kind
    ensures { result ≡ kind_of bare.now.text.items }
{
    kind_of_text(&bare.text)
}
