//! Words, names, digits and operators at the front of a text.

ghost use Rattle.std.specs.Prelude.{◌≡◌, option_map, nat_lt};
ghost use Rattle.std.specs.List.{list_all, list_any, prefix_len};
ghost use Rattle.meaning.specs.Characters.{is_digit as digit_test};
ghost use Rattle.meaning.specs.Characters.{is_alphanumeric as alphanumeric_test};
ghost use Rattle.meaning.specs.Characters.{is_number as number_test, is_label, number_of};
ghost use Rattle.meaning.specs.Reading.{after, before_last_parenthesis, run, name_at, label_at};
ghost use Rattle.meaning.specs.Reading.{sign_at, first_operator_at, operator_at, truth_at};
ghost use Rattle.meaning.specs.Spelling.{operator_text};
ghost use Rattle.parser.specs.Reports.{Agrees};

use crate::read_error::ReadError;
use lexer::{is_alphanumeric, is_symbolic_name};
use meaning::syntax::{Operator, Sign};
use std::alloc::Global;

/// What stands behind a word at the front.
#[tactic(auto, using(form_laws::proofs::Words::behind_is))]
pub fn behind<'t>(word: &[u8], text: &'t [u8]) -> Option<&'t [u8]>
    ensures { option_map (λ x. x.now) result ≡ after word.now text.now }
{
    text.strip_prefix(word)
}

/// What stands behind a word at the front, where it must stand.
pub fn expect<'t>(word: &[u8], text: &'t [u8]) -> Result<&'t [u8], ReadError>
    ensures { Agrees (λ x. x.now) result (after word.now text.now) }
{
    behind(word, text).ok_or(ReadError::NoReading)
}

/// What stands before a last closing parenthesis.
#[tactic(auto, using(meaning::proofs::Readers::before_is))]
pub fn before_parenthesis(text: &[u8]) -> Option<&[u8]>
    ensures { option_map (λ x. x.now) result ≡ before_last_parenthesis text.now }
{
    text.strip_suffix(b")")
}

/// A digit.
fn is_digit(c: u8) -> bool
    ensures { result ≡ digit_test c }
{
    c.is_ascii_digit()
}

/// How many digits stand at the front.
fn digits_len(text: &[u8]) -> usize
    ensures { result ≡ prefix_len digit_test text.now }
{
    text.iter().take_while(|c| is_digit(**c)).count()
}

/// How many letters and digits stand at the front.
fn alphanumerics_len(text: &[u8]) -> usize
    ensures { result ≡ prefix_len alphanumeric_test text.now }
{
    text.iter().take_while(|c| is_alphanumeric(**c)).count()
}

/// The longest front of digits, and what stands behind.
#[tactic(auto, using(form_laws::proofs::Words::runs))]
pub fn split_digits(text: &[u8]) -> (&[u8], &[u8])
    ensures { (result.0.now, result.1.now) ≡ run digit_test text.now }
{
    text.split_at(digits_len(text))
}

/// The longest front of letters and digits, and what stands behind.
#[tactic(auto, using(form_laws::proofs::Words::runs))]
pub fn split_alphanumerics(text: &[u8]) -> (&[u8], &[u8])
    ensures { (result.0.now, result.1.now) ≡ run alphanumeric_test text.now }
{
    text.split_at(alphanumerics_len(text))
}

/// Whether all are digits.
fn are_digits(text: &[u8]) -> bool
    ensures { result ≡ list_all digit_test text.now }
{
    text.iter().all(|c| is_digit(*c))
}

/// Whether a digit above 0 is among them.
fn has_positive(digits: &[u8]) -> bool
    ensures { result ≡ list_any (λ c. nat_lt 48 c) digits.now }
{
    digits.iter().any(|c| *c > b'0')
}

/// Whether a text is digits, one at least.
pub fn is_number(text: &[u8]) -> bool
    ensures { result ≡ number_test text.now }
{
    !text.is_empty() && are_digits(text)
}

/// Whether digits are a statement label: one to five, not all zero (ANSI X3.9-1978, 3.4).
#[tactic(auto, using(form_laws::proofs::Words::positive_is))]
fn is_statement_label(digits: &[u8]) -> bool
    ensures { result ≡ is_label digits.now }
{
    is_number(digits) && digits.len() <= 5 && has_positive(digits)
}

/// A symbolic name at the front, and what stands behind.
#[tactic(auto, unfolding(meaning::specs::Reading::name_at))]
pub fn read_name(alloc: Global, text: &[u8]) -> Result<(Vec<u8>, &[u8]), ReadError>
    ensures { Agrees (λ x. (x.0.items, x.1.now)) result (name_at text.now) }
{
    let (name, rest) = split_alphanumerics(text);
    if !is_symbolic_name(name) {
        return Err(ReadError::NoReading);
    }
    Ok((Vec::from_slice(alloc, name)?, rest))
}

/// A statement label at the front, and what stands behind.
#[tactic(auto, unfolding(meaning::specs::Reading::label_at))]
pub fn read_label(alloc: Global, text: &[u8]) -> Result<(Vec<u8>, &[u8]), ReadError>
    ensures { Agrees (λ x. (x.0.items, x.1.now)) result (label_at text.now) }
{
    let (digits, rest) = split_digits(text);
    if !is_statement_label(digits) {
        return Err(ReadError::NoReading);
    }
    Ok((Vec::from_slice(alloc, digits)?, rest))
}

/// A sign at the front, and what stands behind.
#[tactic(auto, unfolding(meaning::specs::Reading::sign_at))]
pub fn read_sign(text: &[u8]) -> Option<(Sign, &[u8])>
    ensures { option_map (λ x. (x.0, x.1.now)) result ≡ sign_at text.now }
{
    let (c, rest) = text.split_first()?;
    match c {
        b'+' => Some((Sign::Plus, rest)),
        b'-' => Some((Sign::Minus, rest)),
        _ => None,
    }
}

/// The operators; `**` stands before `*`, with which it begins.
const OPERATORS: [Operator; 15] = [
    Operator::Power,
    Operator::Multiply,
    Operator::Divide,
    Operator::Add,
    Operator::Subtract,
    Operator::Less,
    Operator::LessOrEqual,
    Operator::Equal,
    Operator::NotEqual,
    Operator::GreaterOrEqual,
    Operator::Greater,
    Operator::And,
    Operator::Or,
    Operator::Equivalent,
    Operator::NotEquivalent,
];

/// How an operator is written (ANSI X3.9-1978, 6.1.1, 6.3.1 and 6.4.1).
fn spelling(operator: Operator) -> &'static [u8]
    ensures { result.now ≡ operator_text operator }
{
    match operator {
        Operator::Power => b"**",
        Operator::Multiply => b"*",
        Operator::Divide => b"/",
        Operator::Add => b"+",
        Operator::Subtract => b"-",
        Operator::Less => b".LT.",
        Operator::LessOrEqual => b".LE.",
        Operator::Equal => b".EQ.",
        Operator::NotEqual => b".NE.",
        Operator::GreaterOrEqual => b".GE.",
        Operator::Greater => b".GT.",
        Operator::And => b".AND.",
        Operator::Or => b".OR.",
        Operator::Equivalent => b".EQV.",
        Operator::NotEquivalent => b".NEQV.",
    }
}

/// The first of these operators that stands at the front, and what stands behind.
#[tactic(auto, unfolding(meaning::specs::Reading::first_operator_at, meaning::specs::Reading::either))]
fn read_first_operator<'t>(operators: &[Operator], text: &'t [u8]) -> Option<(Operator, &'t [u8])>
    ensures { option_map (λ x. (x.0, x.1.now)) result ≡ first_operator_at operators.now text.now }
{
    for &operator in operators {
        if let Some(rest) = behind(spelling(operator), text) {
            return Some((operator, rest));
        }
    }
    None
}

/// An operator at the front, and what stands behind.
#[tactic(auto, unfolding(meaning::specs::Reading::operator_at))]
pub fn read_operator(text: &[u8]) -> Option<(Operator, &[u8])>
    ensures { option_map (λ x. (x.0, x.1.now)) result ≡ operator_at text.now }
{
    read_first_operator(&OPERATORS, text)
}

/// A logical constant at the front, and what stands behind (ANSI X3.9-1978, 4.7).
#[tactic(auto, unfolding(meaning::specs::Reading::truth_at, meaning::specs::Reading::either))]
pub fn read_truth(text: &[u8]) -> Option<(bool, &[u8])>
    ensures { option_map (λ x. (x.0, x.1.now)) result ≡ truth_at text.now }
{
    if let Some(rest) = behind(b".TRUE.", text) {
        return Some((true, rest));
    }
    if let Some(rest) = behind(b".FALSE.", text) {
        return Some((false, rest));
    }
    None
}
