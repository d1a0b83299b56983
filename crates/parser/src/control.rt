//! GO TO, IF and STOP statements.

ghost use Rattle.std.specs.Prelude.{◌≡◌, ◌+◌, ◌∷◌, length, map};
ghost use Rattle.meaning.specs.Characters.{is_label};
ghost use Rattle.meaning.specs.Spelling.{is_stop_number as stop_number};
ghost use Rattle.meaning.specs.Syntax.{ExprTree, arithmetic_if, expr_tree, stop_tree, shape_tree};
ghost use Rattle.meaning.specs.Reading.{Text, separated_at, label_at, going_of, computed_going_of};
ghost use Rattle.meaning.specs.Reading.{condition_at, arithmetic_if_of, block_if_of, else_if_of};
ghost use Rattle.meaning.specs.Reading.{quoted_at, stop_of, stopping_of};
ghost use Rattle.parser.specs.Behind.{branches_behind, last_label_behind};
ghost use Rattle.parser.specs.Reports.{Agrees};

use crate::expression::read_whole_expression;
use crate::read_error::ReadError;
use crate::statement::{at_end, read_value, split_comma};
use crate::token::{behind, expect, is_number, read_label};
use meaning::syntax::{Expr, Shape, StopText};
use std::alloc::Global;

/// A GO TO statement (ANSI X3.9-1978, 11.1).
#[tactic(auto, unfolding(meaning::specs::Reading::going_of))]
pub fn read_go_to(alloc: Global, text: &[u8]) -> Result<Shape, ReadError>
    ensures { Agrees (λ x. shape_tree x) result (going_of text.now) }
{
    let rest = expect(b"GOTO", text)?;
    let (label, rest) = read_label(alloc, rest)?;
    at_end(Shape::GoTo(label), rest)
}

/// Labels with commas between, one at least.
fn read_labels(alloc: Global, text: &[u8]) -> Result<(Vec<Vec<u8>>, &[u8]), ReadError>
    ensures { Agrees (λ x. (map (λ l. l.items) x.0.items, x.1.now)) result
        (separated_at label_at (length text.now + 1) text.now) }
{
    let mut list = Vec::new(alloc);
    let mut rest = text;
    for _ in 0..text.len() + 1 {
        let (one, after) = read_label(alloc, rest)?;
        list.push(one)?;
        match behind(b",", after) {
            None => return Ok((list, after)),
            Some(more) => rest = more,
        }
    }
    Err(ReadError::NoReading)
}

/// A computed GO TO statement (ANSI X3.9-1978, 11.2).
#[tactic(auto, unfolding(meaning::specs::Reading::computed_going_of))]
pub fn read_computed_go_to(alloc: Global, text: &[u8]) -> Result<Shape, ReadError>
    ensures { Agrees (λ x. shape_tree x) result (computed_going_of text.now) }
{
    let rest = expect(b"GOTO(", text)?;
    let (labels, rest) = read_labels(alloc, rest)?;
    let rest = expect(b")", rest)?;
    let (comma, rest) = split_comma(rest);
    let value = read_value(alloc, rest)?;
    Ok(Shape::ComputedGoTo {
        labels,
        comma,
        value,
    })
}

/// An expression behind a keyword and an opening parenthesis, and what stands behind the closing
/// one.
#[tactic(auto, unfolding(meaning::specs::Reading::condition_at))]
pub fn read_condition<'t>(
    alloc: Global,
    word: &[u8],
    text: &'t [u8],
) -> Result<(Expr, &'t [u8]), ReadError>
    ensures { Agrees (λ x. (expr_tree x.0, x.1.now)) result (condition_at word.now text.now) }
{
    let rest = expect(word, text)?;
    let (condition, rest) = read_whole_expression(alloc, rest)?;
    match behind(b")", rest) {
        None => {
            drop(condition);
            Err(ReadError::NoReading)
        }
        Some(rest) => Ok((condition, rest)),
    }
}

/// The labels of an arithmetic IF statement.
#[derive(Drop)]
struct Branches {
    negative: Vec<u8>,
    zero: Vec<u8>,
    positive: Vec<u8>,
}

/// The last label of an arithmetic IF statement, up to the end.
#[tactic(auto, unfolding(crate::specs::Behind::last_label_behind))]
fn read_last_label(alloc: Global, text: &[u8]) -> Result<Vec<u8>, ReadError>
    ensures { (e : ExprTree) (n z : Text) →
        Agrees (λ x. arithmetic_if e n z x.items) result (last_label_behind e n z text.now) }
{
    let (label, rest) = read_label(alloc, text)?;
    if !rest.is_empty() {
        return Err(ReadError::NoReading);
    }
    Ok(label)
}

/// The labels of an arithmetic IF statement, up to the end.
#[tactic(auto, unfolding(crate::specs::Behind::branches_behind))]
fn read_branches(alloc: Global, text: &[u8]) -> Result<Branches, ReadError>
    ensures { (e : ExprTree) →
        Agrees (λ x. arithmetic_if e x.negative.items x.zero.items x.positive.items) result
        (branches_behind e text.now) }
{
    let (negative, rest) = read_label(alloc, text)?;
    let rest = expect(b",", rest)?;
    let (zero, rest) = read_label(alloc, rest)?;
    let rest = expect(b",", rest)?;
    let positive = read_last_label(alloc, rest)?;
    Ok(Branches {
        negative,
        zero,
        positive,
    })
}

/// An arithmetic IF statement (ANSI X3.9-1978, 11.4).
#[tactic(auto, unfolding(meaning::specs::Reading::arithmetic_if_of, crate::specs::Behind::branches_behind, crate::specs::Behind::last_label_behind))]
pub fn read_arithmetic_if(alloc: Global, text: &[u8]) -> Result<Shape, ReadError>
    ensures { Agrees (λ x. shape_tree x) result (arithmetic_if_of text.now) }
{
    let (value, rest) = read_condition(alloc, b"IF(", text)?;
    match read_branches(alloc, rest) {
        Err(error) => {
            drop(value);
            Err(error)
        }
        Ok(
            Branches {
                negative,
                zero,
                positive,
            },
        ) => Ok(Shape::ArithmeticIf {
            value,
            negative,
            zero,
            positive,
        }),
    }
}

/// An IF THEN statement (ANSI X3.9-1978, 11.6).
#[tactic(auto, unfolding(meaning::specs::Reading::block_if_of))]
pub fn read_if_then(alloc: Global, text: &[u8]) -> Result<Shape, ReadError>
    ensures { Agrees (λ x. shape_tree x) result (block_if_of text.now) }
{
    let (condition, rest) = read_condition(alloc, b"IF(", text)?;
    match behind(b"THEN", rest) {
        None => {
            drop(condition);
            Err(ReadError::NoReading)
        }
        Some(rest) => at_end(Shape::IfThen(condition), rest),
    }
}

/// An ELSE IF statement (ANSI X3.9-1978, 11.7).
#[tactic(auto, unfolding(meaning::specs::Reading::else_if_of))]
pub fn read_else_if(alloc: Global, text: &[u8]) -> Result<Shape, ReadError>
    ensures { Agrees (λ x. shape_tree x) result (else_if_of text.now) }
{
    let (condition, rest) = read_condition(alloc, b"ELSEIF(", text)?;
    match behind(b"THEN", rest) {
        None => {
            drop(condition);
            Err(ReadError::NoReading)
        }
        Some(rest) => at_end(Shape::ElseIf(condition), rest),
    }
}

/// The text of a character constant behind its first apostrophe, up to its last one, and what
/// stands behind (ANSI X3.9-1978, 4.8); so many characters at most. What was read of it stands
/// before.
#[cycle(quoted)]
#[tactic(auto, unfolding(meaning::specs::Reading::quoted_at, meaning::specs::Reading::either))]
pub fn read_quoted(read: Vec<u8>, most: usize, text: &[u8]) -> Result<(Vec<u8>, &[u8]), ReadError>
    ensures { Agrees (λ x. (x.0.items, x.1.now)) result (quoted_at most read.items text.now) }
{
    if most == 0 {
        return Err(ReadError::NoReading);
    }
    let mut read = read;
    let (first, rest) = text.split_first().ok_or(ReadError::NoReading)?;
    if *first != b'\'' {
        read.push(*first)?;
        return read_quoted(read, most - 1, rest);
    }
    match behind(b"'", rest) {
        None => Ok((read, rest)),
        Some(rest) => {
            read.push(b'\'')?;
            read.push(b'\'')?;
            read_quoted(read, most - 1, rest)
        }
    }
}

/// Whether a text is one to five digits.
fn is_stop_number(text: &[u8]) -> bool
    ensures { result ≡ stop_number text.now }
{
    is_number(text) && text.len() <= 5
}

/// A character constant up to the end, behind its first apostrophe.
#[tactic(auto, unfolding(meaning::specs::Reading::stop_of))]
fn read_stop_constant(alloc: Global, text: &[u8]) -> Result<StopText, ReadError>
    ensures { Agrees (λ x. stop_tree x) result (stop_of (39 ∷ text.now)) }
{
    let (constant, rest) = read_quoted(Vec::new(alloc), text.len() + 1, text)?;
    if !rest.is_empty() {
        return Err(ReadError::NoReading);
    }
    Ok(StopText::Constant(constant))
}

/// What stands behind STOP.
#[tactic(auto, unfolding(meaning::specs::Reading::stop_of, meaning::specs::Reading::when))]
fn read_stop_text(alloc: Global, text: &[u8]) -> Result<StopText, ReadError>
    ensures { Agrees (λ x. stop_tree x) result (stop_of text.now) }
{
    match text.split_first() {
        None => Ok(StopText::None),
        Some((first, rest)) => {
            if *first == b'\'' {
                return read_stop_constant(alloc, rest);
            }
            if !is_stop_number(text) {
                return Err(ReadError::NoReading);
            }
            Ok(StopText::Digits(Vec::from_slice(alloc, text)?))
        }
    }
}

/// A STOP statement (ANSI X3.9-1978, 11.12).
#[tactic(auto, unfolding(meaning::specs::Reading::stopping_of))]
pub fn read_stop(alloc: Global, text: &[u8]) -> Result<Shape, ReadError>
    ensures { Agrees (λ x. shape_tree x) result (stopping_of text.now) }
{
    let rest = expect(b"STOP", text)?;
    Ok(Shape::Stop(read_stop_text(alloc, rest)?))
}
