//! PROGRAM, IMPLICIT and PARAMETER statements.

ghost use Rattle.std.specs.Prelude.{◌≡◌, ◌+◌, length, map, option_map};
ghost use Rattle.meaning.specs.Syntax.{letters_tree, implicit_tree, constant_tree, shape_tree};
ghost use Rattle.meaning.specs.Reading.{separated_at, naming_of, letter_at, letters_at, type_at};
ghost use Rattle.meaning.specs.Reading.{implicit_at, implying_of, constant_at, parameter_of};
ghost use Rattle.parser.specs.Reports.{Agrees};

use crate::expression::read_whole_expression;
use crate::read_error::ReadError;
use crate::statement::at_end;
use crate::token::{behind, expect, read_name};
use meaning::syntax::{DataType, ImplicitPart, Letters, NamedConstant, Shape};
use std::alloc::Global;

/// A PROGRAM statement (ANSI X3.9-1978, 14.1).
#[tactic(auto, unfolding(meaning::specs::Reading::naming_of))]
pub fn read_program(alloc: Global, text: &[u8]) -> Result<Shape, ReadError>
    ensures { Agrees (λ x. shape_tree x) result (naming_of text.now) }
{
    let rest = expect(b"PROGRAM", text)?;
    let (name, rest) = read_name(alloc, rest)?;
    at_end(Shape::Program(name), rest)
}

/// A letter at the front, and what stands behind.
#[tactic(auto, unfolding(meaning::specs::Reading::letter_at, meaning::specs::Reading::when))]
fn read_letter(text: &[u8]) -> Result<(u8, &[u8]), ReadError>
    ensures { Agrees (λ x. (x.0, x.1.now)) result (letter_at text.now) }
{
    let (first, rest) = text.split_first().ok_or(ReadError::NoReading)?;
    if !first.is_ascii_uppercase() {
        return Err(ReadError::NoReading);
    }
    Ok((*first, rest))
}

/// A letter, or two with a minus sign between.
#[tactic(auto, unfolding(meaning::specs::Reading::letters_at, meaning::specs::Reading::either))]
fn read_letters(_alloc: Global, text: &[u8]) -> Result<(Letters, &[u8]), ReadError>
    ensures { Agrees (λ x. (letters_tree x.0, x.1.now)) result (letters_at text.now) }
{
    let (first, rest) = read_letter(text)?;
    match behind(b"-", rest) {
        None => Ok((Letters { first, last: None }, rest)),
        Some(rest) => {
            let (last, rest) = read_letter(rest)?;
            Ok((
                Letters {
                    first,
                    last: Some(last),
                },
                rest,
            ))
        }
    }
}

/// Letters with commas between, one at least.
fn read_letters_list(alloc: Global, text: &[u8]) -> Result<(Vec<Letters>, &[u8]), ReadError>
    ensures { Agrees (λ x. (map letters_tree x.0.items, x.1.now)) result
        (separated_at letters_at (length text.now + 1) text.now) }
{
    let mut list = Vec::new(alloc);
    let mut rest = text;
    for _ in 0..text.len() + 1 {
        let (one, after) = read_letters(alloc, rest)?;
        list.push(one)?;
        match behind(b",", after) {
            None => return Ok((list, after)),
            Some(more) => rest = more,
        }
    }
    Err(ReadError::NoReading)
}

/// INTEGER or LOGICAL at the front, and what stands behind.
#[tactic(auto, unfolding(meaning::specs::Reading::type_at, meaning::specs::Reading::either))]
fn read_type(text: &[u8]) -> Option<(DataType, &[u8])>
    ensures { option_map (λ x. (x.0, x.1.now)) result ≡ type_at text.now }
{
    if let Some(rest) = behind(b"INTEGER", text) {
        return Some((DataType::Integer, rest));
    }
    if let Some(rest) = behind(b"LOGICAL", text) {
        return Some((DataType::Logical, rest));
    }
    None
}

/// A data type and its letters in parentheses.
#[tactic(auto, unfolding(meaning::specs::Reading::implicit_at))]
fn read_implicit_part(alloc: Global, text: &[u8]) -> Result<(ImplicitPart, &[u8]), ReadError>
    ensures { Agrees (λ x. (implicit_tree x.0, x.1.now)) result (implicit_at text.now) }
{
    let (data_type, rest) = read_type(text).ok_or(ReadError::NoReading)?;
    let rest = expect(b"(", rest)?;
    let (letters, rest) = read_letters_list(alloc, rest)?;
    let rest = expect(b")", rest)?;
    Ok((ImplicitPart { data_type, letters }, rest))
}

/// Data types with their letters, one at least.
fn read_implicit_parts(alloc: Global, text: &[u8]) -> Result<(Vec<ImplicitPart>, &[u8]), ReadError>
    ensures { Agrees (λ x. (map implicit_tree x.0.items, x.1.now)) result
        (separated_at implicit_at (length text.now + 1) text.now) }
{
    let mut list = Vec::new(alloc);
    let mut rest = text;
    for _ in 0..text.len() + 1 {
        let (one, after) = read_implicit_part(alloc, rest)?;
        list.push(one)?;
        match behind(b",", after) {
            None => return Ok((list, after)),
            Some(more) => rest = more,
        }
    }
    Err(ReadError::NoReading)
}

/// An IMPLICIT statement (ANSI X3.9-1978, 8.5).
#[tactic(auto, unfolding(meaning::specs::Reading::implying_of))]
pub fn read_implicit(alloc: Global, text: &[u8]) -> Result<Shape, ReadError>
    ensures { Agrees (λ x. shape_tree x) result (implying_of text.now) }
{
    let rest = expect(b"IMPLICIT", text)?;
    let (parts, rest) = read_implicit_parts(alloc, rest)?;
    at_end(Shape::Implicit(parts), rest)
}

/// A name, an equals sign and an expression.
#[tactic(auto, unfolding(meaning::specs::Reading::constant_at))]
fn read_constant(alloc: Global, text: &[u8]) -> Result<(NamedConstant, &[u8]), ReadError>
    ensures { Agrees (λ x. (constant_tree x.0, x.1.now)) result (constant_at text.now) }
{
    let (name, rest) = read_name(alloc, text)?;
    let rest = expect(b"=", rest)?;
    let (value, rest) = read_whole_expression(alloc, rest)?;
    Ok((NamedConstant { name, value }, rest))
}

/// Constants with commas between, one at least.
fn read_constants(alloc: Global, text: &[u8]) -> Result<(Vec<NamedConstant>, &[u8]), ReadError>
    ensures { Agrees (λ x. (map constant_tree x.0.items, x.1.now)) result
        (separated_at constant_at (length text.now + 1) text.now) }
{
    let mut list = Vec::new(alloc);
    let mut rest = text;
    for _ in 0..text.len() + 1 {
        let (one, after) = read_constant(alloc, rest)?;
        list.push(one)?;
        match behind(b",", after) {
            None => return Ok((list, after)),
            Some(more) => rest = more,
        }
    }
    Err(ReadError::NoReading)
}

/// A PARAMETER statement (ANSI X3.9-1978, 8.6).
#[tactic(auto, unfolding(meaning::specs::Reading::parameter_of))]
pub fn read_parameter(alloc: Global, text: &[u8]) -> Result<Shape, ReadError>
    ensures { Agrees (λ x. shape_tree x) result (parameter_of text.now) }
{
    let rest = expect(b"PARAMETER(", text)?;
    let (constants, rest) = read_constants(alloc, rest)?;
    let rest = expect(b")", rest)?;
    at_end(Shape::Parameter(constants), rest)
}
