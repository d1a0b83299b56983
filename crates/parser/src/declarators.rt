//! Names and arrays with their bounds, as type statements declare them.

ghost use Rattle.std.specs.Prelude.{◌+◌, length, map};
ghost use Rattle.std.specs.Prelude.{◌≡◌};
ghost use Rattle.std.specs.List.{list_all};
ghost use Rattle.meaning.specs.Syntax.{bounds_tree, declarator_tree, shape_tree};
ghost use Rattle.meaning.specs.Reading.{bounds_at, separated_at, dimensions_at, declarator_at};
ghost use Rattle.meaning.specs.Reading.{declarators_of, typing_of, logical_typing_of, has_bounds};
ghost use Rattle.meaning.specs.Reading.{dimensioning_of};
ghost use Rattle.parser.specs.Reports.{Agrees};

use crate::expression::read_whole_expression;
use crate::read_error::ReadError;
use crate::token::{behind, expect, read_name};
use meaning::syntax::{Bounds, Declarator, Shape};
use std::alloc::Global;

/// The bounds of a dimension (ANSI X3.9-1978, 5.1.1): an expression, or two with a colon between.
#[tactic(auto, unfolding(meaning::specs::Reading::bounds_at, meaning::specs::Reading::either))]
fn read_bounds(alloc: Global, text: &[u8]) -> Result<(Bounds, &[u8]), ReadError>
    ensures { Agrees (λ x. (bounds_tree x.0, x.1.now)) result (bounds_at text.now) }
{
    let (first, rest) = read_whole_expression(alloc, text)?;
    match behind(b":", rest) {
        None => Ok((
            Bounds {
                lower: None,
                upper: first,
            },
            rest,
        )),
        Some(rest) => match read_whole_expression(alloc, rest) {
            Err(error) => {
                drop(first);
                Err(error)
            }
            Ok((upper, rest)) => Ok((
                Bounds {
                    lower: Some(first),
                    upper,
                },
                rest,
            )),
        },
    }
}

/// Bounds with commas between, one at least.
fn read_bounds_list(alloc: Global, text: &[u8]) -> Result<(Vec<Bounds>, &[u8]), ReadError>
    ensures { Agrees (λ x. (map bounds_tree x.0.items, x.1.now)) result
        (separated_at bounds_at (length text.now + 1) text.now) }
{
    let mut list = Vec::new(alloc);
    let mut rest = text;
    for _ in 0..text.len() + 1 {
        let (bounds, after) = read_bounds(alloc, rest)?;
        list.push(bounds)?;
        match behind(b",", after) {
            None => return Ok((list, after)),
            Some(more) => rest = more,
        }
    }
    Err(ReadError::NoReading)
}

/// The dimensions of an array in parentheses, or none.
#[tactic(auto, unfolding(meaning::specs::Reading::dimensions_at, meaning::specs::Reading::either))]
fn read_dimensions(alloc: Global, text: &[u8]) -> Result<(Vec<Bounds>, &[u8]), ReadError>
    ensures { Agrees (λ x. (map bounds_tree x.0.items, x.1.now)) result (dimensions_at text.now) }
{
    match behind(b"(", text) {
        None => Ok((Vec::new(alloc), text)),
        Some(rest) => {
            let (list, rest) = read_bounds_list(alloc, rest)?;
            Ok((list, expect(b")", rest)?))
        }
    }
}

/// A name, or an array with its dimensions.
#[tactic(auto, unfolding(meaning::specs::Reading::declarator_at))]
fn read_declarator(alloc: Global, text: &[u8]) -> Result<(Declarator, &[u8]), ReadError>
    ensures { Agrees (λ x. (declarator_tree x.0, x.1.now)) result (declarator_at text.now) }
{
    let (name, rest) = read_name(alloc, text)?;
    let (bounds, rest) = read_dimensions(alloc, rest)?;
    Ok((Declarator { name, bounds }, rest))
}

/// Names and arrays with commas between, one at least.
fn read_declarators(alloc: Global, text: &[u8]) -> Result<(Vec<Declarator>, &[u8]), ReadError>
    ensures { Agrees (λ x. (map declarator_tree x.0.items, x.1.now)) result
        (separated_at declarator_at (length text.now + 1) text.now) }
{
    let mut list = Vec::new(alloc);
    let mut rest = text;
    for _ in 0..text.len() + 1 {
        let (declarator, after) = read_declarator(alloc, rest)?;
        list.push(declarator)?;
        match behind(b",", after) {
            None => return Ok((list, after)),
            Some(more) => rest = more,
        }
    }
    Err(ReadError::NoReading)
}

/// Names and arrays with commas between behind a keyword, up to the end.
#[tactic(auto, unfolding(meaning::specs::Reading::declarators_of))]
fn read_declarators_behind(
    alloc: Global,
    word: &[u8],
    text: &[u8],
) -> Result<Vec<Declarator>, ReadError>
    ensures { Agrees (λ x. map declarator_tree x.items) result (declarators_of word.now text.now) }
{
    let rest = expect(word, text)?;
    let (declarators, rest) = read_declarators(alloc, rest)?;
    if !rest.is_empty() {
        return Err(ReadError::NoReading);
    }
    Ok(declarators)
}

/// An INTEGER statement (ANSI X3.9-1978, 8.4.1).
#[tactic(auto, unfolding(meaning::specs::Reading::typing_of))]
pub fn read_integer(alloc: Global, text: &[u8]) -> Result<Shape, ReadError>
    ensures { Agrees (λ x. shape_tree x) result (typing_of text.now) }
{
    let declarators = read_declarators_behind(alloc, b"INTEGER", text)?;
    Ok(Shape::Integer(declarators))
}

/// A LOGICAL statement (ANSI X3.9-1978, 8.4.1).
#[tactic(auto, unfolding(meaning::specs::Reading::logical_typing_of))]
pub fn read_logical(alloc: Global, text: &[u8]) -> Result<Shape, ReadError>
    ensures { Agrees (λ x. shape_tree x) result (logical_typing_of text.now) }
{
    let declarators = read_declarators_behind(alloc, b"LOGICAL", text)?;
    Ok(Shape::Logical(declarators))
}

/// Whether a name is given bounds.
#[tactic(auto, using(crate::proofs::Bounded::viewed_length))]
fn is_array(declarator: &Declarator) -> bool
    ensures { result ≡ has_bounds (declarator_tree declarator.now) }
{
    !declarator.bounds.is_empty()
}

/// Whether each is given bounds.
fn are_arrays(declarators: &[Declarator]) -> bool
    ensures { result ≡ list_all (λ d. has_bounds (declarator_tree d)) declarators.now }
{
    declarators.iter().all(|declarator| is_array(declarator))
}

/// Whether each is given bounds, as its tree tells.
fn have_bounds(declarators: &[Declarator]) -> bool
    ensures { result ≡ list_all has_bounds (map declarator_tree declarators.now) }
{
    are_arrays(declarators)
}

/// A DIMENSION statement (ANSI X3.9-1978, 8.1).
#[tactic(auto, unfolding(meaning::specs::Reading::dimensioning_of, meaning::specs::Reading::when))]
pub fn read_dimension(alloc: Global, text: &[u8]) -> Result<Shape, ReadError>
    ensures { Agrees (λ x. shape_tree x) result (dimensioning_of text.now) }
{
    let declarators = read_declarators_behind(alloc, b"DIMENSION", text)?;
    if !have_bounds(&declarators) {
        return Err(ReadError::NoReading);
    }
    Ok(Shape::Dimension(declarators))
}
