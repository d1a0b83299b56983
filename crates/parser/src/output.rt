//! WRITE and PRINT statements.

ghost use Rattle.meaning.specs.Syntax.{UnitTree, ControlTree, writing, unit_tree, format_tree};
ghost use Rattle.meaning.specs.Syntax.{control_tree, list_items_tree, shape_tree};
ghost use Rattle.meaning.specs.Reading.{unit_at, source_at, format_first_at, unit_first_at};
ghost use Rattle.meaning.specs.Reading.{behind_unit_at, control_at, writing_of, printing_of};
ghost use Rattle.parser.specs.Behind.{control_with, unit_behind, control_behind};
ghost use Rattle.parser.specs.Reports.{Agrees};

use crate::control::read_quoted;
use crate::expression::read_whole_expression;
use crate::list::{read_list, read_list_behind_comma};
use crate::read_error::ReadError;
use crate::token::{behind, expect, read_label};
use meaning::syntax::{Control, ControlOrder, FormatSource, ListItems, Shape, Unit};
use std::alloc::Global;

/// The unit of a WRITE statement (ANSI X3.9-1978, 12.9.1): an asterisk or an expression.
#[tactic(auto, unfolding(meaning::specs::Reading::unit_at, meaning::specs::Reading::either))]
fn read_unit(alloc: Global, text: &[u8]) -> Result<(Unit, &[u8]), ReadError>
    ensures { Agrees (λ x. (unit_tree x.0, x.1.now)) result (unit_at text.now) }
{
    match behind(b"*", text) {
        Some(rest) => Ok((Unit::Star, rest)),
        None => {
            let (number, rest) = read_whole_expression(alloc, text)?;
            Ok((Unit::Number(number), rest))
        }
    }
}

/// A format: a label, or a character constant (ANSI X3.9-1978, 12.4).
#[tactic(auto, unfolding(meaning::specs::Reading::source_at, meaning::specs::Reading::either))]
fn read_source(alloc: Global, text: &[u8]) -> Result<(FormatSource, &[u8]), ReadError>
    ensures { Agrees (λ x. (format_tree x.0, x.1.now)) result (source_at text.now) }
{
    match behind(b"'", text) {
        None => {
            let (label, rest) = read_label(alloc, text)?;
            Ok((FormatSource::Label(label), rest))
        }
        Some(rest) => {
            let (constant, rest) = read_quoted(Vec::new(alloc), rest.len() + 1, rest)?;
            Ok((FormatSource::Constant(constant), rest))
        }
    }
}

/// A format and a unit behind `FMT=`.
#[tactic(auto, unfolding(meaning::specs::Reading::format_first_at))]
fn read_format_first(alloc: Global, text: &[u8]) -> Result<(Control, &[u8]), ReadError>
    ensures { Agrees (λ x. (control_tree x.0, x.1.now)) result (format_first_at text.now) }
{
    let (format, rest) = read_source(alloc, text)?;
    let rest = expect(b",UNIT=", rest)?;
    let (unit, rest) = read_unit(alloc, rest)?;
    Ok((
        Control {
            order: ControlOrder::FormatFirst,
            unit,
            format,
        },
        rest,
    ))
}

/// A format behind `,FMT=`.
#[tactic(auto, unfolding(crate::specs::Behind::unit_behind))]
fn read_format_keyword(alloc: Global, text: &[u8]) -> Result<(FormatSource, &[u8]), ReadError>
    ensures { (u : UnitTree) →
        Agrees (λ x. (control_with ControlOrder.UnitFirst u (format_tree x.0), x.1.now)) result
        (unit_behind u text.now) }
{
    let rest = expect(b",FMT=", text)?;
    read_source(alloc, rest)
}

/// A unit and a format behind `UNIT=`.
#[tactic(auto, unfolding(meaning::specs::Reading::unit_first_at, crate::specs::Behind::unit_behind))]
fn read_unit_first(alloc: Global, text: &[u8]) -> Result<(Control, &[u8]), ReadError>
    ensures { Agrees (λ x. (control_tree x.0, x.1.now)) result (unit_first_at text.now) }
{
    let (unit, rest) = read_unit(alloc, text)?;
    match read_format_keyword(alloc, rest) {
        Err(error) => {
            drop(unit);
            Err(error)
        }
        Ok((format, rest)) => {
            let order = ControlOrder::UnitFirst;
            Ok((
                Control {
                    order,
                    unit,
                    format,
                },
                rest,
            ))
        }
    }
}

/// A format behind a comma and its keyword, or behind a comma alone, and which of them it was.
#[tactic(auto, unfolding(meaning::specs::Reading::behind_unit_at, meaning::specs::Reading::either))]
fn read_format_behind(
    alloc: Global,
    text: &[u8],
) -> Result<(ControlOrder, FormatSource, &[u8]), ReadError>
    ensures { (u : UnitTree) →
        Agrees (λ x. (control_with x.0 u (format_tree x.1), x.2.now)) result
        (behind_unit_at u text.now) }
{
    if let Some(rest) = behind(b",FMT=", text) {
        let (format, rest) = read_source(alloc, rest)?;
        return Ok((ControlOrder::FormatNamed, format, rest));
    }
    let rest = expect(b",", text)?;
    let (format, rest) = read_source(alloc, rest)?;
    Ok((ControlOrder::Plain, format, rest))
}

/// A format behind a unit that has no keyword.
fn read_behind_unit(alloc: Global, unit: Unit, text: &[u8]) -> Result<(Control, &[u8]), ReadError>
    ensures { Agrees (λ x. (control_tree x.0, x.1.now)) result
        (behind_unit_at (unit_tree unit) text.now) }
{
    match read_format_behind(alloc, text) {
        Err(error) => {
            drop(unit);
            Err(error)
        }
        Ok((order, format, rest)) => Ok((
            Control {
                order,
                unit,
                format,
            },
            rest,
        )),
    }
}

/// What the parentheses of a WRITE statement hold.
#[tactic(auto, unfolding(meaning::specs::Reading::control_at, meaning::specs::Reading::either))]
fn read_control(alloc: Global, text: &[u8]) -> Result<(Control, &[u8]), ReadError>
    ensures { Agrees (λ x. (control_tree x.0, x.1.now)) result (control_at text.now) }
{
    if let Some(rest) = behind(b"FMT=", text) {
        return read_format_first(alloc, rest);
    }
    if let Some(rest) = behind(b"UNIT=", text) {
        return read_unit_first(alloc, rest);
    }
    let (unit, rest) = read_unit(alloc, text)?;
    read_behind_unit(alloc, unit, rest)
}

/// What stands behind the control of a WRITE statement: the closing parenthesis, and the list.
#[tactic(auto, unfolding(crate::specs::Behind::control_behind))]
fn read_written(alloc: Global, text: &[u8]) -> Result<ListItems, ReadError>
    ensures { (c : ControlTree) →
        Agrees (λ x. writing c (list_items_tree x)) result (control_behind c text.now) }
{
    let rest = expect(b")", text)?;
    read_list(alloc, rest)
}

/// A WRITE statement (ANSI X3.9-1978, 12.8).
#[tactic(auto, unfolding(meaning::specs::Reading::writing_of, crate::specs::Behind::control_behind))]
pub fn read_write(alloc: Global, text: &[u8]) -> Result<Shape, ReadError>
    ensures { Agrees (λ x. shape_tree x) result (writing_of text.now) }
{
    let rest = expect(b"WRITE(", text)?;
    let (control, rest) = read_control(alloc, rest)?;
    match read_written(alloc, rest) {
        Err(error) => {
            drop(control);
            Err(error)
        }
        Ok(list) => Ok(Shape::Write { control, list }),
    }
}

/// A PRINT statement (ANSI X3.9-1978, 12.8).
#[tactic(auto, unfolding(meaning::specs::Reading::printing_of))]
pub fn read_print(alloc: Global, text: &[u8]) -> Result<Shape, ReadError>
    ensures { Agrees (λ x. shape_tree x) result (printing_of text.now) }
{
    let rest = expect(b"PRINT", text)?;
    let (format, rest) = read_source(alloc, rest)?;
    let list = read_list_behind_comma(alloc, rest)?;
    Ok(Shape::Print { format, list })
}
