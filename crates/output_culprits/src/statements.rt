//! Statements with a unit or a format that isn't allowed (ANSI X3.9-1978, 12.3, 12.4 and 13.1).

ghost use Rattle.std.specs.Prelude.{◌≡◌, is_some, IfOk};
ghost use Rattle.std.specs.List.{list_any};
ghost use Rattle.meaning.specs.Characters.{number_of};
ghost use Rattle.meaning.specs.Formats.{format_in, undoubled};
ghost use Rattle.meaning.specs.LabelRules.{has_label, is_format as is_format_shape, is_format_at};
ghost use Rattle.meaning.specs.LabelRules.{is_six as is_value_six, is_unit as is_unit_by};
ghost use Rattle.meaning.specs.Syntax.{expr_tree, format_tree, shape_tree, unit_number, unit_tree};
ghost use Rattle.meaning.specs.Trees.{item_tree};
ghost use Rattle.symbols.specs.Listed.{trees_at};
ghost use Rattle.symbols.specs.SymbolsAt.{symbols_at};
ghost use Rattle.declarations.specs.Tables.{known_at, types_in};
ghost use Rattle.output_culprits.specs.Outputs.{bad_in, misformed_in, source_in, text_in, unit_in};
ghost use Rattle.output_culprits.specs.Told.{tell};

use crate::culprit::OutputCulprit;
use crate::pieces::{bad_piece, is_no_format};
use declarations::{Table, is_no_constant, value_of};
use format_edit::{Format, FormatFault};
use meaning::ending::Value;
use meaning::number::number;
use meaning::syntax::{Expr, FormatSource, Item, Shape, Unit};
use number_culprits::table_behind;
use std::alloc::{AllocError, Global};
use symbols::Symbols;

/// Whether a value is the integer 6.
fn is_six(value: Option<Value>) -> bool
    ensures { result ≡ is_value_six value }
{
    match value {
        Some(Value::Int(number)) => number == 6,
        Some(Value::Bool(_)) => false,
        None => false,
    }
}

/// Whether a unit that isn't an asterisk is a constant expression of value 6.
fn is_unit(table: &Table, number: &Expr) -> bool
    ensures { result
        ≡ is_unit_by (types_in table.now) (known_at table.now)
        (unit_number (expr_tree number.now)) }
{
    !is_no_constant(table, number) && is_six(value_of(table, number))
}

/// A unit that isn't allowed.
fn bad_unit<'a>(table: &Table, unit: &'a Unit) -> Option<OutputCulprit<'a>>
    ensures { tell result
        ≡ unit_in (types_in table.now) (known_at table.now) (unit_tree unit.now) }
{
    match unit {
        Unit::Star => None,
        Unit::Number(number) => {
            if is_unit(table, number) {
                None
            } else {
                Some(OutputCulprit::Unit { number })
            }
        }
    }
}

/// Whether a statement is a FORMAT statement.
fn is_format(shape: &Shape) -> bool
    ensures { result ≡ is_format_shape (shape_tree shape.now) }
{
    match shape {
        Shape::Format(_) => true,
        _ => false,
    }
}

/// Whether a statement has the label that digits spell.
fn is_at(item: &Item, label: &[u8]) -> bool
    ensures { result ≡ has_label (number_of label.now) (item_tree item.now) }
{
    match item.label {
        Some(own) => u64::from(own) == number(label),
        None => false,
    }
}

/// Whether one of the statements is a FORMAT statement with that label.
fn has_format(items: &[&Item], label: &[u8]) -> bool
    ensures { result ≡ list_any (is_format_at (number_of label.now)) (trees_at items.now) }
{
    for item in items {
        if is_format(&*item.form.shape) && is_at(item, label) {
            return true;
        }
    }
    false
}

/// Whether a character constant is a format.
fn is_constant_format(alloc: Global, text: &[u8]) -> Result<bool, AllocError>
    ensures { IfOk result (λ b. b ≡ is_some (format_in (undoubled text.now))) }
{
    match Format::read_constant(alloc, text) {
        Ok(format) => {
            drop(format);
            Ok(true)
        }
        Err(FormatFault::Broken) => Ok(false),
        Err(FormatFault::Memory) => Err(AllocError),
    }
}

/// The label of a format, or a character constant, that is none.
fn bad_source<'a>(
    alloc: Global,
    items: &[&Item],
    source: &'a FormatSource,
) -> Result<Option<OutputCulprit<'a>>, AllocError>
    ensures { IfOk
        result (λ c. tell c ≡ source_in (trees_at items.now) (format_tree source.now)) }
{
    match source {
        FormatSource::Label(label) => {
            if has_format(items, label) {
                Ok(None)
            } else {
                Ok(Some(OutputCulprit::Missing { label }))
            }
        }
        FormatSource::Constant(text) => {
            if is_constant_format(alloc, text)? {
                Ok(None)
            } else {
                Ok(Some(OutputCulprit::Constant { text }))
            }
        }
    }
}

/// What is wrong with a FORMAT statement.
fn bad_text<'a>(
    alloc: Global,
    label: Option<u32>,
    text: &'a [u8],
) -> Result<Option<OutputCulprit<'a>>, AllocError>
    ensures { IfOk result (λ c. tell c ≡ text_in label text.now) }
{
    if label.is_none() {
        return Ok(Some(OutputCulprit::Unlabelled));
    }
    if is_no_format(alloc, text)? {
        let piece = bad_piece(alloc, text)?;
        return Ok(Some(OutputCulprit::Piece { text: piece }));
    }
    Ok(None)
}

/// What breaks the rule in a statement with a label or none, by the constants of a table.
fn bad_shape<'a>(
    alloc: Global,
    table: &Table,
    items: &[&Item],
    label: Option<u32>,
    shape: &'a Shape,
) -> Result<Option<OutputCulprit<'a>>, AllocError>
    ensures { IfOk
        result (λ c. tell c
        ≡ misformed_in (types_in table.now) (trees_at items.now) (known_at table.now) label
        (shape_tree shape.now)) }
{
    match shape {
        Shape::Write { control, .. } => match bad_unit(table, &control.unit) {
            Some(culprit) => Ok(Some(culprit)),
            None => bad_source(alloc, items, &control.format),
        },
        Shape::Print { format, .. } => bad_source(alloc, items, format),
        Shape::Format(text) => bad_text(alloc, label, text),
        Shape::LogicalIf(_, statement) => bad_shape(alloc, table, items, label, statement),
        _ => Ok(None),
    }
}

/// K11: what breaks the rule on units and formats at a statement behind others.
///
/// # Errors
///
/// `AllocError` only where a growth was refused.
pub fn bad_output<'a>(
    alloc: Global,
    symbols: &Symbols,
    before: &[&Item],
    item: &'a Item,
) -> Result<Option<OutputCulprit<'a>>, AllocError>
    ensures { IfOk
        result (λ c. tell c
        ≡ bad_in (symbols_at symbols.now) (trees_at symbols.now.items.now) (trees_at before.now)
        (item_tree item.now)) }
{
    let table = table_behind(alloc, symbols, before)?;
    bad_shape(alloc, &table, symbols.items, item.label, &*item.form.shape)
}
