//! The formats of a program unit, each read once (ANSI X3.9-1978, 12.4 and 13.1).

ghost use Rattle.std.specs.Prelude.{◌≡◌, ◌^◌, ◌≤◌, [], ℕ, false, true, None, Some, IfOk, OnOk};
ghost use Rattle.std.specs.Prelude.{is_none, is_some, option_map};
ghost use Rattle.meaning.specs.Formats.{descriptors_of, format_in, undoubled};
ghost use Rattle.meaning.specs.LabelRules.{is_label_at};
ghost use Rattle.meaning.specs.Syntax.{format_tree, shape_tree};
ghost use Rattle.meaning.specs.Trees.{item_tree};
ghost use Rattle.format_edit.specs.Formatted.{descriptors};
ghost use Rattle.name_maps.specs.Keeping.{kept_at};
ghost use Rattle.rule_passes.specs.Telling.{Passes};
ghost use Rattle.statement_rules.specs.FormatLabels.{FindsOk, breaks_reading, is_unread};
ghost use Rattle.statement_rules.specs.FormatLabels.{is_unread_source};
ghost use Rattle.statement_rules.specs.FormatsFound.{AddsFormat, AddsTexts, HoldsFormats};
ghost use Rattle.statement_rules.specs.FormatsFound.{HoldsTexts, format_text, text_of_source};
ghost use Rattle.statement_rules.specs.FormatsFound.{texts_of_shape, the_text};

use format_edit::{Format, FormatFault};
use indexmap::IndexMap;
use meaning::syntax::{FormatSource, Item, Shape};
use std::alloc::{AllocError, Global};
use std::collections::BTreeMap;

/// The formats of a program unit.
#[derive(Drop)]
pub struct Formats {
    /// Those of the FORMAT statements by their labels.
    pub by_label: BTreeMap<u32, Format>,
    /// Those in character constants by the constants' texts.
    pub texts: IndexMap<Vec<u8>, Format>,
}

impl Formats {
    /// Those of no statements.
    pub(crate) fn new(alloc: Global) -> Formats
        ensures { HoldsFormats [] result }
    {
        Formats {
            by_label: BTreeMap::new(alloc),
            texts: IndexMap::new(alloc),
        }
    }
}

/// Puts a format behind a label, unless one stands there.
fn keep_labelled(
    formats: &mut BTreeMap<u32, Format>,
    label: Option<u32>,
    format: Format,
) -> Result<(), AllocError>
    ensures { OnOk result (AddsFormat label (Some (descriptors format)) formats.old formats.new) }
{
    match label {
        Some(label) => {
            if formats.contains_key(&label) {
                drop(format);
                return Ok(());
            }
            formats.insert(label, format)?;
            Ok(())
        }
        None => {
            drop(format);
            Ok(())
        }
    }
}

/// Reads the text of a FORMAT statement and puts the format behind its label, unless one stands
/// there; whether the text is none.
fn read_labelled(
    formats: &mut BTreeMap<u32, Format>,
    alloc: Global,
    label: Option<u32>,
    text: &[u8],
) -> Result<bool, AllocError>
    ensures told { IfOk result (λ b. b ≡ is_none (descriptors_of text.now)) }
    ensures kept { OnOk result
        (AddsFormat label (descriptors_of text.now) formats.old formats.new) }
{
    match Format::read_inside(alloc, text) {
        Ok(format) => {
            keep_labelled(formats, label, format)?;
            Ok(false)
        }
        Err(FormatFault::Broken) => Ok(true),
        Err(FormatFault::Memory) => Err(AllocError),
    }
}

/// Keeps the format of a text of which none is kept.
fn keep_text(
    texts: &mut IndexMap<Vec<u8>, Format>,
    alloc: Global,
    text: &[u8],
    format: Format,
) -> Result<(), AllocError>
    requires unknown { is_some (kept_at texts.old text.now) ≡ false }
    requires read { format_in (undoubled text.now) ≡ Some (descriptors format) }
    ensures { OnOk result (AddsTexts (the_text text.now) texts.old texts.new) }
{
    let own = Vec::from_slice(alloc, text)?;
    texts.insert(own, format)?;
    Ok(())
}

/// Reads the format in a character constant and keeps it, unless it was read before; whether the
/// constant has none.
fn read_text(
    texts: &mut IndexMap<Vec<u8>, Format>,
    alloc: Global,
    text: &[u8],
) -> Result<bool, AllocError>
    ensures told { FindsOk (λ these. HoldsTexts these texts.old)
        (λ _. is_none (format_in (undoubled text.now))) result }
    ensures kept { OnOk result (AddsTexts (the_text text.now) texts.old texts.new) }
{
    if texts.contains_key(text) {
        return Ok(false);
    }
    match Format::read_constant(alloc, text) {
        Ok(format) => {
            keep_text(texts, alloc, text, format)?;
            Ok(false)
        }
        Err(FormatFault::Broken) => Ok(true),
        Err(FormatFault::Memory) => Err(AllocError),
    }
}

/// Reads the format of a WRITE or PRINT statement, if it stands in a character constant.
fn read_source(
    texts: &mut IndexMap<Vec<u8>, Format>,
    alloc: Global,
    source: &FormatSource,
) -> Result<bool, AllocError>
    ensures told { FindsOk (λ these. HoldsTexts these texts.old)
        (λ _. is_unread_source (format_tree source.now)) result }
    ensures kept { OnOk result (AddsTexts (text_of_source source.now) texts.old texts.new) }
{
    match source {
        FormatSource::Label(_) => Ok(false),
        FormatSource::Constant(text) => read_text(texts, alloc, text),
    }
}

/// Whether a text is no format.
fn is_no_format(alloc: Global, text: &[u8]) -> Result<bool, AllocError>
    ensures { IfOk result (λ b. b ≡ is_none (descriptors_of text.now)) }
{
    match Format::read_inside(alloc, text) {
        Ok(format) => {
            drop(format);
            Ok(false)
        }
        Err(FormatFault::Broken) => Ok(true),
        Err(FormatFault::Memory) => Err(AllocError),
    }
}

/// Reads the format of a statement that is no FORMAT statement; where a logical IF has one, which
/// no source spells, that isn't kept.
fn read_shape(
    texts: &mut IndexMap<Vec<u8>, Format>,
    alloc: Global,
    shape: &Shape,
) -> Result<bool, AllocError>
    ensures told { FindsOk (λ these. HoldsTexts these texts.old)
        (λ _. is_unread (shape_tree shape.now)) result }
    ensures kept { OnOk result (AddsTexts (texts_of_shape shape.now) texts.old texts.new) }
{
    match shape {
        Shape::Write { control, list: _ } => read_source(texts, alloc, &control.format),
        Shape::Print { format, list: _ } => read_source(texts, alloc, format),
        Shape::Format(text) => is_no_format(alloc, text),
        Shape::LogicalIf(_, statement) => read_shape(texts, alloc, statement),
        _ => Ok(false),
    }
}

/// The text of a FORMAT statement.
fn text_of(shape: &Shape) -> Option<&[u8]>
    ensures { option_map (λ t. t.now) result ≡ format_text (shape_tree shape.now) }
{
    match shape {
        Shape::Format(text) => Some(text),
        _ => None,
    }
}

/// The label of a statement.
fn label_in(item: &Item) -> Option<u32>
    ensures label { result ≡ item.now.label }
    ensures small { (s : ℕ) → 2 ^ 32 ≤ s → is_label_at result s ≡ false }
{
    let label = item.label?;
    Some(label)
}

/// Reads the format of a statement, if it has one; whether what has to be one is none.
pub(crate) fn read_item(
    formats: &mut Formats,
    alloc: Global,
    item: &Item,
) -> Result<bool, AllocError>
    ensures told { FindsOk (λ before. HoldsFormats before formats.old)
        (λ before. breaks_reading before (item_tree item.now)) result }
    ensures kept { OnOk result
        (Passes (λ before. HoldsFormats before formats.old)
        (λ before. HoldsFormats before formats.new) item.now) }
{
    let label = label_in(item);
    match text_of(&*item.form.shape) {
        Some(text) => read_labelled(&mut formats.by_label, alloc, label, text),
        None => read_shape(&mut formats.texts, alloc, &*item.form.shape),
    }
}
