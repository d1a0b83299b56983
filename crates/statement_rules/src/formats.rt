//! Units and formats (ANSI X3.9-1978, 12.3, 12.4 and 13.1).

ghost use Rattle.std.specs.Prelude.{◌≡◌, ◌||◌, ◌^◌, ◌≤◌, [], ℕ, false, map, IfOk, OnOk};
ghost use Rattle.meaning.specs.Trees.{item_tree};
ghost use Rattle.rule_passes.specs.Listed.{tree_at};
ghost use Rattle.meaning.specs.LabelRules.{is_format_at, is_label_at, is_six as is_value_six};
ghost use Rattle.rule_passes.specs.Telling.{AddsTold, Finds};
ghost use Rattle.statement_rules.specs.FormatLabels.{AreFormats, HasFormats, IsOutput, KnowsOutput};
ghost use Rattle.statement_rules.specs.FormatLabels.{breaks_either, breaks_output, breaks_places};
ghost use Rattle.statement_rules.specs.FormatLabels.{is_format_of, is_found_by, is_misplaced_at};
ghost use Rattle.statement_rules.specs.FormatLabels.{is_unit_at};
ghost use Rattle.statement_rules.specs.FormatsFound.{HoldsFormats};

use crate::reading::{Formats, read_item};
use crate::transfers::label_of;
use declarations::{Table, is_no_constant, pass_constants, table_of, value_of};
use meaning::ending::Value;
use meaning::refusal::{Broken, Rule};
use meaning::syntax::{FormatSource, Item, Shape, Unit};
use rule_passes::{Behind, add_broken};
use std::alloc::{AllocError, Global};
use std::collections::BTreeSet;
use symbols::Symbols;

/// The label of a FORMAT statement.
fn format_label(item: &Item) -> Option<u32>
    ensures label { (s : ℕ) → is_label_at result s ≡ is_format_at s (item_tree item.now) }
    ensures small { (s : ℕ) → 2 ^ 32 ≤ s → is_label_at result s ≡ false }
{
    match &*item.form.shape {
        Shape::Format(_) => {
            let label = item.label?;
            Some(label)
        }
        _ => None,
    }
}

/// The labels of the FORMAT statements.
fn format_labels(alloc: Global, items: &[&Item]) -> Result<BTreeSet<u32>, AllocError>
    ensures { IfOk result (λ labels. AreFormats labels (map tree_at items.now)) }
{
    let mut labels = BTreeSet::new(alloc);
    for item in items {
        match format_label(item) {
            Some(label) => {
                labels.insert(label)?;
            }
            None => {}
        }
    }
    Ok(labels)
}

/// Whether a value is the integer 6.
fn is_six(value: Option<Value>) -> bool
    ensures { result ≡ is_value_six value }
{
    match value {
        Some(Value::Int(number)) => number == 6,
        Some(Value::Bool(_)) => false,
        None => false,
    }
}

/// Whether a unit is an asterisk or a constant expression of value 6.
fn is_unit(table: &Table, unit: &Unit) -> bool
    ensures { result ≡ is_unit_at table.now unit.now }
{
    match unit {
        Unit::Star => true,
        Unit::Number(number) => !is_no_constant(table, number) && is_six(value_of(table, number)),
    }
}

/// Whether a FORMAT statement has the label that digits spell.
fn is_format_label(labels: &BTreeSet<u32>, digits: &[u8]) -> bool
    ensures { Finds (AreFormats labels.now) (is_format_of digits.now) result }
{
    match label_of(digits) {
        Some(label) => labels.contains(&label),
        None => false,
    }
}

/// Whether a FORMAT statement has the label that stands for a format; a character constant needs
/// none.
fn is_found(labels: &BTreeSet<u32>, source: &FormatSource) -> bool
    ensures { Finds (AreFormats labels.now) (is_found_by source.now) result }
{
    match source {
        FormatSource::Label(digits) => is_format_label(labels, digits),
        FormatSource::Constant(_) => true,
    }
}

/// What breaks the rule on units and on the labels of formats.
#[derive(Drop)]
pub struct BadOutput<'a> {
    alloc: Global,
    table: Table<'a>,
    labels: BTreeSet<u32>,
}

/// Whether a statement has a unit that isn't allowed or the label of no FORMAT statement, or is a
/// FORMAT statement without a label.
fn is_misplaced(output: &BadOutput, label: Option<u32>, shape: &Shape) -> bool
    ensures { Finds (HasFormats output.now) (is_misplaced_at output.now label shape.now) result }
{
    match shape {
        Shape::Write { control, list: _ } => {
            !is_unit(&output.table, &control.unit) || !is_found(&output.labels, &control.format)
        }
        Shape::Print { format, list: _ } => !is_found(&output.labels, format),
        Shape::Format(_) => label.is_none(),
        Shape::LogicalIf(_, statement) => is_misplaced(output, label, statement),
        _ => false,
    }
}

impl Behind for BadOutput<'_> {
    ghost breaks = { λ s before x. breaks_places s.table.symbols.now before x };

    ghost knows = { λ s before. KnowsOutput s before };

    fn is_broken(&self, item: &Item) -> Result<bool, AllocError> {
        Ok(is_misplaced(self, item.label, &*item.form.shape))
    }

    fn pass(&mut self, item: &Item) -> Result<(), AllocError> {
        pass_constants(&mut self.table, self.alloc, item)
    }
}

/// What is known of units and of the labels of formats, where no statement was passed yet.
fn output_of<'a>(alloc: Global, symbols: &'a Symbols<'a>) -> Result<BadOutput<'a>, AllocError>
    ensures { IfOk result (IsOutput symbols.now) }
{
    let labels = format_labels(alloc, symbols.items)?;
    Ok(BadOutput {
        alloc,
        table: table_of(alloc, symbols),
        labels,
    })
}

/// Whether a statement that is misplaced or whose format isn't read breaks the rule.
fn is_bad(misplaced: bool, unread: bool) -> bool
    ensures { result ≡ (misplaced || unread) }
{
    misplaced || unread
}

/// Adds the pair of each statement that breaks the rule, and reads the formats.
fn add_and_read(
    pairs: &mut Vec<Broken>,
    alloc: Global,
    output: &mut BadOutput,
    items: &[&Item],
) -> Result<Formats, AllocError>
    requires { KnowsOutput output.old [] }
    ensures told { OnOk result
        (AddsTold (breaks_either output.old) Rule.K11 items.now pairs.old.items pairs.new.items) }
    ensures formats { IfOk result (λ f. HoldsFormats (map tree_at items.now) f) }
{
    let mut formats = Formats::new(alloc);
    for item in items {
        let misplaced = output.is_broken(item)?;
        let unread = read_item(&mut formats, alloc, item)?;
        let broken = is_bad(misplaced, unread);
        add_broken(pairs, broken, item.line, Rule::K11)?;
        output.pass(item)?;
    }
    Ok(formats)
}

/// K11: adds the pair of each line at which a unit, a format label or a format isn't allowed; the
/// formats, each of which is read once.
pub fn add_bad_output(
    pairs: &mut Vec<Broken>,
    alloc: Global,
    symbols: &Symbols,
) -> Result<Formats, AllocError>
    ensures told { OnOk result
        (AddsTold (breaks_output symbols.now) Rule.K11 symbols.now.items.now pairs.old.items
        pairs.new.items) }
    ensures formats { IfOk result (λ f. HoldsFormats (map tree_at symbols.now.items.now) f) }
{
    let mut output = output_of(alloc, symbols)?;
    add_and_read(pairs, alloc, &mut output, symbols.items)
}
