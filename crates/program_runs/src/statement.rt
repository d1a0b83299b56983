//! Single statements (ANSI X3.9-1978, 10.1, 11.5, 11.11 and 12.8).

ghost use Rattle.std.specs.Prelude.{◌≡◌, Some, false, not, length, unwrap_or, option_map, IfOk};
ghost use Rattle.std.specs.Prelude.{IsTrue};
ghost use Rattle.meaning.specs.Syntax.{ShapeTree, expr_tree, format_tree, list_items_tree};
ghost use Rattle.meaning.specs.Syntax.{logical_if, shape_tree};
ghost use Rattle.meaning.specs.Trees.{item_tree};
ghost use Rattle.meaning.specs.Execution.{parts_for, step};
ghost use Rattle.meaning.specs.Records.{edited};
ghost use Rattle.meaning.specs.Formats.{format_in, no_parts, undoubled};
ghost use Rattle.meaning.specs.Values.{value as value_of};
ghost use Rattle.format_edit.specs.Formatted.{descriptors};
ghost use Rattle.storage.specs.Checked.{items_in, count_in};
ghost use Rattle.storage.specs.Starts.{map_of};
ghost use Rattle.program.specs.Programs.{IsStatement};
ghost use Rattle.values.specs.Programs.{scope_in};
ghost use Rattle.label_targets.specs.Quiet.{output_in, output_tree};
ghost use Rattle.program.specs.Asked.{ListIs, is_logical_if};
ghost use Rattle.program.specs.Codes.{IsCode};
ghost use Rattle.program.specs.Items.{AreItems};
ghost use Rattle.evaluator.specs.Statements.{Spends};
ghost use Rattle.program_runs.specs.Walk.{StepsIn, output_as};
ghost use Rattle.program_runs.specs.Conditions.{AreSomeParts};
ghost use Rattle.program_runs.specs.Recorded.{AreEdited, AreRecorded, recorded};

use crate::halt::Halt;
use array_store::Whole;
use evaluator::{logical_if_of, take_turn};
use expressions::as_logical;
use format_edit::{EditFault, Format, FormatFault, edit};
use label_targets::output_of;
use meaning::ending::{Fault, FaultKind, Outcome, Value};
use meaning::syntax::{Expr, FormatSource, Item, ListItems, Shape};
use postfix::Code;
use program::{Action, ListCodes, Program};
use record_sinks::{Sink, put_all};
use std::alloc::{AllocError, Global};
use values::value;
use whole_runs::{item_whole, list_whole};

// The records of a WRITE or PRINT statement, or its fault; implied DOs set their variables.
fn recorded_list(
    alloc: Global,
    program: &Program,
    source: &FormatSource,
    list: &ListItems,
    codes: &ListCodes,
    cells: &mut Whole,
) -> Result<Result<Vec<u8>, FaultKind>, AllocError>
    requires coded { AreItems program.now (list_items_tree list.now) codes.now }
    requires sized { length cells.old ≡ count_in program.now }
    ensures recorded { IfOk result (λ r. AreRecorded r (map_of program.now cells.new)
        (recorded (items_in program.now) (format_tree source.now) (list_items_tree list.now)
        (map_of program.now cells.old))) }
    ensures len { length cells.new ≡ length cells.old }
{
    match list_whole(alloc, program, list, codes, cells)? {
        Ok(found) => edited_list(alloc, program, source, &found),
        Err(kind) => Ok(Err(kind)),
    }
}

// The records of values under a format, or the fault.
fn edited_by(
    alloc: Global,
    format: &Format,
    found: &[Value],
) -> Result<Result<Vec<u8>, FaultKind>, AllocError>
    ensures { IfOk result (λ r. AreEdited r (edited (descriptors format.now) found.now)) }
{
    match edit(alloc, format, found) {
        Ok(records) => Ok(Ok(records)),
        Err(EditFault::F7) => Ok(Err(FaultKind::F7)),
        Err(EditFault::F8) => Ok(Err(FaultKind::F8)),
        Err(EditFault::Memory) => Err(AllocError),
    }
}

// The format in a character constant; the rules of the language leave one.
fn constant_format(alloc: Global, text: &[u8]) -> Result<Format, AllocError>
    ensures { IfOk result
        (λ f. descriptors f ≡ unwrap_or (format_in (undoubled text.now)) no_parts) }
{
    match Format::read_constant(alloc, text) {
        Ok(format) => Ok(format),
        Err(FormatFault::Broken) => Ok(blank(alloc)),
        Err(FormatFault::Memory) => Err(AllocError),
    }
}

// A format without parts.
fn blank(alloc: Global) -> Format
    ensures { descriptors result ≡ no_parts }
{
    Format {
        parts: Vec::new(alloc),
    }
}

// The records of values under the format that a WRITE or PRINT statement names or has, or the
// fault.
fn edited_list(
    alloc: Global,
    program: &Program,
    source: &FormatSource,
    found: &[Value],
) -> Result<Result<Vec<u8>, FaultKind>, AllocError>
    ensures { IfOk result (λ r. AreEdited r
        (edited (parts_for (items_in program.now) (format_tree source.now)) found.now)) }
{
    match source {
        FormatSource::Label(digits) => {
            let blank = blank(alloc);
            let format = program.format(digits).unwrap_or(&blank);
            edited_by(alloc, format, found)
        }
        FormatSource::Constant(text) => match program.text_format(text) {
            Some(format) => edited_by(alloc, format, found),
            None => {
                let format = constant_format(alloc, text)?;
                edited_by(alloc, &format, found)
            }
        },
    }
}

// Executes a WRITE or PRINT statement: all its records are made before the first byte goes out.
fn execute_output<S: Sink>(
    alloc: Global,
    program: &Program,
    line: u32,
    source: &FormatSource,
    list: &ListItems,
    codes: &ListCodes,
    cells: &mut Whole,
    turns: &mut u64,
    sink: &mut S,
) -> Result<Outcome, Halt>
    requires coded { AreItems program.now (list_items_tree list.now) codes.now }
    requires sized { length cells.old ≡ count_in program.now }
    requires unrefused { (S.told sink.old).refused ≡ false }
    ensures steps { StepsIn program.now cells.old cells.new
        (output_as (items_in program.now) (format_tree source.now)
        (list_items_tree list.now) line)
        turns.old turns.new result (S.told sink.old) (S.told sink.new) }
    ensures spends { IfOk result (λ o. Spends o turns.old turns.new) }
    ensures len { length cells.new ≡ length cells.old }
{
    if !take_turn(turns) {
        return Ok(Outcome::Fault(Fault {
            kind: FaultKind::F4,
            line,
        }));
    }
    match recorded_list(alloc, program, source, list, codes, cells)? {
        Ok(records) => {
            put_all(sink, &records)?;
            Ok(Outcome::Normal)
        }
        Err(kind) => Ok(Outcome::Fault(Fault { kind, line })),
    }
}

// The code of the condition of a logical IF, and what its statement needs.
fn conditional_in<'a>(
    program: &'a Program,
    item: &Item,
    condition: &Expr,
    statement: &Shape,
) -> Option<(&'a Code, &'a Action)>
    requires known { IsStatement program.now (item_tree item.now) }
    requires logical { shape_tree item.now.form.shape.value ≡
        logical_if (expr_tree condition.now) (shape_tree statement.now) }
    ensures { AreSomeParts program.now (expr_tree condition.now) (shape_tree statement.now) result }
{
    match program.action(item.line) {
        Some(action) => action.conditional(),
        None => None,
    }
}

// The codes of the list of a statement of the program.
fn list_in<'a>(program: &'a Program, item: &Item) -> Option<&'a ListCodes>
    requires known { IsStatement program.now (item_tree item.now) }
    ensures { ListIs program.now (shape_tree item.now.form.shape.value) result }
{
    match program.action(item.line) {
        Some(action) => action.list(),
        None => None,
    }
}

// The value of a condition by its code, or its fault. The cells keep their values.
fn condition_value(
    program: &Program,
    condition: &Expr,
    code: &Code,
    cells: &mut Whole,
) -> Result<Value, FaultKind>
    requires code { IsCode program.now (expr_tree condition.now) code.now }
    requires sized { length cells.old ≡ count_in program.now }
    ensures is { value_of (scope_in program.now) (expr_tree condition.now)
        (map_of program.now cells.old) ≡ result }
    ensures kept { map_of program.now cells.new ≡ map_of program.now cells.old }
    ensures len { length cells.new ≡ length cells.old }
{
    value(program, code, cells)
}

// Executes a logical IF over a WRITE or PRINT statement: it takes a turn, and the statement, where
// the condition is true, another.
fn execute_if<S: Sink>(
    alloc: Global,
    program: &Program,
    line: u32,
    condition: &Expr,
    code: &Code,
    source: &FormatSource,
    list: &ListItems,
    codes: &ListCodes,
    cells: &mut Whole,
    turns: &mut u64,
    sink: &mut S,
) -> Result<Outcome, Halt>
    requires code { IsCode program.now (expr_tree condition.now) code.now }
    requires coded { AreItems program.now (list_items_tree list.now) codes.now }
    requires sized { length cells.old ≡ count_in program.now }
    requires unrefused { (S.told sink.old).refused ≡ false }
    ensures steps { (s : ShapeTree) →
        Some (format_tree source.now, list_items_tree list.now) ≡ output_in s →
        StepsIn program.now cells.old cells.new
        (step (items_in program.now) (logical_if (expr_tree condition.now) s) line)
        turns.old turns.new result (S.told sink.old) (S.told sink.new) }
    ensures spends { IfOk result (λ o. Spends o turns.old turns.new) }
    ensures len { length cells.new ≡ length cells.old }
{
    if !take_turn(turns) {
        return Ok(Outcome::Fault(Fault {
            kind: FaultKind::F4,
            line,
        }));
    }
    match condition_value(program, condition, code, cells) {
        Ok(x) => {
            if as_logical(x) {
                return execute_output(
                    alloc, program, line, source, list, codes, cells, turns, sink,
                );
            }
            Ok(Outcome::Normal)
        }
        Err(kind) => Ok(Outcome::Fault(Fault { kind, line })),
    }
}

// Executes a logical IF over a WRITE or PRINT statement, whose parts are these.
fn execute_writing<S: Sink>(
    alloc: Global,
    program: &Program,
    item: &Item,
    condition: &Expr,
    statement: &Shape,
    source: &FormatSource,
    list: &ListItems,
    cells: &mut Whole,
    turns: &mut u64,
    sink: &mut S,
) -> Result<Outcome, Halt>
    requires logical { shape_tree item.now.form.shape.value ≡
        logical_if (expr_tree condition.now) (shape_tree statement.now) }
    requires writes { Some (format_tree source.now, list_items_tree list.now) ≡
        output_in (shape_tree statement.now) }
    requires known { IsStatement program.now (item_tree item.now) }
    requires sized { length cells.old ≡ count_in program.now }
    requires unrefused { (S.told sink.old).refused ≡ false }
    ensures steps { StepsIn program.now cells.old cells.new
        (step (items_in program.now) (shape_tree item.now.form.shape.value) item.now.line)
        turns.old turns.new result (S.told sink.old) (S.told sink.new) }
    ensures spends { IfOk result (λ o. Spends o turns.old turns.new) }
    ensures len { length cells.new ≡ length cells.old }
{
    let line = item.line;
    match conditional_in(program, item, condition, statement) {
        Some((code, action)) => match action.list() {
            Some(codes) => execute_if(
                alloc, program, line, condition, code, source, list, codes, cells, turns, sink,
            ),
            None => Ok(Outcome::Normal),
        },
        None => Ok(Outcome::Normal),
    }
}

// Executes a logical IF.
fn execute_under<S: Sink>(
    alloc: Global,
    program: &Program,
    item: &Item,
    condition: &Expr,
    statement: &Shape,
    cells: &mut Whole,
    turns: &mut u64,
    sink: &mut S,
) -> Result<Outcome, Halt>
    requires logical { shape_tree item.now.form.shape.value ≡
        logical_if (expr_tree condition.now) (shape_tree statement.now) }
    requires known { IsStatement program.now (item_tree item.now) }
    requires sized { length cells.old ≡ count_in program.now }
    requires unrefused { (S.told sink.old).refused ≡ false }
    ensures steps { StepsIn program.now cells.old cells.new
        (step (items_in program.now) (shape_tree item.now.form.shape.value) item.now.line)
        turns.old turns.new result (S.told sink.old) (S.told sink.new) }
    ensures spends { IfOk result (λ o. Spends o turns.old turns.new) }
    ensures len { length cells.new ≡ length cells.old }
{
    match output_of(statement) {
        Some((source, list)) => execute_writing(
            alloc, program, item, condition, statement, source, list, cells, turns, sink,
        ),
        None => Ok(item_whole(program, item, cells, turns)),
    }
}

// The format and the list of a statement that is WRITE or PRINT.
fn output_in_place(item: &Item) -> Option<(&FormatSource, &ListItems)>
    ensures { option_map output_tree result ≡ output_in (shape_tree item.now.form.shape.value) }
{
    output_of(&*item.form.shape)
}

// Executes a statement that is no logical IF.
fn execute_alone<S: Sink>(
    alloc: Global,
    program: &Program,
    item: &Item,
    cells: &mut Whole,
    turns: &mut u64,
    sink: &mut S,
) -> Result<Outcome, Halt>
    requires alone { IsTrue (not (is_logical_if (shape_tree item.now.form.shape.value))) }
    requires known { IsStatement program.now (item_tree item.now) }
    requires sized { length cells.old ≡ count_in program.now }
    requires unrefused { (S.told sink.old).refused ≡ false }
    ensures steps { StepsIn program.now cells.old cells.new
        (step (items_in program.now) (shape_tree item.now.form.shape.value) item.now.line)
        turns.old turns.new result (S.told sink.old) (S.told sink.new) }
    ensures spends { IfOk result (λ o. Spends o turns.old turns.new) }
    ensures len { length cells.new ≡ length cells.old }
{
    match output_in_place(item) {
        Some((source, list)) => match list_in(program, item) {
            Some(codes) => execute_output(
                alloc, program, item.line, source, list, codes, cells, turns, sink,
            ),
            None => Ok(Outcome::Normal),
        },
        None => Ok(item_whole(program, item, cells, turns)),
    }
}

/// Executes one statement that stands by itself, or passes over one that isn't executable. Answers
/// how it ended.
pub fn execute_item<S: Sink>(
    alloc: Global,
    program: &Program,
    item: &Item,
    cells: &mut Whole,
    turns: &mut u64,
    sink: &mut S,
) -> Result<Outcome, Halt>
    requires known { IsStatement program.now (item_tree item.now) }
    requires sized { length cells.old ≡ count_in program.now }
    requires unrefused { (S.told sink.old).refused ≡ false }
    ensures steps { StepsIn program.now cells.old cells.new
        (step (items_in program.now) (shape_tree item.now.form.shape.value) item.now.line)
        turns.old turns.new result (S.told sink.old) (S.told sink.new) }
    ensures spends { IfOk result (λ o. Spends o turns.old turns.new) }
    ensures len { length cells.new ≡ length cells.old }
{
    match logical_if_of(item) {
        Some((condition, statement)) => execute_under(
            alloc, program, item, condition, statement, cells, turns, sink,
        ),
        None => execute_alone(alloc, program, item, cells, turns, sink),
    }
}
