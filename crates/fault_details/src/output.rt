//! WRITE and PRINT statements, evaluated up to the first fault (ANSI X3.9-1978, 12.8 and 13.3).

ghost use Rattle.std.specs.Prelude.{◌≡◌, Some, IfErr, IfSome};
ghost use Rattle.format_edit.specs.Formatted.{descriptors};
ghost use Rattle.fault_details.specs.Details.{IsStop};
ghost use Rattle.fault_details.specs.Fields.{differs, field_of};
ghost use Rattle.fault_details.specs.Meeting.{GoesTo, HasFormat};

use crate::detail::{Detail, Field, Stop};
use crate::evaluation::{Scene, cell_value, named_value, value_in};
use crate::fields::field_for;
use crate::statement::evaluate;
use expressions::{Cells, Numbering};
use format_edit::Format;
use meaning::ending::{FaultKind, Value};
use meaning::syntax::{Expr, FormatSource, ListItem, ListItems};
use storage::CheckedProgram;

/// The most items of an output list.
const MOST_VALUES: usize = 65_536;

// Whether an output list has no implied DO, the variables of which would have other values than at
// the fault.
fn is_plain(list: &ListItems) -> bool {
    match list {
        ListItems::Empty => true,
        ListItems::More(item, rest) => match item {
            ListItem::Value(_) => is_plain(rest),
            ListItem::Loop {
                items: _,
                variable: _,
                limits: _,
            } => false,
        },
    }
}

// An item of an output list. A name, which may be an array's, is no fault.
fn write_item<'a>(item: &'a ListItem, scene: &Scene<'a>) -> Result<(), Stop<'a>>
    ensures { IfErr result (IsStop scene.now.program.now) }
{
    match item {
        ListItem::Value(value) => match value {
            Expr::Name(_) => Ok(()),
            _ => evaluate(value, scene),
        },
        ListItem::Loop {
            items: _,
            variable: _,
            limits: _,
        } => Err(Stop::Unknown),
    }
}

// The items of an output list, first to last.
fn write_items<'a>(list: &'a ListItems, scene: &Scene<'a>) -> Result<(), Stop<'a>>
    ensures { IfErr result (IsStop scene.now.program.now) }
{
    match list {
        ListItems::Empty => Ok(()),
        ListItems::More(item, rest) => {
            write_item(item, scene)?;
            write_items(rest, scene)
        }
    }
}

// Whether a value has another type than the values that an edit descriptor edits.
fn differs(value: Value, field: Field) -> bool
    ensures { result ≡ differs value field }
{
    match value {
        Value::Int(_) => match field {
            Field::Integer { width: _, least: _ } => false,
            Field::Logical { width: _ } => true,
        },
        Value::Bool(_) => match field {
            Field::Integer { width: _, least: _ } => true,
            Field::Logical { width: _ } => false,
        },
    }
}

// A value and the edit descriptor that it meets.
fn meet<'a>(value: Value, field: Field, scene: &Scene<'a>) -> Result<(), Stop<'a>>
    requires { GoesTo scene.now.program.now (Some (field_of field)) }
    ensures { IfErr result (IsStop scene.now.program.now) }
{
    if differs(value, field) {
        Err(Stop::Fault {
            kind: FaultKind::F7,
            detail: Detail::Clash { value, field },
        })
    } else {
        Ok(())
    }
}

// A value behind so many others, under a format. Answers how many there are with it.
fn edit_value<'a>(
    value: Value,
    before: usize,
    format: &Format,
    scene: &Scene<'a>,
) -> Result<usize, Stop<'a>>
    requires { HasFormat scene.now.program.now (descriptors format.now) }
    ensures { IfErr result (IsStop scene.now.program.now) }
{
    if before >= MOST_VALUES {
        return Err(Stop::Unknown);
    }
    match field_for(format, before) {
        Some(field) => {
            meet(value, field, scene)?;
            Ok(before + 1)
        }
        None => Err(Stop::Fault {
            kind: FaultKind::F7,
            detail: Detail::Unedited { value },
        }),
    }
}

// The elements of an array, first to last, behind so many values (5.2.5 and 12.8.2.1).
fn edit_array<'a>(
    array: Cells<'a>,
    before: usize,
    format: &Format,
    scene: &Scene<'a>,
) -> Result<usize, Stop<'a>>
    requires { HasFormat scene.now.program.now (descriptors format.now) }
    ensures { IfErr result (IsStop scene.now.program.now) }
{
    let first = array.place.first().unwrap_or(0);
    let mut count = before;
    for at in first..first.saturating_add(array.place.size()) {
        let value = cell_value(array.data_type, at, scene)?;
        count = edit_value(value, count, format, scene)?;
    }
    Ok(count)
}

// A name behind so many values.
fn edit_name<'a>(
    name: &'a [u8],
    before: usize,
    format: &Format,
    scene: &Scene<'a>,
) -> Result<usize, Stop<'a>>
    requires { HasFormat scene.now.program.now (descriptors format.now) }
    ensures { IfErr result (IsStop scene.now.program.now) }
{
    match scene.program.array(name) {
        Some(array) => edit_array(array, before, format, scene),
        None => {
            let value = named_value(name, scene)?;
            edit_value(value, before, format, scene)
        }
    }
}

// An item behind so many values.
fn edit_item<'a>(
    item: &'a ListItem,
    before: usize,
    format: &Format,
    scene: &Scene<'a>,
) -> Result<usize, Stop<'a>>
    requires { HasFormat scene.now.program.now (descriptors format.now) }
    ensures { IfErr result (IsStop scene.now.program.now) }
{
    match item {
        ListItem::Value(expression) => match expression {
            Expr::Name(name) => edit_name(name, before, format, scene),
            _ => {
                let value = value_in(expression, scene)?;
                edit_value(value, before, format, scene)
            }
        },
        ListItem::Loop {
            items: _,
            variable: _,
            limits: _,
        } => Err(Stop::Unknown),
    }
}

// Items behind so many values, first to last.
fn edit_items<'a>(
    list: &'a ListItems,
    before: usize,
    format: &Format,
    scene: &Scene<'a>,
) -> Result<(), Stop<'a>>
    requires { HasFormat scene.now.program.now (descriptors format.now) }
    ensures { IfErr result (IsStop scene.now.program.now) }
{
    match list {
        ListItems::Empty => Ok(()),
        ListItems::More(item, rest) => {
            let count = edit_item(item, before, format, scene)?;
            edit_items(rest, count, format, scene)
        }
    }
}

// The format that a statement names or has.
fn format_of<'a>(source: &FormatSource, program: &'a CheckedProgram) -> Option<&'a Format>
    ensures { IfSome result (λ f. HasFormat program.now (descriptors f.now)) }
{
    match source {
        FormatSource::Label(digits) => program.format(digits),
        FormatSource::Constant(text) => program.text_format(text),
    }
}

// The values of an output list under the format that its statement names or has.
fn edit<'a>(source: &FormatSource, list: &'a ListItems, scene: &Scene<'a>) -> Result<(), Stop<'a>>
    ensures { IfErr result (IsStop scene.now.program.now) }
{
    match format_of(source, scene.program) {
        Some(format) => edit_items(list, 0, format, scene),
        None => Err(Stop::Unknown),
    }
}

/// An output list: its values, and then the edit descriptors that they meet.
pub(crate) fn write<'a>(
    source: &FormatSource,
    list: &'a ListItems,
    scene: &Scene<'a>,
) -> Result<(), Stop<'a>>
    ensures { IfErr result (IsStop scene.now.program.now) }
{
    if is_plain(list) {
        write_items(list, scene)?;
        edit(source, list, scene)
    } else {
        Err(Stop::Unknown)
    }
}
