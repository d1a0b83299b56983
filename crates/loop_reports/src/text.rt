//! The parts of the lines.

ghost use Rattle.std.specs.Prelude.{◌≡◌, ◌++◌, OnOk};
ghost use Rattle.std.specs.Fmt.{signed_decimal};
ghost use Rattle.cell_names.specs.Told.{told_at, told_by};
ghost use Rattle.cell_names.specs.Cells.{are_named};
ghost use Rattle.loop_reports.specs.Cells.{cell_text, counted, in_parentheses, more_subscripts};
ghost use Rattle.loop_reports.specs.Cells.{name_text, trips_text};

use crate::trips::Trips;
use cell_names::{CellName, Named, name_of_cell};
use itoa::Buffer;
use std::alloc::{AllocError, Global};

/// Puts a text behind what is there.
pub(crate) fn put(text: &mut Vec<u8>, word: &str) -> Result<(), AllocError>
    ensures { OnOk result (text.new.items ≡ text.old.items ++ word.now) }
{
    text.extend_from_slice(word.as_bytes())
}

/// Puts a word and a number behind what is there.
pub(crate) fn put_count(text: &mut Vec<u8>, word: &str, number: u64) -> Result<(), AllocError>
    ensures { OnOk result (text.new.items ≡ text.old.items ++ counted word.now number) }
{
    put(text, word)?;
    put(text, Buffer::new().format(number))
}

/// Puts some trips behind what is there.
pub(crate) fn put_trips(text: &mut Vec<u8>, word: &str, trips: Trips) -> Result<(), AllocError>
    ensures { OnOk result (text.new.items ≡ text.old.items ++ trips_text word.now trips) }
{
    put_count(text, word, trips.first)?;
    put_count(text, " TO ", trips.last)
}

/// Puts a cell behind what is there: its name with the subscripts of the element, or its number
/// where no name has it.
pub(crate) fn put_cell(
    text: &mut Vec<u8>,
    alloc: Global,
    names: &[Named],
    cell: usize,
) -> Result<(), AllocError>
    ensures { OnOk result (text.new.items
        ≡ text.old.items ++ cell_text (told_at (are_named names.now) cell) cell) }
{
    match name_of_cell(alloc, names, cell)? {
        Some(name) => put_name(text, name),
        None => put_count(text, "CELL ", cell as u64),
    }
}

// Puts a name with its subscripts behind what is there.
fn put_name(text: &mut Vec<u8>, name: CellName) -> Result<(), AllocError>
    ensures { OnOk result (text.new.items ≡ text.old.items ++ name_text (told_by name)) }
{
    text.extend_from_slice(&name.name)?;
    put_subscripts(text, &name.subscripts)
}

// Puts subscripts in parentheses behind what is there, if there are any.
fn put_subscripts(text: &mut Vec<u8>, subscripts: &[i32]) -> Result<(), AllocError>
    ensures { OnOk result (text.new.items ≡ text.old.items ++ in_parentheses subscripts.now) }
{
    match subscripts.split_first() {
        Some((first, more)) => {
            put_subscript(text, "(", *first)?;
            put_more(text, more)?;
            put(text, ")")
        }
        None => Ok(()),
    }
}

// Puts further subscripts behind what is there.
fn put_more(text: &mut Vec<u8>, subscripts: &[i32]) -> Result<(), AllocError>
    ensures { OnOk result (text.new.items ≡ text.old.items ++ more_subscripts subscripts.now) }
{
    for subscript in subscripts {
        put_subscript(text, ",", *subscript)?;
    }
    Ok(())
}

// Puts a sign and a subscript behind what is there.
fn put_subscript(text: &mut Vec<u8>, sign: &str, subscript: i32) -> Result<(), AllocError>
    ensures { OnOk result (text.new.items
        ≡ text.old.items ++ (sign.now ++ signed_decimal subscript)) }
{
    put(text, sign)?;
    put(text, Buffer::new().format(subscript))
}
