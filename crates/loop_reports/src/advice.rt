//! What to do about a loop of whose stages little was committed.

ghost use Rattle.std.specs.Prelude.{◌≡◌, ◌++◌, IfOk, OnOk};
ghost use Rattle.cell_names.specs.Cells.{are_named};
ghost use Rattle.cell_names.specs.Told.{told_at};
ghost use Rattle.loop_reports.specs.Advice.{advice_line, are_light as are_light_by, carried_line};
ghost use Rattle.loop_reports.specs.Advice.{carried_text, is_carried as is_carried_by};
ghost use Rattle.loop_reports.specs.Advice.{is_left_early as is_left_early_by};
ghost use Rattle.loop_reports.specs.Advice.{is_variable as is_told_variable, other_advice};

use crate::counts::Counts;
use crate::row::Carried;
use crate::text::{put, put_cell};
use cell_names::{Named, name_of_cell};
use std::alloc::{AllocError, Global};

// Whether stages were cut at a dependence as often as not.
fn is_carried(counts: &Counts) -> bool
    ensures { result ≡ is_carried_by counts.now }
{
    counts.stages.saturating_sub(counts.by_dependence) <= counts.by_dependence
}

// Whether more turns were in vain than not, in a loop that was left.
fn is_left_early(counts: &Counts) -> bool
    ensures { result ≡ is_left_early_by counts.now }
{
    0 < counts.by_exit && counts.turns < counts.spent.saturating_sub(counts.turns)
}

// Whether blocks have fewer turns than a thread costs.
fn are_light(counts: &Counts) -> bool
    ensures { result ≡ are_light_by counts.now }
{
    counts.spent < counts.run.saturating_mul(2048)
}

// Whether a cell is a variable's.
fn is_variable(alloc: Global, names: &[Named], cell: usize) -> Result<bool, AllocError>
    ensures { IfOk result (λ b. b ≡ is_told_variable (told_at (are_named names.now) cell)) }
{
    match name_of_cell(alloc, names, cell)? {
        Some(name) => Ok(name.subscripts.is_empty()),
        None => Ok(false),
    }
}

// What to do about a cell that keeps trips in order.
fn carried_words(is_variable: bool) -> &'static str
    ensures { result.now ≡ carried_text is_variable }
{
    if is_variable {
        " is carried from trip to trip: take one for each section of the trips, or --workers 1\n"
    } else {
        " is written in one trip and read in a later one: try another loop of the nest, or --workers 1\n"
    }
}

// Puts what to do about a cell that keeps trips in order.
fn put_carried(
    text: &mut Vec<u8>,
    alloc: Global,
    names: &[Named],
    cell: usize,
) -> Result<(), AllocError>
    ensures { OnOk result
        (text.new.items ≡ text.old.items ++ carried_line (are_named names.now) cell) }
{
    let is_variable = is_variable(alloc, names, cell)?;
    put(text, "    ADVICE ")?;
    put_cell(text, alloc, names, cell)?;
    put(text, carried_words(is_variable))
}

// Puts what to do about other things.
fn put_other(text: &mut Vec<u8>, counts: &Counts) -> Result<(), AllocError>
    ensures { OnOk result (text.new.items ≡ text.old.items ++ other_advice counts.now) }
{
    if is_left_early(counts) {
        put(
            text,
            "    ADVICE the loop is left early: the trips behind were in vain, fewer of them with a smaller --window\n",
        )
    } else if are_light(counts) {
        put(
            text,
            "    ADVICE blocks have too few turns for a thread: take a larger --block, or leave --speculate out\n",
        )
    } else {
        Ok(())
    }
}

/// Puts what to do about a DO statement behind what is there, if there is something; stages were
/// cut at this cell most often, if at one.
pub(crate) fn put_advice(
    text: &mut Vec<u8>,
    alloc: Global,
    names: &[Named],
    counts: &Counts,
    dependence: Option<(usize, Carried)>,
) -> Result<(), AllocError>
    ensures { OnOk result (text.new.items
        ≡ text.old.items ++ advice_line (are_named names.now) counts.now dependence) }
{
    match dependence {
        Some((cell, _)) => {
            if is_carried(counts) {
                put_carried(text, alloc, names, cell)
            } else {
                put_other(text, counts)
            }
        }
        None => put_other(text, counts),
    }
}
