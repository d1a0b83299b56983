//! The lines on what speculation did.

ghost use Rattle.std.specs.Prelude.{◌≡◌, ◌++◌, IfOk, OnOk};
ghost use Rattle.std.specs.BTreeMap.{get};
ghost use Rattle.std.specs.Ordering.{nat_cmp};
ghost use Rattle.cell_names.specs.Cells.{are_named};
ghost use Rattle.loop_reports.specs.Lines.{behind_line, behind_turns, blocks_text, cost_text};
ghost use Rattle.loop_reports.specs.Lines.{cuts_at, cuts_text, dependence_line, execution_text};
ghost use Rattle.loop_reports.specs.Lines.{lines_of, loop_lines, reached_text, row_if, row_lines};
ghost use Rattle.loop_reports.specs.Lines.{speculated_lines, speculation_line, standing_text};
ghost use Rattle.loop_reports.specs.Lines.{times_text, totals_of, untried_text, with_counts_of};

use crate::advice::put_advice;
use crate::counts::Counts;
use crate::row::{Carried, Row, dependence_of};
use crate::text::{put, put_cell, put_count, put_trips};
use cell_names::Named;
use do_statements::{DoStatement, Standing};
use std::alloc::{AllocError, Global};
use std::collections::BTreeMap;

/// The lines on DO statements, in their order, and the line on speculation: of a program with these
/// statements and the cells of these names, of which that was noted, by one worker alone or by
/// more, and so many turns, where they are known. The `AllocError` comes where a growth was
/// refused.
pub fn told_loops(
    alloc: Global,
    names: &[Named],
    statements: &[DoStatement],
    rows: &BTreeMap<u32, Row>,
    is_alone: bool,
    turns: Option<u64>,
) -> Result<Vec<u8>, AllocError>
    ensures { IfOk result (λ text. text.items
        ≡ loop_lines (are_named names.now) statements.now rows.now is_alone turns) }
{
    let mut text = Vec::new(alloc);
    for statement in statements {
        put_statement(&mut text, alloc, names, rows, is_alone, statement)?;
    }
    put_speculation(&mut text, rows, turns)?;
    Ok(text)
}

// Puts the lines on a DO statement behind what is there.
fn put_statement(
    text: &mut Vec<u8>,
    alloc: Global,
    names: &[Named],
    rows: &BTreeMap<u32, Row>,
    is_alone: bool,
    statement: &DoStatement,
) -> Result<(), AllocError>
    ensures { OnOk result (text.new.items
        ≡ text.old.items ++ lines_of (are_named names.now) rows.now is_alone statement.now) }
{
    put_count(text, "  LOOP ", u64::from(statement.line))?;
    put_behind(
        text,
        alloc,
        names,
        is_alone,
        statement.standing,
        rows.get(&statement.line),
    )
}

// Puts what became of a DO statement behind its line: what was noted, or why nothing was.
fn put_behind(
    text: &mut Vec<u8>,
    alloc: Global,
    names: &[Named],
    is_alone: bool,
    standing: Standing,
    row: Option<&Row>,
) -> Result<(), AllocError>
    ensures { OnOk result (text.new.items ≡ text.old.items ++ behind_line (are_named names.now)
        is_alone standing (row_if row.entry)) }
{
    match row {
        Some(row) => put_row(text, alloc, names, row),
        None => put_standing(text, is_alone, standing),
    }
}

// Puts why nothing was noted of a DO statement.
fn put_standing(text: &mut Vec<u8>, is_alone: bool, standing: Standing) -> Result<(), AllocError>
    ensures { OnOk result (text.new.items ≡ text.old.items ++ standing_text is_alone standing) }
{
    match standing {
        Standing::While => put(text, " WHILE\n"),
        Standing::Output => put(text, " OUTPUT\n"),
        Standing::Inside(line) => {
            put_count(text, " INSIDE LOOP ", u64::from(line))?;
            put(text, "\n")
        }
        Standing::Apart => {
            if is_alone {
                put(text, " ONEWORKER\n")
            } else {
                put(text, " UNREACHED\n")
            }
        }
    }
}

// Puts what was noted of a DO statement.
fn put_row(text: &mut Vec<u8>, alloc: Global, names: &[Named], row: &Row) -> Result<(), AllocError>
    ensures { OnOk result (text.new.items
        ≡ text.old.items ++ row_lines (are_named names.now) row.now) }
{
    if 0 < row.counts.stages {
        put_speculated(text, alloc, names, row)
    } else {
        put_untried(text, &row.counts)
    }
}

// Puts what is counted of a DO statement none of whose trips were in a stage.
fn put_untried(text: &mut Vec<u8>, counts: &Counts) -> Result<(), AllocError>
    ensures { OnOk result (text.new.items ≡ text.old.items ++ untried_text counts.now) }
{
    put_count(text, " UNTRIED REACHED ", counts.reached)?;
    put_count(text, " TRIPS ", counts.trips)?;
    put(text, "\n")
}

// Puts what was noted of a DO statement that was run by stages.
fn put_speculated(
    text: &mut Vec<u8>,
    alloc: Global,
    names: &[Named],
    row: &Row,
) -> Result<(), AllocError>
    ensures { OnOk result (text.new.items
        ≡ text.old.items ++ speculated_lines (are_named names.now) row.now) }
{
    put_counts(text, &row.counts)?;
    let dependence = dependence_of(row);
    put_dependence(text, alloc, names, row.counts.reached, dependence)?;
    put_advice(text, alloc, names, &row.counts, dependence)
}

// Puts what is counted of a DO statement.
fn put_counts(text: &mut Vec<u8>, counts: &Counts) -> Result<(), AllocError>
    ensures { OnOk result (text.new.items ≡ text.old.items ++ (reached_text counts.now
        ++ blocks_text counts.now ++ cuts_text counts.now ++ cost_text counts.now)) }
{
    put_reached(text, counts)?;
    put_blocks(text, counts)?;
    put_cuts(text, counts)?;
    put_cost(text, counts)
}

// Puts how often a DO statement was reached, and its trips and stages.
fn put_reached(text: &mut Vec<u8>, counts: &Counts) -> Result<(), AllocError>
    ensures { OnOk result (text.new.items ≡ text.old.items ++ reached_text counts.now) }
{
    put_count(text, " SPECULATED REACHED ", counts.reached)?;
    put_count(text, " TRIPS ", counts.trips)?;
    put_count(text, " INORDER ", counts.in_order)?;
    put_count(text, " STAGES ", counts.stages)
}

// Puts what became of the blocks.
fn put_blocks(text: &mut Vec<u8>, counts: &Counts) -> Result<(), AllocError>
    ensures { OnOk result (text.new.items ≡ text.old.items ++ blocks_text counts.now) }
{
    put_count(text, " BLOCKS ", counts.run.saturating_add(counts.lost))?;
    put_count(text, " COMMITTED ", counts.committed)?;
    put_count(text, " DROPPED ", counts.dropped)?;
    put_count(text, " LOST ", counts.lost)
}

// Puts how many stages were cut, for each cause.
fn put_cuts(text: &mut Vec<u8>, counts: &Counts) -> Result<(), AllocError>
    ensures { OnOk result (text.new.items ≡ text.old.items ++ cuts_text counts.now) }
{
    put_count(text, " DEPENDENCE ", counts.by_dependence)?;
    put_count(text, " EXIT ", counts.by_exit)?;
    put_count(text, " LIMIT ", counts.by_turns)
}

// Puts the turns that count, and those of all blocks.
fn put_cost(text: &mut Vec<u8>, counts: &Counts) -> Result<(), AllocError>
    ensures { OnOk result (text.new.items ≡ text.old.items ++ cost_text counts.now) }
{
    put_count(text, " TURNS ", counts.turns)?;
    put_count(text, " SPENT ", counts.spent)?;
    put(text, "\n")
}

// Puts the line on a cell at which stages of a statement were cut that was reached so often.
fn put_dependence(
    text: &mut Vec<u8>,
    alloc: Global,
    names: &[Named],
    reached: u64,
    dependence: Option<(usize, Carried)>,
) -> Result<(), AllocError>
    ensures { OnOk result (text.new.items
        ≡ text.old.items ++ dependence_line (are_named names.now) reached dependence) }
{
    match dependence {
        Some((cell, carried)) => put_cuts_at(text, alloc, names, reached, cell, carried),
        None => Ok(()),
    }
}

// Puts the line on this cell.
fn put_cuts_at(
    text: &mut Vec<u8>,
    alloc: Global,
    names: &[Named],
    reached: u64,
    cell: usize,
    carried: Carried,
) -> Result<(), AllocError>
    ensures { OnOk result (text.new.items
        ≡ text.old.items ++ cuts_at (are_named names.now) reached cell carried) }
{
    put(text, "    ")?;
    put_cell(text, alloc, names, cell)?;
    put_trips(text, " WRITTEN IN TRIPS ", carried.writer)?;
    put_trips(text, ", READ IN TRIPS ", carried.reader)?;
    put_execution(text, reached, carried.execution)?;
    put_times(text, carried.cuts)
}

// Puts which execution it was, of a statement that was reached so often.
fn put_execution(text: &mut Vec<u8>, reached: u64, execution: u64) -> Result<(), AllocError>
    ensures { OnOk result (text.new.items
        ≡ text.old.items ++ execution_text reached execution) }
{
    if 1 < reached {
        put_count(text, " OF EXECUTION ", execution)
    } else {
        Ok(())
    }
}

// Puts how often that was so.
fn put_times(text: &mut Vec<u8>, times: u64) -> Result<(), AllocError>
    ensures { OnOk result (text.new.items ≡ text.old.items ++ times_text times) }
{
    put_count(text, ", ", times)?;
    put(text, if times == 1 { " TIME\n" } else { " TIMES\n" })
}

// The turns of all DO statements.
#[derive(Clone, Copy)]
struct Totals {
    turns: u64,
    spent: u64,
    longest: u64,
}

// The turns with those of one more DO statement.
fn with_counts(totals: Totals, counts: &Counts) -> Totals
    ensures { result ≡ with_counts_of totals counts.now }
{
    Totals {
        turns: totals.turns.saturating_add(counts.turns),
        spent: totals.spent.saturating_add(counts.spent),
        longest: totals.longest.saturating_add(counts.longest),
    }
}

// The turns of all DO statements of which something was noted.
fn totals_in(rows: &BTreeMap<u32, Row>) -> Totals
    ensures { result ≡ totals_of rows.now.entries }
{
    let mut totals = Totals {
        turns: 0,
        spent: 0,
        longest: 0,
    };
    for (_, row) in rows.iter() {
        totals = with_counts(totals, &row.counts);
    }
    totals
}

// Puts the line on speculation.
fn put_speculation(
    text: &mut Vec<u8>,
    rows: &BTreeMap<u32, Row>,
    turns: Option<u64>,
) -> Result<(), AllocError>
    ensures { OnOk result (text.new.items
        ≡ text.old.items ++ speculation_line (totals_of rows.now.entries) turns) }
{
    let totals = totals_in(rows);
    put_count(text, "  SPECULATION TURNS ", totals.turns)?;
    put_count(text, " SPENT ", totals.spent)?;
    put_count(text, " LONGEST ", totals.longest)?;
    put_all_turns(text, turns)?;
    put(text, "\n")
}

// Puts the turns of the run, where they are known.
fn put_all_turns(text: &mut Vec<u8>, turns: Option<u64>) -> Result<(), AllocError>
    ensures { OnOk result (text.new.items ≡ text.old.items ++ behind_turns turns) }
{
    match turns {
        Some(turns) => put_count(text, " OF ", turns),
        None => Ok(()),
    }
}
