//! Every rule on lines that a source breaks, for whoever tells them all (ANSI X3.9-1978, 3.2 to
//! 3.4).

ghost use Rattle.std.specs.Prelude.{◌≡◌, ◌+◌, ◌≤◌, ◌++◌, drop, length, map, IfOk, OnOk};
ghost use Rattle.std.specs.List.{flat_map};
ghost use Rattle.meaning.specs.Lines.{lines_of};
ghost use Rattle.meaning.specs.Statements.{broken_alone, broken_if, broken_in, broken_in_group};
ghost use Rattle.meaning.specs.Statements.{broken_in_line, broken_past, continuations, groups};
ghost use Rattle.source_columns.specs.AllBroken.{pairs_of_lines};
ghost use Rattle.source_columns.specs.Views.{group_of, line_of, lines_behind, lines_from};

use crate::cards::{are_printable, is_blank, is_initial_line, label_columns};
use crate::labels::is_label_or_blank;
use crate::reading::{MAX_CONTINUATIONS, is_long, is_text_paired};
use crate::statement_lines::{StatementLine, first_continuation_line, first_statement_line};
use meaning::refusal::{Broken, Rule};
use std::alloc::{AllocError, Global};

/// Adds a pair, if the test says so.
fn add_if(pairs: &mut Vec<Broken>, breaks: bool, line: u32, rule: Rule) -> Result<(), AllocError>
    ensures { OnOk result (pairs.new.items ≡ pairs.old.items ++ broken_if breaks line rule) }
{
    if breaks {
        pairs.push(Broken { line, rule })?;
    }
    Ok(())
}

/// Adds those of a line by itself.
fn add_line(pairs: &mut Vec<Broken>, line: &StatementLine) -> Result<(), AllocError>
    ensures { OnOk result (pairs.new.items ≡ pairs.old.items ++ broken_in_line (line_of line.now)) }
{
    let initial = is_initial_line(&line.columns);
    let label = label_columns(&line.columns);
    let unprintable = !are_printable(&line.columns);
    let mislabelled = initial && !is_label_or_blank(label);
    let labelled = !initial && !is_blank(label);
    add_if(pairs, unprintable, line.number, Rule::C1)?;
    add_if(pairs, mislabelled, line.number, Rule::C2)?;
    add_if(pairs, labelled, line.number, Rule::C3)
}

/// Adds those of each line by itself.
fn add_lines(pairs: &mut Vec<Broken>, source: &[u8]) -> Result<(), AllocError>
    requires { 1 + length (lines_of source.now) ≤ 65536 }
    ensures { OnOk result
        (pairs.new.items ≡ pairs.old.items ++ flat_map broken_in_line (lines_from 1 source.now)) }
{
    let mut number = 1;
    let mut rest = source;
    while let Some(line) = first_statement_line(number, rest) {
        add_line(pairs, &line)?;
        number = line.number + 1;
        rest = line.behind;
    }
    Ok(())
}

/// Adds those of the continuation lines with no initial line before them.
fn add_alone(pairs: &mut Vec<Broken>, source: &[u8]) -> Result<(), AllocError>
    requires { 1 + length (lines_of source.now) ≤ 65536 }
    ensures { OnOk result
        (pairs.new.items ≡ pairs.old.items
        ++ map broken_alone (continuations (lines_from 1 source.now))) }
{
    let mut number = 1;
    let mut rest = source;
    while let Some(line) = first_continuation_line(number, rest) {
        pairs.push(Broken {
            line: line.number,
            rule: Rule::C4,
        })?;
        number = line.number + 1;
        rest = line.behind;
    }
    Ok(())
}

/// Adds that of the first of the continuation lines past the nineteenth.
fn add_past(pairs: &mut Vec<Broken>, first: &StatementLine) -> Result<(), AllocError>
    requires { first.now.number + 1 + length (lines_of first.now.behind.now) ≤ 65536 }
    ensures { OnOk result
        (pairs.new.items ≡ pairs.old.items
        ++ broken_past (drop 19 (continuations (lines_behind first.now)))) }
{
    let mut left = MAX_CONTINUATIONS;
    let mut number = first.number + 1;
    let mut rest = first.behind;
    while let Some(line) = first_continuation_line(number, rest) {
        if left == 0 {
            pairs.push(Broken {
                line: line.number,
                rule: Rule::C5,
            })?;
            return Ok(());
        }
        left -= 1;
        number = line.number + 1;
        rest = line.behind;
    }
    Ok(())
}

/// Adds those of the statement that an initial line begins.
fn add_group(pairs: &mut Vec<Broken>, first: &StatementLine) -> Result<(), AllocError>
    requires { first.now.number + 1 + length (lines_of first.now.behind.now) ≤ 65536 }
    ensures { OnOk result
        (pairs.new.items ≡ pairs.old.items ++ broken_in_group (group_of first.now)) }
{
    let unpaired = !is_text_paired(first);
    add_past(pairs, first)?;
    add_if(pairs, unpaired, first.number, Rule::C6)
}

/// Adds those of each statement.
fn add_groups(pairs: &mut Vec<Broken>, source: &[u8]) -> Result<(), AllocError>
    requires { 1 + length (lines_of source.now) ≤ 65536 }
    ensures { OnOk result
        (pairs.new.items ≡ pairs.old.items
        ++ flat_map broken_in_group (groups (lines_from 1 source.now))) }
{
    let mut number = 1;
    let mut rest = source;
    while let Some(line) = first_statement_line(number, rest) {
        if is_initial_line(&line.columns) {
            add_group(pairs, &line)?;
        }
        number = line.number + 1;
        rest = line.behind;
    }
    Ok(())
}

/// Every pair of the rules C that a source breaks: those of each line by itself, of continuation
/// lines with no initial line before them and of each statement, or C7 at line 1 alone where the
/// source is too long. A pair can stand there twice.
///
/// # Errors
///
/// `AllocError` if a growth was refused.
pub fn broken_lines(alloc: Global, source: &[u8]) -> Result<Vec<Broken>, AllocError>
    ensures { IfOk result (λ v. v.items ≡ pairs_of_lines source.now) }
{
    let mut pairs = Vec::new(alloc);
    if is_long(source) {
        pairs.push(Broken {
            line: 1,
            rule: Rule::C7,
        })?;
        return Ok(pairs);
    }
    add_lines(&mut pairs, source)?;
    add_alone(&mut pairs, source)?;
    add_groups(&mut pairs, source)?;
    Ok(pairs)
}
