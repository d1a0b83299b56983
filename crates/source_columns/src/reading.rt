//! The statements of a source, or the rule that it breaks (ANSI X3.9-1978, 3.2 to 3.4).

ghost use Rattle.std.specs.Prelude.{◌≡◌, ◌+◌, ◌≤◌, map, not, length, IsTrue, IfOk, MatchResult};
ghost use Rattle.std.specs.Prelude.{vec_len, if◌then◌else◌};
ghost use Rattle.meaning.specs.Lines.{lines_of};
ghost use Rattle.meaning.specs.Reports.{Gives, Tells};
ghost use Rattle.meaning.specs.Statements.{is_blank_field, is_unpaired, text_of, entry_of};
ghost use Rattle.meaning.specs.Statements.{is_too_long, statements_in, statements_of};
ghost use Rattle.source_columns.specs.Views.{lines_from, lines_at, group_of, Begins};
ghost use Rattle.source_columns.specs.Continuing.{rule_behind, behind, joined};

use crate::cards::{
    COLUMNS, are_printable, is_blank, is_initial_line, is_paired, label_columns, text_columns,
};
use crate::labels::{is_label_or_blank, label_in};
use crate::lines::line_count;
use crate::statement_lines::{StatementLine, first_continuation_line, first_statement_line};
use meaning::refusal::{Refusal, Rule};
use meaning::statement::Statement;
use std::alloc::Global;

/// The most bytes that a source may have.
const MAX_BYTES: usize = 1_048_576;

/// The most lines that a source may have.
const MAX_LINES: usize = 65_535;

/// The most continuation lines that a statement may have.
pub const MAX_CONTINUATIONS: usize = 19;

/// A statement, and what stands behind it.
#[derive(Drop)]
struct Split<'a> {
    statement: Statement,
    /// The number of the first line behind it.
    number: u32,
    behind: &'a [u8],
}

/// The text of a statement, and what stands behind it.
#[derive(Drop)]
struct Continued<'a> {
    text: Vec<u8>,
    /// The number of the first line behind it.
    number: u32,
    behind: &'a [u8],
}

/// The refusal for a rule that is broken at a line.
fn broken(line: u32, rule: Rule) -> Refusal
    ensures { result ≡ Refusal.Rule rule line }
{
    Refusal::Rule { rule, line }
}

/// Whether the apostrophes of a statement come in pairs, over all its lines.
pub fn is_text_paired(first: &StatementLine) -> bool
    requires { first.now.number + 1 + length (lines_of first.now.behind.now) ≤ 65536 }
    ensures { result ≡ not (is_unpaired (text_of (group_of first.now))) }
{
    let mut paired = is_paired(text_columns(&first.columns));
    let mut number = first.number + 1;
    let mut rest = first.behind;
    while let Some(line) = first_continuation_line(number, rest) {
        if !is_paired(text_columns(&line.columns)) {
            paired = !paired;
        }
        number = line.number + 1;
        rest = line.behind;
    }
    paired
}

/// The rule that a continuation line with no initial line before it breaks.
fn rule_alone(label_columns: &[u8]) -> Rule
    ensures { result ≡ (if is_blank_field label_columns.now then Rule.C4 else Rule.C3) }
{
    if is_blank(label_columns) {
        Rule::C4
    } else {
        Rule::C3
    }
}

/// The least rule that a continuation line breaks, so many others being before it.
fn rule_broken(count: usize, columns: &[u8; COLUMNS]) -> Option<Rule>
    ensures { result ≡ rule_behind count columns.now }
{
    if !are_printable(columns) {
        Some(Rule::C1)
    } else if !is_blank(label_columns(columns)) {
        Some(Rule::C3)
    } else if count == MAX_CONTINUATIONS {
        Some(Rule::C5)
    } else {
        None
    }
}

/// The text of a statement, whose initial line holds the text so far, and what stands behind its
/// continuation lines.
fn joined_text<'a>(text: Vec<u8>, first: u32, source: &'a [u8]) -> Result<Continued<'a>, Refusal>
    requires counted { first + length (lines_of source.now) ≤ 65536 }
    requires one_line { vec_len text ≡ 66 }
    ensures joined { Gives (λ c. c.text.items) result
        (joined text.items (lines_from first source.now)) }
    ensures behind { IfOk
        result (λ c. lines_from c.number c.behind.now ≡ behind (lines_from first source.now)) }
    ensures counted { IfOk result (λ c. c.number + length (lines_of c.behind.now) ≤ 65536) }
    ensures short { IfOk result (λ c. vec_len c.text ≤ 1320) }
    ensures shorter { IfOk result (λ c. length c.behind.now ≤ length source.now) }
{
    let mut text = text;
    let mut count = 0;
    let mut number = first;
    let mut rest = source;
    while let Some(line) = first_continuation_line(number, rest) {
        if let Some(rule) = rule_broken(count, &line.columns) {
            return Err(broken(line.number, rule));
        }
        text.extend_from_slice(text_columns(&line.columns))?;
        count += 1;
        number = line.number + 1;
        rest = line.behind;
    }
    Ok(Continued {
        text,
        number,
        behind: rest,
    })
}

/// The statement that a line begins, and what stands behind it, or the least rule that is broken
/// from this line on.
fn statement_at<'a>(alloc: Global, line: &StatementLine<'a>) -> Result<Split<'a>, Refusal>
    requires { line.now.number + 1 + length (lines_of line.now.behind.now) ≤ 65536 }
    ensures exact { MatchResult result
        (λ s. Begins (lines_at line.now) s.statement (lines_from s.number s.behind.now))
        (λ e. Tells (statements_in (lines_at line.now)) e) }
    ensures counted { IfOk result (λ s. s.number + length (lines_of s.behind.now) ≤ 65536) }
    ensures shorter { IfOk result (λ s. length s.behind.now ≤ length line.now.behind.now) }
{
    let label_columns = label_columns(&line.columns);
    if !are_printable(&line.columns) {
        return Err(broken(line.number, Rule::C1));
    }
    if !is_initial_line(&line.columns) {
        return Err(broken(line.number, rule_alone(label_columns)));
    }
    if !is_label_or_blank(label_columns) {
        return Err(broken(line.number, Rule::C2));
    }
    if !is_text_paired(line) {
        return Err(broken(line.number, Rule::C6));
    }
    let text = Vec::from_slice(alloc, text_columns(&line.columns))?;
    let Continued {
        text,
        number,
        behind,
    } = joined_text(text, line.number + 1, line.behind)?;
    let statement = Statement {
        line: line.number,
        label: label_in(label_columns),
        text,
    };
    Ok(Split {
        statement,
        number,
        behind,
    })
}

/// Whether a source has too many bytes or too many lines.
pub fn is_long(source: &[u8]) -> bool
    ensures { result ≡ is_too_long source.now }
{
    source.len() > MAX_BYTES || line_count(source) > MAX_LINES
}

/// The statements of a source in order, each with the number of its initial line, its label and
/// columns 7 to 72 of its lines. Comment lines are counted and left out (ANSI X3.9-1978, 3.2 to
/// 3.4).
///
/// # Errors
///
/// `Refusal::Rule` with C7 at line 1 if the source is too long, whatever memory there is; else with
/// the least broken rule of the least line that breaks one of C1 to C6. `Refusal::Memory` if a
/// growth was refused.
pub fn statements(alloc: Global, source: &[u8]) -> Result<Vec<Statement>, Refusal>
    ensures exact { Gives (λ v. map entry_of v.items) result (statements_of source.now) }

    // A source that is too long is told as such before anything is allocated.
    ensures too_long { IsTrue (is_too_long source.now) → result ≡ Err (Refusal.Rule Rule.C7 1) }
{
    if is_long(source) {
        return Err(broken(1, Rule::C7));
    }
    let mut statements = Vec::new(alloc);
    let mut number = 1;
    let mut rest = source;
    while let Some(line) = first_statement_line(number, rest) {
        let split = statement_at(alloc, &line)?;
        statements.push(split.statement)?;
        number = split.number;
        rest = split.behind;
    }
    Ok(statements)
}
