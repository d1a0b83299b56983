//! The kinds by which the reading of a statement of a source goes (ANSI X3.9-1978, 3.1 to 3.3 and
//! 11.5).

ghost use Rattle.std.specs.Prelude.{◌≡◌, drop, map, option_map, IfOk};
ghost use Rattle.std.specs.List.{find};
ghost use Rattle.meaning.specs.Statements.{entry_of};
ghost use Rattle.readings.specs.Readings.{begins_at, behind_if as rest_behind, is_logical_if};
ghost use Rattle.readings.specs.Readings.{reading_among as reading_among_entries};
ghost use Rattle.readings.specs.Readings.{reading_at as reading_at_line, reading_of as reading_by};
ghost use Rattle.readings.specs.Readings.{reading_of_entry};

use lexer::{bare, behind_closing_parenthesis, kind_of_text};
use meaning::refusal::Refusal;
use meaning::statement::Statement;
use meaning::syntax::Kind;
use source_columns::statements;
use std::alloc::{AllocError, Global};

/// As what a statement is read.
#[derive(Clone, Copy, PartialEq, Eq, Debug)]
pub enum Reading {
    /// A statement of this kind.
    Alone(Kind),
    /// A logical IF, under which a statement of this kind stands.
    Under(Kind),
}

/// The statement whose initial line has this number.
fn statement_at(found: &[Statement], line: u32) -> Option<&Statement>
    ensures { option_map (λ s. entry_of s.now) result
        ≡ find (begins_at line) (map entry_of found.now) }
{
    for statement in found {
        if statement.line == line {
            return Some(statement);
        }
    }
    None
}

/// What stands behind three characters.
fn behind_three(text: &[u8]) -> &[u8]
    ensures { result.now ≡ drop 3 text.now }
{
    match text.get(3..) {
        Some(rest) => rest,
        None => &[],
    }
}

/// What stands behind IF and its parentheses.
fn behind_if(text: &[u8]) -> &[u8]
    ensures { result.now ≡ rest_behind text.now }
{
    behind_closing_parenthesis(behind_three(text))
}

/// Whether a kind is that of logical IFs.
fn is_logical(kind: Kind) -> bool
    ensures { result ≡ is_logical_if kind }
{
    matches!(kind, Kind::LogicalIf)
}

/// As what a bare text is read.
fn reading_of(text: &[u8]) -> Reading
    ensures { result ≡ reading_by text.now }
{
    let kind = kind_of_text(text);
    if is_logical(kind) {
        Reading::Under(kind_of_text(behind_if(text)))
    } else {
        Reading::Alone(kind)
    }
}

/// As what a statement is read.
fn reading_of_statement(alloc: Global, statement: &Statement) -> Result<Reading, AllocError>
    ensures { IfOk result (λ r. r ≡ reading_of_entry (entry_of statement.now)) }
{
    let bare = bare(alloc, statement)?;
    Ok(reading_of(&bare.text))
}

/// As what the statement is read whose initial line has this number.
fn reading_among(
    alloc: Global,
    found: &[Statement],
    line: u32,
) -> Result<Option<Reading>, AllocError>
    ensures { IfOk result (λ r. r ≡ reading_among_entries line (map entry_of found.now)) }
{
    match statement_at(found, line) {
        Some(statement) => Ok(Some(reading_of_statement(alloc, statement)?)),
        None => Ok(None),
    }
}

/// As what a statement is read, by the number of its initial line; none where no statement begins
/// at this line, or where the source breaks a rule on lines.
///
/// # Errors
///
/// `AllocError` only where a growth was refused.
pub fn reading_at(alloc: Global, source: &[u8], line: u32) -> Result<Option<Reading>, AllocError>
    ensures { IfOk result (λ r. r ≡ reading_at_line line source.now) }
{
    match statements(alloc, source) {
        Ok(found) => {
            let reading = reading_among(alloc, &found, line)?;
            Ok(reading)
        }
        Err(Refusal::Rule { rule: _, line: _ }) => Ok(None),
        Err(Refusal::Memory) => Err(AllocError),
    }
}
