//! The lines of a source that are no comments (ANSI X3.9-1978, 3.2).

ghost use Rattle.std.specs.Prelude.{◌≡◌, ◌+◌, ◌≤◌, ◌<◌, [], length, false, MatchOption};
ghost use Rattle.meaning.specs.Lines.{lines_of, is_initial};
ghost use Rattle.meaning.specs.Statements.{continuations};
ghost use Rattle.source_columns.specs.Views.{lines_from, lines_at};

use crate::cards::{COLUMNS, card_of, is_comment_line, is_initial_line};
use crate::lines::first_line;

/// An initial line or a continuation line, and what stands behind it.
#[derive(Clone, Copy)]
pub struct StatementLine<'a> {
    /// Its number, counted from 1.
    pub number: u32,
    pub columns: [u8; COLUMNS],
    /// The lines behind it.
    pub behind: &'a [u8],
}

/// The first line of a source that is no comment, where the source begins with the line of this
/// number.
#[tactic(auto, unfolding(meaning::specs::Lines::statement_lines))]
pub fn first_statement_line(number: u32, source: &[u8]) -> Option<StatementLine>
    requires { number + length (lines_of source.now) ≤ 65536 }
    ensures first { MatchOption result
        (lines_from number source.now ≡ [])
        (λ l. lines_from number source.now ≡ lines_at l) }
    ensures counted { MatchOption result
        (Unit {0})
        (λ l. l.number + 1 + length (lines_of l.behind.now) ≤ 65536) }
    ensures shorter { MatchOption result (Unit {0}) (λ l. length l.behind.now < length source.now) }
{
    let mut number = number;
    let mut rest = source;
    while let Some((line, behind)) = first_line(rest) {
        let columns = card_of(line);
        if !is_comment_line(&columns) {
            return Some(StatementLine {
                number,
                columns,
                behind,
            });
        }
        number += 1;
        rest = behind;
    }
    None
}

/// The first line of a source that is no comment, if it is a continuation line, where the source
/// begins with the line of this number.
pub fn first_continuation_line(number: u32, source: &[u8]) -> Option<StatementLine>
    requires { number + length (lines_of source.now) ≤ 65536 }
    ensures first { MatchOption result
        (continuations (lines_from number source.now) ≡ [])
        (λ l. lines_from number source.now ≡ lines_at l) }
    ensures continues { MatchOption result (Unit {0}) (λ l. is_initial l.columns ≡ false) }
    ensures counted { MatchOption result
        (Unit {0})
        (λ l. l.number + 1 + length (lines_of l.behind.now) ≤ 65536) }
    ensures shorter { MatchOption result (Unit {0}) (λ l. length l.behind.now < length source.now) }
{
    let line = first_statement_line(number, source)?;
    if is_initial_line(&line.columns) {
        return None;
    }
    Some(line)
}
