//! The characters of a statement, and where they stand (ANSI X3.9-1978, 3.2 and 3.3).

ghost use Rattle.std.specs.Prelude.{◌≡◌, ◌==◌, ◌++◌, ◌∷◌, [], if◌then◌else◌, IfOk, OnOk};
ghost use Rattle.meaning.specs.Characters.{blank, raised as raised_code};
ghost use Rattle.meaning.specs.Lines.{card, lines_of, statement_field};
ghost use Rattle.word_places.specs.Columns.{marks_behind, marks_from, marks_in};
ghost use Rattle.word_places.specs.Columns.{marks_of as marks_at};

use crate::cards::{COLUMNS, card_of, is_comment, is_start};
use source_columns::line_at;
use std::alloc::{AllocError, Global};

/// A character of a statement that is no blank, a letter raised.
#[derive(Clone, Copy, Debug, PartialEq, Eq)]
pub struct Mark {
    /// The number of its line, counted from 1.
    pub line: u32,
    /// The number of its column, counted from 1.
    pub column: u32,
    /// Its code.
    pub code: u8,
}

/// A character, a letter raised.
fn raised(code: u8) -> u8
    ensures { result ≡ raised_code code }
{
    if code >= 97 && code <= 122 {
        code - 32
    } else {
        code
    }
}

/// Puts a character behind others, unless it is a blank.
fn add_mark(marks: &mut Vec<Mark>, line: u32, column: u32, code: u8) -> Result<(), AllocError>
    ensures { OnOk result
        (marks.new.items ≡ marks.old.items
        ++ (if code == blank then []
        else record { line = line; column = column; code = raised_code code } ∷ [])) }
{
    if code == b' ' {
        return Ok(());
    }
    marks.push(Mark {
        line,
        column,
        code: raised(code),
    })?;
    Ok(())
}

/// Puts the characters in columns 7 to 72 of a line behind others.
#[tactic(auto, using(crate::proofs::Marking::mark_more, crate::proofs::Marking::marks_end))]
fn add_line(marks: &mut Vec<Mark>, line: u32, columns: &[u8; COLUMNS]) -> Result<(), AllocError>
    ensures { OnOk result
        (marks.new.items ≡ marks.old.items ++ marks_from line 7 (statement_field columns.now)) }
{
    for index in 6..COLUMNS {
        add_mark(marks, line, index as u32 + 1, columns[index])?;
    }
    Ok(())
}

/// Puts those of a line behind others, unless it is a comment line.
fn add_unless(
    marks: &mut Vec<Mark>,
    line: u32,
    is_comment: bool,
    columns: &[u8; COLUMNS],
) -> Result<(), AllocError>
    ensures { OnOk result
        (marks.new.items ≡ marks.old.items
        ++ (if is_comment then [] else marks_from line 7 (statement_field columns.now))) }
{
    if is_comment {
        return Ok(());
    }
    add_line(marks, line, columns)
}

/// Puts those of the lines before the next initial line behind others.
#[tactic(auto, using(crate::proofs::Marking::line_more, crate::proofs::Marking::lines_start, crate::proofs::Marking::lines_last, crate::proofs::Marking::lines_none))]
fn add_behind(marks: &mut Vec<Mark>, line: u32, source: &[u8]) -> Result<(), AllocError>
    ensures { OnOk result
        (marks.new.items ≡ marks.old.items ++ marks_behind line (lines_of source.now)) }
{
    let mut number = line;
    let mut rest = source;
    while let Some((text, behind)) = line_at(rest, 1) {
        let columns = card_of(text);
        if is_start(&columns) || number == u32::MAX {
            return Ok(());
        }
        number += 1;
        add_unless(marks, number, is_comment(&columns), &columns)?;
        rest = behind;
    }
    Ok(())
}

/// The characters of the statement whose initial line has this number.
pub fn marks_of(alloc: Global, line: u32, source: &[u8]) -> Result<Vec<Mark>, AllocError>
    ensures { IfOk result (λ marks. marks.items ≡ marks_at line source.now) }
{
    let mut marks = Vec::new(alloc);
    if let Some((text, behind)) = line_at(source, line) {
        add_line(&mut marks, line, &card_of(text))?;
        add_behind(&mut marks, line, behind)?;
    }
    Ok(marks)
}
