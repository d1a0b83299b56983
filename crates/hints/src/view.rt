//! The texts in which patterns are sought: columns 1 to 72 of a line, and the outline of a
//! statement.

ghost use Rattle.std.specs.Prelude.{◌≡◌, ◌||◌, ◌==◌, ◌++◌, map, OnOk, IfOk};
ghost use Rattle.std.specs.List.{flat_map, list_any};
ghost use Rattle.meaning.specs.Characters.{apostrophe, raised};
ghost use Rattle.meaning.specs.Lines.{lines_of};
ghost use Rattle.source_columns.specs.Excerpts.{continued};
ghost use Rattle.hints.specs.Views.{columns as columns_of, is_cut as is_cut_off};
ghost use Rattle.hints.specs.Views.{joined as joined_lines, line_view as view_of_line};
ghost use Rattle.hints.specs.Views.{outline as outline_by, statement_view as view_of_statement};
ghost use Rattle.hints.specs.Views.{ended_by as ended_with};

use lexer::{has_equals_sign, is_balanced};
use source_columns::{line_at, next_continuation};
use std::alloc::{AllocError, Global};

/// The columns of a line behind so many, up to so many.
fn columns(line: &[u8], from: usize, to: usize) -> &[u8]
    ensures { result.now ≡ columns_of from to line.now }
{
    let front = &line[..line.len().min(to)];
    &front[front.len().min(from)..]
}

/// Adds a text with its small letters raised.
fn add_raised(view: &mut Vec<u8>, text: &[u8]) -> Result<(), AllocError>
    ensures { OnOk result (view.new.items ≡ view.old.items ++ map raised text.now) }
{
    for c in text {
        view.push(c.to_ascii_uppercase())?;
    }
    Ok(())
}

/// Columns 1 to 72 of a line, behind a line feed.
pub fn line_view(alloc: Global, source: &[u8], line: u32) -> Result<Vec<u8>, AllocError>
    ensures { IfOk result (λ v. v.items ≡ view_of_line line source.now) }
{
    let mut view = Vec::new(alloc);
    view.push(b'\n')?;
    if let Some((line, _)) = line_at(source, line) {
        add_raised(&mut view, columns(line, 0, 72))?;
    }
    Ok(view)
}

/// Adds columns of the continuation lines that come first.
fn add_continued(
    text: &mut Vec<u8>,
    source: &[u8],
    from: usize,
    to: usize,
) -> Result<(), AllocError>
    ensures { OnOk result
        (text.new.items ≡ text.old.items
        ++ flat_map (columns_of from to) (continued (lines_of source.now))) }
{
    let mut rest = source;
    while let Some((line, behind)) = next_continuation(rest) {
        text.extend_from_slice(columns(line, from, to))?;
        rest = behind;
    }
    Ok(())
}

/// Columns of the lines of the statement that begins at a line, joined.
fn joined(
    alloc: Global,
    source: &[u8],
    line: u32,
    from: usize,
    to: usize,
) -> Result<Vec<u8>, AllocError>
    ensures { IfOk result (λ v. v.items ≡ joined_lines from to line source.now) }
{
    let mut text = Vec::new(alloc);
    if let Some((first, behind)) = line_at(source, line) {
        text.extend_from_slice(columns(first, from, to))?;
        add_continued(&mut text, behind, from, to)?;
    }
    Ok(text)
}

/// The character that ends what a character begins.
fn ended_by(c: u8) -> u8
    ensures { result ≡ ended_with c }
{
    match c {
        b'\'' | b'"' => c,
        b'!' => b'\n',
        _ => 0,
    }
}

/// The characters of a statement outside character constants and comments, without blanks, and with
/// small letters raised.
#[tactic(auto, unfolding(crate::specs::Views::outline))]
fn outline(alloc: Global, text: &[u8]) -> Result<Vec<u8>, AllocError>
    ensures { IfOk result (λ v. v.items ≡ outline_by 0 text.now) }
{
    let mut outlined = Vec::new(alloc);
    let mut ending = 0;
    for &c in text {
        if ending == 0 {
            if c != b' ' {
                outlined.push(c.to_ascii_uppercase())?;
                ending = ended_by(c);
            }
        } else if c == ending {
            outlined.push(c)?;
            ending = 0;
        }
    }
    Ok(outlined)
}

/// Whether a text has an apostrophe or a closing parenthesis.
fn has_end(text: &[u8]) -> bool
    ensures { result ≡ list_any (λ c. (c == apostrophe) || (c == 41)) text.now }
{
    text.iter().any(|c| *c == b'\'' || *c == b')')
}

/// Whether a text can't end where it ends, and what would end it stands behind column 72.
fn is_cut(text: &[u8], behind: &[u8]) -> bool
    ensures { result ≡ is_cut_off text.now behind.now }
{
    !is_balanced(text) && has_end(behind)
}

/// The outline of the statement that begins at a line, between marks.
pub fn statement_view(alloc: Global, source: &[u8], line: u32) -> Result<Vec<u8>, AllocError>
    ensures { IfOk result (λ v. v.items ≡ view_of_statement line source.now) }
{
    let text = joined(alloc, source, line, 6, 72)?;
    let behind = joined(alloc, source, line, 72, 1_048_576)?;
    let outlined = outline(alloc, &text)?;
    let mut view = Vec::new(alloc);
    view.push(if has_equals_sign(&outlined) {
        b'\r'
    } else {
        b'\n'
    })?;
    view.extend_from_slice(&outlined)?;
    view.push(b'\n')?;
    if is_cut(&text, &behind) {
        view.push(b'\t')?;
    }
    Ok(view)
}
