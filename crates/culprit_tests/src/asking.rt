//! What is told of a rule at a line of a source, and where.

use culprits::{add_text, culprit_of};
use lexer::bare;
use meaning::refusal::{Refusal, Rule};
use meaning::statement::Statement;
use meaning::syntax::{Item, Tree};
use nesting::tree;
use parser::form;
use source_columns::statements;
use std::alloc::Global;
use std::test::Fail;
use word_places::place_of;

/// The program unit that a source spells.
fn unit_of(alloc: Global, source: &str) -> Result<Tree, Refusal> {
    let found = statements(alloc, source.as_bytes())?;
    let mut members = Vec::new(alloc);
    for statement in &found {
        let text = bare(alloc, statement)?;
        let form = form(alloc, &text)?;
        members.push(Item {
            line: statement.line,
            label: statement.label,
            form,
        })?;
    }
    tree(alloc, members)
}

/// What is told of a rule at a line, with the place in front: `2:7: X is REAL, by its first
/// letter`, or nothing.
pub fn told(alloc: Global, source: &str, rule: Rule, line: u32) -> Result<String, Fail> {
    let unit = unit_of(alloc, source)?;
    let mut text = Vec::new(alloc);
    if let Some(culprit) = culprit_of(alloc, &unit, rule, line)? {
        if let Some(place) = place_of(alloc, source.as_bytes(), line, culprit.word())? {
            let at = format!(in alloc; "{}:{}: ", place.line, place.column)?;
            text.extend_from_slice(at.as_bytes())?;
        }
        add_text(&mut text, culprit)?;
    }
    Ok(String::from_utf8(text)?)
}
