//! What is known of what breaks a rule.

ghost use Rattle.std.specs.Prelude.{IfOk};
ghost use Rattle.meaning.specs.Trees.{nested};
ghost use Rattle.culprits.specs.Told.{told_at};
ghost use Rattle.messages.specs.Knowing.{IsKnownAsRead, IsKnownBy, IsKnownOf, IsKnownUnread};

use crate::explaining::Known;
use culprits::{Culprit, add_text, culprit_of};
use meaning::refusal::Rule;
use meaning::syntax::Tree;
use readings::{Reading, add_reading, reading_at};
use std::alloc::{AllocError, Global};
use word_places::place_of;

/// What breaks a rule K at a line of the program unit that a source spells; nothing of what none is
/// known.
///
/// # Errors
///
/// `AllocError` only where a growth was refused.
pub fn known_of(
    alloc: Global,
    source: &[u8],
    unit: &Tree,
    rule: Rule,
    line: u32,
) -> Result<Known, AllocError>
    ensures { IfOk result (IsKnownOf source.now (nested unit.now) rule line) }
{
    match culprit_of(alloc, unit, rule, line)? {
        None => Ok(Known::nothing(alloc)),
        Some(culprit) => known_by(alloc, source, line, culprit),
    }
}

// What is known by what breaks a rule: its words, and where it stands in the statement.
fn known_by(
    alloc: Global,
    source: &[u8],
    line: u32,
    culprit: Culprit<'_>,
) -> Result<Known, AllocError>
    ensures { IfOk result (IsKnownBy source.now line (told_at culprit.entry)) }
{
    let place = place_of(alloc, source, line, culprit.word())?;
    let mut text = Vec::new(alloc);
    add_text(&mut text, culprit)?;
    Ok(Known { place, text })
}

/// What is known of a rule that is broken at a line of a source that spells no program unit: of G1
/// as what the statement is read whose initial line it is, and of other rules nothing.
///
/// # Errors
///
/// `AllocError` only where a growth was refused.
pub fn known_unread(
    alloc: Global,
    source: &[u8],
    rule: Rule,
    line: u32,
) -> Result<Known, AllocError>
    ensures { IfOk result (IsKnownUnread source.now rule line) }
{
    match rule {
        Rule::G1 => known_as_read(alloc, reading_at(alloc, source, line)?),
        _ => Ok(Known::nothing(alloc)),
    }
}

// As what a statement is read, if it is known.
fn known_as_read(alloc: Global, reading: Option<Reading>) -> Result<Known, AllocError>
    ensures { IfOk result (IsKnownAsRead reading) }
{
    match reading {
        None => Ok(Known::nothing(alloc)),
        Some(reading) => {
            let mut text = Vec::new(alloc);
            add_reading(&mut text, reading)?;
            Ok(Known { place: None, text })
        }
    }
}
