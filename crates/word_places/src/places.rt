//! Where a name, a number or a label stands in the lines of a statement (ANSI X3.9-1978, 3.2 and
//! 3.3).

ghost use Rattle.std.specs.Prelude.{◌≡◌, ◌≤◌, ◌&&◌, [], length, take, drop, option_map, IfOk};
ghost use Rattle.std.specs.List.{list_all, list_any};
ghost use Rattle.meaning.specs.Characters.{is_digit as is_digit_code};
ghost use Rattle.word_places.specs.Columns.{first_mark as first_of, first_word as first_word_in};
ghost use Rattle.word_places.specs.Columns.{leading_words, leads_with as leads_with_run};
ghost use Rattle.word_places.specs.Columns.{mark_at as mark_in, may_begin as may_begin_behind};
ghost use Rattle.word_places.specs.Columns.{may_follow as may_follow_run, place_at, scan_start};
ghost use Rattle.word_places.specs.Columns.{stands_here as stands_in};

use crate::marks::{Mark, marks_of};
use crate::scan::{Scan, is_alphanumeric};
use std::alloc::{AllocError, Global};

/// A place in a source.
#[derive(Clone, Copy, Debug, PartialEq, Eq)]
pub struct Place {
    /// The number of its line, counted from 1.
    pub line: u32,
    /// The number of its column, counted from 1.
    pub column: u32,
}

/// A digit.
fn is_digit(code: u8) -> bool
    ensures { result ≡ is_digit_code code }
{
    code.is_ascii_digit()
}

/// Whether all are digits.
fn are_digits(run: &[Mark]) -> bool
    ensures { result ≡ list_all (λ m. is_digit_code m.code) run.now }
{
    run.iter().all(|mark| is_digit(mark.code))
}

/// Whether a word stands there, and digits behind it or nothing.
fn leads_with(word: &[u8], run: &[Mark]) -> bool
    ensures { result ≡ leads_with_run word.now run.now }
{
    match word.split_first() {
        None => are_digits(run),
        Some((code, more)) => match run.split_first() {
            None => false,
            Some((mark, rest)) => *code == mark.code && leads_with(more, rest),
        },
    }
}

/// Whether one of the words that may stand before a name or a label does, alone.
fn has_leading_word(run: &[Mark]) -> bool
    ensures { result ≡ list_any (λ w. leads_with_run w run.now) leading_words }
{
    leads_with(b"INTEGER", run)
        || leads_with(b"LOGICAL", run)
        || leads_with(b"DIMENSION", run)
        || leads_with(b"DATA", run)
        || leads_with(b"GOTO", run)
        || leads_with(b"PRINT", run)
        || leads_with(b"DO", run)
}

/// Whether a word may stand behind these letters and digits.
fn may_follow(leads: bool, run: &[Mark]) -> bool
    ensures { result ≡ may_follow_run leads run.now }
{
    run.len() == 0 || (leads && has_leading_word(run))
}

/// What comes from a place on.
fn from_place(marks: &[Mark], place: usize) -> &[Mark]
    ensures { result.now ≡ drop place marks.now }
{
    if place <= marks.len() {
        &marks[place..]
    } else {
        &[]
    }
}

/// Whether a word may begin behind these characters.
fn may_begin(scan: Scan, front: &[Mark]) -> bool
    ensures { result ≡ may_begin_behind scan front.now }
{
    !scan.quoted && !scan.dotted && may_follow(scan.leads, from_place(front, scan.start))
}

/// Whether a word stands there, and behind it no letter or digit.
fn stands_here(word: &[u8], marks: &[Mark]) -> bool
    ensures { result ≡ stands_in word.now marks.now }
{
    match word.split_first() {
        None => match marks.first() {
            None => true,
            Some(mark) => !is_alphanumeric(mark.code),
        },
        Some((code, more)) => match marks.split_first() {
            None => false,
            Some((mark, rest)) => *code == mark.code && stands_here(more, rest),
        },
    }
}

/// Whether a word begins at a place.
fn begins_at(word: &[u8], scan: Scan, marks: &[Mark], place: usize) -> bool
    requires { place ≤ length marks.now }
    ensures { result
        ≡ (may_begin_behind scan (take place marks.now)
        && stands_in word.now (drop place marks.now)) }
{
    may_begin(scan, &marks[..place]) && stands_here(word, &marks[place..])
}

/// The first character of a word, where it stands first.
#[tactic(auto, using(crate::proofs::Marking::word_end))]
fn first_word(word: &[u8], marks: &[Mark]) -> Option<Mark>
    ensures { result ≡ first_word_in word.now scan_start [] marks.now }
{
    let mut scan = Scan::new();
    for (place, mark) in marks.iter().enumerate() {
        if begins_at(word, scan, marks, place) {
            return Some(*mark);
        }
        scan = scan.behind(place, mark.code);
    }
    None
}

/// The first character.
fn first_mark(marks: &[Mark]) -> Option<Mark>
    ensures { result ≡ first_of marks.now }
{
    match marks.first() {
        None => None,
        Some(mark) => Some(*mark),
    }
}

/// The character that is shown.
fn mark_at(word: Option<&[u8]>, marks: &[Mark]) -> Option<Mark>
    ensures { result ≡ mark_in (option_map (λ w. w.now) word.entry) marks.now }
{
    match word {
        None => first_mark(marks),
        Some(word) => match first_word(word, marks) {
            None => first_mark(marks),
            Some(mark) => Some(mark),
        },
    }
}

/// Where a word stands in a statement: its first character, where it stands first as a whole.
/// Blanks in it have no meaning, it may be cut into lines, and what stands in a character constant,
/// or between the periods of an operator, is none. Without a word, or where it stands nowhere, the
/// first character of the statement. None only where the source has no such line, or it is blank in
/// columns 7 to 72, as the lines of the statement behind it are.
///
/// # Errors
///
/// `AllocError` only where a growth was refused.
pub fn place_of(
    alloc: Global,
    source: &[u8],
    line: u32,
    word: Option<&[u8]>,
) -> Result<Option<Place>, AllocError>
    ensures { IfOk
        result (λ place. place ≡ place_at line (option_map (λ w. w.now) word.entry) source.now) }
{
    let marks = marks_of(alloc, line, source)?;
    match mark_at(word, &marks) {
        None => Ok(None),
        Some(mark) => Ok(Some(Place {
            line: mark.line,
            column: mark.column,
        })),
    }
}
