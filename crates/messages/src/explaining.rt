//! What is told of an ending behind its line: where it was and what is wrong there, the lines of
//! the statement, and the rule or the fault in a sentence.

ghost use Rattle.std.specs.Prelude.{◌≡◌};
ghost use Rattle.messages.specs.Explained.{AreCharacters, IsAbout, IsMatter, IsPlaced};
ghost use Rattle.messages.specs.Explained.{IsRuleMatter, explained, headline, is_shown, lines_at};
ghost use Rattle.messages.specs.Explained.{place_text, said, sentence_behind};
ghost use Rattle.messages.specs.Knowing.{IsNothing};
ghost use Rattle.messages.specs.Shown.{IsTold};

use crate::pointing::{first_place, put_pointed, unprintable};
use crate::putting::{put, put_line, put_number, put_shown};
use meaning::ending::Ending;
use meaning::refusal::Rule;
use record_sinks::Sink;
use rule_help::{text_of_fault, text_of_rule};
use std::alloc::Global;
use word_places::Place;

/// What there is to explain of an ending.
#[derive(Clone, Copy, Debug)]
pub struct Matter {
    /// The line where the statement begins, or the line that breaks a rule.
    pub line: u32,
    /// The rule that is broken, if it is one.
    pub rule: Option<Rule>,
    /// The name of the rule or the fault.
    pub name: &'static str,
    /// The rule or the fault in a sentence.
    pub sentence: &'static str,
    /// Whether the sentence is told before, so that it isn't told behind what is wrong.
    pub is_told: bool,
}

/// What is told of it: where a message points, and what is wrong there, empty where that is the
/// sentence.
#[derive(Clone, Copy, Debug)]
pub struct About<'a> {
    /// Where a message points.
    pub place: Place,
    /// What is wrong there.
    pub text: &'a [u8],
}

/// What there is to explain of an ending: nothing where no rule is broken and no fault happened.
pub fn matter_of(ending: &Ending) -> Option<Matter>
    ensures { IsMatter ending.now result }
{
    match ending {
        Ending::Fault(fault) => Some(Matter {
            line: fault.line,
            rule: None,
            name: fault.kind.name(),
            sentence: text_of_fault(fault.kind).sentence,
            is_told: false,
        }),
        Ending::Refused(rule, line) => Some(matter_of_rule(*rule, *line, false)),
        _ => None,
    }
}

/// What there is to explain of a rule that is broken at a line, and whether its sentence is told
/// before.
pub fn matter_of_rule(rule: Rule, line: u32, is_told: bool) -> Matter
    ensures { IsRuleMatter rule line is_told result }
{
    Matter {
        line,
        rule: Some(rule),
        name: rule.name(),
        sentence: text_of_rule(rule).sentence,
        is_told,
    }
}

/// What is known of what is wrong beside its line: of a fault what it was about, of a rule what
/// breaks it.
#[derive(Drop)]
pub struct Known {
    /// Where that stands, if it stands in the source.
    pub place: Option<Place>,
    /// What it is, in the words of a message; empty where no more is known than the sentence.
    pub text: Vec<u8>,
}

impl Known {
    /// No more than the sentence is known.
    pub fn nothing(alloc: Global) -> Known
        ensures { IsNothing result }
    {
        Known {
            place: None,
            text: Vec::new(alloc),
        }
    }
}

/// Where a message on a matter points, and what is wrong there: of C1 the first byte that isn't
/// printable, and else what is known, where no place is at the first character of the statement.
pub fn about_of<'a>(source: &[u8], matter: Matter, known: &'a Known) -> About<'a>
    ensures { IsAbout source.now matter.rule matter.line known.entry.now result.place
        result.text.now }
{
    if matter.rule == Some(Rule::C1) {
        about_characters(source, matter.line)
    } else {
        About {
            place: place_or_first(source, matter.line, known.place),
            text: &known.text,
        }
    }
}

// The place that is known, or the first character of the statement.
fn place_or_first(source: &[u8], line: u32, known: Option<Place>) -> Place
    ensures { IsPlaced source.now line known result }
{
    match known {
        Some(place) => place,
        None => first_place(source, line),
    }
}

// Of a line the first byte that isn't printable, or else where the statement begins.
fn about_characters(source: &[u8], line: u32) -> About<'static>
    ensures { AreCharacters source.now line result.place result.text.now }
{
    match unprintable(source, line) {
        Some((column, text)) => About {
            place: Place { line, column },
            text,
        },
        None => About {
            place: first_place(source, line),
            text: &[],
        },
    }
}

/// Writes the line that editors jump to, the lines of the statement, and behind what is wrong the
/// sentence, unless it is told before.
pub fn put_about<S: Sink>(file: &str, source: &[u8], matter: Matter, about: About<'_>, err: &mut S)
    ensures { IsTold (explained file.now source.now matter about.entry.place about.entry.text.now)
        (S.told err.old) (S.told err.new) }
{
    put_headline(file, matter, about, err);
    put_lines(is_shown(matter.rule), source, about.place, err);
    put_sentence(matter, about.text, err);
}

// Whether lines of the source are shown: not of one that is too long.
fn is_shown(rule: Option<Rule>) -> bool
    ensures { result ≡ is_shown rule }
{
    rule != Some(Rule::C7)
}

// Writes the lines of the statement, if they are to be shown.
fn put_lines<S: Sink>(is_shown: bool, source: &[u8], place: Place, err: &mut S)
    ensures { IsTold (lines_at is_shown source.now place) (S.told err.old) (S.told err.new) }
{
    if is_shown {
        put_pointed(source, place, err);
    }
}

// Writes the sentence behind what is wrong, unless it is told before.
fn put_sentence<S: Sink>(matter: Matter, text: &[u8], err: &mut S)
    ensures { IsTold (sentence_behind matter text.now) (S.told err.old) (S.told err.new) }
{
    if !text.is_empty() && !matter.is_told {
        put_line(matter.sentence.as_bytes(), err);
    }
}

// Writes the line that editors jump to.
fn put_headline<S: Sink>(file: &str, matter: Matter, about: About<'_>, err: &mut S)
    ensures { IsTold (headline file.now matter about.entry.place about.entry.text.now)
        (S.told err.old) (S.told err.new) }
{
    put_shown(file.as_bytes(), err);
    put_place(about.place, err);
    put(matter.name, err);
    put(": ", err);
    put_shown(said(matter, about.text), err);
    put("\n", err);
}

// Writes a place behind the name of a file.
fn put_place<S: Sink>(place: Place, err: &mut S)
    ensures { IsTold (place_text place) (S.told err.old) (S.told err.new) }
{
    put(":", err);
    put_number(place.line, err);
    put(":", err);
    put_number(place.column, err);
    put(": ", err);
}

// What is wrong, or the sentence where nothing more is known.
fn said<'a>(matter: Matter, text: &'a [u8]) -> &'a [u8]
    ensures { result.now ≡ said matter text.now }
{
    if text.is_empty() {
        matter.sentence.as_bytes()
    } else {
        text
    }
}
