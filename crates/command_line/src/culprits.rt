//! The word of a command line with which something is wrong, and what is told of it.

ghost use Rattle.std.specs.Prelude.{◌≡◌, ◌⊎◌, ◌↔◌, ◌<◌, ◌==◌, ◌&&◌, ◌||◌, IfOk, length, nat_lt};
ghost use Rattle.std.specs.Prelude.{option_map, true};
ghost use Rattle.command_line.specs.Culprits.{IsFault, IsNearest, IsPlace, IsWrong, edits, is_near};
ghost use Rattle.command_line.specs.Culprits.{is_option, name_at, option_at, option_in, value_at};
ghost use Rattle.command_line.specs.Culprits.{value_in, wanted_by};
ghost use Rattle.command_line.specs.Matches.{texts_in};

use crate::asked::{OptionsFault, Wrong};
use crate::reading::read;
use std::alloc::{AllocError, Global};
use strsim::levenshtein;

// So many options there are that have a name.
const OPTIONS: usize = 12;

/// What is told of words that name no run.
pub fn fault_by<'a>(alloc: Global, words: &'a [&'a str], wrong: Wrong) -> OptionsFault<'a>
    requires { (wrong ≡ Wrong.Memory) ⊎ IsWrong wrong (texts_in words.now) }
    ensures { (result ≡ OptionsFault.Memory) ⊎ IsFault (texts_in words.entry.now) result }
{
    if wrong == Wrong::Memory {
        return OptionsFault::Memory;
    }
    match place_of(alloc, words, wrong) {
        Ok(place) => fault_at(alloc, words, place, wrong),
        Err(_) => OptionsFault::Memory,
    }
}

// What is told of words with which that is wrong from this place on.
fn fault_at<'a>(alloc: Global, words: &'a [&'a str], place: usize, wrong: Wrong) -> OptionsFault<'a>
    requires { IsPlace wrong (texts_in words.now) place }
    ensures { (result ≡ OptionsFault.Memory) ⊎ IsFault (texts_in words.entry.now) result }
{
    let Written { option, value } = written_at(words, place);
    match wrong {
        Wrong::Help => OptionsFault::Help,
        Wrong::Version => OptionsFault::Version,
        Wrong::NoSuchOption => match near_option(alloc, option) {
            Ok(Some(near)) => OptionsFault::Misspelt { option, near },
            Ok(None) => OptionsFault::NoSuchOption { option },
            Err(_) => OptionsFault::Memory,
        },
        Wrong::NoValue => {
            if option == "--rule" {
                OptionsFault::RuleNames
            } else {
                OptionsFault::NoValue {
                    option,
                    wanted: wanted_by(option),
                }
            }
        }
        Wrong::NeedlessValue => OptionsFault::NeedlessValue { option },
        Wrong::GivenTwice => OptionsFault::GivenTwice { option },
        Wrong::BadNumber => OptionsFault::BadNumber {
            option,
            value,
            wanted: wanted_by(option),
        },
        Wrong::Memory => OptionsFault::Memory,
    }
}

// The place of the word with which that is wrong. The words are halved, so that many of them are
// read a few times. An option lacks its value where the words end behind it, so a place in the
// middle is asked again with the word behind it.
fn place_of(alloc: Global, words: &[&str], wrong: Wrong) -> Result<usize, AllocError>
    requires { IsWrong wrong (texts_in words.now) }
    ensures { IfOk result (IsPlace wrong (texts_in words.now)) }
{
    let mut before = 0;
    let mut place = words.len();
    while place - before > 1 {
        let middle = before + (place - before) / 2;
        if !is_wrong(alloc, &words[..middle], wrong)? {
            before = middle;
        } else if !is_wrong(alloc, &words[..middle + 1], wrong)? {
            before = middle + 1;
        } else {
            place = middle;
        }
    }
    Ok(before)
}

// Whether that is wrong with words.
fn is_wrong(alloc: Global, words: &[&str], wrong: Wrong) -> Result<bool, AllocError>
    ensures { IfOk result (λ found. (found ≡ true) ↔ IsWrong wrong (texts_in words.now)) }
{
    match read(alloc, words) {
        Ok(matches) => {
            drop(matches);
            Ok(false)
        }
        Err(found) => {
            if found == Wrong::Memory {
                Err(AllocError)
            } else {
                Ok(found == wrong)
            }
        }
    }
}

// An option and its value, as the words have them.
struct Written<'a> {
    option: &'a str,
    value: &'a str,
}

// The option that the word at a place gives, or whose value that word is, and the value.
fn written_at<'a>(words: &'a [&'a str], place: usize) -> Written<'a>
    requires { place < length words.now }
    ensures option { result.option.now ≡ option_at (texts_in words.entry.now) place }
    ensures value { result.value.now ≡ value_at (texts_in words.entry.now) place }
{
    let word = words[place];
    if is_option(word) {
        written_in(word)
    } else {
        Written {
            option: words[place.saturating_sub(1)],
            value: word,
        }
    }
}

// The option and its value in one word.
fn written_in(word: &str) -> Written<'_>
    ensures option { result.option.now ≡ option_in word.entry.now }
    ensures value { result.value.now ≡ value_in word.entry.now }
{
    match word.split_once('=') {
        Some((option, value)) => Written { option, value },
        None => Written {
            option: word,
            value: "",
        },
    }
}

// Whether a word begins with a minus sign and has more behind it.
fn is_option(word: &str) -> bool
    ensures { result ≡ is_option word.now }
{
    let bytes = word.as_bytes();
    bytes.len() > 1 && bytes[0] == b'-'
}

// The option that is meant by a text, if one is near: that can be made of the text by two edits or
// fewer, or it begins with the text. Of several the one that fewest edits make of it, and of these
// the first of the help.
fn near_option(alloc: Global, text: &str) -> Result<Option<&'static str>, AllocError>
    ensures { IfOk result (λ name. IsNearest text.now (option_map (λ s. s.now) name)) }
{
    let mut nearest = OPTIONS;
    let mut least = 0;
    for at in 0..OPTIONS {
        let more = edits(alloc, text, option_named(at))?;
        if is_nearer(text, option_named(at), more, nearest, least) {
            nearest = at;
            least = more;
        }
    }
    if nearest < OPTIONS {
        Ok(Some(option_named(nearest)))
    } else {
        Ok(None)
    }
}

// The option at a place of their list, as it is written in words.
fn option_named(place: usize) -> &'static str
    requires { place < 12 }
    ensures { result.now ≡ name_at place }
{
    match place {
        0 => "--workers",
        1 => "--block",
        2 => "--window",
        3 => "--turns",
        4 => "--speculate",
        5 => "--check",
        6 => "--count",
        7 => "--explain",
        8 => "--stages",
        9 => "--rule",
        10 => "--help",
        _ => "--version",
    }
}

// Whether an option that so many edits make of a text is near to it, and fewer than of the nearest
// so far, if there is one.
fn is_nearer(text: &str, option: &str, more: usize, nearest: usize, least: usize) -> bool
    ensures { more ≡ edits text.now option.now
        → result ≡ (is_near text.now option.now && ((nearest == 12) || nat_lt more least)) }
{
    is_near(text, option, more) && (nearest == OPTIONS || more < least)
}

// Whether an option that so many edits make of a text is near to it.
fn is_near(text: &str, option: &str, count: usize) -> bool
    ensures { count ≡ edits text.now option.now → result ≡ is_near text.now option.now }
{
    count <= 2 || (text.len() > 2 && option.as_bytes().starts_with(text.as_bytes()))
}

// How many edits make a text into an option.
fn edits(alloc: Global, text: &str, option: &str) -> Result<usize, AllocError>
    ensures { IfOk result (λ n. n ≡ edits text.now option.now) }
{
    levenshtein(alloc, text, option)
}

// What stands behind an option that takes something.
fn wanted_by(option: &str) -> &'static str
    ensures { result.now ≡ wanted_by option.now }
{
    if option == "--workers" {
        "a number from 1 to 64"
    } else if option == "--block" {
        "a number from 1 to 1000000"
    } else if option == "--window" {
        "a number from 1 to 256"
    } else if option == "--turns" {
        "a number from 1 to 1000000000000"
    } else {
        "adaptive, always or never"
    }
}
