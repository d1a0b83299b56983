//! The words of a command line as clap reads them: `f77run [OPTIONS] [FILE]`.

ghost use Rattle.std.specs.Prelude.{◌≡◌, ◌⊎◌, IfErr, IfOk, Ok, Err, false};
ghost use Rattle.clap.specs.Words.{app_of, rule_of};
ghost use Rattle.command_line.specs.declared.asked.Wrong.TheVariants.{Memory};
ghost use Rattle.command_line.specs.Command.{f77run, file_rule, flag_rule, number_rule, word_rule};
ghost use Rattle.command_line.specs.Command.{wrong_for};
ghost use Rattle.command_line.specs.CommandLine.{Given, given_by};
ghost use Rattle.command_line.specs.Matches.{IsGiven, texts_in};

use crate::asked::Wrong;
use clap::builder::ValueParser;
use clap::error::ErrorKind;
use clap::{Arg, ArgAction, ArgMatches, Command};
use std::alloc::{AllocError, Global};

/// Reads the words of a command line, the first of which is the program's name.
///
/// # Errors
///
/// The first thing, from the left, that is wrong with them, or for which they ask in place of a
/// run; what stands for an option or a file is looked at when the word behind it is known. `Memory`
/// where memory was refused.
pub fn read<'a>(alloc: Global, words: &'a [&'a str]) -> Result<ArgMatches<'a>, Wrong>
    ensures ok { IfOk
        result (λ m. (given : Given) × IsGiven given m
        × (given_by (texts_in words.entry.now) ≡ Ok given)) }
    ensures err { IfErr result (λ w. (w ≡ Wrong.Memory)
        ⊎ (given_by (texts_in words.entry.now) ≡ Err w)) }
{
    match command(alloc)?.try_get_matches_from(words) {
        Ok(matches) => Ok(matches),
        Err(error) => Err(wrong_for(error.kind())),
    }
}

// The command whose matches are read.
fn command<'a>(alloc: Global) -> Result<Command<'a>, AllocError>
    ensures { IfOk result (λ c. app_of c ≡ f77run) }
{
    Command::new(alloc, "f77run")
        .version("")
        .arg(number(alloc, "workers", 64))?
        .arg(number(alloc, "block", 1_000_000))?
        .arg(number(alloc, "window", 256))?
        .arg(number(alloc, "turns", 1_000_000_000_000))?
        .arg(word(alloc, "rule"))?
        .arg(word(alloc, "speculate"))?
        .arg(flag(alloc, "check"))?
        .arg(flag(alloc, "count"))?
        .arg(flag(alloc, "explain"))?
        .arg(flag(alloc, "stages"))?
        .arg(files(alloc))
}

// An option that takes a number from 1 to `most`.
fn number<'a>(alloc: Global, name: &'a str, most: u64) -> Arg<'a>
    ensures rule { rule_of result ≡ number_rule name.now most }
    ensures local { result.global ≡ false }
{
    Arg::new(alloc, name)
        .long(name)
        .action(ArgAction::Set)
        .value_parser(ValueParser::unsigned(1, most))
}

// An option that takes a word. Any text is read, so that an unknown one is told by whoever knows
// the words.
fn word<'a>(alloc: Global, name: &'a str) -> Arg<'a>
    ensures rule { rule_of result ≡ word_rule name.now }
    ensures local { result.global ≡ false }
{
    Arg::new(alloc, name).long(name).action(ArgAction::Set)
}

// An option that takes nothing.
fn flag<'a>(alloc: Global, name: &'a str) -> Arg<'a>
    ensures rule { rule_of result ≡ flag_rule name.now }
    ensures local { result.global ≡ false }
{
    Arg::new(alloc, name).long(name).action(ArgAction::SetTrue)
}

// The files. Any number of them is read, so that a second one is a fault of its own.
fn files<'a>(alloc: Global) -> Arg<'a>
    ensures rule { rule_of result ≡ file_rule }
    ensures local { result.global ≡ false }
{
    Arg::new(alloc, "FILE").action(ArgAction::Append)
}

// What is wrong with a command line that clap refuses. It gives no other kind for this command.
fn wrong_for(kind: ErrorKind) -> Wrong
    ensures { result ≡ wrong_for kind }
{
    match kind {
        ErrorKind::DisplayHelp => Wrong::Help,
        ErrorKind::DisplayVersion => Wrong::Version,
        ErrorKind::OutOfMemory => Wrong::Memory,
        ErrorKind::InvalidValue => Wrong::NoValue,
        ErrorKind::TooManyValues => Wrong::NeedlessValue,
        ErrorKind::ArgumentConflict => Wrong::GivenTwice,
        ErrorKind::ValueValidation => Wrong::BadNumber,
        _ => Wrong::NoSuchOption,
    }
}

impl From<AllocError> for Wrong {
    ghost from_gives = { λ _ w. w ≡ Memory };

    fn from(_error: AllocError) -> Wrong {
        Wrong::Memory
    }
}
