//! What the words of a command line ask for.

ghost use Rattle.std.specs.Prelude.{◌≡◌, ◌⊎◌, IfErr, IfOk, MatchOption, MatchResult, Some, None};
ghost use Rattle.std.specs.Prelude.{Ok, Err, is_some, option_map};
ghost use Rattle.command_line.specs.declared.asked.OptionsFault.TheVariants.{Memory};
ghost use Rattle.command_line.specs.CommandLine.{Flag, Given, Part, file, speculating, files_of};
ghost use Rattle.command_line.specs.CommandLine.{first, first_idle, flag, idle_pair, is_idle};
ghost use Rattle.command_line.specs.CommandLine.{is_on, mode_of, name_of, number_in, part, plan_in};
ghost use Rattle.command_line.specs.CommandLine.{settings, speculation_of, stands, values};
ghost use Rattle.command_line.specs.Culprits.{AsksFor, IsAsked, IsClash, IsFault, IsIdle};
ghost use Rattle.command_line.specs.Matches.{IsGiven, IsNumber, texts_in};

use crate::asked::{Mode, Options, OptionsFault, Setting, Speculation};
use crate::culprits::fault_by;
use crate::reading::read;
use clap::ArgMatches;
use meaning::plan::Plan;
use std::alloc::Global;

// All settings, in the order of the help.
const SETTINGS: &[Setting] = &[
    Setting::Workers,
    Setting::Block,
    Setting::Window,
    Setting::Turns,
    Setting::Speculate,
    Setting::Check,
    Setting::Count,
    Setting::Explain,
    Setting::Stages,
    Setting::Rule,
    Setting::File,
];

/// Reads a command line, the first word of which is the program's name: options and a file in any
/// order, each option once at most. `--workers` (1 to 64; 4 where it isn't given), `--block` (1 to
/// 1,000,000; 64), `--window` (1 to 256; 8) and `--turns` (1 to 1,000,000,000,000; 1,000,000,000)
/// take a number as `--turns 5` or `--turns=5`, in digits with a plus sign in front or not.
/// `--speculate` takes `adaptive`, which it is where it isn't given, `always` or `never`. `--rule`
/// takes any text. `--check`, `--count`, `--explain` and `--stages` take none, and are false where
/// they aren't given. Behind `--` each word is a file, and a minus sign alone is one too.
///
/// # Errors
///
/// The first thing, from the left, for which the words name no run; what stands for an option or a
/// file is looked at when the word behind it is known. Behind all words the number of files is
/// looked at, then the word of `--speculate`, and then what has no effect with others: with
/// `--rule` all else; with `--check` what is about a run; with `--speculate never` the numbers of a
/// parallel run. `Memory` where memory was refused.
pub fn options<'a>(alloc: Global, words: &'a [&'a str]) -> Result<Options<'a>, OptionsFault<'a>>
    ensures ok { IfOk result (λ o. IsAsked (texts_in words.entry.now) o) }
    ensures err { IfErr
        result (λ e. (e ≡ OptionsFault.Memory) ⊎ IsFault (texts_in words.entry.now) e) }
{
    match read(alloc, words) {
        Ok(matches) => asked(&matches),
        Err(wrong) => Err(fault_by(alloc, words, wrong)),
    }
}

// What the matches ask for.
fn asked<'a>(matches: &ArgMatches<'a>) -> Result<Options<'a>, OptionsFault<'a>>
    requires { (given : Given) × IsGiven given matches.now }
    ensures { (given : Given) → IsGiven given matches.now → AsksFor given result }
{
    let file = file_given(matches)?;
    let speculate = speculation_given(matches)?;
    if let Some(fault) = idle_fault(matches, speculate) {
        return Err(fault);
    }
    Ok(Options {
        plan: plan_given(matches),
        speculate,
        file,
        rule: word_given(matches, "rule"),
        check: flag_given(matches, "check"),
        count: flag_given(matches, "count"),
        explain: flag_given(matches, "explain"),
        stages: flag_given(matches, "stages"),
    })
}

// The plan. Each number that is given is in its range.
fn plan_given(matches: &ArgMatches<'_>) -> Plan
    requires { (given : Given) × IsGiven given matches.now }
    ensures { (given : Given) → IsGiven given matches.now → result ≡ plan_in given }
{
    let plan = Plan::new(
        number_given(matches, "workers", 4),
        number_given(matches, "block", 64),
        number_given(matches, "window", 8),
        number_given(matches, "turns", 1_000_000_000),
    );
    match plan {
        Some(plan) => plan,
        None => unreachable!(),
    }
}

// The number of an option, or what stands for it where the words don't give it.
fn number_given(matches: &ArgMatches<'_>, name: &str, default: u64) -> u64
    ensures { (given : Given) (option : Part) → IsGiven given matches.now
        → IsNumber option name.now default → result ≡ number_in option given }
{
    matches.get_one::<u64>(name).unwrap_or(default)
}

// Whether a flag is given.
fn flag_given(matches: &ArgMatches<'_>, name: &str) -> bool
    ensures { (given : Given) (f : Flag) → IsGiven given matches.now
        → name.now ≡ name_of (flag f) → result ≡ is_on f given }
{
    matches.get_flag(name)
}

// The word of an option that takes one, where it is given.
fn word_given<'a>(matches: &ArgMatches<'a>, name: &str) -> Option<&'a str>
    ensures { (given : Given) (p : Part) → IsGiven given matches.now
        → name.now ≡ name_of (part p) → option_map (λ s. s.now) result ≡ first (part p) given }
{
    match matches.get_strs(name) {
        None => None,
        Some(words) => words.first().copied(),
    }
}

// Whether something is given for an option or a file.
fn part_given(matches: &ArgMatches<'_>, name: &str) -> bool
    ensures { (given : Given) (p : Part) → IsGiven given matches.now
        → name.now ≡ name_of (part p) → result ≡ is_some (first (part p) given) }
{
    word_given(matches, name).is_some()
}

// The file, where one is named.
fn file_given<'a>(matches: &ArgMatches<'a>) -> Result<Option<&'a str>, OptionsFault<'a>>
    ensures { (given : Given) → IsGiven given matches.now → MatchResult result
        (λ f. files_of (values (part file) given) ≡ Ok (option_map (λ s. s.now) f))
        (λ e. IsClash e (files_of (values (part file) given))) }
{
    match matches.get_strs("FILE") {
        None => Ok(None),
        Some(files) => {
            if files.len() > 1 {
                Err(OptionsFault::TooManyFiles {
                    first: files[0],
                    second: files[1],
                })
            } else {
                Ok(files.first().copied())
            }
        }
    }
}

// What is tried in parallel.
fn speculation_given<'a>(matches: &ArgMatches<'a>) -> Result<Speculation, OptionsFault<'a>>
    ensures { (given : Given) → IsGiven given matches.now → MatchResult result
        (λ s. speculation_of (first (part speculating) given) ≡ Ok s)
        (λ e. IsClash e (speculation_of (first (part speculating) given))) }
{
    match word_given(matches, "speculate") {
        None => Ok(Speculation::Adaptive),
        Some(word) => speculation_by(word),
    }
}

// What is tried in parallel by a word, if it is one for that.
fn speculation_by(word: &str) -> Result<Speculation, OptionsFault<'_>>
    ensures { MatchResult result
        (λ s. speculation_of (Some word.entry.now) ≡ Ok s)
        (λ e. IsClash e (speculation_of (Some word.entry.now))) }
{
    if word == "adaptive" {
        Ok(Speculation::Adaptive)
    } else if word == "always" {
        Ok(Speculation::Always)
    } else if word == "never" {
        Ok(Speculation::Never)
    } else {
        Err(OptionsFault::NoSuchSpeculation { value: word })
    }
}

// What is given without an effect, if anything is.
fn idle_fault<'a>(matches: &ArgMatches<'a>, speculate: Speculation) -> Option<OptionsFault<'a>>
    ensures { (given : Given) → IsGiven given matches.now
        → MatchOption result
        (idle_pair given speculate ≡ None) (λ e. IsIdle e (idle_pair given speculate)) }
{
    let mode = mode_given(matches, speculate)?;
    let idle = idle_given(matches, mode)?;
    Some(OptionsFault::NoEffect { idle, mode })
}

// What leaves others without an effect.
fn mode_given(matches: &ArgMatches<'_>, speculate: Speculation) -> Option<Mode>
    ensures { (given : Given) → IsGiven given matches.now → result ≡ mode_of given speculate }
{
    if part_given(matches, "rule") {
        Some(Mode::Rule)
    } else if flag_given(matches, "check") {
        Some(Mode::Check)
    } else if speculate == Speculation::Never {
        Some(Mode::Never)
    } else {
        None
    }
}

// The first setting that is given and has no effect.
fn idle_given(matches: &ArgMatches<'_>, mode: Mode) -> Option<Setting>
    ensures { (given : Given) → IsGiven given matches.now → result
        ≡ first_idle mode given settings }
{
    for setting in SETTINGS {
        if is_idle(mode, *setting) && is_given(matches, *setting) {
            return Some(*setting);
        }
    }
    None
}

// Whether a setting has no effect.
fn is_idle(mode: Mode, setting: Setting) -> bool
    ensures { result ≡ is_idle mode setting }
{
    match mode {
        Mode::Rule => setting != Setting::Rule,
        Mode::Check => {
            !matches!(
                setting,
                Setting::Check | Setting::Explain | Setting::Rule | Setting::File
            )
        }
        Mode::Never => { matches!(setting, Setting::Workers | Setting::Block | Setting::Window) }
    }
}

// Whether a setting stands among the words.
fn is_given(matches: &ArgMatches<'_>, setting: Setting) -> bool
    ensures { (given : Given) → IsGiven given matches.now → result ≡ stands setting given }
{
    match setting {
        Setting::Workers => part_given(matches, "workers"),
        Setting::Block => part_given(matches, "block"),
        Setting::Window => part_given(matches, "window"),
        Setting::Turns => part_given(matches, "turns"),
        Setting::Speculate => part_given(matches, "speculate"),
        Setting::Check => flag_given(matches, "check"),
        Setting::Count => flag_given(matches, "count"),
        Setting::Explain => flag_given(matches, "explain"),
        Setting::Stages => flag_given(matches, "stages"),
        Setting::Rule => part_given(matches, "rule"),
        Setting::File => part_given(matches, "FILE"),
    }
}
