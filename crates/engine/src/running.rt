//! From the words of a command line to the exit status.

ghost use Rattle.std.specs.Prelude.{◌≡◌, ◌⊎◌, ◌↔◌, IfOk, IfSome, false, true};
ghost use Rattle.engine.specs.declared.running.NoRun.TheVariants.{Memory};
ghost use Rattle.messages.specs.Shown.{IsTold};
ghost use Rattle.engine.specs.Lines.{line_of_none, no_rule_line};
ghost use Rattle.engine.specs.Source.{SpellsAs};
ghost use Rattle.engine.specs.Runs.{IsKept, IsReport, IsStatus};
ghost use Rattle.engine.specs.Told.{AreTold};
ghost use Rattle.engine.specs.Status.{IsCheck, IsNamedBy, IsStatusOf, status_of, no_run_for};
ghost use Rattle.meaning.specs.Answers.{answer, program_of};
ghost use Rattle.meaning.specs.Promise.{Keeps};

use crate::idle::Watcher;
use crate::lines::{tell_ending, tell_turns};
use crate::notes::{Noted, Notes};
use crate::remembering::Remembering;
use crate::telling::{
    explained_first, is_alone, is_further, is_staged, tell_further, tell_matter, tell_stages,
};
use command_line::asked::{Options, OptionsFault, Speculation};
use command_line::help::{HELP, NAMES, VERSION};
use command_line::options::options;
use executor::run::{run_adaptive, run_by, run_watched};
use executor::{Open, Out, Sink, Watched};
use in_order::program_in;
use meaning::ending::{Ending, Report};
use meaning::refusal::Refusal;
use messages::{Texts, cause_of, file_name, matter_of, put, put_shown, tell_hint};
use rule_help::{FaultText, RuleText, fault_named, rule_named};
use std::alloc::{AllocError, AllocFailed, Global};
use std::env::Env;
use std::fmt::Write as _;
use std::io::{ErrorKind, Read, Write};
use std::rt::Files;
use std::sync::Wait;
use std::thread::Threads;
use std::{env, fs, io};

/// So many bytes of a source are read at most: one more than a source may have.
const BYTES_READ: u64 = 1_048_577;

/// Why no source is run.
#[derive(Clone, Copy, Debug)]
enum NoRun<'a> {
    /// The help is asked for instead.
    Help,
    /// The version is asked for instead.
    Version,
    /// The names of all rules and faults are asked for instead.
    Names,
    /// A rule is asked for instead.
    Rule(RuleText),
    /// A fault is asked for instead.
    Fault(FaultText),
    /// What is asked for is the name of no rule and no fault.
    NoSuchRule(&'a str),
    /// The command line is at fault.
    Faulty(OptionsFault<'a>),
    /// Memory was refused before the source was run.
    Memory,
    /// The file or standard input can't be read.
    FileRefused,
}

impl<'a> From<AllocError> for NoRun<'a> {
    ghost from_gives = { λ _ no_run. no_run ≡ Memory };

    fn from(_error: AllocError) -> NoRun<'a> {
        NoRun::Memory
    }
}

impl<'a, T: Drop> From<AllocFailed<T>> for NoRun<'a> {
    ghost from_gives = { λ _ no_run. no_run ≡ Memory };

    fn from(_error: AllocFailed<T>) -> NoRun<'a> {
        NoRun::Memory
    }
}

impl<'a> From<OptionsFault<'a>> for NoRun<'a> {
    ghost from_gives = { λ fault no_run. no_run ≡ no_run_for fault };

    fn from(fault: OptionsFault<'a>) -> NoRun<'a> {
        match fault {
            OptionsFault::Help => NoRun::Help,
            OptionsFault::Version => NoRun::Version,
            OptionsFault::RuleNames => NoRun::Names,
            OptionsFault::Memory => NoRun::Memory,
            _ => NoRun::Faulty(fault),
        }
    }
}

/// Runs the program of a command line over a reader for standard input and writers for standard
/// output and standard error, and answers its exit status: 0 where END was reached, a STOP
/// statement was executed, a source was checked that breaks no rule, or a text was asked for, 1 for
/// a fault, 2 for a refused source, 3 for a fault of the command line, 4 for want of memory, 5
/// where the source can't be read or a write is refused. What the command line asks for comes
/// first, then the source, its run or its check, and the flush of its output. With two workers or
/// more it waits for their threads.
pub fn engine<
    R: Files + AllocGlobal + Threads + Wait + Sync,
    V: Env,
    I: Read,
    O: Write + Drop,
    E: Write,
>(rt: &R, words: &V, input: &mut I, out: O, err: &mut E) -> u8 {
    let mut lines = Out::new(err);
    let status = match words_of(words, rt.alloc()) {
        Ok(words) => {
            let status = by_words(rt, &words, input, out, &mut lines);
            drop(words);
            status
        }
        Err(no_run) => tell_no_run(no_run, out, &mut lines),
    };
    let _ = lines.into_inner();
    status
}

// Runs the program of the words of a command line.
fn by_words<R: Files + AllocGlobal + Threads + Wait + Sync, I: Read, O: Write + Drop, S: Sink>(
    rt: &R,
    words: &[String],
    input: &mut I,
    out: O,
    err: &mut S,
) -> u8 {
    match texts_of(rt.alloc(), words) {
        Ok(texts) => {
            let status = by_texts(rt, &texts, input, out, err);
            drop(texts);
            status
        }
        Err(error) => tell_no_run(NoRun::from(error), out, err),
    }
}

// Runs the program of the texts of a command line.
fn by_texts<'a, R: Files + AllocGlobal + Threads + Wait + Sync, I: Read, O: Write + Drop, S: Sink>(
    rt: &R,
    texts: &'a [&'a str],
    input: &mut I,
    out: O,
    err: &mut S,
) -> u8 {
    match options(rt.alloc(), texts) {
        Ok(asked) => by_options(rt, &asked, input, out, err),
        Err(fault) => tell_no_run(NoRun::from(fault), out, err),
    }
}

// Runs the program that a command line asks for, or shows the rule that it asks for.
fn by_options<R: Files + AllocGlobal + Threads + Wait + Sync, I: Read, O: Write + Drop, S: Sink>(
    rt: &R,
    asked: &Options<'_>,
    input: &mut I,
    out: O,
    err: &mut S,
) -> u8 {
    match asked.rule {
        Some(name) => tell_no_run(rule_asked(name), out, err),
        None => match source_of(rt, asked.file, input) {
            Ok(source) => by_source(rt, asked, &source, out, err).0,
            Err(error) => tell_unread(asked, &error, out, err),
        },
    }
}

// Runs or checks a source, and tells what came of it. Answers the exit status and the writer.
fn by_source<R: Files + AllocGlobal + Threads + Wait + Sync, O: Write + Drop, S: Sink>(
    rt: &R,
    asked: &Options<'_>,
    source: &[u8],
    out: O,
    err: &mut S,
) -> (u8, O)
    ensures { IsStatus asked.now source.now (O.contents out) (O.contents result.1) result.0 }
{
    let notes = Notes::new(rt.alloc(), asked);
    let (report, out) = report_of(rt, asked, source, &notes, out);
    let refusal = notes.refusal();
    let status = tell(rt.alloc(), report, asked, source, notes.into_noted(), err);
    if asked.explain {
        if let Some(error) = refusal {
            tell_error("<stdout>", &error, err);
        }
    }
    (status, out)
}

// What comes of a source: of its check, where that is asked for, and else of its run.
fn report_of<R: Files + AllocGlobal + Threads + Wait + Sync, O: Write + Drop>(
    rt: &R,
    asked: &Options<'_>,
    source: &[u8],
    notes: &Notes,
    out: O,
) -> (Report, O)
    ensures { IsReport asked.now source.now (O.contents out) (O.contents result.1) result.0 }
{
    if asked.check {
        let report = Report {
            ending: checked(rt.alloc(), source),
            turns: None,
        };
        (report, out)
    } else {
        run_whole(rt, asked, source, notes, out)
    }
}

// How the check of a source ends.
fn checked(alloc: Global, source: &[u8]) -> Ending
    ensures { IsCheck (program_of source.now) result }
{
    match program_in(alloc, source) {
        Ok(_) => Ending::Ended,
        Err(Refusal::Rule { rule, line }) => Ending::Refused(rule, line),
        Err(Refusal::Memory) => Ending::Memory,
    }
}

// What is asked for by the name of a rule or a fault.
fn rule_asked(name: &str) -> NoRun<'_>
    ensures { IsNamedBy name.entry.now result }
{
    match rule_named(name) {
        Some(row) => NoRun::Rule(row),
        None => match fault_named(name) {
            Some(row) => NoRun::Fault(row),
            None => NoRun::NoSuchRule(name),
        },
    }
}

// The texts of words.
fn texts_of(alloc: Global, words: &[String]) -> Result<Vec<&str>, AllocError> {
    let mut texts = Vec::new(alloc);
    for word in words {
        texts.push(word.as_str())?;
    }
    Ok(texts)
}

// The words of a command line.
fn words_of<'a, V: Env>(words: &V, alloc: Global) -> Result<Vec<String>, NoRun<'a>> {
    let found = match env::args(&(words, alloc)) {
        Ok(found) => found,
        Err(error) => {
            return Err(match error.kind() {
                ErrorKind::InvalidData => NoRun::Faulty(OptionsFault::NotUtf8),
                _ => NoRun::Memory,
            });
        }
    };
    let mut texts = Vec::new(alloc);
    for word in found {
        texts.push(word)?;
    }
    Ok(texts)
}

// Why a source couldn't be read.
fn unread<'a>(error: &io::Error) -> NoRun<'a> {
    match error.kind() {
        ErrorKind::OutOfMemory => NoRun::Memory,
        _ => NoRun::FileRefused,
    }
}

// Writes that a source couldn't be read, and with --explain which one, and what the system said.
// Answers the exit status.
fn tell_unread<O: Write + Drop, S: Sink>(
    asked: &Options<'_>,
    error: &io::Error,
    out: O,
    err: &mut S,
) -> u8 {
    let status = tell_no_run(unread(error), out, err);
    if asked.explain {
        tell_error(file_name(asked.file), error, err);
    }
    status
}

// Writes what the system said of a file.
fn tell_error<S: Sink>(file: &str, error: &io::Error, err: &mut S) {
    put_shown(file.as_bytes(), err);
    let mut texts = Texts { sink: err };
    let _ = write!(texts, ": {error}");
    put("\n", texts.sink);
}

// The bytes of the source; a minus sign in place of a file is standard input.
fn source_of<R: Files + AllocGlobal, I: Read>(
    rt: &R,
    file: Option<&str>,
    input: &mut I,
) -> io::Result<Vec<u8>> {
    match file {
        None | Some("-") => front_of(rt.alloc(), input),
        Some(path) => front_of(rt.alloc(), fs::open(rt, path)?),
    }
}

// The bytes that are read of a source. They spell what the whole source does, however long it is.
fn front_of<I: Read + Drop>(alloc: Global, reader: I) -> io::Result<Vec<u8>>
    ensures { IfOk result (λ v. IfSome (I.remaining reader) (SpellsAs v.items)) }
{
    let mut source = Vec::new(alloc);
    reader.take(BYTES_READ).read_to_end(&mut source)?;
    Ok(source)
}

// Runs a source over a sink, by stages or in order as it is asked for.
fn run_over<R: Files + AllocGlobal + Threads + Wait + Sync, S: Sink>(
    rt: &R,
    asked: &Options<'_>,
    source: &[u8],
    notes: &Notes,
    sink: &mut S,
) -> Report
    requires { (S.told sink.old).refused ≡ false }
    ensures promise { Keeps (answer source.now asked.now.plan.turns)
        (S.told sink.old) (S.told sink.new) result }
    ensures refused { (result.ending ≡ Ending.WriteRefused) ↔ ((S.told sink.new).refused ≡ true) }
{
    let alloc = rt.alloc();
    let plan = &asked.plan;
    match asked.speculate {
        Speculation::Adaptive => {
            let watcher = Watcher::new(rt, notes);
            run_adaptive(rt, alloc, source, plan, sink, &Open, &watcher)
        }
        Speculation::Always => run_watched(rt, alloc, source, plan, sink, &Open, notes),
        Speculation::Never => {
            let quiet_loops = Watched { watcher: notes };
            run_by(alloc, &quiet_loops, source, plan.turns(), sink)
        }
    }
}

// Runs a source over a writer and flushes it; a flush that fails takes the place of the ending.
// What the writer holds then is the answer, or the report says why it is a beginning of that.
fn run_whole<R: Files + AllocGlobal + Threads + Wait + Sync, O: Write + Drop>(
    rt: &R,
    asked: &Options<'_>,
    source: &[u8],
    notes: &Notes,
    out: O,
) -> (Report, O)
    ensures { IsKept source.now asked.now.plan.turns (O.contents out) (O.contents result.1)
        result.0 }
{
    let mut sink = Out::new(Remembering { out, error: None });
    let report = run_over(rt, asked, source, notes, &mut sink);
    let mut writer = sink.into_inner();
    let flushed = writer.flush();
    let Remembering { out, error } = writer;
    notes.note_refusal(error);
    match flushed {
        Ok(()) => (report, out),
        Err(_) => {
            let refused = Report {
                ending: Ending::WriteRefused,
                turns: None,
            };
            (refused, out)
        }
    }
}

// Writes what is told of a run, or of a check: the line of its ending, its turns, and what else is
// asked for. Answers the exit status. A line that can't be written changes nothing.
fn tell<S: Sink>(
    alloc: Global,
    report: Report,
    asked: &Options<'_>,
    source: &[u8],
    noted: Noted,
    err: &mut S,
) -> u8
    ensures status { result ≡ status_of report.ending }
    ensures lines { AreTold report asked.now source.now (S.told err.old) (S.told err.new) }
{
    let Report { ending, turns } = report;
    let Noted { rows, detail } = noted;
    let matter = matter_of(&ending);
    let cause = cause_of(&ending);
    let is_staged = is_staged(asked, &ending);
    let is_further = is_further(asked, &ending);
    let first = explained_first(asked, &ending);
    let status = tell_ending(ending, err);
    tell_turns(asked.count, turns, err);
    let is_alone = is_alone(asked);
    tell_stages(is_staged, is_alone, alloc, source, rows, turns, err);
    let file = file_name(asked.file);
    tell_matter(asked.explain, alloc, file, source, matter, detail, err);
    tell_hint(asked.explain, alloc, source, cause, err);
    tell_further(is_further, first, alloc, file, source, err);
    status
}

// Writes why no source is run, or the text that is asked for, and answers the exit status.
#[tactic(auto, using(crate::proofs::Told::told_text))]
fn tell_no_run<O: Write + Drop, S: Sink>(no_run: NoRun<'_>, out: O, err: &mut S) -> u8
    ensures status { IsStatusOf no_run.entry result }
    ensures line { IfSome (line_of_none no_run.entry result)
        (λ line. IsTold line (S.told err.old) (S.told err.new)) }
{
    match no_run {
        NoRun::Help => tell_ending(show(&[HELP], out), err),
        NoRun::Version => tell_ending(show(&[VERSION], out), err),
        NoRun::Names => tell_ending(show(&[NAMES], out), err),
        NoRun::Rule(row) => tell_ending(show_rule(&row, out), err),
        NoRun::Fault(row) => tell_ending(show_fault(&row, out), err),
        NoRun::NoSuchRule(name) => {
            tell_no_rule(name, err);
            3
        }
        NoRun::Faulty(fault) => {
            tell_fault(fault, err);
            3
        }
        NoRun::Memory => tell_ending(Ending::Memory, err),
        NoRun::FileRefused => {
            put("FILE REFUSED\n", err);
            5
        }
    }
}

// Writes what is wrong with a command line, in one line.
fn tell_fault<S: Sink>(fault: OptionsFault<'_>, err: &mut S) {
    put("f77run: ", err);
    let mut texts = Texts { sink: err };
    let _ = write!(texts, "{fault}");
    put("\n", texts.sink);
}

// Writes that no rule and no fault has a name.
fn tell_no_rule<S: Sink>(name: &str, err: &mut S)
    ensures { IsTold (no_rule_line name.now) (S.told err.old) (S.told err.new) }
{
    put("f77run: there is no rule or fault '", err);
    put_shown(name.as_bytes(), err);
    put("'; f77run --rule lists them\n", err);
}

// Writes a rule in a sentence, with a program that breaks it and one that doesn't.
fn show_rule<O: Write + Drop>(row: &RuleText, out: O) -> Ending
    ensures { (result ≡ Ending.Ended) ⊎ (result ≡ Ending.WriteRefused) }
{
    let name = row.rule.name();
    let breaks = match row.breaks {
        Some(program) => program,
        None => "(none is that short)\n",
    };
    show(
        &[
            name,
            ": ",
            row.sentence,
            "\n\nRefused by it:\n\n",
            breaks,
            "\nNot refused:\n\n",
            row.keeps,
        ],
        out,
    )
}

// Writes a fault in a sentence, with a program that ends with it and one that doesn't.
fn show_fault<O: Write + Drop>(row: &FaultText, out: O) -> Ending
    ensures { (result ≡ Ending.Ended) ⊎ (result ≡ Ending.WriteRefused) }
{
    show(
        &[
            row.kind.name(),
            ": ",
            row.sentence,
            "\n\nEnds with it:\n\n",
            row.faults,
            "\nDoesn't:\n\n",
            row.runs,
        ],
        out,
    )
}

// Writes texts one behind the other and flushes them, and answers the ending that this is.
fn show<O: Write + Drop>(texts: &[&str], out: O) -> Ending
    ensures { (result ≡ Ending.Ended) ⊎ (result ≡ Ending.WriteRefused) }
{
    let mut out = out;
    for text in texts {
        if out.write_all(text.as_bytes()).is_err() {
            return Ending::WriteRefused;
        }
    }
    match out.flush() {
        Ok(()) => Ending::Ended,
        Err(_) => Ending::WriteRefused,
    }
}
