//! Runs each FORTRAN program of `data`, where each module has a folder, and compares how it ends
//! and what it writes with the file beside it: a line with the ending, and the records. The records
//! are those that another compiler's program writes (gfortran 12.2, by `gfortran -std=legacy -w
//! -finit-local-zero`) where it takes the program and means the same by it; which rule is told and
//! which fault comes from docs/LANGUAGE.md. Where the ending's line says turns, as in `ENDED AFTER
//! 23 TURNS`, these were counted by hand. A first line `C TURNS n` gives the program n turns; any
//! other has 1,000,000,000. The examples, in the folder `examples` there, end without a fault; the
//! files beside them hold their records alone. A program with a DO or DO WHILE statement is run by
//! 40 plans; any other by two, and so is each example. By each plan it comes to the same, and by
//! those with blocks of 2 trips a second time, where DO statements are tried only as far as that is
//! worth it. By four plans a program that used n turns comes to the same with n, and with n - 1,
//! where that is a limit, to F4.
#![tactic(auto)]

use executor::run::{run, run_adaptive};
use executor::{Open, Out, Unwatched};
use meaning::ending::{Ending, Fault, FaultKind, Report, StopMessage};
use meaning::plan::Plan;
use std::alloc::Global;
use std::io::Print;
use std::rt::Files;
use std::sync::Wait;
use std::thread::Threads;
use std::{fs, io, str};

/// The turns that a program has which doesn't say them.
const TURNS: u64 = 1_000_000_000;

/// How many workers, how many trips in a block, and how many blocks at a time.
type Numbers = (u64, u64, u64);

/// The trips of a block in the plans by which a program is run a second time, where DO statements
/// are tried only as far as that is worth it.
const ADAPTIVE: u64 = 2;

/// The plans of a program without a DO statement.
const FEW: &[Numbers] = &[(1, 1, 1), (4, 2, 8)];

/// The plans of a program with one: workers 1, 2, 4, 8, each with blocks of 1, 2, 7, 64 trips, each
/// with 1 and 8 blocks at a time; blocks of 3 and 5 trips; and 3 and 64 workers.
const ALL: &[Numbers] = &[
    (1, 1, 1),
    (1, 1, 8),
    (1, 2, 1),
    (1, 2, 8),
    (1, 7, 1),
    (1, 7, 8),
    (1, 64, 1),
    (1, 64, 8),
    (2, 1, 1),
    (2, 1, 8),
    (2, 2, 1),
    (2, 2, 8),
    (2, 7, 1),
    (2, 7, 8),
    (2, 64, 1),
    (2, 64, 8),
    (4, 1, 1),
    (4, 1, 8),
    (4, 2, 1),
    (4, 2, 8),
    (4, 7, 1),
    (4, 7, 8),
    (4, 64, 1),
    (4, 64, 8),
    (8, 1, 1),
    (8, 1, 8),
    (8, 2, 1),
    (8, 2, 8),
    (8, 7, 1),
    (8, 7, 8),
    (8, 64, 1),
    (8, 64, 8),
    (2, 3, 3),
    (4, 3, 8),
    (4, 5, 1),
    (2, 5, 3),
    (3, 2, 16),
    (3, 1_000_000, 16),
    (64, 1, 256),
    (64, 7, 1),
];

/// The plans by which it is tried how many turns a program needs.
const FOR_TURNS: &[Numbers] = &[(1, 1, 1), (2, 7, 8), (4, 2, 8), (3, 1, 3)];

// The number behind `C TURNS` in a source's first line, if that is what stands there.
fn turns_said(source: &[u8]) -> Option<u64> {
    let line = source.split(|&c| c == b'\n').next()?;
    let digits = str::from_utf8(line.strip_prefix(b"C TURNS ")?).ok()?;
    digits.parse().ok()
}

// What is told of a STOP statement.
fn stop_of(alloc: Global, message: &StopMessage) -> io::Result<String> {
    let told = match str::from_utf8(message.text()) {
        Ok("") => format!(in alloc; "STOP")?,
        Ok(text) => format!(in alloc; "STOP {text}")?,
        Err(_) => format!(in alloc; "STOP WITH OTHER BYTES")?,
    };
    Ok(told)
}

// What is told of an ending.
fn ending_of(alloc: Global, ending: &Ending) -> io::Result<String> {
    let told = match ending {
        Ending::Ended => format!(in alloc; "ENDED")?,
        Ending::Stopped(message) => stop_of(alloc, message)?,
        Ending::Fault(fault) => format!(in alloc; "FAULT {} LINE {}", fault.kind, fault.line)?,
        Ending::Refused(rule, line) => format!(in alloc; "REFUSED {rule} LINE {line}")?,
        Ending::Memory => format!(in alloc; "NO MEMORY")?,
        Ending::WriteRefused => format!(in alloc; "WRITE REFUSED")?,
    };
    Ok(told)
}

// The line of an ending, with the turns where they are wanted.
fn line_of(alloc: Global, report: &Report, with_turns: bool) -> io::Result<String> {
    let told = ending_of(alloc, &report.ending)?;
    let line = match report.turns {
        Some(turns) if with_turns => format!(in alloc; "{told} AFTER {turns} TURNS\n")?,
        _ => format!(in alloc; "{told}\n")?,
    };
    Ok(line)
}

/// How a source ended, with its turns, and its records.
#[derive(Drop)]
struct Found {
    report: Report,
    records: Vec<u8>,
}

// Whether a source comes to the same where DO statements are tried only as far as that is worth it.
fn is_same_adaptive<R: AllocGlobal + Threads + Wait + Sync>(
    rt: &R,
    source: &[u8],
    plan: &Plan,
    found: &Found,
) -> bool {
    let mut sink = Out::new(Vec::new(rt.alloc()));
    let report = run_adaptive(rt, rt.alloc(), source, plan, &mut sink, &Open, &Unwatched);
    let records = sink.into_inner();
    report == found.report && records == found.records
}

// How a source ends by the plan with these numbers and so many turns, and its records; none where
// there is no such plan, or where it comes to something else by it if DO statements are tried only
// as far as that is worth it.
fn found_by<R: AllocGlobal + Threads + Wait + Sync>(
    rt: &R,
    source: &[u8],
    numbers: Numbers,
    turns: u64,
) -> Option<Found> {
    let (workers, block, window) = numbers;
    let plan = Plan::new(workers, block, window, turns)?;
    let mut sink = Out::new(Vec::new(rt.alloc()));
    let report = run(rt, rt.alloc(), source, &plan, &mut sink, &Open);
    let records = sink.into_inner();
    let found = Found { report, records };
    if block != ADAPTIVE || is_same_adaptive(rt, source, &plan, &found) {
        return Some(found);
    }
    None
}

// Whether the first line of what is wanted says turns.
fn says_turns(wanted: &[u8]) -> bool {
    match wanted.split(|&c| c == b'\n').next() {
        Some(line) => line.strip_suffix(b" TURNS").is_some(),
        None => false,
    }
}

// Whether a source comes to what is wanted by the plan with these numbers.
fn comes_to<R: AllocGlobal + Threads + Wait + Sync>(
    rt: &R,
    source: &[u8],
    wanted: &[u8],
    numbers: Numbers,
) -> io::Result<bool> {
    let Some(found) = found_by(rt, source, numbers, turns_said(source).unwrap_or(TURNS)) else {
        return Ok(false);
    };
    let line = line_of(rt.alloc(), &found.report, says_turns(wanted))?;
    Ok(wanted.strip_prefix(line.as_bytes()) == Some(found.records.as_slice()))
}

// Whether a run met the limit on turns.
fn met_limit(report: &Report) -> bool {
    let kind = FaultKind::F4;
    matches!(report.ending, Ending::Fault(Fault { kind: found, .. }) if found == kind)
}

// Whether a program comes to the same with as many turns as it used, and meets the limit with one
// less.
fn needs_its_turns<R: AllocGlobal + Threads + Wait + Sync>(
    rt: &R,
    source: &[u8],
    numbers: Numbers,
) -> bool {
    let Some(whole) = found_by(rt, source, numbers, turns_said(source).unwrap_or(TURNS)) else {
        return false;
    };
    let turns = match whole.report.turns {
        Some(turns) if turns > 0 && !met_limit(&whole.report) => turns,
        _ => return true,
    };
    let Some(enough) = found_by(rt, source, numbers, turns) else {
        return false;
    };
    let same = enough.report == whole.report && enough.records == whole.records;
    match found_by(rt, source, numbers, turns.saturating_sub(1)) {
        Some(less) => same && met_limit(&less.report),
        // No plan has 0 turns.
        None => same && turns == 1,
    }
}

// The first of some plans by which a source doesn't come to what is wanted, if there is one.
fn missed_by<R: AllocGlobal + Threads + Wait + Sync>(
    rt: &R,
    source: &[u8],
    wanted: &[u8],
    plans: &[Numbers],
) -> io::Result<Option<Numbers>> {
    for &numbers in plans {
        if !comes_to(rt, source, wanted, numbers)? {
            return Ok(Some(numbers));
        }
    }
    for &numbers in FOR_TURNS {
        if !needs_its_turns(rt, source, numbers) {
            return Ok(Some(numbers));
        }
    }
    Ok(None)
}

// Whether a line is no comment, and its columns 7 to 72 begin with DO, blanks aside.
fn begins_with_do(line: &[u8]) -> bool {
    if let Some(b'C' | b'c' | b'*') = line.first() {
        return false;
    }
    let mut is_behind_d = false;
    for &c in line.iter().skip(6).take(66) {
        match c {
            b' ' => {}
            b'D' | b'd' if !is_behind_d => is_behind_d = true,
            b'O' | b'o' => return is_behind_d,
            _ => return false,
        }
    }
    false
}

// Whether a source has a DO statement. What else begins so, as an assignment to DO10I, is taken for
// one: by more plans it comes to the same as well.
fn has_do(source: &[u8]) -> bool {
    source
        .split(|&c| c == b'\n')
        .any(|line| begins_with_do(line))
}

// Whether a source ends at END or by a STOP statement by the plan with these numbers, and writes
// what is wanted.
fn writes<R: AllocGlobal + Threads + Wait + Sync>(
    rt: &R,
    source: &[u8],
    wanted: &[u8],
    numbers: Numbers,
) -> bool {
    let Some(Found { report, records }) = found_by(rt, source, numbers, TURNS) else {
        return false;
    };
    match report.ending {
        Ending::Ended | Ending::Stopped(_) => records.as_slice() == wanted,
        _ => false,
    }
}

// The first of some plans by which the example with a name doesn't write what the file beside it
// holds, if there is one.
fn not_shown_by<R: Files + AllocGlobal + Threads + Wait + Sync>(
    rt: &R,
    name: &str,
    plans: &[Numbers],
) -> io::Result<Option<Numbers>> {
    let source = fs::read(rt, format!(in rt.alloc(); "examples/{name}.f")?)?;
    let wanted = fs::read(rt, format!(in rt.alloc(); "examples/{name}.out")?)?;
    for &numbers in plans {
        if !writes(rt, &source, &wanted, numbers) {
            return Ok(Some(numbers));
        }
    }
    Ok(None)
}

/// How many programs come to what is wanted by few plans, and how many by all.
#[derive(Clone, Copy)]
struct Counts {
    by_few: u64,
    by_all: u64,
}

// Counts the program at a path if it comes to what is wanted by its plans; else it is told, with
// the plan.
fn count_program<R: Files + AllocGlobal + Threads + Wait + Sync + Print>(
    rt: &R,
    path: &str,
    counts: &mut Counts,
) -> io::Result<()> {
    let source = fs::read(rt, format!(in rt.alloc(); "{path}.f")?)?;
    let wanted = fs::read(rt, format!(in rt.alloc(); "{path}.out")?)?;
    let by_all = has_do(&source);
    match missed_by(rt, &source, &wanted, if by_all { ALL } else { FEW })? {
        None if by_all => counts.by_all = counts.by_all.saturating_add(1),
        None => counts.by_few = counts.by_few.saturating_add(1),
        Some((workers, block, window)) => {
            println!(rt;
                "{path}.f doesn't come to what stands in {path}.out by the plan {workers} {block} {window}"
            )?;
        }
    }
    Ok(())
}

// Counts the programs of a module's folder.
fn count_module<R: Files + AllocGlobal + Threads + Wait + Sync + Print + Clone + Drop>(
    rt: &R,
    module: &str,
    counts: &mut Counts,
) -> io::Result<()> {
    for entry in fs::read_dir(rt, module)? {
        let entry = entry?;
        if let Some(name) = entry.file_name().strip_suffix(".f") {
            let path = format!(in rt.alloc(); "{module}/{name}")?;
            count_program(rt, path.as_str(), counts)?;
        }
    }
    Ok(())
}

// How many programs of all modules come to what is wanted; the others are told.
fn count_programs<R: Files + AllocGlobal + Threads + Wait + Sync + Print + Clone + Drop>(
    rt: &R,
) -> io::Result<Counts> {
    let mut counts = Counts {
        by_few: 0,
        by_all: 0,
    };
    for entry in fs::read_dir(rt, ".")? {
        let entry = entry?;
        let name = entry.file_name();
        if name != "examples" && entry.file_type()?.is_dir() {
            count_module(rt, name, &mut counts)?;
        }
    }
    Ok(counts)
}

// How many examples write what is wanted; the others are told, with the plan.
fn count_examples<R: Files + AllocGlobal + Threads + Wait + Sync + Print + Clone + Drop>(
    rt: &R,
) -> io::Result<u64> {
    let mut count = 0u64;
    for entry in fs::read_dir(rt, "examples")? {
        let entry = entry?;
        if let Some(name) = entry.file_name().strip_suffix(".f") {
            match not_shown_by(rt, name, FEW)? {
                None => count = count.saturating_add(1),
                Some((workers, block, window)) => {
                    println!(rt;
                        "examples/{name}.f doesn't write what stands in {name}.out by the plan {workers} {block} {window}"
                    )?;
                }
            }
        }
    }
    Ok(count)
}

fn main(rt: HostRuntime) -> io::Result<()> {
    let counts = count_programs(&rt)?;
    let both = counts.by_few.saturating_add(counts.by_all);
    println!(rt; "{both} programs come to what is wanted")?;
    println!(rt;
        "{} of them by 40 plans each, {} by 2",
        counts.by_all, counts.by_few
    )?;
    let count = count_examples(&rt)?;
    println!(rt; "{count} examples write what another compiler's programs write")?;
    Ok(())
}
