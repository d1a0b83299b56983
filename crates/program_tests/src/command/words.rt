//! What the words of command lines ask for. The expected values are worked from what `f77run
//! --help` says; what is wrong with other words is asked of the program as it is built, by
//! `tests/run`.

use command_line::asked::{Mode, Options, OptionsFault, Setting, Speculation};
use command_line::options::options;
use meaning::plan::Plan;
use std::test::*;

/// The numbers of a plan: workers, block, window and turns.
type Numbers = (u64, u64, u64, u64);

const NONE_GIVEN: Numbers = (4, 64, 8, 1_000_000_000);

/// Whether `--check`, `--count`, `--explain` and `--stages` are asked for.
type Flags = (bool, bool, bool, bool);

const NO_FLAG: Flags = (false, false, false, false);

// Words, the plan and the flags that they ask for, the name of a rule or a fault, and the file.
const ASKED: &[(&[&str], Numbers, Flags, Option<&str>, Option<&str>)] = &[
    (&["f77run"], NONE_GIVEN, NO_FLAG, None, None),
    (&[], NONE_GIVEN, NO_FLAG, None, None),
    (&["f77run", "a.f"], NONE_GIVEN, NO_FLAG, None, Some("a.f")),
    // each option alone, at its least and its greatest number
    (
        &["f77run", "--workers", "1"],
        (1, 64, 8, 1_000_000_000),
        NO_FLAG,
        None,
        None,
    ),
    (
        &["f77run", "--workers", "64"],
        (64, 64, 8, 1_000_000_000),
        NO_FLAG,
        None,
        None,
    ),
    (
        &["f77run", "--block", "1"],
        (4, 1, 8, 1_000_000_000),
        NO_FLAG,
        None,
        None,
    ),
    (
        &["f77run", "--block", "1000000"],
        (4, 1_000_000, 8, 1_000_000_000),
        NO_FLAG,
        None,
        None,
    ),
    (
        &["f77run", "--window", "1"],
        (4, 64, 1, 1_000_000_000),
        NO_FLAG,
        None,
        None,
    ),
    (
        &["f77run", "--window", "256"],
        (4, 64, 256, 1_000_000_000),
        NO_FLAG,
        None,
        None,
    ),
    (
        &["f77run", "--turns", "1"],
        (4, 64, 8, 1),
        NO_FLAG,
        None,
        None,
    ),
    (
        &["f77run", "--turns", "1000000000000"],
        (4, 64, 8, 1_000_000_000_000),
        NO_FLAG,
        None,
        None,
    ),
    // spellings of a number
    (&["f77run", "--turns=5"], (4, 64, 8, 5), NO_FLAG, None, None),
    (
        &["f77run", "--turns", "+5"],
        (4, 64, 8, 5),
        NO_FLAG,
        None,
        None,
    ),
    (
        &["f77run", "--turns=0005"],
        (4, 64, 8, 5),
        NO_FLAG,
        None,
        None,
    ),
    // in any order
    (
        &[
            "f77run",
            "--turns=5",
            "a.f",
            "--window",
            "3",
            "--block=2",
            "--workers",
            "7",
        ],
        (7, 2, 3, 5),
        NO_FLAG,
        None,
        Some("a.f"),
    ),
    // names of files
    (&["f77run", "-"], NONE_GIVEN, NO_FLAG, None, Some("-")),
    (&["f77run", ""], NONE_GIVEN, NO_FLAG, None, Some("")),
    (
        &["f77run", "--", "-x.f"],
        NONE_GIVEN,
        NO_FLAG,
        None,
        Some("-x.f"),
    ),
    (
        &["f77run", "--", "--turns"],
        NONE_GIVEN,
        NO_FLAG,
        None,
        Some("--turns"),
    ),
    (
        &["f77run", "--", "--count"],
        NONE_GIVEN,
        NO_FLAG,
        None,
        Some("--count"),
    ),
    (
        &["f77run", "--", "--"],
        NONE_GIVEN,
        NO_FLAG,
        None,
        Some("--"),
    ),
    (
        &["f77run", "--turns", "5", "--", "a.f"],
        (4, 64, 8, 5),
        NO_FLAG,
        None,
        Some("a.f"),
    ),
    (
        &["f77run", "a.f", "--"],
        NONE_GIVEN,
        NO_FLAG,
        None,
        Some("a.f"),
    ),
    // --count
    (
        &["f77run", "--count"],
        NONE_GIVEN,
        (false, true, false, false),
        None,
        None,
    ),
    (
        &["f77run", "--count", "a.f"],
        NONE_GIVEN,
        (false, true, false, false),
        None,
        Some("a.f"),
    ),
    (
        &["f77run", "a.f", "--count"],
        NONE_GIVEN,
        (false, true, false, false),
        None,
        Some("a.f"),
    ),
    (
        &["f77run", "--count", "--turns", "5"],
        (4, 64, 8, 5),
        (false, true, false, false),
        None,
        None,
    ),
    (
        &["f77run", "--turns=5", "--count"],
        (4, 64, 8, 5),
        (false, true, false, false),
        None,
        None,
    ),
    (
        &["f77run", "--turns", "5", "--count", "a.f"],
        (4, 64, 8, 5),
        (false, true, false, false),
        None,
        Some("a.f"),
    ),
    // it has no number, so that a number behind it is a file
    (
        &["f77run", "--count", "5"],
        NONE_GIVEN,
        (false, true, false, false),
        None,
        Some("5"),
    ),
    (
        &["f77run", "--count", "--", "--count"],
        NONE_GIVEN,
        (false, true, false, false),
        None,
        Some("--count"),
    ),
    // the flags
    (
        &["f77run", "--check"],
        NONE_GIVEN,
        (true, false, false, false),
        None,
        None,
    ),
    (
        &["f77run", "--explain"],
        NONE_GIVEN,
        (false, false, true, false),
        None,
        None,
    ),
    (
        &["f77run", "--explain", "a.f", "--check"],
        NONE_GIVEN,
        (true, false, true, false),
        None,
        Some("a.f"),
    ),
    (
        &["f77run", "--stages", "--turns", "5", "--explain", "--count"],
        (4, 64, 8, 5),
        (false, true, true, true),
        None,
        None,
    ),
    // what stands behind them or behind -- is a file
    (
        &["f77run", "--check", "true"],
        NONE_GIVEN,
        (true, false, false, false),
        None,
        Some("true"),
    ),
    (
        &["f77run", "--", "--explain"],
        NONE_GIVEN,
        NO_FLAG,
        None,
        Some("--explain"),
    ),
    (
        &["f77run", "--stages"],
        NONE_GIVEN,
        (false, false, false, true),
        None,
        None,
    ),
    (
        &["f77run", "--explain", "-", "--check"],
        NONE_GIVEN,
        (true, false, true, false),
        None,
        Some("-"),
    ),
    // --rule
    (
        &["f77run", "--rule", "K3"],
        NONE_GIVEN,
        NO_FLAG,
        Some("K3"),
        None,
    ),
    (
        &["f77run", "--rule=K3"],
        NONE_GIVEN,
        NO_FLAG,
        Some("K3"),
        None,
    ),
    // any text is a name, and so is none
    (
        &["f77run", "--rule", "k3"],
        NONE_GIVEN,
        NO_FLAG,
        Some("k3"),
        None,
    ),
    (
        &["f77run", "--rule", "5"],
        NONE_GIVEN,
        NO_FLAG,
        Some("5"),
        None,
    ),
    (
        &["f77run", "--rule", "-"],
        NONE_GIVEN,
        NO_FLAG,
        Some("-"),
        None,
    ),
    (&["f77run", "--rule="], NONE_GIVEN, NO_FLAG, Some(""), None),
    (
        &["f77run", "--rule", ""],
        NONE_GIVEN,
        NO_FLAG,
        Some(""),
        None,
    ),
];

#[test]
fn words_ask_for(rt: HostRuntime) {
    for &(words, numbers, flags, rule, file) in ASKED {
        let (workers, block, window, turns) = numbers;
        let plan = Plan::new(workers, block, window, turns).expect(&rt, "a plan");
        let (check, count, explain, stages) = flags;
        let wanted = Options {
            plan,
            speculate: Speculation::Adaptive,
            file,
            rule,
            check,
            count,
            explain,
            stages,
        };
        assert!(rt; options(rt.alloc(), words) == Ok(wanted), "{words:?}");
    }
}

// Words, and what is tried in parallel by them, or what is wrong.
const TRIED: &[(&[&str], Result<Speculation, OptionsFault<'static>>)] = &[
    (&["f77run", "a.f"], Ok(Speculation::Adaptive)),
    (
        &["f77run", "--speculate", "adaptive"],
        Ok(Speculation::Adaptive),
    ),
    (&["f77run", "--speculate=always"], Ok(Speculation::Always)),
    (
        &["f77run", "--speculate", "never", "a.f"],
        Ok(Speculation::Never),
    ),
    (
        &["f77run", "--speculate", "Never"],
        Err(OptionsFault::NoSuchSpeculation { value: "Never" }),
    ),
    (
        &["f77run", "--speculate", "a.f", "--workers", "2"],
        Err(OptionsFault::NoSuchSpeculation { value: "a.f" }),
    ),
    // what is told behind all words comes last, and more than one file before it
    (
        &["f77run", "--speculate", "on", "a.f", "b.f"],
        Err(OptionsFault::TooManyFiles {
            first: "a.f",
            second: "b.f",
        }),
    ),
    (
        &["f77run", "--speculate=on", "--turns=0"],
        Err(OptionsFault::BadNumber {
            option: "--turns",
            value: "0",
            wanted: "a number from 1 to 1000000000000",
        }),
    ),
    (
        &["f77run", "--speculate"],
        Err(OptionsFault::NoValue {
            option: "--speculate",
            wanted: "adaptive, always or never",
        }),
    ),
    (
        &["f77run", "--speculate=always", "--speculate=always"],
        Err(OptionsFault::GivenTwice {
            option: "--speculate",
        }),
    ),
    (
        &["f77run", "--stages", "--check"],
        Err(OptionsFault::NoEffect {
            idle: Setting::Stages,
            mode: Mode::Check,
        }),
    ),
];

#[test]
fn words_for_what_is_tried(rt: HostRuntime) {
    for &(words, wanted) in TRIED {
        let asked = options(rt.alloc(), words);
        let tried = match asked {
            Ok(asked) => Ok(asked.speculate),
            Err(fault) => Err(fault),
        };
        assert!(rt; tried == wanted, "{words:?}");
    }
}
