//! What a command line asks for, or why it names no run.

ghost use Rattle.std.specs.Prelude.{◌≡◌};
ghost use Rattle.command_line.specs.Culprits.{mode_text, setting_text};

use meaning::plan::Plan;
use std::fmt;
use thiserror::Error;

/// What is found while the words are read, from the left: what is wrong with one of them, or a text
/// that is asked for.
#[derive(Clone, Copy, Debug, PartialEq, Eq)]
pub enum Wrong {
    /// `--help` or `-h` stands among them.
    Help,
    /// `--version` or `-V` stands among them.
    Version,
    /// A word begins with a minus sign, has more behind it, and is no option.
    NoSuchOption,
    /// An option that takes a number or a name has none behind it.
    NoValue,
    /// A value stands behind an option that takes none, as in `--count=value`.
    NeedlessValue,
    /// An option is given a second time.
    GivenTwice,
    /// What is given for a number isn't one, or lies outside the option's range.
    BadNumber,
    /// Memory was refused.
    Memory,
}

/// What stands among the words: an option or a file.
#[derive(Clone, Copy, Debug, PartialEq, Eq)]
pub enum Setting {
    /// `--workers`.
    Workers,
    /// `--block`.
    Block,
    /// `--window`.
    Window,
    /// `--turns`.
    Turns,
    /// `--speculate`.
    Speculate,
    /// `--check`.
    Check,
    /// `--count`.
    Count,
    /// `--explain`.
    Explain,
    /// `--stages`.
    Stages,
    /// `--rule`.
    Rule,
    /// A file.
    File,
}

impl Setting {
    /// As it is told to people.
    pub fn text(self) -> &'static str
        ensures { result.now ≡ setting_text self }
    {
        match self {
            Setting::Workers => "--workers",
            Setting::Block => "--block",
            Setting::Window => "--window",
            Setting::Turns => "--turns",
            Setting::Speculate => "--speculate",
            Setting::Check => "--check",
            Setting::Count => "--count",
            Setting::Explain => "--explain",
            Setting::Stages => "--stages",
            Setting::Rule => "--rule",
            Setting::File => "a file",
        }
    }
}

impl fmt::Display for Setting {
    fn fmt<W: fmt::Write>(&self, f: &mut fmt::Formatter<W>) -> fmt::Result {
        f.write_str(self.text())
    }
}

/// What leaves other words without an effect.
#[derive(Clone, Copy, Debug, PartialEq, Eq)]
pub enum Mode {
    /// `--rule`: nothing is read.
    Rule,
    /// `--check`: nothing is run.
    Check,
    /// `--speculate never`: there is one worker.
    Never,
}

impl Mode {
    /// As it is told to people.
    pub fn text(self) -> &'static str
        ensures { result.now ≡ mode_text self }
    {
        match self {
            Mode::Rule => "--rule",
            Mode::Check => "--check",
            Mode::Never => "--speculate never",
        }
    }
}

impl fmt::Display for Mode {
    fn fmt<W: fmt::Write>(&self, f: &mut fmt::Formatter<W>) -> fmt::Result {
        f.write_str(self.text())
    }
}

/// Why the words of a command line name no run: they ask for a text in place of one, or something
/// is wrong with them. An option is told as it is written, without its value.
#[derive(Clone, Copy, Debug, PartialEq, Eq, Drop, Error)]
pub enum OptionsFault<'a> {
    /// `--help` or `-h` stands among them.
    #[error("the help is asked for")]
    Help,
    /// `--version` or `-V` stands among them.
    #[error("the version is asked for")]
    Version,
    /// `--rule` stands among them without a name.
    #[error("the names of all rules and faults are asked for")]
    RuleNames,
    /// An option that isn't there, and isn't near to one that is.
    #[error("there is no option {option}; f77run --help lists the options")]
    NoSuchOption {
        /// The word.
        option: &'a str,
    },
    /// An option that isn't there, but is near to one that is.
    #[error("there is no option {option}; did you mean {near}?")]
    Misspelt {
        /// The word.
        option: &'a str,
        /// The nearest option.
        near: &'a str,
    },
    /// An option that takes something has nothing behind it.
    #[error("{option} needs {wanted}")]
    NoValue {
        /// The option.
        option: &'a str,
        /// What it takes.
        wanted: &'a str,
    },
    /// A value stands behind an option that takes none, as in `--count=value`.
    #[error("{option} takes no value")]
    NeedlessValue {
        /// The option.
        option: &'a str,
    },
    /// An option is given a second time.
    #[error("{option} is given twice")]
    GivenTwice {
        /// The option.
        option: &'a str,
    },
    /// What is given for a number isn't one, or lies outside the option's range.
    #[error("{option} needs {wanted}, not '{value}'")]
    BadNumber {
        /// The option.
        option: &'a str,
        /// What is given.
        value: &'a str,
        /// What the option takes.
        wanted: &'a str,
    },
    /// What is given for `--speculate` is none of its words.
    #[error("--speculate needs adaptive, always or never, not '{value}'")]
    NoSuchSpeculation {
        /// What is given.
        value: &'a str,
    },
    /// There is more than one file.
    #[error("more than one file is named: {first} and {second}")]
    TooManyFiles {
        /// The first of them.
        first: &'a str,
        /// The second.
        second: &'a str,
    },
    /// An option or a file has no effect with another option.
    #[error("{idle} has no effect with {mode}")]
    NoEffect {
        /// What has no effect.
        idle: Setting,
        /// With what.
        mode: Mode,
    },
    /// Told where the words are fetched: `options` takes texts.
    #[error("an argument is not UTF-8")]
    NotUtf8,
    /// Memory was refused while the words were read.
    #[error("memory was refused")]
    Memory,
}

/// Which DO statements without output are tried in parallel. The answer is the same whatever is
/// chosen.
#[derive(Clone, Copy, Debug, PartialEq, Eq)]
pub enum Speculation {
    /// Those that are worth it, by what their trips cost and what came of earlier stages.
    Adaptive,
    /// Each, by the plan's blocks.
    Always,
    /// None.
    Never,
}

/// What a command line asks for.
#[derive(Clone, Copy, Debug, PartialEq, Eq)]
pub struct Options<'a> {
    /// How the program is run.
    pub plan: Plan,
    /// Which DO statements are tried in parallel.
    pub speculate: Speculation,
    /// The file with the source; standard input where none is named.
    pub file: Option<&'a str>,
    /// The name of the rule or the fault that is asked for; none where the source is to be run.
    pub rule: Option<&'a str>,
    /// Whether `--check` stands among the words.
    pub check: bool,
    /// Whether `--count` stands among the words.
    pub count: bool,
    /// Whether `--explain` stands among the words.
    pub explain: bool,
    /// Whether `--stages` stands among the words.
    pub stages: bool,
}
