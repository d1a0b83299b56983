//! Names that are given too much (ANSI X3.9-1978, 8.1, 8.4, 8.6, 15.4 and 18.2).

ghost use Rattle.std.specs.Prelude.{◌≡◌, IfOk, OnOk, []};
ghost use Rattle.symbols.specs.SymbolsAt.{symbols_at};
ghost use Rattle.name_rules.specs.Disputed.{is_given_too_much};
ghost use Rattle.name_rules.specs.GivenAt.{are_given_twice, are_too_much, are_two_things, given_at};
ghost use Rattle.name_rules.specs.GivenAt.{Gains, KnowsGiven};

use crate::given::{Given, given_by};
use indexmap::IndexSet;
use meaning::syntax::Item;
use name_uses::{add_names, has_seen, repeats};
use rule_passes::Behind;
use std::alloc::{AllocError, Global};
use symbols::{Stage, Symbols};

/// The names that statements gave something.
pub struct Names {
    pub typed: IndexSet<Vec<u8>>,
    pub bounded: IndexSet<Vec<u8>>,
    pub valued: IndexSet<Vec<u8>>,
    pub defined: IndexSet<Vec<u8>>,
}

impl Drop for Names {
    fn drop(self) {
        let Names {
            typed,
            bounded,
            valued,
            defined,
        } = self;
        drop(typed);
        drop(bounded);
        drop(valued);
        drop(defined);
    }
}

/// Whether one of the names is given twice what it has.
fn gives_twice(alloc: Global, names: &Names, given: &Given) -> Result<bool, AllocError>
    ensures { IfOk result (λ b. b ≡ are_given_twice names.now (given_at given.now)) }
{
    let typed = repeats(alloc, &names.typed, &given.typed)?;
    let bounded = repeats(alloc, &names.bounded, &given.bounded)?;
    let valued = repeats(alloc, &names.valued, &given.valued)?;
    let defined = repeats(alloc, &names.defined, &given.defined)?;
    Ok(typed || bounded || valued || defined)
}

/// Whether one of the names becomes a constant and an array or a statement function.
fn gives_two(names: &Names, given: &Given) -> bool
    ensures { result ≡ are_two_things names.now (given_at given.now) }
{
    let array = has_seen(&names.bounded, &given.valued);
    let function = has_seen(&names.defined, &given.valued);
    let bounded = has_seen(&names.valued, &given.bounded);
    let defined = has_seen(&names.valued, &given.defined);
    array || function || bounded || defined
}

/// Whether one of the names is given too much.
fn gives_too_much(alloc: Global, names: &Names, given: &Given) -> Result<bool, AllocError>
    ensures { IfOk result (λ b. b ≡ are_too_much names.now (given_at given.now)) }
{
    let twice = gives_twice(alloc, names, given)?;
    let two = gives_two(names, given);
    Ok(twice || two)
}

/// Puts the names that a statement gives something to those that have it.
fn add_given(names: &mut Names, alloc: Global, given: &Given) -> Result<(), AllocError>
    ensures typed { OnOk result (Gains names.old.typed names.new.typed given.now.typed) }
    ensures bounded { OnOk result (Gains names.old.bounded names.new.bounded given.now.bounded) }
    ensures valued { OnOk result (Gains names.old.valued names.new.valued given.now.valued) }
    ensures defined { OnOk result (Gains names.old.defined names.new.defined given.now.defined) }
{
    add_names(&mut names.typed, alloc, &given.typed)?;
    add_names(&mut names.bounded, alloc, &given.bounded)?;
    add_names(&mut names.valued, alloc, &given.valued)?;
    add_names(&mut names.defined, alloc, &given.defined)?;
    Ok(())
}

/// The rule on what names are given.
pub struct Givings<'a> {
    alloc: Global,
    symbols: &'a Symbols<'a>,
    stage: Stage,
    names: Names,
}

impl Drop for Givings<'_> {
    fn drop(self) {
        let Givings {
            alloc: _,
            symbols: _,
            stage: _,
            names,
        } = self;
        drop(names);
    }
}

impl<'a> Givings<'a> {
    /// The rule, where no statement was passed yet.
    pub fn new(alloc: Global, symbols: &'a Symbols<'a>) -> Givings<'a>
        ensures same { result.symbols.now ≡ symbols.now }
        ensures none { KnowsGiven result.symbols.now result.stage result.names [] }
    {
        Givings {
            alloc,
            symbols,
            stage: Stage::new(),
            names: Names {
                typed: IndexSet::new(alloc),
                bounded: IndexSet::new(alloc),
                valued: IndexSet::new(alloc),
                defined: IndexSet::new(alloc),
            },
        }
    }
}

impl Behind for Givings<'_> {
    ghost breaks = { λ s before x. is_given_too_much (symbols_at s.symbols.now) before x };

    ghost knows = { λ s before. KnowsGiven s.symbols.now s.stage s.names before };

    fn is_broken(&self, item: &Item) -> Result<bool, AllocError> {
        let defines = self.stage.is_defining(self.symbols, item);
        let given = given_by(self.alloc, self.symbols, defines, &*item.form.shape)?;
        let much = gives_too_much(self.alloc, &self.names, &given)?;
        Ok(much)
    }

    fn pass(&mut self, item: &Item) -> Result<(), AllocError> {
        let defines = self.stage.is_defining(self.symbols, item);
        let given = given_by(self.alloc, self.symbols, defines, &*item.form.shape)?;
        add_given(&mut self.names, self.alloc, &given)?;
        self.stage.pass(self.symbols, item);
        Ok(())
    }
}
