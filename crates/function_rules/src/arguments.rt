//! Numbers of subscripts and arguments (ANSI X3.9-1978, 5.4.2, 15.3 and 15.4).

ghost use Rattle.std.specs.Prelude.{◌≡◌, ◌==◌, ◌&&◌, ◌||◌, ◌∷◌, [], length, nat_le, Some, OnOk};
ghost use Rattle.std.specs.List.{list_any};
ghost use Rattle.std.specs.Str.{bytes_eq};
ghost use Rattle.meaning.specs.NameRules.{has_misuse, is_misused_array, is_misused_function};
ghost use Rattle.meaning.specs.NameRules.{is_other_number};
ghost use Rattle.meaning.specs.Scopes.{listed};
ghost use Rattle.meaning.specs.Syntax.{exprs_tree};
ghost use Rattle.meaning.specs.Uses.{count};
ghost use Rattle.symbols.specs.Functions.{dummies_at};
ghost use Rattle.symbols.specs.SymbolsAt.{symbols_at};
ghost use Rattle.symbols.specs.Stages.{IsBehind};
ghost use Rattle.name_uses.specs.UsesAt.{arguments_at, use_at, uses_at};
ghost use Rattle.rule_passes.specs.Telling.{AddsTold};
ghost use Rattle.function_rules.specs.Numbers.{are_as_many, has_misused as has_misused_among};
ghost use Rattle.function_rules.specs.Numbers.{is_other_count as is_other_count_of};
ghost use Rattle.function_rules.specs.Numbers.{is_other_reference as is_other_to};
ghost use Rattle.function_rules.specs.Numbers.{takes_other as takes_other_than};

use meaning::refusal::{Broken, Rule};
use meaning::syntax::{Exprs, Item};
use name_uses::{Arguments, NameUse, Sought, has_passing, reads_of, uses_of};
use rule_passes::{Behind, add_told};
use std::alloc::{AllocError, Global};
use symbols::{Stage, Symbols, function_named, is_intrinsic, is_other_name, rank_of_name};

/// Whether there are so many subscripts.
fn has_count(number: usize, subscripts: &Exprs) -> bool
    ensures rank { result ≡ (number == count (exprs_tree subscripts.now)) }
    ensures takes { result ≡ (count (exprs_tree subscripts.now) == number) }
{
    match subscripts {
        Exprs::Empty => number == 0,
        Exprs::More(_, rest) => number > 0 && has_count(number - 1, rest),
    }
}

/// Whether there are as many arguments as dummies.
fn has_as_many(dummies: &Exprs, arguments: &Exprs) -> bool
    ensures { result ≡ are_as_many (exprs_tree dummies.now) (exprs_tree arguments.now) }
{
    match dummies {
        Exprs::Empty => match arguments {
            Exprs::Empty => true,
            Exprs::More(_, _) => false,
        },
        Exprs::More(_, fewer) => match arguments {
            Exprs::Empty => false,
            Exprs::More(_, rest) => has_as_many(fewer, rest),
        },
    }
}

/// Whether a name is used with another number of subscripts than it has dimensions, or with none.
fn is_other_rank(rank: Option<usize>, arguments: Arguments) -> bool
    ensures { result ≡ is_other_number rank (arguments_at arguments.entry) }
{
    match rank {
        None => false,
        Some(rank) => match arguments {
            Arguments::Bare => true,
            Arguments::Without => rank != 0,
            Arguments::With(subscripts) => !has_count(rank, subscripts),
        },
    }
}

/// Whether there are no expressions.
fn has_none(expressions: &Exprs) -> bool
    ensures dummies { result ≡ (length (listed (exprs_tree expressions.now)) == 0) }
    ensures arguments { result ≡ (0 == count (exprs_tree expressions.now)) }
{
    match expressions {
        Exprs::Empty => true,
        Exprs::More(_, _) => false,
    }
}

/// Whether a function with these dummies is referenced with another number of arguments.
fn is_other_count(dummies: Option<&Exprs>, arguments: Arguments) -> bool
    ensures { result ≡ is_other_count_of (dummies_at dummies.entry) (arguments_at arguments.entry) }
{
    match arguments {
        Arguments::Bare => false,
        Arguments::Without => match dummies {
            None => false,
            Some(dummies) => !has_none(dummies),
        },
        Arguments::With(given) => match dummies {
            None => !has_none(given),
            Some(dummies) => !has_as_many(dummies, given),
        },
    }
}

/// Whether a statement function is referenced with another number of arguments than it has dummies.
fn is_other_reference(symbols: &Symbols, one: &NameUse) -> bool
    ensures { result ≡ is_other_to (symbols_at symbols.now) (use_at one.now) }
{
    match function_named(symbols, one.name) {
        Some(function) => is_other_count(function.dummies, one.arguments),
        None => false,
    }
}

/// Whether there are two expressions at least.
fn has_two(expressions: &Exprs) -> bool
    ensures { result ≡ nat_le 2 (count (exprs_tree expressions.now)) }
{
    match expressions {
        Exprs::Empty => false,
        Exprs::More(_, rest) => !has_none(rest),
    }
}

/// Whether a name is one of two.
fn is_either(name: &[u8], one: &[u8], other: &[u8]) -> bool
    ensures { result ≡ list_any (bytes_eq name.now) (one.now ∷ (other.now ∷ [])) }
{
    name == one || name == other
}

/// Whether an intrinsic function doesn't take so many arguments (ANSI X3.9-1978, table 5).
fn takes_other(name: &[u8], arguments: &Exprs) -> bool
    ensures { result ≡ takes_other_than name.now (Some (count (exprs_tree arguments.now))) }
{
    if is_either(name, b"ABS", b"IABS") {
        !has_count(1, arguments)
    } else if name == b"MOD".as_slice() {
        !has_count(2, arguments)
    } else if is_either(name, b"MAX", b"MAX0") {
        !has_two(arguments)
    } else if is_either(name, b"MIN", b"MIN0") {
        !has_two(arguments)
    } else if is_either(name, b"SIGN", b"ISIGN") {
        !has_count(2, arguments)
    } else if is_either(name, b"DIM", b"IDIM") {
        !has_count(2, arguments)
    } else {
        false
    }
}

/// Whether an intrinsic function takes arguments, as each does.
fn takes_some(name: &[u8]) -> bool
    ensures { result ≡ takes_other_than name.now (Some 0) }
{
    is_intrinsic(name)
}

/// Whether an intrinsic function is referenced with another number of arguments than it takes.
fn is_other_intrinsic(one: &NameUse) -> bool
    ensures { result ≡ takes_other_than one.now.name.now (use_at one.now).arguments }
{
    match one.arguments {
        Arguments::Bare => false,
        Arguments::Without => takes_some(one.name),
        Arguments::With(arguments) => takes_other(one.name, arguments),
    }
}

/// A use of an array with another number of subscripts than it has dimensions.
#[derive(Clone, Copy)]
struct MisusedArray<'a> {
    symbols: &'a Symbols<'a>,
}

impl Sought for MisusedArray<'_> {
    ghost is_use = { λ s u. is_misused_array (symbols_at s.symbols.now) u };

    fn is(&self, one: &NameUse) -> bool {
        is_other_rank(rank_of_name(self.symbols, one.name), one.arguments)
    }
}

/// A reference to a function with another number of arguments than it takes.
#[derive(Clone, Copy)]
struct MisusedFunction<'a> {
    symbols: &'a Symbols<'a>,
}

impl Sought for MisusedFunction<'_> {
    ghost is_use = { λ s u. is_misused_function (symbols_at s.symbols.now) u };

    fn is(&self, one: &NameUse) -> bool {
        is_other_reference(self.symbols, one)
            || is_other_name(self.symbols, one.name) && is_other_intrinsic(one)
    }
}

/// Whether one of the uses of a statement is one of these, or one of those whose values it has.
fn has_misused(symbols: &Symbols, uses: &[NameUse], reads: &[NameUse]) -> bool
    ensures { result
        ≡ has_misused_among (symbols_at symbols.now) (uses_at uses.now) (uses_at reads.now) }
{
    has_passing(uses, &MisusedArray { symbols }) || has_passing(reads, &MisusedFunction { symbols })
}

/// The rule on numbers of subscripts and arguments.
#[derive(Drop)]
struct Misuses<'a> {
    alloc: Global,
    symbols: &'a Symbols<'a>,
    stage: Stage,
}

impl Behind for Misuses<'_> {
    ghost breaks = { λ s before x. has_misuse (symbols_at s.symbols.now) before x };

    ghost knows = { λ s before. IsBehind s.symbols.now s.stage before };

    fn is_broken(&self, item: &Item) -> Result<bool, AllocError> {
        let defines = self.stage.is_defining(self.symbols, item);
        let shape = &*item.form.shape;
        let uses = uses_of(self.alloc, self.symbols, defines, shape)?;
        let reads = reads_of(self.alloc, self.symbols, defines, shape)?;
        Ok(has_misused(self.symbols, &uses, &reads))
    }

    fn pass(&mut self, item: &Item) -> Result<(), AllocError> {
        self.stage.pass(self.symbols, item);
        Ok(())
    }
}

/// K8: adds the pair of each line at which an array or a function has a wrong number of subscripts
/// or arguments.
pub fn add_miscounts(
    pairs: &mut Vec<Broken>,
    alloc: Global,
    symbols: &Symbols,
    items: &[&Item],
) -> Result<(), AllocError>
    ensures { OnOk result
        (AddsTold (has_misuse (symbols_at symbols.now)) Rule.K8 items.now pairs.old.items
        pairs.new.items) }
{
    let mut misuses = Misuses {
        alloc,
        symbols,
        stage: Stage::new(),
    };
    add_told(pairs, &mut misuses, Rule::K8, items)
}
