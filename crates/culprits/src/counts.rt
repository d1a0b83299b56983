//! Numbers of subscripts and arguments (ANSI X3.9-1978, 5.4.2, 15.3 and 15.4).

ghost use Rattle.std.specs.Prelude.{◌≡◌, ◌==◌, length, nat_le, option_map, IfOk};
ghost use Rattle.std.specs.List.{find};
ghost use Rattle.expressions.specs.Functions.{intrinsic};
ghost use Rattle.meaning.specs.Intrinsics.{intrinsic_named, takes as takes_by};
ghost use Rattle.meaning.specs.NameRules.{does_not_take, is_misused_array, is_misused_function};
ghost use Rattle.meaning.specs.NameRules.{is_other_number};
ghost use Rattle.meaning.specs.Scopes.{listed};
ghost use Rattle.meaning.specs.Syntax.{exprs_tree, shape_tree};
ghost use Rattle.meaning.specs.Uses.{count};
ghost use Rattle.symbols.specs.Functions.{dummies_at};
ghost use Rattle.symbols.specs.SymbolsAt.{symbols_at};
ghost use Rattle.name_uses.specs.UsesAt.{arguments_at, use_at, uses_at};
ghost use Rattle.culprits.specs.Counts.{are_as_many, arguments_of, capped};
ghost use Rattle.culprits.specs.Counts.{is_other_count as is_other_count_of};
ghost use Rattle.culprits.specs.Counts.{is_other_reference as is_other_to, miscounted_in};
ghost use Rattle.culprits.specs.Counts.{miscounting, subscripts_of, wanted_by};
ghost use Rattle.culprits.specs.Told.{tell};

use crate::culprit::{Culprit, Wanted};
use expressions::Intrinsic;
use finding::first_passing;
use meaning::syntax::{Exprs, Shape};
use name_uses::{Arguments, NameUse, Sought, reads_of, uses_of};
use std::alloc::{AllocError, Global};
use symbols::{Symbols, function_named, is_other_name, rank_of_name};

/// Whether there are so many subscripts or arguments.
fn has_count(number: usize, expressions: &Exprs) -> bool
    ensures rank { result ≡ (number == count (exprs_tree expressions.now)) }
    ensures takes { result ≡ (count (exprs_tree expressions.now) == number) }
{
    match expressions {
        Exprs::Empty => number == 0,
        Exprs::More(_, rest) => number > 0 && has_count(number - 1, rest),
    }
}

/// Whether there are as many arguments as dummies.
fn has_as_many(dummies: &Exprs, arguments: &Exprs) -> bool
    ensures { result ≡ are_as_many (exprs_tree dummies.now) (exprs_tree arguments.now) }
{
    match dummies {
        Exprs::Empty => match arguments {
            Exprs::Empty => true,
            Exprs::More(_, _) => false,
        },
        Exprs::More(_, fewer) => match arguments {
            Exprs::Empty => false,
            Exprs::More(_, rest) => has_as_many(fewer, rest),
        },
    }
}

/// Whether there are no expressions.
fn has_none(expressions: &Exprs) -> bool
    ensures dummies { result ≡ (length (listed (exprs_tree expressions.now)) == 0) }
    ensures arguments { result ≡ (0 == count (exprs_tree expressions.now)) }
{
    match expressions {
        Exprs::Empty => true,
        Exprs::More(_, _) => false,
    }
}

/// Whether there are two expressions at least.
fn has_two(expressions: &Exprs) -> bool
    ensures { result ≡ nat_le 2 (count (exprs_tree expressions.now)) }
{
    match expressions {
        Exprs::Empty => false,
        Exprs::More(_, rest) => !has_none(rest),
    }
}

/// Whether an array with so many dimensions, if it is one, is used with another number of
/// subscripts, or with none.
fn is_other_rank(rank: Option<usize>, arguments: Arguments) -> bool
    ensures { result ≡ is_other_number rank (arguments_at arguments.entry) }
{
    match rank {
        None => false,
        Some(rank) => match arguments {
            Arguments::Bare => true,
            Arguments::Without => rank != 0,
            Arguments::With(subscripts) => !has_count(rank, subscripts),
        },
    }
}

/// Whether a function with these dummies is referenced with another number of arguments.
fn is_other_count(dummies: Option<&Exprs>, arguments: Arguments) -> bool
    ensures { result ≡ is_other_count_of (dummies_at dummies.entry) (arguments_at arguments.entry) }
{
    match arguments {
        Arguments::Bare => false,
        Arguments::Without => match dummies {
            None => false,
            Some(dummies) => !has_none(dummies),
        },
        Arguments::With(given) => match dummies {
            None => !has_none(given),
            Some(dummies) => !has_as_many(dummies, given),
        },
    }
}

/// Whether a statement function is referenced with another number of arguments than it has dummies.
fn is_other_reference(symbols: &Symbols, one: &NameUse) -> bool
    ensures { result ≡ is_other_to (symbols_at symbols.now) (use_at one.now) }
{
    match function_named(symbols, one.name) {
        Some(function) => is_other_count(function.dummies, one.arguments),
        None => false,
    }
}

/// Whether an intrinsic function takes so many arguments (ANSI X3.9-1978, table 5).
fn takes(function: Intrinsic, arguments: &Exprs) -> bool
    ensures { result ≡ takes_by (intrinsic function) (count (exprs_tree arguments.now)) }
{
    match function {
        Intrinsic::Absolute => has_count(1, arguments),
        Intrinsic::Remainder => has_count(2, arguments),
        Intrinsic::Greatest => has_two(arguments),
        Intrinsic::Least => has_two(arguments),
        Intrinsic::SignTransfer => has_count(2, arguments),
        Intrinsic::PositiveDifference => has_count(2, arguments),
    }
}

/// Whether it takes none, as none does.
fn takes_none(function: Intrinsic) -> bool
    ensures { result ≡ takes_by (intrinsic function) 0 }
{
    match function {
        Intrinsic::Absolute => false,
        Intrinsic::Remainder => false,
        Intrinsic::Greatest => false,
        Intrinsic::Least => false,
        Intrinsic::SignTransfer => false,
        Intrinsic::PositiveDifference => false,
    }
}

/// Whether an intrinsic function is referenced with another number of arguments than it takes.
fn is_other_intrinsic(one: &NameUse) -> bool
    ensures { result ≡ does_not_take (intrinsic_named one.now.name.now) (use_at one.now).arguments }
{
    match Intrinsic::named(one.name) {
        None => false,
        Some(function) => match one.arguments {
            Arguments::Bare => false,
            Arguments::Without => !takes_none(function),
            Arguments::With(arguments) => !takes(function, arguments),
        },
    }
}

/// A use of an array with another number of subscripts than it has dimensions.
#[derive(Clone, Copy)]
struct MisusedArray<'a> {
    symbols: &'a Symbols<'a>,
}

impl Sought for MisusedArray<'_> {
    ghost is_use = { λ s u. is_misused_array (symbols_at s.symbols.now) u };

    fn is(&self, one: &NameUse) -> bool {
        is_other_rank(rank_of_name(self.symbols, one.name), one.arguments)
    }
}

/// A reference to a function with another number of arguments than it takes.
#[derive(Clone, Copy)]
struct MisusedFunction<'a> {
    symbols: &'a Symbols<'a>,
}

impl Sought for MisusedFunction<'_> {
    ghost is_use = { λ s u. is_misused_function (symbols_at s.symbols.now) u };

    fn is(&self, one: &NameUse) -> bool {
        is_other_reference(self.symbols, one)
            || is_other_name(self.symbols, one.name) && is_other_intrinsic(one)
    }
}

/// How many expressions there are, or the greatest number, if there are more.
fn count_of(expressions: &Exprs) -> usize
    ensures dummies { result ≡ capped (length (listed (exprs_tree expressions.now))) }
    ensures arguments { result ≡ capped (count (exprs_tree expressions.now)) }
{
    match expressions {
        Exprs::Empty => 0,
        Exprs::More(_, rest) => count_of(rest).saturating_add(1),
    }
}

/// How many stand in parentheses.
fn given_of(arguments: Arguments) -> Option<usize>
    ensures { result ≡ option_map capped (arguments_at arguments.entry) }
{
    match arguments {
        Arguments::Bare => None,
        Arguments::Without => Some(0),
        Arguments::With(expressions) => Some(count_of(expressions)),
    }
}

/// How many subscripts an array wants.
fn subscripts_wanted(symbols: &Symbols, name: &[u8]) -> Option<Wanted>
    ensures { result ≡ subscripts_of (symbols_at symbols.now) name.now }
{
    match rank_of_name(symbols, name) {
        None => None,
        Some(rank) => Some(Wanted::Subscripts(rank)),
    }
}

/// How many arguments an intrinsic function wants.
fn wanted_by_intrinsic(function: Intrinsic) -> Wanted
    ensures { result ≡ wanted_by (intrinsic function) }
{
    match function {
        Intrinsic::Absolute => Wanted::Arguments(1),
        Intrinsic::Remainder => Wanted::Arguments(2),
        Intrinsic::Greatest => Wanted::ArgumentsOrMore(2),
        Intrinsic::Least => Wanted::ArgumentsOrMore(2),
        Intrinsic::SignTransfer => Wanted::Arguments(2),
        Intrinsic::PositiveDifference => Wanted::Arguments(2),
    }
}

/// How many dummies there are.
fn dummy_count(dummies: Option<&Exprs>) -> usize
    ensures { result ≡ capped (length (dummies_at dummies.entry)) }
{
    match dummies {
        None => 0,
        Some(dummies) => count_of(dummies),
    }
}

/// How many arguments a function wants.
fn arguments_wanted(symbols: &Symbols, name: &[u8]) -> Option<Wanted>
    ensures { result ≡ arguments_of (symbols_at symbols.now) name.now }
{
    match function_named(symbols, name) {
        Some(function) => Some(Wanted::Arguments(dummy_count(function.dummies))),
        None => match Intrinsic::named(name) {
            None => None,
            Some(function) => Some(wanted_by_intrinsic(function)),
        },
    }
}

/// The first array in a statement with a wrong number of subscripts.
fn first_array<'a>(symbols: &Symbols, uses: &[NameUse<'a>]) -> Option<Culprit<'a>>
    ensures { tell result
        ≡ miscounting (subscripts_of (symbols_at symbols.now))
        (find (is_misused_array (symbols_at symbols.now)) (uses_at uses.now)) }
{
    match first_passing(uses, &MisusedArray { symbols }) {
        None => None,
        Some(one) => match subscripts_wanted(symbols, one.name) {
            None => None,
            Some(wanted) => Some(Culprit::Miscounted {
                name: one.name,
                wanted,
                given: given_of(one.arguments),
            }),
        },
    }
}

/// The first function that is referenced with a wrong number of arguments.
fn first_function<'a>(symbols: &Symbols, reads: &[NameUse<'a>]) -> Option<Culprit<'a>>
    ensures { tell result
        ≡ miscounting (arguments_of (symbols_at symbols.now))
        (find (is_misused_function (symbols_at symbols.now)) (uses_at reads.now)) }
{
    match first_passing(reads, &MisusedFunction { symbols }) {
        None => None,
        Some(one) => match arguments_wanted(symbols, one.name) {
            None => None,
            Some(wanted) => Some(Culprit::Miscounted {
                name: one.name,
                wanted,
                given: given_of(one.arguments),
            }),
        },
    }
}

/// K8: the first array in a statement with a wrong number of subscripts, else the first function
/// with a wrong number of arguments.
pub fn miscounted_name<'a>(
    alloc: Global,
    symbols: &Symbols,
    defines: bool,
    shape: &'a Shape,
) -> Result<Option<Culprit<'a>>, AllocError>
    ensures { IfOk
        result (λ c. tell c
        ≡ miscounted_in (symbols_at symbols.now) defines (shape_tree shape.now)) }
{
    let uses = uses_of(alloc, symbols, defines, shape)?;
    if let Some(culprit) = first_array(symbols, &uses) {
        return Ok(Some(culprit));
    }
    let reads = reads_of(alloc, symbols, defines, shape)?;
    Ok(first_function(symbols, &reads))
}
