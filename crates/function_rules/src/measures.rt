//! How deep statement functions call one another, and how large their expressions become (ANSI
//! X3.9-1978, 15.4).

ghost use Rattle.std.specs.Prelude.{◌≡◌, ◌+◌, suc, max, Some, OnOk};
ghost use Rattle.meaning.specs.NameRules.{greatest, nodes_in, nodes_in_all};
ghost use Rattle.meaning.specs.Syntax.{expr_tree, exprs_tree};
ghost use Rattle.name_uses.specs.UsesAt.{use_at, uses_at};
ghost use Rattle.function_rules.specs.Measured.{capped, level_at, level_used, nodes_at};
ghost use Rattle.function_rules.specs.Behind.{Keeps};

use indexmap::IndexMap;
use meaning::syntax::{Expr, Exprs};
use name_uses::{Arguments, NameUse};
use std::alloc::{AllocError, Global};

/// How deep a statement function calls others, and how many constants, names, operators and
/// parentheses its expression has when the uses of others are replaced by theirs; the greatest
/// number stands for each greater one.
#[derive(Clone, Copy)]
pub struct Measure {
    pub level: u32,
    pub nodes: u32,
}

/// One more.
fn one_more(number: u32) -> u32
    ensures { result ≡ capped (suc number) }
{
    number.saturating_add(1)
}

/// The sum of two.
fn both(one: u32, other: u32) -> u32
    ensures { result ≡ capped (one + other) }
{
    one.saturating_add(other)
}

/// A number that is no greater than the greatest.
fn whole(number: u32) -> u32
    ensures { result ≡ capped number }
{
    number
}

/// How many a statement function's expression has.
fn nodes_named(kept: &IndexMap<Vec<u8>, Measure>, name: &[u8]) -> Option<u32>
    ensures { result ≡ nodes_at kept.now name.now }
{
    match kept.get(name) {
        Some(measure) => Some(measure.nodes),
        None => None,
    }
}

/// How many constants, names, operators and parentheses an expression has, with those of the
/// statement functions that it uses.
#[cycle(nodes)]
pub fn nodes_of(kept: &IndexMap<Vec<u8>, Measure>, expression: &Expr) -> u32
    ensures { result ≡ capped (nodes_in (nodes_at kept.now) (expr_tree expression.now)) }
{
    match expression {
        Expr::Number(_) => 1,
        Expr::Truth(_) => 1,
        Expr::Name(_) => 1,
        Expr::Signed(_, operand) => one_more(nodes_of(kept, operand)),
        Expr::Not(operand) => one_more(nodes_of(kept, operand)),
        Expr::Binary(_, left, right) => {
            one_more(both(nodes_of(kept, left), nodes_of(kept, right)))
        }
        Expr::Paren(operand) => one_more(nodes_of(kept, operand)),
        Expr::Element(name, arguments) => match nodes_named(kept, name) {
            Some(nodes) => whole(nodes),
            None => both(2, nodes_of_all(kept, arguments)),
        },
        Expr::Call(name) => match nodes_named(kept, name) {
            Some(nodes) => whole(nodes),
            None => 2,
        },
    }
}

/// The same of expressions together.
#[cycle(nodes)]
fn nodes_of_all(kept: &IndexMap<Vec<u8>, Measure>, expressions: &Exprs) -> u32
    ensures { result ≡ capped (nodes_in_all (nodes_at kept.now) (exprs_tree expressions.now)) }
{
    match expressions {
        Exprs::Empty => 0,
        Exprs::More(first, rest) => both(nodes_of(kept, first), nodes_of_all(kept, rest)),
    }
}

/// How deep a name calls statement functions, if it is one's and has parentheses.
fn level_of(kept: &IndexMap<Vec<u8>, Measure>, one: &NameUse) -> u32
    ensures { result ≡ level_used (level_at kept.now) (use_at one.now) }
{
    match one.arguments {
        Arguments::Bare => 0,
        Arguments::Without => level_named(kept, one.name),
        Arguments::With(_) => level_named(kept, one.name),
    }
}

/// How deep a name calls statement functions.
fn level_named(kept: &IndexMap<Vec<u8>, Measure>, name: &[u8]) -> u32
    ensures { result ≡ level_at kept.now name.now }
{
    match kept.get(name) {
        Some(measure) => measure.level,
        None => 0,
    }
}

/// The greater of two.
fn greater(one: u32, other: u32) -> u32
    ensures { result ≡ max one other }
{
    if one < other { other } else { one }
}

/// How deep the names in an expression call statement functions.
pub fn deepest(kept: &IndexMap<Vec<u8>, Measure>, uses: &[NameUse]) -> u32
    ensures { result ≡ greatest (level_at kept.now) (uses_at uses.now) }
{
    let mut deepest = 0;
    for one in uses {
        deepest = greater(deepest, level_of(kept, one));
    }
    deepest
}

/// The measure of a statement function, by its expression and the uses in that.
pub fn measure_of(kept: &IndexMap<Vec<u8>, Measure>, body: &Expr, uses: &[NameUse]) -> Measure
    ensures level { result.level ≡ capped (suc (greatest (level_at kept.now) (uses_at uses.now))) }
    ensures nodes { result.nodes ≡ capped (nodes_in (nodes_at kept.now) (expr_tree body.now)) }
{
    Measure {
        level: one_more(deepest(kept, uses)),
        nodes: nodes_of(kept, body),
    }
}

/// Keeps the measure of a statement function under its name, in place of what is kept there.
pub fn keep_measure(
    kept: &mut IndexMap<Vec<u8>, Measure>,
    alloc: Global,
    name: &[u8],
    measure: Measure,
) -> Result<(), AllocError>
    ensures { OnOk result (Keeps kept.old kept.new name.now measure) }
{
    let own = Vec::from_slice(alloc, name)?;
    kept.insert(own, measure)?;
    Ok(())
}
