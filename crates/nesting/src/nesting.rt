//! The program unit that statements make.

ghost use Rattle.std.specs.Prelude.{◌≡◌, ◌≢◌, ◌++◌, List, map, Err, IfOk};
ghost use Rattle.std.specs.Option.{option_to_list};
ghost use Rattle.meaning.specs.Nesting.{breaks, innermost, lacks_end, last_line};
ghost use Rattle.meaning.specs.Nesting.{missing_end as missing, nest};
ghost use Rattle.meaning.specs.Reports.{Gives};
ghost use Rattle.meaning.specs.Trees.{item_tree, nested};
ghost use Rattle.meaning.specs.Refusals.{unless};
ghost use Rattle.meaning.specs.Syntax.{ItemTree};
ghost use Rattle.nesting.specs.Open.{unfinished};
ghost use Rattle.nesting.specs.Pairs.{IsArranged};
ghost use Rattle.nesting.specs.Places.{IsOrderOf};
ghost use Rattle.nesting.specs.Fronts.{IsFront};

use crate::effect::{closes_unit, effect_of_item};
use crate::order::Order;
use crate::unfinished::{Open, broken_nesting, into_innermost, is_ended, past};
use meaning::refusal::{Broken, Refusal, Rule, lesser};
use meaning::syntax::{Item, Tree};
use std::alloc::{AllocError, Global};

/// Statements as far as they were read: up to the first that breaks a rule behind those before it.
pub struct Front {
    /// N2 where END is missing.
    missing: Option<Broken>,
    /// The rule at the first statement that breaks one behind those before it.
    first: Option<Broken>,
    so_far: Open,
}

/// What statements make.
#[derive(Drop)]
pub enum Arranged {
    /// A program unit.
    Nests(Tree),
    /// None, and each pair that they break.
    Breaks(Vec<Broken>),
}

/// The line of the last statement, or 1 where there is none.
fn line_of_last(items: &[Item]) -> u32
    ensures { result ≡ last_line (map item_tree items.now) }
{
    let mut line = 1;
    for item in items {
        line = item.line;
    }
    line
}

/// Whether no statement is END.
fn has_no_end(items: &[Item]) -> bool
    ensures { result ≡ lacks_end (map item_tree items.now) }
{
    for item in items {
        if closes_unit(effect_of_item(item)) {
            return false;
        }
    }
    true
}

/// N2 at the last statement where END is missing.
#[tactic(auto, unfolding(meaning::specs::Nesting::missing_end))]
fn missing_end(items: &[Item]) -> Option<Broken>
    ensures { result ≡ missing (map item_tree items.now) }
{
    if has_no_end(items) {
        Some(Broken {
            line: line_of_last(items),
            rule: Rule::N2,
        })
    } else {
        None
    }
}

/// The least rule that a statement breaks behind those that were read, if it breaks one.
#[tactic(auto, unfolding(meaning::specs::Nesting::breaks))]
fn broken_rule(order: Order, so_far: &Open, item: &Item) -> Option<Rule>
    ensures { (before : List ItemTree) → IsOrderOf order before → result
        ≡ breaks before (unfinished so_far.now) (item_tree item.now) }
{
    if order.misplaces(item) {
        return Some(Rule::N1);
    }
    if is_ended(so_far) {
        return Some(Rule::N2);
    }
    broken_nesting(so_far, item)
}

/// A rule that is broken at a statement.
fn broken_at(item: &Item, rule: Rule) -> Broken
    ensures { result ≡ record { line = item.now.line; rule = rule } }
{
    Broken {
        line: item.line,
        rule,
    }
}

/// What was read, unless a rule is broken. No growth is made, so `Refusal::Memory` is never
/// answered.
fn told(broken: Option<Broken>, so_far: Open) -> Result<Tree, Refusal>
    ensures exact { Gives nested result
        (unless broken (record { body = innermost (unfinished so_far) })) }
    ensures sure { result ≢ Err Refusal.Memory }
{
    match broken {
        Some(Broken { line, rule }) => {
            drop(so_far);
            Err(Refusal::Rule { rule, line })
        }
        None => Ok(Tree {
            body: into_innermost(so_far),
        }),
    }
}

/// The statements, read up to the first that breaks a rule behind those before it.
fn read(alloc: Global, items: Vec<Item>) -> Result<Front, AllocError>
    ensures { IfOk result (IsFront (map item_tree items.items)) }
{
    let missing = missing_end(&items);
    let mut order = Order::start();
    let mut so_far = Open::Body(Vec::new(alloc));
    for item in items {
        if let Some(rule) = broken_rule(order, &so_far, &item) {
            let here = broken_at(&item, rule);
            drop(item);
            return Ok(Front {
                missing,
                first: Some(here),
                so_far,
            });
        }
        order = order.with(&item);
        so_far = past(alloc, so_far, item)?;
    }
    Ok(Front {
        missing,
        first: None,
        so_far,
    })
}

/// The program unit that statements make, in their order (ANSI X3.9-1978, 3.5 and 11.6 to 11.10).
///
/// # Errors
///
/// `Refusal::Rule` with the least of two pairs: N2 at the last statement if none is END, or at line
/// 1 if there is no statement; and, at the first statement up to which no program unit begins so,
/// the least rule that it breaks there. That is N1 if it may not stand behind those before it, N2
/// if it stands behind END, N3 if it is an ELSE IF, ELSE or END IF out of place or END in a block
/// IF, N4 if ranges and block IFs cross, a terminal statement isn't allowed or END stands in a
/// range, or N5 if it opens the 33rd DO or block IF. `Refusal::Memory` where a growth was refused.
pub fn tree(alloc: Global, items: Vec<Item>) -> Result<Tree, Refusal>
    ensures exact { Gives nested result (nest (map item_tree items.items)) }
{
    let Front {
        missing,
        first,
        so_far,
    } = read(alloc, items)?;
    told(lesser(missing, first), so_far)
}

/// Two pairs, each where there is one.
fn pairs_of(
    alloc: Global,
    missing: Option<Broken>,
    first: Option<Broken>,
) -> Result<Vec<Broken>, AllocError>
    ensures { IfOk result (λ pairs. pairs.items ≡ option_to_list missing ++ option_to_list first) }
{
    let mut pairs = Vec::new(alloc);
    if let Some(pair) = missing {
        pairs.push(pair)?;
    }
    if let Some(pair) = first {
        pairs.push(pair)?;
    }
    Ok(pairs)
}

/// The program unit that statements make, or both pairs of which `tree` tells the lesser: N2 where
/// END is missing, and the least rule at the first statement up to which no program unit begins so,
/// each where there is one.
///
/// # Errors
///
/// `AllocError` where a growth was refused.
pub fn tree_or_pairs(alloc: Global, items: Vec<Item>) -> Result<Arranged, AllocError>
    ensures { IfOk result (IsArranged (map item_tree items.items)) }
{
    let Front {
        missing,
        first,
        so_far,
    } = read(alloc, items)?;
    match lesser(missing, first) {
        None => Ok(Arranged::Nests(Tree {
            body: into_innermost(so_far),
        })),
        Some(_) => {
            drop(so_far);
            let pairs = pairs_of(alloc, missing, first)?;
            Ok(Arranged::Breaks(pairs))
        }
    }
}
