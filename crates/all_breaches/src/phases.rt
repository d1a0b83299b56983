//! The rules that a source breaks in the first phase that has any, phase by phase.

ghost use Rattle.std.specs.Prelude.{map, IfOk};
ghost use Rattle.meaning.specs.Statements.{entry_of};
ghost use Rattle.meaning.specs.Trees.{item_tree};
ghost use Rattle.all_breaches.specs.Further.{AreFurther};
ghost use Rattle.all_breaches.specs.Ordered.{HaveSame};
ghost use Rattle.all_breaches.specs.Phases.{broken_pairs, pairs_from_order, pairs_from_texts};

use crate::sorted::{in_order, without_first};
use crate::texts::{Texts, texts_in};
use crate::unit_rules::unit_pairs;
use meaning::refusal::{Broken, Refusal};
use meaning::statement::Statement;
use meaning::syntax::Item;
use nesting::{Arranged, tree_or_pairs};
use source_columns::{broken_lines, statements};
use std::alloc::{AllocError, Global};

/// The pairs of N, or else those of K.
fn order_pairs(alloc: Global, members: Vec<Item>) -> Result<Vec<Broken>, AllocError>
    ensures { IfOk result (λ v. HaveSame v.items (pairs_from_order (map item_tree members.items))) }
{
    match tree_or_pairs(alloc, members)? {
        Arranged::Nests(unit) => match unit_pairs(alloc, &unit) {
            Ok(pairs) => {
                drop(unit);
                Ok(pairs)
            }
            Err(AllocError) => {
                drop(unit);
                Err(AllocError)
            }
        },
        Arranged::Breaks(pairs) => Ok(pairs),
    }
}

/// The pairs of G, or else those of the phases behind it.
fn text_pairs(alloc: Global, found: &[Statement]) -> Result<Vec<Broken>, AllocError>
    ensures { IfOk result (λ v. HaveSame v.items (pairs_from_texts (map entry_of found.now))) }
{
    let Texts { members, broken } = texts_in(alloc, found)?;
    if broken.len() > 0 {
        drop(members);
        return Ok(broken);
    }
    drop(broken);
    let pairs = order_pairs(alloc, members)?;
    Ok(pairs)
}

/// The pairs of the first phase that has any.
fn phase_pairs(alloc: Global, source: &[u8]) -> Result<Vec<Broken>, AllocError>
    ensures { IfOk result (λ v. HaveSame v.items (broken_pairs source.now)) }
{
    match statements(alloc, source) {
        Ok(found) => {
            let pairs = text_pairs(alloc, &found)?;
            Ok(pairs)
        }
        Err(Refusal::Rule { rule: _, line: _ }) => {
            let pairs = broken_lines(alloc, source)?;
            Ok(pairs)
        }
        Err(Refusal::Memory) => Err(AllocError),
    }
}

/// The pairs that are told of a refused source behind the least one: of the first phase in which a
/// rule is broken every other pair, in the order of their lines and at one line in that of the
/// rules, none twice. C: every rule on lines; G: the rule of each statement that has no reading; N:
/// END where it is missing, and the first statement out of order; K: each rule at each line that
/// breaks it. None of a source that is accepted.
///
/// # Errors
///
/// `AllocError` only where a growth was refused.
pub fn further_pairs(alloc: Global, source: &[u8]) -> Result<Vec<Broken>, AllocError>
    ensures { IfOk result (λ v. AreFurther source.now v.items) }
{
    let pairs = phase_pairs(alloc, source)?;
    let ordered = in_order(pairs)?;
    Ok(without_first(ordered))
}
