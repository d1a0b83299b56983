//! Pairs in their order.

ghost use Rattle.std.specs.Prelude.{◌≡◌, drop, IfOk};
ghost use Rattle.std.specs.Ordering.{is_lt};
ghost use Rattle.meaning.specs.Refusals.{is_less};
ghost use Rattle.all_breaches.specs.Ordered.{AreApart, Ascends, HaveSame};

use meaning::refusal::Broken;
use std::alloc::AllocError;
use std::cmp::Ordering;

/// Whether a pair comes before another: its line is less, or at one line its rank.
fn comes_before(a: &Broken, b: &Broken) -> bool
    ensures { result ≡ is_less a.now b.now }
{
    a.line < b.line || (a.line == b.line && a.rule.rank() < b.rule.rank())
}

/// How a pair stands to another.
fn by_place(a: &Broken, b: &Broken) -> Ordering
    ensures { is_lt result ≡ is_less a.now b.now }
{
    if comes_before(a, b) {
        Ordering::Less
    } else if comes_before(b, a) {
        Ordering::Greater
    } else {
        Ordering::Equal
    }
}

/// The pairs in ascending order, none twice. The `AllocError` comes where a growth was refused.
pub fn in_order(pairs: Vec<Broken>) -> Result<Vec<Broken>, AllocError>
    requires { AreApart pairs.items }
    ensures ascending { IfOk result (λ v. Ascends v.items) }
    ensures same { IfOk result (λ v. HaveSame v.items pairs.items) }
{
    let mut pairs = pairs;
    pairs.sort_by(|a, b| by_place(a, b))?;
    pairs.dedup_by(|later, kept| !comes_before(kept, later));
    Ok(pairs)
}

/// All but the first pair.
pub fn without_first(pairs: Vec<Broken>) -> Vec<Broken>
    ensures { result.items ≡ drop 1 pairs.items }
{
    let mut pairs = pairs;
    if pairs.len() > 0 {
        pairs.remove(0);
    }
    pairs
}
