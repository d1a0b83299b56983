//! The names of arrays (ANSI X3.9-1978, 5.1).

ghost use Rattle.std.specs.Prelude.{◌≡◌, ℕ, List, is_some, map, IfOk, OnOk};
ghost use Rattle.std.specs.Option.{option_or};
ghost use Rattle.meaning.specs.NameRules.{length_if};
ghost use Rattle.meaning.specs.Scopes.{arrays_of, declarators_in as declarators_within};
ghost use Rattle.meaning.specs.Syntax.{declarator_tree, shape_tree};
ghost use Rattle.name_maps.specs.Keeping.{kept_at};
ghost use Rattle.symbols.specs.Listed.{trees_at};
ghost use Rattle.symbols.specs.RankBy.{declarators_of, rank_by, rank_in};

use indexmap::IndexMap;
use meaning::syntax::{Declarator, Item, Shape};
use name_maps::add_first;
use std::alloc::{AllocError, Global};

/// The declarators of a type or DIMENSION statement.
pub fn declarators_in(shape: &Shape) -> &[Declarator]
    ensures { map declarator_tree result.now ≡ declarators_within (shape_tree shape.now) }
{
    match shape {
        Shape::Integer(declarators) => declarators,
        Shape::Logical(declarators) => declarators,
        Shape::Dimension(declarators) => declarators,
        _ => &[],
    }
}

/// Keeps how many dimensions a declarator gives its name, if it is the first that gives any.
fn add_rank(
    kept: &mut IndexMap<Vec<u8>, usize>,
    alloc: Global,
    declarator: &Declarator,
) -> Result<(), AllocError>
    ensures { OnOk result
        ((n : List ℕ) → kept_at kept.new n
        ≡ option_or (kept_at kept.old n) (rank_in (declarator_tree declarator.now) n)) }
{
    let rank = declarator.bounds.len();
    if rank > 0 {
        add_first(kept, alloc, &declarator.name, rank)?;
    }
    Ok(())
}

/// Keeps how many dimensions declarators are the first to give names.
fn add_ranks(
    kept: &mut IndexMap<Vec<u8>, usize>,
    alloc: Global,
    declarators: &[Declarator],
) -> Result<(), AllocError>
    ensures { OnOk result
        ((n : List ℕ) → kept_at kept.new n
        ≡ option_or (kept_at kept.old n) (rank_by (map declarator_tree declarators.now) n)) }
{
    for declarator in declarators {
        add_rank(kept, alloc, declarator)?;
    }
    Ok(())
}

/// How many dimensions statements give names.
fn ranks_of(alloc: Global, items: &[&Item]) -> Result<IndexMap<Vec<u8>, usize>, AllocError>
    ensures { IfOk
        result (λ kept. (n : List ℕ) → kept_at kept n
        ≡ rank_by (declarators_of (trees_at items.now)) n) }
{
    let mut kept = IndexMap::new(alloc);
    for item in items {
        add_ranks(&mut kept, alloc, declarators_in(&*item.form.shape))?;
    }
    Ok(kept)
}

/// The arrays of a program unit with how many dimensions they have.
pub struct Ranks<'a> {
    /// The statements of the unit, first to last.
    pub items: &'a [&'a Item],
    kept: IndexMap<Vec<u8>, usize>,
    ghost given: { (n : List ℕ) → kept_at kept n ≡ length_if (arrays_of (trees_at items.now) n) },
}

impl Drop for Ranks<'_> {
    fn drop(self) {
        let Ranks { items: _, kept } = self;
        drop(kept);
    }
}

impl<'a> Ranks<'a> {
    /// The arrays of statements.
    pub fn new(alloc: Global, items: &'a [&'a Item]) -> Result<Self, AllocError>
        ensures { IfOk result (λ ranks. ranks.items.now ≡ items.now) }
    {
        let kept = ranks_of(alloc, items)?;
        Ok(Ranks { items, kept })
    }
}

/// How many dimensions a name has, if it is that of an array (ANSI X3.9-1978, 5.1).
pub fn rank(ranks: &Ranks, name: &[u8]) -> Option<usize>
    ensures { result ≡ length_if (arrays_of (trees_at ranks.now.items.now) name.now) }
{
    match ranks.kept.get(name) {
        Some(number) => Some(*number),
        None => None,
    }
}

/// Whether a name is that of an array.
pub fn has_rank(ranks: &Ranks, name: &[u8]) -> bool
    ensures { result ≡ is_some (arrays_of (trees_at ranks.now.items.now) name.now) }
{
    rank(ranks, name).is_some()
}
