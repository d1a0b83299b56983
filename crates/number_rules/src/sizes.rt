//! The sizes of arrays (ANSI X3.9-1978, 5.1.2).

ghost use Rattle.std.specs.Prelude.{◌≡◌, OnOk};
ghost use Rattle.std.specs.List.{list_any};
ghost use Rattle.meaning.specs.Arrays.{size};
ghost use Rattle.meaning.specs.NumberRules.{has_large_array, is_reversed as is_reversed_in};
ghost use Rattle.rule_passes.specs.Telling.{AddsTold, Finds};
ghost use Rattle.declarations.specs.Dimensioned.{dimension_at, dimensions_at};
ghost use Rattle.number_rules.specs.CappedSizes.{IsCapped};
ghost use Rattle.number_rules.specs.Sized.{AreBehind, capped_with, elements_at, has_too_many_at};
ghost use Rattle.number_rules.specs.Sized.{have_too_large_at, is_too_large_at};
ghost use Rattle.symbols.specs.SymbolsAt.{symbols_at};

use declarations::{Table, dimension_of, lacks_bound, pass_constants, table_of};
use meaning::refusal::{Broken, Rule};
use meaning::syntax::{Bounds, Declarator, Item};
use rule_passes::{Behind, add_told};
use std::alloc::{AllocError, Global};
use symbols::{Symbols, declarators_in};

/// The most elements that the arrays of a program may have.
const MOST: u64 = 16_777_216;

/// How many elements an array of these bounds has, or 2^64-1 where there are more.
fn size_of(table: &Table, bounds: &[Bounds]) -> u64
    ensures { IsCapped result (size (dimensions_at table.now bounds.now)) }
{
    let mut found: u64 = 1;
    for one in bounds {
        found = found.saturating_mul(dimension_of(table, one).extent());
    }
    found
}

/// How many elements a declarator gives, or 2^64-1 where there are more; none where a bound has no
/// value.
fn elements_of(table: &Table, declarator: &Declarator) -> u64
    ensures { IsCapped result (elements_at table.now declarator.now) }
{
    if declarator.bounds.is_empty() || lacks_bound(table, declarator) {
        0
    } else {
        size_of(table, &declarator.bounds)
    }
}

/// Whether a lower bound is above the upper one.
fn is_reversed(table: &Table, bounds: &Bounds) -> bool
    ensures { result ≡ is_reversed_in (dimension_at table.now bounds.now) }
{
    let dimension = dimension_of(table, bounds);
    dimension.upper < dimension.lower
}

/// Whether one of the lower bounds is above the upper one.
fn has_reversed(table: &Table, bounds: &[Bounds]) -> bool
    ensures { result ≡ list_any is_reversed_in (dimensions_at table.now bounds.now) }
{
    for one in bounds {
        if is_reversed(table, one) {
            return true;
        }
    }
    false
}

/// Whether a declarator has too many elements with those that stand before it.
fn has_too_many(table: &Table, before: u64, declarator: &Declarator) -> bool
    ensures { Finds (IsCapped before) (has_too_many_at table.now declarator.now) result }
{
    before.saturating_add(elements_of(table, declarator)) > MOST
}

/// Whether a declarator has too many dimensions, a lower bound above the upper one, or too many
/// elements with those that stand before it. Where a bound has no value, the number of dimensions
/// alone counts.
fn is_too_large(table: &Table, before: u64, declarator: &Declarator) -> bool
    ensures { Finds (IsCapped before) (is_too_large_at table.now declarator.now) result }
{
    let number = declarator.bounds.len();
    let is_array = number > 0;
    let has_too_many_here = has_too_many(table, before, declarator);
    number > 7
        || (!lacks_bound(table, declarator)
            && (has_reversed(table, &declarator.bounds) || (is_array && has_too_many_here)))
}

/// Whether one of the declarators is too large.
fn have_too_large(table: &Table, before: u64, declarators: &[Declarator]) -> bool
    ensures { Finds (IsCapped before) (have_too_large_at table.now declarators.now) result }
{
    let mut elements = before;
    for declarator in declarators {
        if is_too_large(table, elements, declarator) {
            return true;
        }
        elements = elements.saturating_add(elements_of(table, declarator));
    }
    false
}

/// How many elements declarators give, with those that stand before them.
fn with_elements(table: &Table, before: u64, declarators: &[Declarator]) -> u64
    ensures { Finds (IsCapped before) (capped_with table.now declarators.now) result }
{
    let mut elements = before;
    for declarator in declarators {
        elements = elements.saturating_add(elements_of(table, declarator));
    }
    elements
}

/// What breaks the rule on the sizes of arrays.
#[derive(Drop)]
struct LargeArrays<'a> {
    alloc: Global,
    table: Table<'a>,
    elements: u64,
}

impl Behind for LargeArrays<'_> {
    ghost breaks = { λ s before x. has_large_array (symbols_at s.table.symbols.now) before x };

    ghost knows = { λ s before. AreBehind s.table s.elements before };

    fn is_broken(&self, item: &Item) -> Result<bool, AllocError> {
        Ok(have_too_large(
            &self.table,
            self.elements,
            declarators_in(&*item.form.shape),
        ))
    }

    fn pass(&mut self, item: &Item) -> Result<(), AllocError> {
        let declarators = declarators_in(&*item.form.shape);
        self.elements = with_elements(&self.table, self.elements, declarators);
        pass_constants(&mut self.table, self.alloc, item)
    }
}

/// K7: adds the pair of each line at which an array is too large.
pub fn add_large_arrays(
    pairs: &mut Vec<Broken>,
    alloc: Global,
    symbols: &Symbols,
    items: &[&Item],
) -> Result<(), AllocError>
    ensures { OnOk result
        (AddsTold (has_large_array (symbols_at symbols.now)) Rule.K7 items.now pairs.old.items
        pairs.new.items) }
{
    let mut large = LargeArrays {
        alloc,
        table: table_of(alloc, symbols),
        elements: 0,
    };
    add_told(pairs, &mut large, Rule::K7, items)
}
