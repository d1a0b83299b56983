//! Arrays that break the rule on their sizes (ANSI X3.9-1978, 5.1.1 and 5.1.2).

ghost use Rattle.std.specs.Prelude.{◌≡◌, IfOk, OnOk};
ghost use Rattle.meaning.specs.Arrays.{size};
ghost use Rattle.meaning.specs.Trees.{item_tree};
ghost use Rattle.symbols.specs.Listed.{trees_at};
ghost use Rattle.symbols.specs.SymbolsAt.{symbols_at};
ghost use Rattle.rule_passes.specs.Telling.{Finds};
ghost use Rattle.declarations.specs.Dimensioned.{dimensions_at};
ghost use Rattle.number_rules.specs.CappedSizes.{IsCapped};
ghost use Rattle.number_rules.specs.Sized.{capped_with, elements_at};
ghost use Rattle.size_culprits.specs.Sizes.{large_in, reversed_in};
ghost use Rattle.size_culprits.specs.Sized.{AreBehindHere, PassesOne, crowded_at, first_large_at};
ghost use Rattle.size_culprits.specs.Sized.{large_at};
ghost use Rattle.size_culprits.specs.Told.{tell};

use crate::culprit::SizeCulprit;
use declarations::{Table, dimension_of, lacks_bound, pass_constants, table_of};
use meaning::syntax::{Bounds, Declarator, Item};
use std::alloc::{AllocError, Global};
use symbols::{Symbols, declarators_in};

/// The most elements that the arrays of a program may have.
const MOST: u64 = 16_777_216;

/// How many elements an array of these bounds has, or 2^64-1 where there are more.
fn size_of(table: &Table, bounds: &[Bounds]) -> u64
    ensures { IsCapped result (size (dimensions_at table.now bounds.now)) }
{
    let mut found: u64 = 1;
    for one in bounds {
        found = found.saturating_mul(dimension_of(table, one).extent());
    }
    found
}

/// How many elements a declarator gives, or 2^64-1 where there are more; none where a bound has no
/// value.
fn elements_of(table: &Table, declarator: &Declarator) -> u64
    ensures { IsCapped result (elements_at table.now declarator.now) }
{
    if declarator.bounds.is_empty() || lacks_bound(table, declarator) {
        0
    } else {
        size_of(table, &declarator.bounds)
    }
}

/// The first dimension of an array with a lower bound above the upper one.
fn reversed<'a>(table: &Table, name: &'a [u8], bounds: &[Bounds]) -> Option<SizeCulprit<'a>>
    ensures { tell result ≡ reversed_in name.now (dimensions_at table.now bounds.now) }
{
    for one in bounds {
        let dimension = dimension_of(table, one);
        if dimension.upper < dimension.lower {
            return Some(SizeCulprit::Reversed {
                name,
                lower: dimension.lower,
                upper: dimension.upper,
            });
        }
    }
    None
}

/// An array that has too many elements with those that stand before it.
fn crowded<'a>(table: &Table, before: u64, declarator: &'a Declarator) -> Option<SizeCulprit<'a>>
    ensures { Finds (IsCapped before) (crowded_at table.now declarator.now) (tell result) }
{
    let own = elements_of(table, declarator);
    if declarator.bounds.len() > 0 && before.saturating_add(own) > MOST {
        Some(SizeCulprit::Elements {
            name: &declarator.name,
            own,
            before,
        })
    } else {
        None
    }
}

/// What makes an array too large behind so many elements. Where a bound has no value, the number of
/// dimensions alone counts.
fn large<'a>(table: &Table, before: u64, declarator: &'a Declarator) -> Option<SizeCulprit<'a>>
    ensures { Finds (IsCapped before) (large_at table.now declarator.now) (tell result) }
{
    let number = declarator.bounds.len();
    if number > 7 {
        return Some(SizeCulprit::Dimensions {
            name: &declarator.name,
            number,
        });
    }
    if lacks_bound(table, declarator) {
        return None;
    }
    match reversed(table, &declarator.name, &declarator.bounds) {
        Some(culprit) => Some(culprit),
        None => crowded(table, before, declarator),
    }
}

/// What makes the first of the arrays too large that is.
fn first_large<'a>(
    table: &Table,
    before: u64,
    declarators: &'a [Declarator],
) -> Option<SizeCulprit<'a>>
    ensures { Finds (IsCapped before) (first_large_at table.now declarators.now) (tell result) }
{
    let mut elements = before;
    for declarator in declarators {
        match large(table, elements, declarator) {
            Some(culprit) => return Some(culprit),
            None => {}
        }
        elements = elements.saturating_add(elements_of(table, declarator));
    }
    None
}

/// How many elements declarators give, with those that stand before them.
fn with_elements(table: &Table, before: u64, declarators: &[Declarator]) -> u64
    ensures { Finds (IsCapped before) (capped_with table.now declarators.now) result }
{
    let mut elements = before;
    for declarator in declarators {
        elements = elements.saturating_add(elements_of(table, declarator));
    }
    elements
}

/// The constants behind statements, and how many elements their arrays have.
#[derive(Drop)]
struct Passed<'a> {
    table: Table<'a>,
    elements: u64,
}

/// Passes a statement.
fn pass(passed: &mut Passed, alloc: Global, item: &Item) -> Result<(), AllocError>
    ensures behind { OnOk result (PassesOne passed.old passed.new item.now) }
    ensures same { OnOk result (passed.new.table.symbols ≡ passed.old.table.symbols) }
{
    let declarators = declarators_in(&*item.form.shape);
    passed.elements = with_elements(&passed.table, passed.elements, declarators);
    pass_constants(&mut passed.table, alloc, item)
}

/// What is known behind statements.
fn passed_of<'a>(
    alloc: Global,
    symbols: &'a Symbols<'a>,
    before: &[&Item],
) -> Result<Passed<'a>, AllocError>
    ensures { IfOk result (AreBehindHere symbols.now (trees_at before.now)) }
{
    let mut passed = Passed {
        table: table_of(alloc, symbols),
        elements: 0,
    };
    for item in before {
        pass(&mut passed, alloc, item)?;
    }
    Ok(passed)
}

/// K7: what makes the first array too large that a statement behind others declares so.
pub fn large_array<'a>(
    alloc: Global,
    symbols: &Symbols,
    before: &[&Item],
    item: &'a Item,
) -> Result<Option<SizeCulprit<'a>>, AllocError>
    ensures { IfOk
        result (λ c. tell c
        ≡ large_in (symbols_at symbols.now) (trees_at before.now) (item_tree item.now)) }
{
    let passed = passed_of(alloc, symbols, before)?;
    Ok(first_large(
        &passed.table,
        passed.elements,
        declarators_in(&*item.form.shape),
    ))
}
