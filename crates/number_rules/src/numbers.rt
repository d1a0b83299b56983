//! Constants and bounds (ANSI X3.9-1978, 4.3, 5.1.1 and 8.6).

ghost use Rattle.std.specs.Prelude.{◌≡◌, IfOk, OnOk};
ghost use Rattle.std.specs.List.{list_any};
ghost use Rattle.meaning.specs.NumberRules.{has_bad_number};
ghost use Rattle.rule_passes.specs.Telling.{AddsTold};
ghost use Rattle.number_rules.specs.BadNumbers.{are_bad_at, defines_bad_at, have_bad_bound_at};
ghost use Rattle.number_rules.specs.BadNumbers.{is_bad_at};
ghost use Rattle.declarations.specs.Bounded.{exprs_in_bounds, exprs_in_declarator};
ghost use Rattle.declarations.specs.Tables.{IsBehind};
ghost use Rattle.symbols.specs.SymbolsAt.{symbols_at};

use crate::great::has_too_great;
use declarations::{
    Scope, Table, enter_name, is_no_constant, pass_constants, scope_of, table_of, value_of,
};
use meaning::refusal::{Broken, Rule};
use meaning::syntax::{Bounds, Declarator, Item, NamedConstant, Shape};
use rule_passes::{Behind, add_told};
use std::alloc::{AllocError, Global};
use symbols::{Symbols, declarators_in};

/// Whether one of the constants of a PARAMETER statement is none, each with those before it.
fn are_bad<'a>(scope: &mut Scope<'a>, constants: &'a [NamedConstant]) -> Result<bool, AllocError>
    ensures { IfOk result (λ b. b ≡ are_bad_at scope.old constants.now) }
{
    for constant in constants {
        if is_no_constant(scope, &constant.value) {
            return Ok(true);
        }
        let value = value_of(scope, &constant.value);
        enter_name(scope, &constant.name, value)?;
    }
    Ok(false)
}

/// Whether a statement defines a constant that is none.
fn has_bad_constant<'a>(
    alloc: Global,
    table: &'a Table<'a>,
    shape: &'a Shape,
) -> Result<bool, AllocError>
    ensures { IfOk result (λ b. b ≡ defines_bad_at table.now shape.now) }
{
    match shape {
        Shape::Parameter(constants) => {
            let mut scope = scope_of(alloc, table);
            are_bad(&mut scope, constants)
        }
        _ => Ok(false),
    }
}

/// Whether one of the bounds of a dimension is no constant.
fn in_bounds(table: &Table, bounds: &Bounds) -> bool
    ensures { result ≡ list_any (is_bad_at table.now) (exprs_in_bounds bounds.now) }
{
    match &bounds.lower {
        Some(lower) => is_no_constant(table, lower) || is_no_constant(table, &bounds.upper),
        None => is_no_constant(table, &bounds.upper),
    }
}

/// Whether one of the bounds of an array is no constant.
#[tactic(auto, using(rule_passes::proofs::Missing::any_both))]
fn in_declarator(table: &Table, declarator: &Declarator) -> bool
    ensures { result ≡ list_any (is_bad_at table.now) (exprs_in_declarator declarator.now) }
{
    for bounds in &declarator.bounds {
        if in_bounds(table, bounds) {
            return true;
        }
    }
    false
}

/// Whether one of the bounds of arrays is no constant.
#[tactic(auto, using(rule_passes::proofs::Missing::any_both))]
fn has_bad_bound(table: &Table, declarators: &[Declarator]) -> bool
    ensures { result ≡ have_bad_bound_at table.now declarators.now }
{
    for declarator in declarators {
        if in_declarator(table, declarator) {
            return true;
        }
    }
    false
}

/// What breaks the rule on constants and bounds.
#[derive(Drop)]
struct BadNumbers<'a> {
    alloc: Global,
    table: Table<'a>,
}

impl Behind for BadNumbers<'_> {
    ghost breaks = { λ s before x. has_bad_number (symbols_at s.table.symbols.now) before x };

    ghost knows = { λ s before. IsBehind s.table before };

    fn is_broken(&self, item: &Item) -> Result<bool, AllocError> {
        let shape = &*item.form.shape;
        let is_bad = has_bad_constant(self.alloc, &self.table, shape)?;
        Ok(has_too_great(shape) || (is_bad || has_bad_bound(&self.table, declarators_in(shape))))
    }

    fn pass(&mut self, item: &Item) -> Result<(), AllocError> {
        pass_constants(&mut self.table, self.alloc, item)
    }
}

/// K6: adds the pair of each line at which a constant is too great, or no constant stands where one
/// has to.
pub fn add_bad_constants(
    pairs: &mut Vec<Broken>,
    alloc: Global,
    symbols: &Symbols,
    items: &[&Item],
) -> Result<(), AllocError>
    ensures { OnOk result
        (AddsTold (has_bad_number (symbols_at symbols.now)) Rule.K6 items.now pairs.old.items
        pairs.new.items) }
{
    let mut bad = BadNumbers {
        alloc,
        table: table_of(alloc, symbols),
    };
    add_told(pairs, &mut bad, Rule::K6, items)
}
