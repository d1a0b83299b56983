//! Arrays one of whose bounds has no value (ANSI X3.9-1978, 5.1.1.1).

ghost use Rattle.std.specs.Prelude.{◌≡◌};
ghost use Rattle.std.specs.List.{list_any};
ghost use Rattle.meaning.specs.Syntax.{expr_tree};
ghost use Rattle.declarations.specs.Bounded.{exprs_in_bounds, is_no_integer_at, lacks_bound_at};

use crate::known::{Table, value_of};
use crate::unknown::is_no_constant;
use meaning::ending::Value;
use meaning::syntax::{Bounds, Declarator, Expr};

/// Whether a bound is no INTEGER constant.
fn is_no_integer(table: &Table, bound: &Expr) -> bool
    ensures { result ≡ is_no_integer_at table.now (expr_tree bound.now) }
{
    if is_no_constant(table, bound) {
        return true;
    }
    match value_of(table, bound) {
        Some(Value::Int(_)) => false,
        Some(Value::Bool(_)) => true,
        None => true,
    }
}

/// Whether one of the bounds of a dimension is none.
fn is_open(table: &Table, bounds: &Bounds) -> bool
    ensures { result ≡ list_any (is_no_integer_at table.now) (exprs_in_bounds bounds.now) }
{
    match &bounds.lower {
        Some(lower) => is_no_integer(table, lower) || is_no_integer(table, &bounds.upper),
        None => is_no_integer(table, &bounds.upper),
    }
}

/// Whether a declarator has a bound that is no INTEGER constant: by the constants so far an array
/// of it has no size.
#[tactic(auto, using(rule_passes::proofs::Missing::any_both))]
pub fn lacks_bound(table: &Table, declarator: &Declarator) -> bool
    ensures { result ≡ lacks_bound_at table.now declarator.now }
{
    for bounds in &declarator.bounds {
        if is_open(table, bounds) {
            return true;
        }
    }
    false
}
