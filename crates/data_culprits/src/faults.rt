//! What is wrong with a subscript, or with the limits of an implied DO, in a DATA statement (ANSI
//! X3.9-1978, 9.1 and 9.3).

ghost use Rattle.std.specs.Prelude.{◌≡◌, map, option_map, IfOk};
ghost use Rattle.meaning.specs.Syntax.{expr_tree, exprs_tree, limits_tree};
ghost use Rattle.declarations.specs.Tables.{scope_known, scope_types};
ghost use Rattle.expressions.specs.Dimensions.{dimension as dimension_at};
ghost use Rattle.data_rules.specs.DataPlaces.{value_in};
ghost use Rattle.data_culprits.specs.Faults.{limits_fault, none_told, outside_in, step_fault};
ghost use Rattle.data_culprits.specs.Faults.{subscript_fault, subscripts_fault};
ghost use Rattle.data_culprits.specs.Told.{tell, told_at};

use crate::culprit::DataCulprit;
use data_rules::known_value;
use declarations::Scope;
use expressions::Dimension;
use meaning::syntax::{Expr, Exprs, Limits};
use number_culprits::{NumberCulprit, none_of};
use std::alloc::{AllocError, Global};

/// What keeps an expression from being one of constants, or the name that it is told of where it
/// faults.
fn bad_constant<'a>(
    alloc: Global,
    scope: &Scope,
    name: &'a [u8],
    expression: &'a Expr,
) -> Result<Option<DataCulprit<'a>>, AllocError>
    ensures { IfOk
        result (λ c. tell c
        ≡ none_told (scope_types scope.now) (scope_known scope.now) name.now
        (expr_tree expression.now)) }
{
    match none_of(alloc, scope, NumberCulprit::Faulty { name }, expression)? {
        Some(culprit) => Ok(Some(DataCulprit::Number { culprit })),
        None => Ok(None),
    }
}

/// A subscript that is outside of its bounds.
fn outside<'a>(
    scope: &Scope,
    name: &'a [u8],
    dimension: &Dimension,
    expression: &Expr,
) -> Option<DataCulprit<'a>>
    ensures { tell result
        ≡ outside_in name.now (dimension_at dimension.now) (value_in scope.now expression.now) }
{
    match known_value(scope, expression) {
        Some(subscript) => {
            if dimension.above(subscript).is_none() {
                Some(DataCulprit::Outside {
                    name,
                    subscript,
                    lower: dimension.lower,
                    upper: dimension.upper,
                })
            } else {
                None
            }
        }
        None => None,
    }
}

/// What is wrong with a subscript.
fn bad_subscript<'a>(
    alloc: Global,
    scope: &Scope,
    name: &'a [u8],
    dimension: &Dimension,
    expression: &'a Expr,
) -> Result<Option<DataCulprit<'a>>, AllocError>
    ensures { IfOk
        result (λ c. tell c
        ≡ subscript_fault (scope_types scope.now) (scope_known scope.now) name.now
        (dimension_at dimension.now) (expr_tree expression.now)) }
{
    match bad_constant(alloc, scope, name, expression)? {
        Some(culprit) => Ok(Some(culprit)),
        None => Ok(outside(scope, name, dimension, expression)),
    }
}

/// What is wrong with subscripts that lead to no element.
pub fn bad_subscripts<'a>(
    alloc: Global,
    scope: &Scope,
    name: &'a [u8],
    dimensions: &[Dimension],
    subscripts: &'a Exprs,
) -> Result<DataCulprit<'a>, AllocError>
    ensures { IfOk
        result (λ c. told_at c
        ≡ subscripts_fault (scope_types scope.now) (scope_known scope.now) name.now
        (map dimension_at dimensions.now) (exprs_tree subscripts.now)) }
{
    match dimensions.split_first() {
        None => Ok(DataCulprit::Unmatched { name }),
        Some((dimension, more)) => match subscripts {
            Exprs::Empty => Ok(DataCulprit::Unmatched { name }),
            Exprs::More(first, rest) => {
                match bad_subscript(alloc, scope, name, dimension, first)? {
                    Some(culprit) => Ok(culprit),
                    None => bad_subscripts(alloc, scope, name, more, rest),
                }
            }
        },
    }
}

/// What is wrong with a step.
fn bad_step<'a>(
    alloc: Global,
    scope: &Scope,
    name: &'a [u8],
    step: &'a Option<Expr>,
) -> Result<Option<DataCulprit<'a>>, AllocError>
    ensures { IfOk
        result (λ c. tell c
        ≡ step_fault (scope_types scope.now) (scope_known scope.now) name.now
        (option_map expr_tree step.now)) }
{
    match step {
        Some(step) => bad_constant(alloc, scope, name, step),
        None => Ok(None),
    }
}

/// What is wrong with the limits of an implied DO that give its variable no value.
pub fn bad_limits<'a>(
    alloc: Global,
    scope: &Scope,
    name: &'a [u8],
    limits: &'a Limits,
) -> Result<DataCulprit<'a>, AllocError>
    ensures { IfOk
        result (λ c. told_at c
        ≡ limits_fault (scope_types scope.now) (scope_known scope.now) name.now
        (limits_tree limits.now)) }
{
    match bad_constant(alloc, scope, name, &limits.first)? {
        Some(culprit) => Ok(culprit),
        None => match bad_constant(alloc, scope, name, &limits.last)? {
            Some(culprit) => Ok(culprit),
            None => match bad_step(alloc, scope, name, &limits.step)? {
                Some(culprit) => Ok(culprit),
                None => Ok(DataCulprit::Trips { name }),
            },
        },
    }
}
