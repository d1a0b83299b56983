//! Constant expressions that are none (ANSI X3.9-1978, 5.1.1 and 8.6).

ghost use Rattle.std.specs.Prelude.{◌≡◌, IfOk};
ghost use Rattle.meaning.specs.NumberRules.{is_unknown};
ghost use Rattle.meaning.specs.Syntax.{expr_tree, shape_tree};
ghost use Rattle.meaning.specs.Trees.{item_tree};
ghost use Rattle.symbols.specs.Listed.{trees_at};
ghost use Rattle.symbols.specs.SymbolsAt.{symbols_at};
ghost use Rattle.name_uses.specs.UsesAt.{use_at};
ghost use Rattle.declarations.specs.Bounded.{exprs_in_bounds, exprs_in_declarator};
ghost use Rattle.declarations.specs.Tables.{scope_known, scope_types};
ghost use Rattle.number_culprits.specs.Known.{IsTableBehind, bad_bound_at, bad_constant_at};
ghost use Rattle.number_culprits.specs.Known.{bad_constants_at, defined_at, first_none_at, none_at};
ghost use Rattle.number_culprits.specs.Numbers.{bad_in, unknown_told, valueless_in};
ghost use Rattle.number_culprits.specs.Told.{tell, told_at, unbounded};

use crate::culprit::NumberCulprit;
use crate::great::great_number;
use declarations::{Scope, Table, enter_name, pass_constants, scope_of, table_of, value_of};
use expressions::Constants;
use finding::first_passing;
use meaning::syntax::{Bounds, Declarator, Expr, Item, NamedConstant, Shape};
use name_uses::{NameUse, Sought, add_uses, is_bare};
use std::alloc::{AllocError, Global};
use symbols::{Symbols, declarators_in};

/// A name that is no constant's, or stands with parentheses.
#[derive(Clone, Copy)]
struct Unknown<'a> {
    scope: &'a Scope<'a>,
}

impl Sought for Unknown<'_> {
    ghost is_use = { λ s u. is_unknown (scope_known s.scope.now) u };

    fn is(&self, one: &NameUse) -> bool {
        !is_bare(one.arguments) || self.scope.constant(one.name).is_none()
    }
}

/// What is told of it.
fn told_of<'a>(one: NameUse<'a>) -> NumberCulprit<'a>
    ensures { told_at result ≡ unknown_told (use_at one.entry) }
{
    if is_bare(one.arguments) {
        NumberCulprit::Unknown { name: one.name }
    } else {
        NumberCulprit::Referenced { name: one.name }
    }
}

/// What is told of an expression without a value.
fn valueless<'a>(
    scope: &Scope,
    faulty: NumberCulprit<'a>,
    expression: &Expr,
) -> Option<NumberCulprit<'a>>
    ensures { tell result
        ≡ valueless_in (scope_types scope.now) (scope_known scope.now) (told_at faulty.entry)
        (expr_tree expression.now) }
{
    if value_of(scope, expression).is_none() {
        Some(faulty)
    } else {
        None
    }
}

/// What makes an expression none of constants that are known, or what is told where it faults.
///
/// # Errors
///
/// `AllocError` only where a growth was refused.
pub fn none_of<'a>(
    alloc: Global,
    scope: &Scope,
    faulty: NumberCulprit<'a>,
    expression: &'a Expr,
) -> Result<Option<NumberCulprit<'a>>, AllocError>
    ensures { IfOk
        result (λ c. tell c ≡ none_at scope.now (told_at faulty.entry) (expr_tree expression.now)) }
{
    let mut uses = Vec::new(alloc);
    add_uses(&mut uses, expression)?;
    match first_passing(&uses, &Unknown { scope }) {
        Some(one) => Ok(Some(told_of(one))),
        None => Ok(valueless(scope, faulty, expression)),
    }
}

/// What makes one of the constants of a PARAMETER statement none, each with those before it.
fn bad_constant<'a: 'b, 'b>(
    alloc: Global,
    scope: &mut Scope<'b>,
    constants: &'a [NamedConstant],
) -> Result<Option<NumberCulprit<'a>>, AllocError>
    ensures { IfOk result (λ c. tell c ≡ bad_constant_at scope.old constants.now) }
{
    for constant in constants {
        let name = constant.name.as_slice();
        match none_of(
            alloc,
            scope,
            NumberCulprit::Faulty { name },
            &constant.value,
        )? {
            Some(culprit) => return Ok(Some(culprit)),
            None => {}
        }
        let value = value_of(scope, &constant.value);
        enter_name(scope, name, value)?;
    }
    Ok(None)
}

/// What makes a constant that a statement defines none.
fn defined_constant<'a: 'b, 'b>(
    alloc: Global,
    table: &'b Table<'b>,
    shape: &'a Shape,
) -> Result<Option<NumberCulprit<'a>>, AllocError>
    ensures { IfOk result (λ c. tell c ≡ defined_at table.now (shape_tree shape.now)) }
{
    match shape {
        Shape::Parameter(constants) => {
            let mut scope = scope_of(alloc, table);
            bad_constant(alloc, &mut scope, constants)
        }
        _ => Ok(None),
    }
}

/// What makes a bound of a dimension none.
fn open_bound<'a>(
    alloc: Global,
    scope: &Scope,
    faulty: NumberCulprit<'a>,
    bounds: &'a Bounds,
) -> Result<Option<NumberCulprit<'a>>, AllocError>
    ensures { IfOk
        result (λ c. tell c
        ≡ first_none_at scope.now (told_at faulty.entry) (exprs_in_bounds bounds.now)) }
{
    match &bounds.lower {
        Some(lower) => match none_of(alloc, scope, faulty, lower)? {
            Some(culprit) => return Ok(Some(culprit)),
            None => {}
        },
        None => {}
    }
    match none_of(alloc, scope, faulty, &bounds.upper)? {
        Some(culprit) => Ok(Some(culprit)),
        None => Ok(None),
    }
}

/// What makes a bound of an array none.
fn open_array<'a>(
    alloc: Global,
    scope: &Scope,
    declarator: &'a Declarator,
) -> Result<Option<NumberCulprit<'a>>, AllocError>
    ensures { IfOk
        result (λ c. tell c
        ≡ first_none_at scope.now (unbounded declarator.now.name.items)
        (exprs_in_declarator declarator.now)) }
{
    let faulty = NumberCulprit::Unbounded {
        name: declarator.name.as_slice(),
    };
    for bounds in &declarator.bounds {
        match open_bound(alloc, scope, faulty, bounds)? {
            Some(culprit) => return Ok(Some(culprit)),
            None => {}
        }
    }
    Ok(None)
}

/// What makes a bound of one of the arrays none.
fn bad_bound<'a>(
    alloc: Global,
    scope: &Scope,
    declarators: &'a [Declarator],
) -> Result<Option<NumberCulprit<'a>>, AllocError>
    ensures { IfOk result (λ c. tell c ≡ bad_bound_at scope.now declarators.now) }
{
    for declarator in declarators {
        match open_array(alloc, scope, declarator)? {
            Some(culprit) => return Ok(Some(culprit)),
            None => {}
        }
    }
    Ok(None)
}

/// What makes a constant expression of a statement none.
fn bad_constants<'a>(
    alloc: Global,
    table: &Table,
    shape: &'a Shape,
) -> Result<Option<NumberCulprit<'a>>, AllocError>
    ensures { IfOk result (λ c. tell c ≡ bad_constants_at table.now (shape_tree shape.now)) }
{
    match defined_constant(alloc, table, shape)? {
        Some(culprit) => Ok(Some(culprit)),
        None => {
            let scope = scope_of(alloc, table);
            bad_bound(alloc, &scope, declarators_in(shape))
        }
    }
}

/// The constants behind statements. The `AllocError` comes where a growth was refused.
pub fn table_behind<'a>(
    alloc: Global,
    symbols: &'a Symbols<'a>,
    before: &[&Item],
) -> Result<Table<'a>, AllocError>
    ensures { IfOk result (IsTableBehind symbols.now (trees_at before.now)) }
{
    let mut table = table_of(alloc, symbols);
    for item in before {
        pass_constants(&mut table, alloc, item)?;
    }
    Ok(table)
}

/// K6: the first integer constant of a statement behind others that is too great, or what makes a
/// constant expression of it none.
pub fn bad_number<'a>(
    alloc: Global,
    symbols: &Symbols,
    before: &[&Item],
    item: &'a Item,
) -> Result<Option<NumberCulprit<'a>>, AllocError>
    ensures { IfOk
        result (λ c. tell c
        ≡ bad_in (symbols_at symbols.now) (trees_at before.now) (item_tree item.now)) }
{
    let shape = &*item.form.shape;
    match great_number(alloc, symbols, shape)? {
        Some(culprit) => Ok(Some(culprit)),
        None => {
            let table = table_behind(alloc, symbols, before)?;
            bad_constants(alloc, &table, shape)
        }
    }
}
