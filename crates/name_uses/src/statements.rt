//! Uses of names in statements (ANSI X3.9-1978, chapters 5 to 15).

ghost use Rattle.std.specs.Prelude.{◌≡◌, ◌++◌, List, ℕ, flat_map, map, option_map, OnOk};
ghost use Rattle.meaning.specs.Scopes.{listed};
ghost use Rattle.meaning.specs.Syntax.{bounds_tree, constant_tree, data_constant_tree};
ghost use Rattle.meaning.specs.Syntax.{data_set_tree, data_value_tree, declarator_tree, expr_tree};
ghost use Rattle.meaning.specs.Syntax.{exprs_tree, list_items_tree, repeat_tree, shape_tree};
ghost use Rattle.meaning.specs.Syntax.{unit_tree};
ghost use Rattle.meaning.specs.Typing.{in_bounds, option_list};
ghost use Rattle.meaning.specs.Uses.{data_constant_uses, data_item_sets, data_item_uses};
ghost use Rattle.meaning.specs.Uses.{data_set_uses, data_value_uses, given_uses, item_uses};
ghost use Rattle.meaning.specs.Uses.{parts_of, repeat_uses, shown, subscript_uses, target_use};
ghost use Rattle.meaning.specs.Uses.{unit_uses, uses_in, uses_in_all, value_uses};
ghost use Rattle.symbols.specs.SymbolsAt.{symbols_at};
ghost use Rattle.name_uses.specs.UsesAt.{arguments_at, uses_at};

use crate::hiding::{Outside, Shown};
use crate::uses::{
    Arguments, NameUse, add_all_uses, add_limit_uses, add_option_uses, add_passing, add_unit_uses,
    add_use, add_uses,
};
use meaning::syntax::{
    Bounds, DataConstant, DataSet, DataValue, Declarator, Expr, Exprs, ListItem, ListItems,
    NamedConstant, RepeatCount, Shape, Unit,
};
use std::alloc::{AllocError, Global};
use symbols::{Symbols, is_array_name};

/// Puts the uses in an item behind those that are there; a whole array is none.
#[tactic(auto, using(symbols::proofs::Passes::nothing_more))]
fn add_value_uses<'a>(
    uses: &mut Vec<NameUse<'a>>,
    symbols: &Symbols,
    value: &'a Expr,
) -> Result<(), AllocError>
    ensures { OnOk result
        (uses_at uses.new.items ≡ uses_at uses.old.items
        ++ value_uses (symbols_at symbols.now) (expr_tree value.now)) }
{
    match value {
        Expr::Name(name) => {
            if is_array_name(symbols, name) {
                Ok(())
            } else {
                add_use(uses, name, Arguments::Bare)
            }
        }
        Expr::Number(_) => add_uses(uses, value),
        Expr::Truth(_) => add_uses(uses, value),
        Expr::Signed(_, _) => add_uses(uses, value),
        Expr::Not(_) => add_uses(uses, value),
        Expr::Binary(_, _, _) => add_uses(uses, value),
        Expr::Paren(_) => add_uses(uses, value),
        Expr::Element(_, _) => add_uses(uses, value),
        Expr::Call(_) => add_uses(uses, value),
    }
}

/// Puts the uses in the list of a WRITE or PRINT statement behind those that are there; an implied
/// DO sets its variable.
#[tactic(auto, using(symbols::proofs::Passes::appended, symbols::proofs::Passes::nothing_more))]
fn add_item_uses<'a>(
    uses: &mut Vec<NameUse<'a>>,
    symbols: &Symbols,
    items: &'a ListItems,
) -> Result<(), AllocError>
    ensures { OnOk result
        (uses_at uses.new.items ≡ uses_at uses.old.items
        ++ item_uses (symbols_at symbols.now) (list_items_tree items.now)) }
{
    match items {
        ListItems::Empty => Ok(()),
        ListItems::More(item, rest) => match item {
            ListItem::Value(value) => {
                add_value_uses(uses, symbols, value)?;
                add_item_uses(uses, symbols, rest)
            }
            ListItem::Loop {
                items,
                variable,
                limits,
            } => {
                add_item_uses(uses, symbols, items)?;
                add_use(uses, variable, Arguments::Bare)?;
                add_limit_uses(uses, limits)?;
                add_item_uses(uses, symbols, rest)
            }
        },
    }
}

/// Puts the variable or the element that a DATA statement gives a value behind the uses that are
/// there; a whole array is none.
#[tactic(auto, using(symbols::proofs::Passes::nothing_more))]
fn add_given_uses<'a>(
    uses: &mut Vec<NameUse<'a>>,
    symbols: &Symbols,
    value: &'a Expr,
) -> Result<(), AllocError>
    ensures { OnOk result
        (uses_at uses.new.items ≡ uses_at uses.old.items
        ++ given_uses (symbols_at symbols.now) (expr_tree value.now)) }
{
    match value {
        Expr::Name(_) => add_value_uses(uses, symbols, value),
        Expr::Element(name, subscripts) => add_use(uses, name, Arguments::With(subscripts)),
        _ => Ok(()),
    }
}

/// Puts the variables and elements that a DATA statement gives values behind the uses that are
/// there.
#[tactic(auto, using(symbols::proofs::Passes::appended, symbols::proofs::Passes::nothing_more))]
fn add_data_item_sets<'a>(
    uses: &mut Vec<NameUse<'a>>,
    symbols: &Symbols,
    items: &'a ListItems,
) -> Result<(), AllocError>
    ensures { OnOk result
        (uses_at uses.new.items ≡ uses_at uses.old.items
        ++ data_item_sets (symbols_at symbols.now) (list_items_tree items.now)) }
{
    match items {
        ListItems::Empty => Ok(()),
        ListItems::More(item, rest) => match item {
            ListItem::Value(value) => {
                add_given_uses(uses, symbols, value)?;
                add_data_item_sets(uses, symbols, rest)
            }
            ListItem::Loop { items, .. } => {
                add_data_item_sets(uses, symbols, items)?;
                add_data_item_sets(uses, symbols, rest)
            }
        },
    }
}

/// Puts the uses in the subscripts of an element that a DATA statement gives a value behind those
/// that are there.
#[tactic(auto, using(symbols::proofs::Passes::nothing_more))]
fn add_subscript_uses<'a>(uses: &mut Vec<NameUse<'a>>, value: &'a Expr) -> Result<(), AllocError>
    ensures { OnOk result
        (uses_at uses.new.items ≡ uses_at uses.old.items ++ subscript_uses (expr_tree value.now)) }
{
    match value {
        Expr::Element(_, subscripts) => add_all_uses(uses, subscripts),
        _ => Ok(()),
    }
}

/// Puts the uses in subscripts and limits of a DATA statement behind those that are there; the
/// variable of an implied DO is its own (ANSI X3.9-1978, 9.3).
#[tactic(auto, using(symbols::proofs::Passes::appended, symbols::proofs::Passes::nothing_more))]
fn add_data_item_uses<'a>(
    uses: &mut Vec<NameUse<'a>>,
    alloc: Global,
    items: &'a ListItems,
) -> Result<(), AllocError>
    ensures { OnOk result
        (uses_at uses.new.items ≡ uses_at uses.old.items
        ++ data_item_uses (list_items_tree items.now)) }
{
    match items {
        ListItems::Empty => Ok(()),
        ListItems::More(item, rest) => match item {
            ListItem::Value(value) => {
                add_subscript_uses(uses, value)?;
                add_data_item_uses(uses, alloc, rest)
            }
            ListItem::Loop {
                items,
                variable,
                limits,
            } => {
                let mut inner = Vec::new(alloc);
                add_data_item_uses(&mut inner, alloc, items)?;
                add_passing(uses, &inner, &Outside { variable })?;
                add_limit_uses(uses, limits)?;
                add_data_item_uses(uses, alloc, rest)?;
                Ok(())
            }
        },
    }
}

/// Puts the uses in a constant of a DATA statement behind those that are there.
#[tactic(auto, using(symbols::proofs::Passes::appended, symbols::proofs::Passes::nothing_more))]
fn add_data_value_uses<'a>(
    uses: &mut Vec<NameUse<'a>>,
    value: &'a DataValue,
) -> Result<(), AllocError>
    ensures { OnOk result
        (uses_at uses.new.items ≡ uses_at uses.old.items
        ++ data_value_uses (data_value_tree value.now)) }
{
    add_repeat_uses(uses, &value.repeat_count)?;
    add_data_constant_uses(uses, &value.constant)
}

/// Puts the uses in a repeat count behind those that are there.
#[tactic(auto, using(symbols::proofs::Passes::nothing_more))]
fn add_repeat_uses<'a>(
    uses: &mut Vec<NameUse<'a>>,
    count: &'a Option<RepeatCount>,
) -> Result<(), AllocError>
    ensures { OnOk result
        (uses_at uses.new.items ≡ uses_at uses.old.items
        ++ flat_map repeat_uses (option_list (option_map repeat_tree count.now))) }
{
    match count {
        Some(RepeatCount::Name(name)) => add_use(uses, name, Arguments::Bare),
        Some(RepeatCount::Number(_)) => Ok(()),
        None => Ok(()),
    }
}

/// Puts the uses in a constant behind those that are there.
#[tactic(auto, using(symbols::proofs::Passes::nothing_more))]
fn add_data_constant_uses<'a>(
    uses: &mut Vec<NameUse<'a>>,
    constant: &'a DataConstant,
) -> Result<(), AllocError>
    ensures { OnOk result
        (uses_at uses.new.items ≡ uses_at uses.old.items
        ++ data_constant_uses (data_constant_tree constant.now)) }
{
    match constant {
        DataConstant::Number(_, _) => Ok(()),
        DataConstant::Truth(_) => Ok(()),
        DataConstant::Name(name) => add_use(uses, name, Arguments::Bare),
    }
}

/// Puts the uses in constants of a DATA statement behind those that are there.
fn add_data_values_uses<'a>(
    uses: &mut Vec<NameUse<'a>>,
    values: &'a [DataValue],
) -> Result<(), AllocError>
    ensures { OnOk result
        (uses_at uses.new.items ≡ uses_at uses.old.items
        ++ flat_map data_value_uses (map data_value_tree values.now)) }
{
    for value in values {
        add_data_value_uses(uses, value)?;
    }
    Ok(())
}

/// Puts the uses in a list, its items aside, and in its constants behind those that are there.
#[tactic(auto, using(symbols::proofs::Passes::appended))]
fn add_data_set_uses<'a>(
    uses: &mut Vec<NameUse<'a>>,
    alloc: Global,
    set: &'a DataSet,
) -> Result<(), AllocError>
    ensures { OnOk result
        (uses_at uses.new.items ≡ uses_at uses.old.items ++ data_set_uses (data_set_tree set.now)) }
{
    add_data_item_uses(uses, alloc, &set.list)?;
    add_data_values_uses(uses, &set.values)
}

/// Puts what a DATA statement has values of behind the uses that are there.
fn add_data_uses<'a>(
    uses: &mut Vec<NameUse<'a>>,
    alloc: Global,
    sets: &'a [DataSet],
) -> Result<(), AllocError>
    ensures { OnOk result
        (uses_at uses.new.items ≡ uses_at uses.old.items
        ++ flat_map data_set_uses (map data_set_tree sets.now)) }
{
    for set in sets {
        add_data_set_uses(uses, alloc, set)?;
    }
    Ok(())
}

/// Puts what a DATA statement sets behind the uses that are there.
fn add_data_sets<'a>(
    uses: &mut Vec<NameUse<'a>>,
    symbols: &Symbols,
    sets: &'a [DataSet],
) -> Result<(), AllocError>
    ensures { OnOk result
        (uses_at uses.new.items ≡ uses_at uses.old.items
        ++ flat_map (λ x. data_item_sets (symbols_at symbols.now) x.list)
        (map data_set_tree sets.now)) }
{
    for set in sets {
        add_data_item_sets(uses, symbols, &set.list)?;
    }
    Ok(())
}

/// Puts the uses in a PARAMETER statement behind those that are there.
fn add_constant_uses<'a>(
    uses: &mut Vec<NameUse<'a>>,
    constants: &'a [NamedConstant],
) -> Result<(), AllocError>
    ensures { OnOk result
        (uses_at uses.new.items ≡ uses_at uses.old.items
        ++ flat_map (λ c. uses_in c.value) (map constant_tree constants.now)) }
{
    for constant in constants {
        add_uses(uses, &constant.value)?;
    }
    Ok(())
}

/// Puts the uses in the bounds of a dimension behind those that are there.
#[tactic(auto, using(symbols::proofs::Passes::appended, symbols::proofs::Passes::nothing_more))]
fn add_bound_uses<'a>(uses: &mut Vec<NameUse<'a>>, bounds: &'a Bounds) -> Result<(), AllocError>
    ensures { OnOk result
        (uses_at uses.new.items ≡ uses_at uses.old.items
        ++ flat_map (λ x. uses_in x.expr) (in_bounds (bounds_tree bounds.now))) }
{
    match &bounds.lower {
        Some(lower) => add_uses(uses, lower)?,
        None => (),
    }
    add_uses(uses, &bounds.upper)
}

/// Puts the uses in the bounds of an array behind those that are there.
fn add_bounds_uses<'a>(
    uses: &mut Vec<NameUse<'a>>,
    declarator: &'a Declarator,
) -> Result<(), AllocError>
    ensures { OnOk result
        (uses_at uses.new.items ≡ uses_at uses.old.items
        ++ flat_map (λ b. flat_map (λ x. uses_in x.expr) (in_bounds b))
        (declarator_tree declarator.now).bounds) }
{
    for bounds in &declarator.bounds {
        add_bound_uses(uses, bounds)?;
    }
    Ok(())
}

/// Puts the uses in the bounds of arrays behind those that are there.
fn add_declarator_uses<'a>(
    uses: &mut Vec<NameUse<'a>>,
    declarators: &'a [Declarator],
) -> Result<(), AllocError>
    ensures { OnOk result
        (uses_at uses.new.items ≡ uses_at uses.old.items
        ++ flat_map (λ d. flat_map (λ b. flat_map (λ x. uses_in x.expr) (in_bounds b)) d.bounds)
        (map declarator_tree declarators.now)) }
{
    for declarator in declarators {
        add_bounds_uses(uses, declarator)?;
    }
    Ok(())
}

/// Puts the uses that an assignment has values of behind those that are there.
#[tactic(auto, using(symbols::proofs::Passes::appended))]
fn add_assigned_uses<'a>(
    uses: &mut Vec<NameUse<'a>>,
    subscripts: &'a Exprs,
    value: &'a Expr,
) -> Result<(), AllocError>
    ensures { OnOk result
        (uses_at uses.new.items ≡ uses_at uses.old.items
        ++ (uses_in_all (exprs_tree subscripts.now) ++ uses_in (expr_tree value.now))) }
{
    add_all_uses(uses, subscripts)?;
    add_uses(uses, value)
}

/// Puts the uses in the statement of a statement function behind those that are there, its dummies
/// aside.
fn add_shown_uses<'a>(
    uses: &mut Vec<NameUse<'a>>,
    alloc: Global,
    dummies: &'a Exprs,
    body: &'a Expr,
) -> Result<(), AllocError>
    ensures { OnOk result
        (uses_at uses.new.items ≡ uses_at uses.old.items
        ++ shown (listed (exprs_tree dummies.now))
        (uses_in_all (exprs_tree dummies.now) ++ uses_in (expr_tree body.now))) }
{
    let mut inner = Vec::new(alloc);
    add_assigned_uses(&mut inner, dummies, body)?;
    add_passing(uses, &inner, &Shown { dummies })
}

/// Puts the uses in a WRITE statement behind those that are there.
#[tactic(auto, using(symbols::proofs::Passes::appended))]
fn add_written_uses<'a>(
    uses: &mut Vec<NameUse<'a>>,
    symbols: &Symbols,
    unit: &'a Unit,
    list: &'a ListItems,
) -> Result<(), AllocError>
    ensures { OnOk result
        (uses_at uses.new.items ≡ uses_at uses.old.items
        ++ (unit_uses (unit_tree unit.now)
        ++ item_uses (symbols_at symbols.now) (list_items_tree list.now))) }
{
    add_unit_uses(uses, unit)?;
    add_item_uses(uses, symbols, list)
}

/// Puts the uses that a statement has values of behind those that are there; it defines a statement
/// function or doesn't.
#[tactic(auto, using(symbols::proofs::Passes::appended, symbols::proofs::Passes::nothing_more, crate::proofs::Reading::either_reads))]
pub fn add_reads<'a>(
    uses: &mut Vec<NameUse<'a>>,
    alloc: Global,
    symbols: &Symbols,
    defines: bool,
    shape: &'a Shape,
) -> Result<(), AllocError>
    ensures { OnOk result
        (uses_at uses.new.items ≡ uses_at uses.old.items
        ++ (parts_of (symbols_at symbols.now) defines (shape_tree shape.now)).reads) }
{
    match shape {
        Shape::Assignment {
            subscripts,
            value,
            ..
        } => {
            if defines {
                add_shown_uses(uses, alloc, subscripts, value)
            } else {
                add_assigned_uses(uses, subscripts, value)
            }
        }
        Shape::Definition(_, value) => add_uses(uses, value),
        Shape::Write { control, list } => add_written_uses(uses, symbols, &control.unit, list),
        Shape::Print { list, .. } => add_item_uses(uses, symbols, list),
        Shape::Do { limits, .. } => add_limit_uses(uses, limits),
        Shape::DoWhile { condition, .. } => add_uses(uses, condition),
        Shape::Parameter(constants) => add_constant_uses(uses, constants),
        Shape::Data(sets) => add_data_uses(uses, alloc, sets),
        Shape::ComputedGoTo { value, .. } => add_uses(uses, value),
        Shape::ArithmeticIf { value, .. } => add_uses(uses, value),
        Shape::LogicalIf(condition, statement) => {
            add_uses(uses, condition)?;
            add_reads(uses, alloc, symbols, false, statement)
        }
        Shape::IfThen(condition) => add_uses(uses, condition),
        Shape::ElseIf(condition) => add_uses(uses, condition),
        Shape::Integer(declarators) => add_declarator_uses(uses, declarators),
        Shape::Logical(declarators) => add_declarator_uses(uses, declarators),
        Shape::Dimension(declarators) => add_declarator_uses(uses, declarators),
        _ => Ok(()),
    }
}

/// Puts the uses that a statement sets behind those that are there; it defines a statement function
/// or doesn't.
#[tactic(auto, using(symbols::proofs::Passes::nothing_more))]
pub fn add_sets<'a>(
    uses: &mut Vec<NameUse<'a>>,
    symbols: &Symbols,
    defines: bool,
    shape: &'a Shape,
) -> Result<(), AllocError>
    ensures { OnOk result
        (uses_at uses.new.items ≡ uses_at uses.old.items
        ++ (parts_of (symbols_at symbols.now) defines (shape_tree shape.now)).sets) }
{
    match shape {
        Shape::Assignment {
            name,
            subscripts,
            ..
        } => {
            if defines {
                Ok(())
            } else {
                add_use(uses, name, behind(subscripts))
            }
        }
        Shape::Definition(name, _) => {
            if defines {
                Ok(())
            } else {
                add_use(uses, name, Arguments::Without)
            }
        }
        Shape::Do { variable, .. } => add_use(uses, variable, Arguments::Bare),
        Shape::LogicalIf(_, statement) => add_sets(uses, symbols, false, statement),
        Shape::Data(sets) => add_data_sets(uses, symbols, sets),
        _ => Ok(()),
    }
}

/// What stands behind the name of the target of an assignment.
fn behind(subscripts: &Exprs) -> Arguments<'_>
    ensures { (n : List ℕ) → record { name = n; arguments = arguments_at result }
        ≡ target_use n (exprs_tree subscripts.now) }
{
    match subscripts {
        Exprs::Empty => Arguments::Bare,
        Exprs::More(_, _) => Arguments::With(subscripts),
    }
}
