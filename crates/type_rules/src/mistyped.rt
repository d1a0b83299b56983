//! Expressions of a wrong type in statements (ANSI X3.9-1978, chapter 6, and 5.1, 8.6, 9.3, 10.1,
//! 11.2 to 11.10 and 12.8).

ghost use Rattle.std.specs.Prelude.{◌≡◌, true, flat_map, map, option_map};
ghost use Rattle.std.specs.List.{list_any};
ghost use Rattle.meaning.specs.Scopes.{listed};
ghost use Rattle.meaning.specs.Syntax.{bounds_tree, constant_tree, data_set_tree, declarator_tree};
ghost use Rattle.meaning.specs.Syntax.{expr_tree, exprs_tree, limits_tree, list_items_tree};
ghost use Rattle.meaning.specs.Syntax.{shape_tree, unit_tree};
ghost use Rattle.meaning.specs.Typing.{dummies_if, expected, expected_in};
ghost use Rattle.meaning.specs.Typing.{has_wrong_type as has_wrong_type_by};
ghost use Rattle.meaning.specs.Typing.{in_bounds as bounds_within, in_item as item_within};
ghost use Rattle.meaning.specs.Typing.{in_items as items_within, in_limits as limits_within};
ghost use Rattle.meaning.specs.Typing.{in_target as target_within, in_unit as unit_within};
ghost use Rattle.meaning.specs.Typing.{integer_type, is_mistyped as is_wrong, option_list};
ghost use Rattle.symbols.specs.Functions.{dummies_at};
ghost use Rattle.symbols.specs.SymbolsAt.{symbols_at};
ghost use Rattle.type_rules.specs.Wants.{names_in};

use crate::typing::{Naming, is_mistyped};
use meaning::syntax::{
    Bounds, DataSet, DataType, Declarator, Expr, Exprs, Limits, ListItem, ListItems, NamedConstant,
    Shape, Unit,
};
use symbols::{Symbols, is_array_name, type_of_name};

/// Whether an expression isn't of INTEGER type, or a part of it is of the wrong type.
fn is_no_integer(naming: &Naming, expression: &Expr) -> bool
    ensures { result
        ≡ is_wrong (names_in naming.now) (expected integer_type (expr_tree expression.now)) }
{
    is_mistyped(naming, Some(DataType::Integer), expression)
}

/// Whether one of these should be of another type.
fn are_mistyped(naming: &Naming, wanted: Option<DataType>, expressions: &Exprs) -> bool
    ensures { result
        ≡ list_any (is_wrong (names_in naming.now))
        (map (expected wanted) (listed (exprs_tree expressions.now))) }
{
    match expressions {
        Exprs::Empty => false,
        Exprs::More(first, rest) => {
            is_mistyped(naming, wanted, first) || are_mistyped(naming, wanted, rest)
        }
    }
}

/// Whether an expression that may be written isn't of INTEGER type.
fn in_option(naming: &Naming, expression: &Option<Expr>) -> bool
    ensures { result
        ≡ list_any (is_wrong (names_in naming.now))
        (map (expected integer_type) (option_list (option_map expr_tree expression.now))) }
{
    match expression {
        Some(expression) => is_no_integer(naming, expression),
        None => false,
    }
}

/// Whether one of the limits of a DO is of the wrong type.
fn in_limits(naming: &Naming, limits: &Limits) -> bool
    ensures { result
        ≡ list_any (is_wrong (names_in naming.now)) (limits_within (limits_tree limits.now)) }
{
    is_no_integer(naming, &limits.first)
        || is_no_integer(naming, &limits.last)
        || in_option(naming, &limits.step)
}

/// Whether one of the bounds of a dimension is of the wrong type.
fn in_bounds(naming: &Naming, bounds: &Bounds) -> bool
    ensures { result
        ≡ list_any (is_wrong (names_in naming.now)) (bounds_within (bounds_tree bounds.now)) }
{
    match &bounds.lower {
        Some(lower) => is_no_integer(naming, lower) || is_no_integer(naming, &bounds.upper),
        None => is_no_integer(naming, &bounds.upper),
    }
}

/// Whether one of the bounds of an array is of the wrong type.
fn in_declarator(naming: &Naming, declarator: &Declarator) -> bool
    ensures { result
        ≡ list_any (is_wrong (names_in naming.now))
        (flat_map bounds_within (declarator_tree declarator.now).bounds) }
{
    for bounds in &declarator.bounds {
        if in_bounds(naming, bounds) {
            return true;
        }
    }
    false
}

/// Whether one of the bounds of arrays is of the wrong type.
fn in_declarators(naming: &Naming, declarators: &[Declarator]) -> bool
    ensures { result
        ≡ list_any (is_wrong (names_in naming.now))
        (flat_map (λ d. flat_map bounds_within d.bounds) (map declarator_tree declarators.now)) }
{
    for declarator in declarators {
        if in_declarator(naming, declarator) {
            return true;
        }
    }
    false
}

/// Whether an item is of the wrong type, or a subscript of what DATA gives a value.
fn in_item(naming: &Naming, of_data: bool, value: &Expr) -> bool
    ensures { result
        ≡ list_any (is_wrong (names_in naming.now)) (item_within of_data (expr_tree value.now)) }
{
    if !of_data {
        return is_mistyped(naming, None, value);
    }
    match value {
        Expr::Element(_, subscripts) => {
            are_mistyped(naming, Some(DataType::Integer), subscripts)
        }
        _ => is_mistyped(naming, None, value),
    }
}

/// Whether an expression in a list is of the wrong type, in an implied DO or outside; the list is
/// one of DATA or of output.
#[tactic(auto, using(crate::proofs::Mistyping::any_joined))]
fn in_items(naming: &Naming, of_data: bool, items: &ListItems) -> bool
    ensures { result
        ≡ list_any (is_wrong (names_in naming.now))
        (items_within of_data (list_items_tree items.now)) }
{
    match items {
        ListItems::Empty => false,
        ListItems::More(item, rest) => match item {
            ListItem::Value(value) => {
                if in_item(naming, of_data, value) {
                    return true;
                }
                in_items(naming, of_data, rest)
            }
            ListItem::Loop { items, limits, .. } => {
                if in_items(naming, of_data, items) {
                    return true;
                }
                if in_limits(naming, limits) {
                    return true;
                }
                in_items(naming, of_data, rest)
            }
        },
    }
}

/// Whether the expression of a unit has a part of the wrong type.
fn in_unit(naming: &Naming, unit: &Unit) -> bool
    ensures { result
        ≡ list_any (is_wrong (names_in naming.now)) (unit_within (unit_tree unit.now)) }
{
    match unit {
        Unit::Star => false,
        Unit::Number(number) => is_mistyped(naming, None, number),
    }
}

/// Whether the expression of a constant is of the wrong type.
fn in_constant(naming: &Naming, constant: &NamedConstant) -> bool
    ensures { result
        ≡ is_wrong (names_in naming.now)
        (expected
        ((symbols_at naming.now.symbols.now).names.types (constant_tree constant.now).name)
        (constant_tree constant.now).value) }
{
    is_mistyped(
        naming,
        type_of_name(naming.symbols, &constant.name),
        &constant.value,
    )
}

/// Whether one of the expressions of constants is of the wrong type.
fn in_constants(naming: &Naming, constants: &[NamedConstant]) -> bool
    ensures { result
        ≡ list_any (is_wrong (names_in naming.now))
        (map (λ c. expected ((symbols_at naming.now.symbols.now).names.types c.name) c.value)
        (map constant_tree constants.now)) }
{
    for constant in constants {
        if in_constant(naming, constant) {
            return true;
        }
    }
    false
}

/// Whether a subscript in the lists of a DATA statement is of the wrong type.
fn in_sets(naming: &Naming, sets: &[DataSet]) -> bool
    ensures { result
        ≡ list_any (is_wrong (names_in naming.now))
        (flat_map (λ x. items_within true x.list) (map data_set_tree sets.now)) }
{
    for set in sets {
        if in_items(naming, true, &set.list) {
            return true;
        }
    }
    false
}

/// Whether a subscript of what an assignment sets is of the wrong type, or a part of what stands in
/// dummies.
fn in_target(naming: &Naming, name: &[u8], subscripts: &Exprs) -> bool
    ensures { result
        ≡ list_any (is_wrong (names_in naming.now))
        (target_within (symbols_at naming.now.symbols.now).names name.now
        (exprs_tree subscripts.now)) }
{
    let wanted = if is_array_name(naming.symbols, name) {
        Some(DataType::Integer)
    } else {
        None
    };
    are_mistyped(naming, wanted, subscripts)
}

/// Whether an expression of a statement is of the wrong type, by what names stand for in it.
#[tactic(auto, using(crate::proofs::Mistyping::any_joined))]
fn in_shape(naming: &Naming, shape: &Shape) -> bool
    ensures { result
        ≡ list_any (is_wrong (names_in naming.now))
        (expected_in (symbols_at naming.now.symbols.now).names (shape_tree shape.now)) }
{
    match shape {
        Shape::Assignment {
            name,
            subscripts,
            value,
        } => {
            in_target(naming, name, subscripts)
                || is_mistyped(naming, type_of_name(naming.symbols, name), value)
        }
        Shape::Definition(name, value) => {
            is_mistyped(naming, type_of_name(naming.symbols, name), value)
        }
        Shape::Write { control, list } => {
            in_unit(naming, &control.unit) || in_items(naming, false, list)
        }
        Shape::Print { list, .. } => in_items(naming, false, list),
        Shape::Do { limits, .. } => in_limits(naming, limits),
        Shape::DoWhile { condition, .. } => is_mistyped(naming, Some(DataType::Logical), condition),
        Shape::Parameter(constants) => in_constants(naming, constants),
        Shape::Data(sets) => in_sets(naming, sets),
        Shape::ComputedGoTo { value, .. } => is_no_integer(naming, value),
        Shape::ArithmeticIf { value, .. } => is_no_integer(naming, value),
        Shape::LogicalIf(condition, statement) => {
            is_mistyped(naming, Some(DataType::Logical), condition) || in_shape(naming, statement)
        }
        Shape::IfThen(condition) => is_mistyped(naming, Some(DataType::Logical), condition),
        Shape::ElseIf(condition) => is_mistyped(naming, Some(DataType::Logical), condition),
        Shape::Integer(declarators) => in_declarators(naming, declarators),
        Shape::Logical(declarators) => in_declarators(naming, declarators),
        Shape::Dimension(declarators) => in_declarators(naming, declarators),
        _ => false,
    }
}

/// The dummies of a statement that defines a statement function or doesn't.
fn dummies_in(defines: bool, shape: &Shape) -> Option<&Exprs>
    ensures { dummies_at result ≡ dummies_if defines (shape_tree shape.now) }
{
    if !defines {
        return None;
    }
    match shape {
        Shape::Assignment { subscripts, .. } => Some(subscripts),
        _ => None,
    }
}

/// Whether an expression of a statement is of the wrong type (ANSI X3.9-1978, chapter 6); the
/// statement defines a statement function or doesn't.
pub fn has_wrong_type(symbols: &Symbols, defines: bool, shape: &Shape) -> bool
    ensures { result
        ≡ has_wrong_type_by (symbols_at symbols.now).names defines (shape_tree shape.now) }
{
    let naming = Naming {
        symbols,
        dummies: dummies_in(defines, shape),
    };
    in_shape(&naming, shape)
}
