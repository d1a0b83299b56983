//! Integer constants outside the range of INTEGER (ANSI X3.9-1978, 4.3).

ghost use Rattle.std.specs.Prelude.{◌≡◌};
ghost use Rattle.meaning.specs.NumberRules.{data_numbers, has_too_great as has_great_number};
ghost use Rattle.meaning.specs.NumberRules.{in_data_constant, is_too_great, numbers_in};
ghost use Rattle.meaning.specs.NumberRules.{numbers_in_all};
ghost use Rattle.meaning.specs.Syntax.{bounds_tree, data_constant_tree, expr_tree, exprs_tree};
ghost use Rattle.meaning.specs.Syntax.{limits_tree, list_items_tree, shape_tree, unit_tree};
ghost use Rattle.meaning.specs.Typing.{Names, SomeType, in_bounds as bounds_within};
ghost use Rattle.meaning.specs.Typing.{in_item as item_within, in_items as items_within};
ghost use Rattle.meaning.specs.Typing.{in_limits as limits_within, in_unit as unit_within};
ghost use Rattle.meaning.specs.Uses.{Symbols};
ghost use Rattle.number_rules.specs.GreatNumbers.{any_great, any_too_great, of_constants, of_count};
ghost use Rattle.number_rules.specs.GreatNumbers.{of_declarator, of_declarators, of_lists};
ghost use Rattle.number_rules.specs.GreatNumbers.{of_option, of_sets, of_shape, of_subscripts};
ghost use Rattle.number_rules.specs.GreatNumbers.{of_values};

use meaning::number::number;
use meaning::syntax::{
    Bounds, DataConstant, DataSet, DataValue, Declarator, Expr, Exprs, Limits, ListItem, ListItems,
    NamedConstant, RepeatCount, Shape, Unit,
};

/// Whether digits spell a number that is too great.
fn is_great(digits: &[u8]) -> bool
    ensures { result ≡ is_too_great digits.now }
{
    number(digits) > 2_147_483_647
}

/// Whether a constant of an expression is too great.
#[cycle(great)]
#[tactic(auto, using(rule_passes::proofs::Missing::any_both))]
fn in_expression(expression: &Expr) -> bool
    ensures { result ≡ any_too_great (numbers_in (expr_tree expression.now)) }
{
    match expression {
        Expr::Number(digits) => is_great(digits),
        Expr::Truth(_) => false,
        Expr::Name(_) => false,
        Expr::Call(_) => false,
        Expr::Signed(_, operand) => in_expression(operand),
        Expr::Not(operand) => in_expression(operand),
        Expr::Paren(operand) => in_expression(operand),
        Expr::Binary(_, left, right) => in_expression(left) || in_expression(right),
        Expr::Element(_, subscripts) => in_all(subscripts),
    }
}

/// Whether a constant of a list is too great.
#[cycle(great)]
#[tactic(auto, using(rule_passes::proofs::Missing::any_both))]
fn in_all(expressions: &Exprs) -> bool
    ensures { result ≡ any_too_great (numbers_in_all (exprs_tree expressions.now)) }
{
    match expressions {
        Exprs::Empty => false,
        Exprs::More(first, rest) => in_expression(first) || in_all(rest),
    }
}

/// Whether a constant of one of the subscripts of what is set is too great.
fn in_subscripts(expressions: &Exprs) -> bool
    ensures { (k : SomeType) → result ≡ any_great (of_subscripts k expressions.now) }
{
    match expressions {
        Exprs::Empty => false,
        Exprs::More(first, rest) => in_expression(first) || in_subscripts(rest),
    }
}

/// Whether a constant of an expression that may be written is too great.
fn in_option(expression: &Option<Expr>) -> bool
    ensures { result ≡ any_great (of_option expression.now) }
{
    match expression {
        Some(expression) => in_expression(expression),
        None => false,
    }
}

/// Whether a constant of the limits of a DO is too great.
fn in_limits(limits: &Limits) -> bool
    ensures { result ≡ any_great (limits_within (limits_tree limits.now)) }
{
    in_expression(&limits.first) || in_expression(&limits.last) || in_option(&limits.step)
}

/// Whether a constant of the bounds of a dimension is too great.
fn in_bounds(bounds: &Bounds) -> bool
    ensures { result ≡ any_great (bounds_within (bounds_tree bounds.now)) }
{
    match &bounds.lower {
        Some(lower) => in_expression(lower) || in_expression(&bounds.upper),
        None => in_expression(&bounds.upper),
    }
}

/// Whether a constant of the bounds of an array is too great.
fn in_declarator(declarator: &Declarator) -> bool
    ensures { result ≡ any_great (of_declarator declarator.now) }
{
    for bounds in &declarator.bounds {
        if in_bounds(bounds) {
            return true;
        }
    }
    false
}

/// Whether a constant of the bounds of arrays is too great.
fn in_declarators(declarators: &[Declarator]) -> bool
    ensures { result ≡ any_great (of_declarators declarators.now) }
{
    for declarator in declarators {
        if in_declarator(declarator) {
            return true;
        }
    }
    false
}

/// Whether a constant of an item is too great, or of a subscript of what DATA gives a value.
fn in_item(of_data: bool, value: &Expr) -> bool
    ensures { result ≡ any_great (item_within of_data (expr_tree value.now)) }
{
    if !of_data {
        return in_expression(value);
    }
    match value {
        Expr::Element(_, subscripts) => in_subscripts(subscripts),
        _ => in_expression(value),
    }
}

/// Whether a constant of a list is too great, in an implied DO or outside; the list is one of DATA
/// or of output.
#[tactic(auto, using(rule_passes::proofs::Missing::any_both))]
fn in_items(of_data: bool, items: &ListItems) -> bool
    ensures { result ≡ any_great (items_within of_data (list_items_tree items.now)) }
{
    match items {
        ListItems::Empty => false,
        ListItems::More(item, rest) => match item {
            ListItem::Value(value) => {
                if in_item(of_data, value) {
                    return true;
                }
                in_items(of_data, rest)
            }
            ListItem::Loop { items, limits, .. } => {
                if in_items(of_data, items) {
                    return true;
                }
                if in_limits(limits) {
                    return true;
                }
                in_items(of_data, rest)
            }
        },
    }
}

/// Whether a constant of a unit is too great.
fn in_unit(unit: &Unit) -> bool
    ensures { result ≡ any_great (unit_within (unit_tree unit.now)) }
{
    match unit {
        Unit::Star => false,
        Unit::Number(number) => in_expression(number),
    }
}

/// Whether a constant of the expressions of a PARAMETER statement is too great.
fn in_constants(constants: &[NamedConstant]) -> bool
    ensures { (names : Names) → result ≡ any_great (of_constants names constants.now) }
{
    for constant in constants {
        if in_expression(&constant.value) {
            return true;
        }
    }
    false
}

/// Whether a constant of the lists of a DATA statement is too great.
fn in_lists(sets: &[DataSet]) -> bool
    ensures { result ≡ any_great (of_lists sets.now) }
{
    for set in sets {
        if in_items(true, &set.list) {
            return true;
        }
    }
    false
}

/// Whether a constant of an expression of a statement is too great.
#[tactic(auto, using(rule_passes::proofs::Missing::any_both))]
fn in_expressions(shape: &Shape) -> bool
    ensures { (names : Names) → result ≡ any_great (of_shape names shape.now) }
{
    match shape {
        Shape::Assignment {
            name: _,
            subscripts,
            value,
        } => in_subscripts(subscripts) || in_expression(value),
        Shape::Definition(_, value) => in_expression(value),
        Shape::Write { control, list } => in_unit(&control.unit) || in_items(false, list),
        Shape::Print { list, .. } => in_items(false, list),
        Shape::Do { limits, .. } => in_limits(limits),
        Shape::DoWhile { condition, .. } => in_expression(condition),
        Shape::Parameter(constants) => in_constants(constants),
        Shape::Data(sets) => in_lists(sets),
        Shape::ComputedGoTo { value, .. } => in_expression(value),
        Shape::ArithmeticIf { value, .. } => in_expression(value),
        Shape::LogicalIf(condition, statement) => {
            in_expression(condition) || in_expressions(statement)
        }
        Shape::IfThen(condition) => in_expression(condition),
        Shape::ElseIf(condition) => in_expression(condition),
        Shape::Integer(declarators) => in_declarators(declarators),
        Shape::Logical(declarators) => in_declarators(declarators),
        Shape::Dimension(declarators) => in_declarators(declarators),
        _ => false,
    }
}

/// Whether the number of a constant in a DATA statement is too great, without its sign.
fn is_great_constant(constant: &DataConstant) -> bool
    ensures { result ≡ any_too_great (in_data_constant (data_constant_tree constant.now)) }
{
    match constant {
        DataConstant::Number(_, digits) => is_great(digits),
        DataConstant::Truth(_) => false,
        DataConstant::Name(_) => false,
    }
}

/// Whether a repeat count is too great.
fn is_great_count(repeat_count: &Option<RepeatCount>) -> bool
    ensures { result ≡ any_too_great (of_count repeat_count.now) }
{
    match repeat_count {
        Some(RepeatCount::Number(digits)) => is_great(digits),
        Some(RepeatCount::Name(_)) => false,
        None => false,
    }
}

/// Whether a number among the values of a set is too great.
#[tactic(auto, using(rule_passes::proofs::Missing::any_both))]
fn in_values(values: &[DataValue]) -> bool
    ensures { result ≡ any_too_great (of_values values.now) }
{
    for value in values {
        if is_great_count(&value.repeat_count) || is_great_constant(&value.constant) {
            return true;
        }
    }
    false
}

/// Whether a number among the values of sets is too great.
#[tactic(auto, using(rule_passes::proofs::Missing::any_both))]
fn in_sets(sets: &[DataSet]) -> bool
    ensures { result ≡ any_too_great (of_sets sets.now) }
{
    for set in sets {
        if in_values(&set.values) {
            return true;
        }
    }
    false
}

/// Whether a number among the values of a DATA statement is too great.
fn in_data(shape: &Shape) -> bool
    ensures { result ≡ any_too_great (data_numbers (shape_tree shape.now)) }
{
    match shape {
        Shape::Data(sets) => in_sets(sets),
        _ => false,
    }
}

/// Whether an integer constant of a statement is too great.
pub fn has_too_great(shape: &Shape) -> bool
    ensures { (symbols : Symbols) → result ≡ has_great_number symbols (shape_tree shape.now) }
{
    in_expressions(shape) || in_data(shape)
}
