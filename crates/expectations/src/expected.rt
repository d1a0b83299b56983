//! The expressions of statements, from the left, and the types that their places ask for (ANSI
//! X3.9-1978, chapters 5 to 13).

ghost use Rattle.std.specs.Prelude.{◌≡◌, ◌++◌, ◌∷◌, [], true, false, flat_map, map, option_map};
ghost use Rattle.std.specs.Prelude.{IfOk, OnOk};
ghost use Rattle.meaning.specs.Scopes.{listed};
ghost use Rattle.meaning.specs.Syntax.{bounds_tree, constant_tree, data_set_tree, declarator_tree};
ghost use Rattle.meaning.specs.Syntax.{expr_tree, exprs_tree, limits_tree, list_items_tree};
ghost use Rattle.meaning.specs.Syntax.{shape_tree, unit_tree};
ghost use Rattle.meaning.specs.Typing.{expected, expected_in, in_bounds, in_item, in_items};
ghost use Rattle.meaning.specs.Typing.{in_limits, in_target, in_unit, integer_type, option_list};
ghost use Rattle.symbols.specs.SymbolsAt.{symbols_at};
ghost use Rattle.expectations.specs.Expected.{expected_list};

use meaning::syntax::{
    Bounds, DataSet, DataType, Declarator, Expr, Exprs, Limits, ListItem, ListItems, NamedConstant,
    Shape, Unit,
};
use std::alloc::{AllocError, Global};
use symbols::{Symbols, is_array_name, type_of_name};

/// An expression, and the type that its place asks for, if it asks for one.
#[derive(Clone, Copy)]
pub struct Expectation<'a> {
    /// The type.
    pub data_type: Option<DataType>,
    /// The expression.
    pub expression: &'a Expr,
}

/// Puts an expression behind those that are there.
fn add_one<'a>(
    found: &mut Vec<Expectation<'a>>,
    data_type: Option<DataType>,
    expression: &'a Expr,
) -> Result<(), AllocError>
    ensures { OnOk result
        (expected_list found.new.items ≡ expected_list found.old.items
        ++ expected data_type (expr_tree expression.now) ∷ []) }
{
    found.push(Expectation {
        data_type,
        expression,
    })?;
    Ok(())
}

/// Puts the expressions of a list behind those that are there.
#[tactic(auto, using(symbols::proofs::Passes::appended, symbols::proofs::Passes::nothing_more))]
fn add_all<'a>(
    found: &mut Vec<Expectation<'a>>,
    data_type: Option<DataType>,
    expressions: &'a Exprs,
) -> Result<(), AllocError>
    ensures { OnOk result
        (expected_list found.new.items ≡ expected_list found.old.items
        ++ map (expected data_type) (listed (exprs_tree expressions.now))) }
{
    match expressions {
        Exprs::Empty => Ok(()),
        Exprs::More(first, rest) => {
            add_one(found, data_type, first)?;
            add_all(found, data_type, rest)
        }
    }
}

/// Puts an INTEGER expression that may be written behind those that are there.
#[tactic(auto, using(symbols::proofs::Passes::nothing_more))]
fn add_option<'a>(
    found: &mut Vec<Expectation<'a>>,
    expression: &'a Option<Expr>,
) -> Result<(), AllocError>
    ensures { OnOk result
        (expected_list found.new.items ≡ expected_list found.old.items
        ++ map (expected integer_type) (option_list (option_map expr_tree expression.now))) }
{
    match expression {
        Some(expression) => add_one(found, Some(DataType::Integer), expression),
        None => Ok(()),
    }
}

/// Puts the limits of a DO behind those that are there.
#[tactic(auto, using(symbols::proofs::Passes::appended, symbols::proofs::Passes::nothing_more))]
fn add_limits<'a>(found: &mut Vec<Expectation<'a>>, limits: &'a Limits) -> Result<(), AllocError>
    ensures { OnOk result
        (expected_list found.new.items ≡ expected_list found.old.items
        ++ in_limits (limits_tree limits.now)) }
{
    add_one(found, Some(DataType::Integer), &limits.first)?;
    add_one(found, Some(DataType::Integer), &limits.last)?;
    add_option(found, &limits.step)
}

/// Puts the bounds of a dimension behind those that are there.
#[tactic(auto, using(symbols::proofs::Passes::appended, symbols::proofs::Passes::nothing_more))]
fn add_bounds<'a>(found: &mut Vec<Expectation<'a>>, bounds: &'a Bounds) -> Result<(), AllocError>
    ensures { OnOk result
        (expected_list found.new.items ≡ expected_list found.old.items
        ++ in_bounds (bounds_tree bounds.now)) }
{
    match &bounds.lower {
        Some(lower) => add_one(found, Some(DataType::Integer), lower)?,
        None => (),
    }
    add_one(found, Some(DataType::Integer), &bounds.upper)
}

/// Puts the bounds of an array behind those that are there.
fn add_array<'a>(
    found: &mut Vec<Expectation<'a>>,
    declarator: &'a Declarator,
) -> Result<(), AllocError>
    ensures { OnOk result
        (expected_list found.new.items ≡ expected_list found.old.items
        ++ flat_map in_bounds (declarator_tree declarator.now).bounds) }
{
    for bounds in &declarator.bounds {
        add_bounds(found, bounds)?;
    }
    Ok(())
}

/// Puts the bounds of arrays behind those that are there.
fn add_arrays<'a>(
    found: &mut Vec<Expectation<'a>>,
    declarators: &'a [Declarator],
) -> Result<(), AllocError>
    ensures { OnOk result
        (expected_list found.new.items ≡ expected_list found.old.items
        ++ flat_map (λ d. flat_map in_bounds d.bounds) (map declarator_tree declarators.now)) }
{
    for declarator in declarators {
        add_array(found, declarator)?;
    }
    Ok(())
}

/// Puts an item behind those that are there, or the subscripts of what DATA gives a value.
fn add_item<'a>(
    found: &mut Vec<Expectation<'a>>,
    of_data: bool,
    value: &'a Expr,
) -> Result<(), AllocError>
    ensures { OnOk result
        (expected_list found.new.items ≡ expected_list found.old.items
        ++ in_item of_data (expr_tree value.now)) }
{
    if !of_data {
        return add_one(found, None, value);
    }
    match value {
        Expr::Element(_, subscripts) => add_all(found, Some(DataType::Integer), subscripts),
        _ => add_one(found, None, value),
    }
}

/// Puts the expressions of a list behind those that are there; the list is one of DATA or of
/// output.
#[tactic(auto, using(symbols::proofs::Passes::appended, symbols::proofs::Passes::nothing_more))]
fn add_items<'a>(
    found: &mut Vec<Expectation<'a>>,
    of_data: bool,
    items: &'a ListItems,
) -> Result<(), AllocError>
    ensures { OnOk result
        (expected_list found.new.items ≡ expected_list found.old.items
        ++ in_items of_data (list_items_tree items.now)) }
{
    match items {
        ListItems::Empty => Ok(()),
        ListItems::More(item, rest) => match item {
            ListItem::Value(value) => {
                add_item(found, of_data, value)?;
                add_items(found, of_data, rest)
            }
            ListItem::Loop { items, limits, .. } => {
                add_items(found, of_data, items)?;
                add_limits(found, limits)?;
                add_items(found, of_data, rest)
            }
        },
    }
}

/// Puts the expression of a unit behind those that are there.
#[tactic(auto, using(symbols::proofs::Passes::nothing_more))]
fn add_unit<'a>(found: &mut Vec<Expectation<'a>>, unit: &'a Unit) -> Result<(), AllocError>
    ensures { OnOk result
        (expected_list found.new.items ≡ expected_list found.old.items
        ++ in_unit (unit_tree unit.now)) }
{
    match unit {
        Unit::Star => Ok(()),
        Unit::Number(number) => add_one(found, None, number),
    }
}

/// Puts what stands in the parentheses of what is set behind those that are there.
fn add_target<'a>(
    found: &mut Vec<Expectation<'a>>,
    symbols: &Symbols,
    name: &[u8],
    subscripts: &'a Exprs,
) -> Result<(), AllocError>
    ensures { OnOk result
        (expected_list found.new.items ≡ expected_list found.old.items
        ++ in_target (symbols_at symbols.now).names name.now (exprs_tree subscripts.now)) }
{
    let data_type = if is_array_name(symbols, name) {
        Some(DataType::Integer)
    } else {
        None
    };
    add_all(found, data_type, subscripts)
}

/// Puts the expression of a constant behind those that are there.
fn add_constant<'a>(
    found: &mut Vec<Expectation<'a>>,
    symbols: &Symbols,
    constant: &'a NamedConstant,
) -> Result<(), AllocError>
    ensures { OnOk result
        (expected_list found.new.items ≡ expected_list found.old.items
        ++ expected ((symbols_at symbols.now).names.types (constant_tree constant.now).name)
        (constant_tree constant.now).value ∷ []) }
{
    add_one(
        found,
        type_of_name(symbols, &constant.name),
        &constant.value,
    )
}

/// Puts the expressions of a PARAMETER statement behind those that are there.
fn add_constants<'a>(
    found: &mut Vec<Expectation<'a>>,
    symbols: &Symbols,
    constants: &'a [NamedConstant],
) -> Result<(), AllocError>
    ensures { OnOk result
        (expected_list found.new.items ≡ expected_list found.old.items
        ++ map (λ c. expected ((symbols_at symbols.now).names.types c.name) c.value)
        (map constant_tree constants.now)) }
{
    for constant in constants {
        add_constant(found, symbols, constant)?;
    }
    Ok(())
}

/// Puts the expressions in the lists of a DATA statement behind those that are there.
fn add_sets<'a>(found: &mut Vec<Expectation<'a>>, sets: &'a [DataSet]) -> Result<(), AllocError>
    ensures { OnOk result
        (expected_list found.new.items ≡ expected_list found.old.items
        ++ flat_map (λ x. in_items true x.list) (map data_set_tree sets.now)) }
{
    for set in sets {
        add_items(found, true, &set.list)?;
    }
    Ok(())
}

/// Puts the expressions of an assignment behind those that are there.
#[tactic(auto, using(symbols::proofs::Passes::appended))]
fn add_assigned<'a>(
    found: &mut Vec<Expectation<'a>>,
    symbols: &Symbols,
    name: &[u8],
    subscripts: &'a Exprs,
    value: &'a Expr,
) -> Result<(), AllocError>
    ensures { OnOk result
        (expected_list found.new.items ≡ expected_list found.old.items
        ++ (in_target (symbols_at symbols.now).names name.now (exprs_tree subscripts.now)
        ++ expected ((symbols_at symbols.now).names.types name.now) (expr_tree value.now) ∷ [])) }
{
    add_target(found, symbols, name, subscripts)?;
    add_one(found, type_of_name(symbols, name), value)
}

/// Puts the expressions of a WRITE statement behind those that are there.
#[tactic(auto, using(symbols::proofs::Passes::appended))]
fn add_written<'a>(
    found: &mut Vec<Expectation<'a>>,
    unit: &'a Unit,
    list: &'a ListItems,
) -> Result<(), AllocError>
    ensures { OnOk result
        (expected_list found.new.items ≡ expected_list found.old.items
        ++ (in_unit (unit_tree unit.now) ++ in_items false (list_items_tree list.now))) }
{
    add_unit(found, unit)?;
    add_items(found, false, list)
}

/// Puts the expressions of a statement behind those that are there.
#[tactic(auto, using(symbols::proofs::Passes::appended, symbols::proofs::Passes::nothing_more))]
fn add_shape<'a>(
    found: &mut Vec<Expectation<'a>>,
    symbols: &Symbols,
    shape: &'a Shape,
) -> Result<(), AllocError>
    ensures { OnOk result
        (expected_list found.new.items ≡ expected_list found.old.items
        ++ expected_in (symbols_at symbols.now).names (shape_tree shape.now)) }
{
    let integer = Some(DataType::Integer);
    let logical = Some(DataType::Logical);
    match shape {
        Shape::Assignment {
            name,
            subscripts,
            value,
        } => add_assigned(found, symbols, name, subscripts, value),
        Shape::Definition(name, value) => add_one(found, type_of_name(symbols, name), value),
        Shape::Write { control, list } => add_written(found, &control.unit, list),
        Shape::Print { list, .. } => add_items(found, false, list),
        Shape::Do { limits, .. } => add_limits(found, limits),
        Shape::DoWhile { condition, .. } => add_one(found, logical, condition),
        Shape::Parameter(constants) => add_constants(found, symbols, constants),
        Shape::Data(sets) => add_sets(found, sets),
        Shape::ComputedGoTo { value, .. } => add_one(found, integer, value),
        Shape::ArithmeticIf { value, .. } => add_one(found, integer, value),
        Shape::LogicalIf(condition, statement) => {
            add_one(found, logical, condition)?;
            add_shape(found, symbols, statement)
        }
        Shape::IfThen(condition) => add_one(found, logical, condition),
        Shape::ElseIf(condition) => add_one(found, logical, condition),
        Shape::Integer(declarators) => add_arrays(found, declarators),
        Shape::Logical(declarators) => add_arrays(found, declarators),
        Shape::Dimension(declarators) => add_arrays(found, declarators),
        _ => Ok(()),
    }
}

/// The expressions of a statement, from the left.
///
/// # Errors
///
/// `AllocError` only where a growth was refused.
pub fn expectations_of<'a>(
    alloc: Global,
    symbols: &Symbols,
    shape: &'a Shape,
) -> Result<Vec<Expectation<'a>>, AllocError>
    ensures { IfOk
        result (λ v. expected_list v.items
        ≡ expected_in (symbols_at symbols.now).names (shape_tree shape.now)) }
{
    let mut found = Vec::new(alloc);
    add_shape(&mut found, symbols, shape)?;
    Ok(found)
}
