//! What names stand for in a statement, and the types of expressions in it (ANSI X3.9-1978, 6.1 to
//! 6.4).

ghost use Rattle.std.specs.Prelude.{◌≡◌, is_some};
ghost use Rattle.meaning.specs.Scopes.{is_dummy as is_dummy_of};
ghost use Rattle.meaning.specs.Syntax.{expr_tree, shape_tree};
ghost use Rattle.meaning.specs.Typing.{dummies_if, further_wanted, next_wanted};
ghost use Rattle.meaning.specs.Typing.{is_arithmetic_operator as is_arithmetic};
ghost use Rattle.meaning.specs.Typing.{is_logical_operator as is_logical};
ghost use Rattle.meaning.specs.Typing.{operand_type as type_of_operand};
ghost use Rattle.meaning.specs.Typing.{reference_type as type_by_reference};
ghost use Rattle.meaning.specs.Typing.{result_type as type_of_result, type_of as type_by};
ghost use Rattle.meaning.specs.Typing.{wanted_by as wanted_behind};
ghost use Rattle.symbols.specs.Functions.{dummies_at};
ghost use Rattle.type_culprits.specs.Wants.{names_in, wanted_at};

use meaning::syntax::{DataType, Expr, Exprs, Operator, Shape};
use name_uses::is_dummy;
use symbols::{
    Symbols, function_named, is_array_name, is_function_name, is_intrinsic, type_of_name,
};

/// What names stand for in a statement: in that of a statement function a dummy is no array and no
/// function (ANSI X3.9-1978, 18.2.3).
#[derive(Clone, Copy)]
pub struct Naming<'a> {
    pub symbols: &'a Symbols<'a>,
    /// The dummies of the statement function, if the statement defines one with dummies.
    pub dummies: Option<&'a Exprs>,
}

/// The dummies of a statement that defines a statement function or doesn't.
pub fn dummies_in(defines: bool, shape: &Shape) -> Option<&Exprs>
    ensures { dummies_at result ≡ dummies_if defines (shape_tree shape.now) }
{
    if !defines {
        return None;
    }
    match shape {
        Shape::Assignment { subscripts, .. } => Some(subscripts),
        _ => None,
    }
}

/// Whether a name is a dummy here.
fn is_hidden(naming: &Naming, name: &[u8]) -> bool
    ensures { result ≡ is_dummy_of (dummies_at naming.now.dummies) name.now }
{
    match naming.dummies {
        Some(dummies) => is_dummy(dummies, name),
        None => false,
    }
}

/// Whether a name is an array here.
fn is_array(naming: &Naming, name: &[u8]) -> bool
    ensures { result ≡ is_some ((names_in naming.now).arrays name.now) }
{
    if is_hidden(naming, name) {
        false
    } else {
        is_array_name(naming.symbols, name)
    }
}

/// Whether a name is a statement function here.
fn is_statement_function(naming: &Naming, name: &[u8]) -> bool
    ensures { result ≡ is_some ((names_in naming.now).functions name.now) }
{
    if is_hidden(naming, name) {
        false
    } else {
        is_function_name(naming.symbols, name)
    }
}

/// Whether an operator has LOGICAL operands (ANSI X3.9-1978, 6.4).
fn is_logical_operator(operator: Operator) -> bool
    ensures { result ≡ is_logical operator }
{
    match operator {
        Operator::And => true,
        Operator::Or => true,
        Operator::Equivalent => true,
        Operator::NotEquivalent => true,
        _ => false,
    }
}

/// Whether an operator has an arithmetic result (ANSI X3.9-1978, 6.1).
fn is_arithmetic_operator(operator: Operator) -> bool
    ensures { result ≡ is_arithmetic operator }
{
    match operator {
        Operator::Power => true,
        Operator::Multiply => true,
        Operator::Divide => true,
        Operator::Add => true,
        Operator::Subtract => true,
        _ => false,
    }
}

/// The type of the operands of an operator.
pub fn operand_type(operator: Operator) -> Option<DataType>
    ensures { result ≡ type_of_operand operator }
{
    if is_logical_operator(operator) {
        Some(DataType::Logical)
    } else {
        Some(DataType::Integer)
    }
}

/// The type of the result of an operator.
fn result_type(operator: Operator) -> Option<DataType>
    ensures { result ≡ type_of_result operator }
{
    if is_arithmetic_operator(operator) {
        Some(DataType::Integer)
    } else {
        Some(DataType::Logical)
    }
}

/// The type of a name with parentheses (ANSI X3.9-1978, 15.2 to 15.4).
fn reference_type(naming: &Naming, name: &[u8]) -> Option<DataType>
    ensures { result ≡ type_by_reference (names_in naming.now) name.now }
{
    if is_array(naming, name) || is_statement_function(naming, name) {
        type_of_name(naming.symbols, name)
    } else if !is_hidden(naming, name) && is_intrinsic(name) {
        Some(DataType::Integer)
    } else {
        None
    }
}

/// The type of an expression, if it is known (ANSI X3.9-1978, 6.1 to 6.4).
pub fn type_of(naming: &Naming, expression: &Expr) -> Option<DataType>
    ensures { result ≡ type_by (names_in naming.now) (expr_tree expression.now) }
{
    match expression {
        Expr::Number(_) => Some(DataType::Integer),
        Expr::Truth(_) => Some(DataType::Logical),
        Expr::Name(name) => type_of_name(naming.symbols, name),
        Expr::Signed(_, _) => Some(DataType::Integer),
        Expr::Not(_) => Some(DataType::Logical),
        Expr::Binary(operator, _, _) => result_type(*operator),
        Expr::Paren(operand) => type_of(naming, operand),
        Expr::Element(name, _) => reference_type(naming, name),
        Expr::Call(name) => reference_type(naming, name),
    }
}

/// The types that arguments or subscripts should have.
#[derive(Clone, Copy)]
pub enum Wanting<'a> {
    /// All of them this one, if it is known.
    All(Option<DataType>),
    /// Those of these dummies.
    Dummies(&'a Exprs),
}

/// The type that the first argument should have.
pub fn next_type(naming: &Naming, wanting: Wanting) -> Option<DataType>
    ensures { result ≡ next_wanted (wanted_at (names_in naming.now) wanting.entry) }
{
    match wanting {
        Wanting::All(data_type) => data_type,
        Wanting::Dummies(dummies) => match dummies {
            Exprs::Empty => None,
            Exprs::More(first, _) => type_of(naming, first),
        },
    }
}

/// The types that the arguments behind the first should have.
pub fn further<'a>(naming: &Naming, wanting: Wanting<'a>) -> Wanting<'a>
    ensures { wanted_at (names_in naming.now) result
        ≡ further_wanted (wanted_at (names_in naming.now) wanting.entry) }
{
    match wanting {
        Wanting::All(data_type) => Wanting::All(data_type),
        Wanting::Dummies(dummies) => match dummies {
            Exprs::Empty => Wanting::All(None),
            Exprs::More(_, rest) => Wanting::Dummies(rest),
        },
    }
}

/// The types that the arguments of a function or the subscripts of an array should have.
pub fn wanted_by<'a>(naming: &Naming<'a>, name: &[u8]) -> Wanting<'a>
    ensures { wanted_at (names_in naming.now) result
        ≡ wanted_behind (names_in naming.now) name.now }
{
    if is_hidden(naming, name) {
        return Wanting::All(None);
    }
    if is_array_name(naming.symbols, name) {
        return Wanting::All(Some(DataType::Integer));
    }
    match function_named(naming.symbols, name) {
        Some(function) => match function.dummies {
            Some(dummies) => Wanting::Dummies(dummies),
            None => Wanting::All(None),
        },
        None => {
            if is_intrinsic(name) {
                Wanting::All(Some(DataType::Integer))
            } else {
                Wanting::All(None)
            }
        }
    }
}
