//! The types of expressions (ANSI X3.9-1978, 6.1 to 6.4).

ghost use Rattle.std.specs.Prelude.{◌≡◌, is_some};
ghost use Rattle.meaning.specs.Scopes.{is_dummy as is_dummy_of};
ghost use Rattle.meaning.specs.Syntax.{expr_tree, exprs_tree};
ghost use Rattle.meaning.specs.Typing.{are_ill as are_ill_typed, clash, expected, further_wanted};
ghost use Rattle.meaning.specs.Typing.{is_arithmetic_operator as is_arithmetic};
ghost use Rattle.meaning.specs.Typing.{is_ill as is_ill_typed, is_logical_operator as is_logical};
ghost use Rattle.meaning.specs.Typing.{is_mistyped as is_wrong, next_wanted};
ghost use Rattle.meaning.specs.Typing.{operand_type as type_of_operand};
ghost use Rattle.meaning.specs.Typing.{reference_type as type_by_reference};
ghost use Rattle.meaning.specs.Typing.{result_type as type_of_result, type_of as type_by};
ghost use Rattle.meaning.specs.Typing.{wanted_by as wanted_behind};
ghost use Rattle.symbols.specs.Functions.{dummies_at};
ghost use Rattle.type_rules.specs.Wants.{names_in, wanted_at};

use meaning::syntax::{DataType, Expr, Exprs, Operator};
use name_uses::is_dummy;
use symbols::{
    Symbols, function_named, is_array_name, is_function_name, is_intrinsic, type_of_name,
};

/// What names stand for in a statement: in that of a statement function a dummy is no array and no
/// function (ANSI X3.9-1978, 18.2.3).
#[derive(Clone, Copy)]
pub struct Naming<'a> {
    pub symbols: &'a Symbols<'a>,
    /// The dummies of the statement function, if the statement defines one with dummies.
    pub dummies: Option<&'a Exprs>,
}

/// Whether a name is a dummy here.
fn is_hidden(naming: &Naming, name: &[u8]) -> bool
    ensures { result ≡ is_dummy_of (dummies_at naming.now.dummies) name.now }
{
    match naming.dummies {
        Some(dummies) => is_dummy(dummies, name),
        None => false,
    }
}

/// Whether a name is an array here.
fn is_array(naming: &Naming, name: &[u8]) -> bool
    ensures { result ≡ is_some ((names_in naming.now).arrays name.now) }
{
    if is_hidden(naming, name) {
        false
    } else {
        is_array_name(naming.symbols, name)
    }
}

/// Whether a name is a statement function here.
fn is_statement_function(naming: &Naming, name: &[u8]) -> bool
    ensures { result ≡ is_some ((names_in naming.now).functions name.now) }
{
    if is_hidden(naming, name) {
        false
    } else {
        is_function_name(naming.symbols, name)
    }
}

/// Whether an operator has LOGICAL operands (ANSI X3.9-1978, 6.4).
fn is_logical_operator(operator: Operator) -> bool
    ensures { result ≡ is_logical operator }
{
    match operator {
        Operator::And => true,
        Operator::Or => true,
        Operator::Equivalent => true,
        Operator::NotEquivalent => true,
        _ => false,
    }
}

/// Whether an operator has an arithmetic result (ANSI X3.9-1978, 6.1).
fn is_arithmetic_operator(operator: Operator) -> bool
    ensures { result ≡ is_arithmetic operator }
{
    match operator {
        Operator::Power => true,
        Operator::Multiply => true,
        Operator::Divide => true,
        Operator::Add => true,
        Operator::Subtract => true,
        _ => false,
    }
}

/// The type of the operands of an operator.
fn operand_type(operator: Operator) -> Option<DataType>
    ensures { result ≡ type_of_operand operator }
{
    if is_logical_operator(operator) {
        Some(DataType::Logical)
    } else {
        Some(DataType::Integer)
    }
}

/// The type of the result of an operator.
fn result_type(operator: Operator) -> Option<DataType>
    ensures { result ≡ type_of_result operator }
{
    if is_arithmetic_operator(operator) {
        Some(DataType::Integer)
    } else {
        Some(DataType::Logical)
    }
}

/// The type of a name with parentheses (ANSI X3.9-1978, 15.2 to 15.4).
fn reference_type(naming: &Naming, name: &[u8]) -> Option<DataType>
    ensures { result ≡ type_by_reference (names_in naming.now) name.now }
{
    if is_array(naming, name) || is_statement_function(naming, name) {
        type_of_name(naming.symbols, name)
    } else if !is_hidden(naming, name) && is_intrinsic(name) {
        Some(DataType::Integer)
    } else {
        None
    }
}

/// The type of an expression, if it is known (ANSI X3.9-1978, 6.1 to 6.4).
pub fn type_of(naming: &Naming, expression: &Expr) -> Option<DataType>
    ensures { result ≡ type_by (names_in naming.now) (expr_tree expression.now) }
{
    match expression {
        Expr::Number(_) => Some(DataType::Integer),
        Expr::Truth(_) => Some(DataType::Logical),
        Expr::Name(name) => type_of_name(naming.symbols, name),
        Expr::Signed(_, _) => Some(DataType::Integer),
        Expr::Not(_) => Some(DataType::Logical),
        Expr::Binary(operator, _, _) => result_type(*operator),
        Expr::Paren(operand) => type_of(naming, operand),
        Expr::Element(name, _) => reference_type(naming, name),
        Expr::Call(name) => reference_type(naming, name),
    }
}

/// Whether two types are known and differ.
fn differ(wanted: Option<DataType>, found: Option<DataType>) -> bool
    ensures { result ≡ clash wanted found }
{
    match wanted {
        Some(DataType::Integer) => match found {
            Some(DataType::Logical) => true,
            Some(DataType::Integer) => false,
            None => false,
        },
        Some(DataType::Logical) => match found {
            Some(DataType::Integer) => true,
            Some(DataType::Logical) => false,
            None => false,
        },
        None => false,
    }
}

/// The types that arguments or subscripts should have.
#[derive(Clone, Copy)]
pub enum Wanting<'a> {
    /// All of them this one, if it is known.
    All(Option<DataType>),
    /// Those of these dummies.
    Dummies(&'a Exprs),
}

/// The type that the first argument should have.
fn next_type(naming: &Naming, wanting: Wanting) -> Option<DataType>
    ensures { result ≡ next_wanted (wanted_at (names_in naming.now) wanting.entry) }
{
    match wanting {
        Wanting::All(data_type) => data_type,
        Wanting::Dummies(dummies) => match dummies {
            Exprs::Empty => None,
            Exprs::More(first, _) => type_of(naming, first),
        },
    }
}

/// The types that the arguments behind the first should have.
fn further<'a>(naming: &Naming, wanting: Wanting<'a>) -> Wanting<'a>
    ensures { wanted_at (names_in naming.now) result
        ≡ further_wanted (wanted_at (names_in naming.now) wanting.entry) }
{
    match wanting {
        Wanting::All(data_type) => Wanting::All(data_type),
        Wanting::Dummies(dummies) => match dummies {
            Exprs::Empty => Wanting::All(None),
            Exprs::More(_, rest) => Wanting::Dummies(rest),
        },
    }
}

/// The types that the arguments of a function or the subscripts of an array should have.
fn wanted_by<'a>(naming: &Naming<'a>, name: &[u8]) -> Wanting<'a>
    ensures { wanted_at (names_in naming.now) result
        ≡ wanted_behind (names_in naming.now) name.now }
{
    if is_hidden(naming, name) {
        return Wanting::All(None);
    }
    if is_array_name(naming.symbols, name) {
        return Wanting::All(Some(DataType::Integer));
    }
    match function_named(naming.symbols, name) {
        Some(function) => match function.dummies {
            Some(dummies) => Wanting::Dummies(dummies),
            None => Wanting::All(None),
        },
        None => {
            if is_intrinsic(name) {
                Wanting::All(Some(DataType::Integer))
            } else {
                Wanting::All(None)
            }
        }
    }
}

/// Whether an operand, argument or subscript in an expression is of the wrong type.
#[cycle(typing)]
fn is_ill(naming: &Naming, expression: &Expr) -> bool
    ensures { result ≡ is_ill_typed (names_in naming.now) (expr_tree expression.now) }
{
    match expression {
        Expr::Number(_) => false,
        Expr::Truth(_) => false,
        Expr::Name(_) => false,
        Expr::Signed(_, operand) => {
            differ(Some(DataType::Integer), type_of(naming, operand)) || is_ill(naming, operand)
        }
        Expr::Not(operand) => {
            differ(Some(DataType::Logical), type_of(naming, operand)) || is_ill(naming, operand)
        }
        Expr::Binary(operator, left, right) => {
            let wanted = operand_type(*operator);
            (differ(wanted, type_of(naming, left)) || is_ill(naming, left))
                || (differ(wanted, type_of(naming, right)) || is_ill(naming, right))
        }
        Expr::Paren(operand) => is_ill(naming, operand),
        Expr::Element(name, arguments) => are_ill(naming, wanted_by(naming, name), arguments),
        Expr::Call(_) => false,
    }
}

/// Whether one of the arguments is of the wrong type, or has a part that is.
#[cycle(typing)]
fn are_ill(naming: &Naming, wanting: Wanting, expressions: &Exprs) -> bool
    ensures { result
        ≡ are_ill_typed (names_in naming.now) (wanted_at (names_in naming.now) wanting.entry)
        (exprs_tree expressions.now) }
{
    match expressions {
        Exprs::Empty => false,
        Exprs::More(first, rest) => {
            let wanted = next_type(naming, wanting);
            (differ(wanted, type_of(naming, first)) || is_ill(naming, first))
                || are_ill(naming, further(naming, wanting), rest)
        }
    }
}

/// Whether an expression is of another type than it should be, or a part of it is.
pub fn is_mistyped(naming: &Naming, wanted: Option<DataType>, expression: &Expr) -> bool
    ensures { result ≡ is_wrong (names_in naming.now) (expected wanted (expr_tree expression.now)) }
{
    differ(wanted, type_of(naming, expression)) || is_ill(naming, expression)
}
