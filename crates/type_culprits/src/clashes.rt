//! Expressions of another type than is wanted, and parts of them (ANSI X3.9-1978, 6.1 to 6.4).

ghost use Rattle.std.specs.Prelude.{◌≡◌};
ghost use Rattle.std.specs.Option.{option_or};
ghost use Rattle.expectations.specs.Expected.{expected_at, expected_list};
ghost use Rattle.meaning.specs.Syntax.{expr_tree, exprs_tree};
ghost use Rattle.type_culprits.specs.Clashes.{asked_in, clash_in, first_in, ill_in, ills_in};
ghost use Rattle.type_culprits.specs.Clashes.{mistyped_in};
ghost use Rattle.type_culprits.specs.Clashes.{misfit as misfit_of};
ghost use Rattle.type_culprits.specs.Told.{asker_at, tell};
ghost use Rattle.type_culprits.specs.Wants.{names_in, wanted_at};

use crate::culprit::{Asker, TypeCulprit};
use crate::naming::{Naming, Wanting, further, next_type, operand_type, type_of, wanted_by};
use expectations::Expectation;
use meaning::syntax::{DataType, Expr, Exprs};

/// The type that is wanted, where the other one is found.
fn misfit(wanted: Option<DataType>, found: Option<DataType>) -> Option<DataType>
    ensures { result ≡ misfit_of wanted found }
{
    match wanted {
        Some(DataType::Integer) => match found {
            Some(DataType::Logical) => Some(DataType::Integer),
            Some(DataType::Integer) => None,
            None => None,
        },
        Some(DataType::Logical) => match found {
            Some(DataType::Integer) => Some(DataType::Logical),
            Some(DataType::Logical) => None,
            None => None,
        },
        None => None,
    }
}

/// An expression that has another type than is wanted.
fn clash<'a>(
    naming: &Naming,
    wanted: Option<DataType>,
    asker: Asker<'a>,
    expression: &'a Expr,
) -> Option<TypeCulprit<'a>>
    ensures { tell result
        ≡ clash_in (names_in naming.now) wanted (asker_at asker.entry) (expr_tree expression.now) }
{
    match misfit(wanted, type_of(naming, expression)) {
        Some(wanted) => Some(TypeCulprit {
            expression,
            wanted,
            asker,
        }),
        None => None,
    }
}

/// The first of two things that are told.
fn first_of<'a>(
    first: Option<TypeCulprit<'a>>,
    second: Option<TypeCulprit<'a>>,
) -> Option<TypeCulprit<'a>>
    ensures { tell result ≡ option_or (tell first.entry) (tell second.entry) }
{
    match first {
        Some(culprit) => Some(culprit),
        None => second,
    }
}

/// An operand, argument or subscript in an expression that is of the wrong type.
#[cycle(typing)]
fn ill<'a>(naming: &Naming, expression: &'a Expr) -> Option<TypeCulprit<'a>>
    ensures { tell result ≡ ill_in (names_in naming.now) (expr_tree expression.now) }
{
    match expression {
        Expr::Number(_) => None,
        Expr::Truth(_) => None,
        Expr::Name(_) => None,
        Expr::Signed(sign, operand) => first_of(
            clash(
                naming,
                Some(DataType::Integer),
                Asker::Before(*sign),
                operand,
            ),
            ill(naming, operand),
        ),
        Expr::Not(operand) => first_of(
            clash(naming, Some(DataType::Logical), Asker::Not, operand),
            ill(naming, operand),
        ),
        Expr::Binary(operator, left, right) => {
            let asker = Asker::Between(*operator);
            let wanted = operand_type(*operator);
            first_of(
                first_of(clash(naming, wanted, asker, left), ill(naming, left)),
                first_of(clash(naming, wanted, asker, right), ill(naming, right)),
            )
        }
        Expr::Paren(operand) => ill(naming, operand),
        Expr::Element(name, arguments) => {
            ill_among(naming, name, wanted_by(naming, name), arguments)
        }
        Expr::Call(_) => None,
    }
}

/// One of the arguments or subscripts of a name that is of the wrong type, or a part of one.
#[cycle(typing)]
fn ill_among<'a>(
    naming: &Naming,
    name: &'a [u8],
    wanting: Wanting,
    expressions: &'a Exprs,
) -> Option<TypeCulprit<'a>>
    ensures { tell result
        ≡ ills_in (names_in naming.now) name.now (wanted_at (names_in naming.now) wanting.entry)
        (exprs_tree expressions.now) }
{
    match expressions {
        Exprs::Empty => None,
        Exprs::More(first, rest) => {
            let wanted = next_type(naming, wanting);
            first_of(
                first_of(
                    clash(naming, wanted, Asker::Named(name), first),
                    ill(naming, first),
                ),
                ill_among(naming, name, further(naming, wanting), rest),
            )
        }
    }
}

/// An expression that is of another type than its place asks for, or a part of it that is of the
/// wrong type.
fn mistyped<'a>(naming: &Naming, asker: Asker<'a>, one: &Expectation<'a>) -> Option<TypeCulprit<'a>>
    ensures { tell result
        ≡ mistyped_in (names_in naming.now) (asker_at asker.entry) (expected_at one.now) }
{
    first_of(
        clash(naming, one.data_type, asker, one.expression),
        ill(naming, one.expression),
    )
}

/// The first of these.
fn first_mistyped<'a>(
    naming: &Naming,
    asker: Asker<'a>,
    expected: &[Expectation<'a>],
) -> Option<TypeCulprit<'a>>
    ensures { tell result
        ≡ first_in (names_in naming.now) (asker_at asker.entry) (expected_list expected.now) }
{
    for one in expected {
        match mistyped(naming, asker, one) {
            Some(culprit) => return Some(culprit),
            None => {}
        }
    }
    None
}

/// The first of those of a statement, of which something else asks for a type behind the first.
pub fn first_asked<'a>(
    naming: &Naming,
    asker: Asker<'a>,
    further: Asker<'a>,
    expected: &[Expectation<'a>],
) -> Option<TypeCulprit<'a>>
    ensures { tell result
        ≡ asked_in (names_in naming.now) (asker_at asker.entry) (asker_at further.entry)
        (expected_list expected.now) }
{
    match expected.split_first() {
        None => None,
        Some((one, rest)) => first_of(
            mistyped(naming, asker, one),
            first_mistyped(naming, further, rest),
        ),
    }
}
