//! Integer constants outside the range of INTEGER (ANSI X3.9-1978, 4.3).

ghost use Rattle.std.specs.Prelude.{◌≡◌, ◌++◌, ◌∷◌, [], flat_map, map, option_map, IfOk, OnOk};
ghost use Rattle.std.specs.List.{find};
ghost use Rattle.meaning.specs.NumberRules.{data_numbers, in_data_constant, in_data_value};
ghost use Rattle.meaning.specs.NumberRules.{in_repeat, is_too_great, numbers_in, numbers_in_all};
ghost use Rattle.meaning.specs.Syntax.{data_constant_tree, data_set_tree, data_value_tree};
ghost use Rattle.meaning.specs.Syntax.{expr_tree, exprs_tree, repeat_tree, shape_tree};
ghost use Rattle.meaning.specs.Typing.{option_list};
ghost use Rattle.symbols.specs.SymbolsAt.{symbols_at};
ghost use Rattle.name_uses.specs.Held.{names_at};
ghost use Rattle.expectations.specs.Expected.{expected_list};
ghost use Rattle.finding.specs.Finding.{name_if};
ghost use Rattle.number_culprits.specs.Numbers.{great_in, numbers_of};
ghost use Rattle.number_culprits.specs.Told.{tell};

use crate::culprit::NumberCulprit;
use expectations::{Expectation, expectations_of};
use meaning::number::number;
use meaning::syntax::{DataConstant, DataSet, DataValue, Expr, Exprs, RepeatCount, Shape};
use std::alloc::{AllocError, Global};
use symbols::Symbols;

/// Puts digits behind those that are there.
fn add_digits<'a>(found: &mut Vec<&'a [u8]>, digits: &'a [u8]) -> Result<(), AllocError>
    ensures { OnOk result (names_at found.new.items ≡ names_at found.old.items ++ digits.now ∷ []) }
{
    found.push(digits)?;
    Ok(())
}

/// Puts the digits of the constants in an expression behind those that are there.
#[cycle(numbers)]
#[tactic(auto, using(symbols::proofs::Passes::appended, symbols::proofs::Passes::nothing_more))]
fn add_numbers<'a>(found: &mut Vec<&'a [u8]>, expression: &'a Expr) -> Result<(), AllocError>
    ensures { OnOk result
        (names_at found.new.items ≡ names_at found.old.items
        ++ numbers_in (expr_tree expression.now)) }
{
    match expression {
        Expr::Number(digits) => add_digits(found, digits),
        Expr::Truth(_) => Ok(()),
        Expr::Name(_) => Ok(()),
        Expr::Call(_) => Ok(()),
        Expr::Signed(_, operand) => add_numbers(found, operand),
        Expr::Not(operand) => add_numbers(found, operand),
        Expr::Paren(operand) => add_numbers(found, operand),
        Expr::Binary(_, left, right) => {
            add_numbers(found, left)?;
            add_numbers(found, right)
        }
        Expr::Element(_, subscripts) => add_all_numbers(found, subscripts),
    }
}

/// Puts those of the constants in a list behind those that are there.
#[cycle(numbers)]
#[tactic(auto, using(symbols::proofs::Passes::appended, symbols::proofs::Passes::nothing_more))]
fn add_all_numbers<'a>(found: &mut Vec<&'a [u8]>, expressions: &'a Exprs) -> Result<(), AllocError>
    ensures { OnOk result
        (names_at found.new.items ≡ names_at found.old.items
        ++ numbers_in_all (exprs_tree expressions.now)) }
{
    match expressions {
        Exprs::Empty => Ok(()),
        Exprs::More(first, rest) => {
            add_numbers(found, first)?;
            add_all_numbers(found, rest)
        }
    }
}

/// Puts those of the constants in expressions behind those that are there.
fn add_expected<'a>(
    found: &mut Vec<&'a [u8]>,
    expected: &[Expectation<'a>],
) -> Result<(), AllocError>
    ensures { OnOk result
        (names_at found.new.items ≡ names_at found.old.items
        ++ flat_map (λ x. numbers_in x.expr) (expected_list expected.now)) }
{
    for one in expected {
        add_numbers(found, one.expression)?;
    }
    Ok(())
}

/// Puts the digits of a repeat count behind those that are there.
#[tactic(auto, using(symbols::proofs::Passes::nothing_more))]
fn add_count<'a>(
    found: &mut Vec<&'a [u8]>,
    count: &'a Option<RepeatCount>,
) -> Result<(), AllocError>
    ensures { OnOk result
        (names_at found.new.items ≡ names_at found.old.items
        ++ flat_map in_repeat (option_list (option_map repeat_tree count.now))) }
{
    match count {
        Some(RepeatCount::Number(digits)) => add_digits(found, digits),
        Some(RepeatCount::Name(_)) => Ok(()),
        None => Ok(()),
    }
}

/// Puts the digits of a constant of a DATA statement behind those that are there.
#[tactic(auto, using(symbols::proofs::Passes::nothing_more))]
fn add_data_constant<'a>(
    found: &mut Vec<&'a [u8]>,
    constant: &'a DataConstant,
) -> Result<(), AllocError>
    ensures { OnOk result
        (names_at found.new.items ≡ names_at found.old.items
        ++ in_data_constant (data_constant_tree constant.now)) }
{
    match constant {
        DataConstant::Number(_, digits) => add_digits(found, digits),
        DataConstant::Truth(_) => Ok(()),
        DataConstant::Name(_) => Ok(()),
    }
}

/// Puts the digits of a value of a DATA statement behind those that are there.
#[tactic(auto, using(symbols::proofs::Passes::appended, symbols::proofs::Passes::nothing_more))]
fn add_value<'a>(found: &mut Vec<&'a [u8]>, value: &'a DataValue) -> Result<(), AllocError>
    ensures { OnOk result
        (names_at found.new.items ≡ names_at found.old.items
        ++ in_data_value (data_value_tree value.now)) }
{
    add_count(found, &value.repeat_count)?;
    add_data_constant(found, &value.constant)
}

/// Puts the digits of values behind those that are there.
fn add_values<'a>(found: &mut Vec<&'a [u8]>, values: &'a [DataValue]) -> Result<(), AllocError>
    ensures { OnOk result
        (names_at found.new.items ≡ names_at found.old.items
        ++ flat_map in_data_value (map data_value_tree values.now)) }
{
    for value in values {
        add_value(found, value)?;
    }
    Ok(())
}

/// Puts the digits of the values of sets behind those that are there.
fn add_sets<'a>(found: &mut Vec<&'a [u8]>, sets: &'a [DataSet]) -> Result<(), AllocError>
    ensures { OnOk result
        (names_at found.new.items ≡ names_at found.old.items
        ++ flat_map (λ s. flat_map in_data_value s.values) (map data_set_tree sets.now)) }
{
    for set in sets {
        add_values(found, &set.values)?;
    }
    Ok(())
}

/// Puts the digits of the values of a DATA statement behind those that are there.
#[tactic(auto, using(symbols::proofs::Passes::nothing_more))]
fn add_data<'a>(found: &mut Vec<&'a [u8]>, shape: &'a Shape) -> Result<(), AllocError>
    ensures { OnOk result
        (names_at found.new.items ≡ names_at found.old.items
        ++ data_numbers (shape_tree shape.now)) }
{
    match shape {
        Shape::Data(sets) => add_sets(found, sets),
        _ => Ok(()),
    }
}

/// The digits of all integer constants in a statement.
#[tactic(auto, using(symbols::proofs::Passes::appended))]
fn digits_of<'a>(
    alloc: Global,
    symbols: &Symbols,
    shape: &'a Shape,
) -> Result<Vec<&'a [u8]>, AllocError>
    ensures { IfOk
        result (λ v. names_at v.items
        ≡ numbers_of (symbols_at symbols.now) (shape_tree shape.now)) }
{
    let expected = expectations_of(alloc, symbols, shape)?;
    let mut found = Vec::new(alloc);
    add_expected(&mut found, &expected)?;
    add_data(&mut found, shape)?;
    Ok(found)
}

/// The first that spells a number that is too great.
fn first_great<'a>(numbers: &[&'a [u8]]) -> Option<&'a [u8]>
    ensures { name_if result ≡ find is_too_great (names_at numbers.now) }
{
    for digits in numbers {
        if number(digits) > 2_147_483_647 {
            return Some(*digits);
        }
    }
    None
}

/// The first integer constant of a statement that is too great.
pub fn great_number<'a>(
    alloc: Global,
    symbols: &Symbols,
    shape: &'a Shape,
) -> Result<Option<NumberCulprit<'a>>, AllocError>
    ensures { IfOk result (λ c. tell c ≡ great_in (symbols_at symbols.now) (shape_tree shape.now)) }
{
    let numbers = digits_of(alloc, symbols, shape)?;
    match first_great(&numbers) {
        None => Ok(None),
        Some(digits) => Ok(Some(NumberCulprit::Great { digits })),
    }
}
