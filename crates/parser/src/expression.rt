//! Expressions, by precedence climbing.

ghost use Rattle.std.specs.Prelude.{◌≡◌, ◌+◌, length, IfOk};
ghost use Rattle.meaning.specs.Spelling.{level, left_least, right_least, level_of};
ghost use Rattle.meaning.specs.Syntax.{binary, exprs, expr_tree, exprs_tree};
ghost use Rattle.meaning.specs.Reading.{paren_at, exprs_at, subscripts_at, named_by};
ghost use Rattle.meaning.specs.Reading.{name_or_element_at, primary_at, negation_at, front_at};
ghost use Rattle.meaning.specs.Reading.{may_follow, operations_at, expression_at, expression_from};
ghost use Rattle.meaning.specs.Reading.{whole_expression_at};
ghost use Rattle.parser.specs.Reports.{Agrees};

use crate::read_error::ReadError;
use crate::token::{behind, read_name, read_operator, read_sign, read_truth, split_digits};
use meaning::syntax::{Expr, Exprs, Operator};
use std::alloc::{AllocError, Global};

/// The level of a whole expression.
const WEAKEST: u8 = 0;

/// The level of `.NOT.` with its operand.
const NEGATED: u8 = 3;

/// The level of relations, of which `.NOT.` takes one.
const RELATION: u8 = 4;

/// The level of a sign with its operand.
const SIGNED: u8 = 5;

/// The level of the term that a sign takes.
const TERM: u8 = 6;

/// The level of `**` with its operands.
const POWER: u8 = 7;

/// The level of constants, names, elements, function references and expressions in parentheses.
const PRIMARY: u8 = 8;

/// How strongly an operator binds (ANSI X3.9-1978, 6.1.3, 6.4.2 and 6.5).
fn level_of_operator(operator: Operator) -> u8
    ensures { result ≡ level operator }
{
    match operator {
        Operator::Power => POWER,
        Operator::Multiply => TERM,
        Operator::Divide => TERM,
        Operator::Add => SIGNED,
        Operator::Subtract => SIGNED,
        Operator::Less => RELATION,
        Operator::LessOrEqual => RELATION,
        Operator::Equal => RELATION,
        Operator::NotEqual => RELATION,
        Operator::GreaterOrEqual => RELATION,
        Operator::Greater => RELATION,
        Operator::And => 2,
        Operator::Or => 1,
        Operator::Equivalent => WEAKEST,
        Operator::NotEquivalent => WEAKEST,
    }
}

/// The level at which an expression stands: a primary binds strongest.
fn level_of_expression(expression: &Expr) -> u8
    ensures { result ≡ level_of (expr_tree expression.now) }
{
    match expression {
        Expr::Number(_) => PRIMARY,
        Expr::Truth(_) => PRIMARY,
        Expr::Name(_) => PRIMARY,
        Expr::Signed(_, _) => SIGNED,
        Expr::Not(_) => NEGATED,
        Expr::Binary(operator, _, _) => level_of_operator(*operator),
        Expr::Paren(_) => PRIMARY,
        Expr::Element(_, _) => PRIMARY,
        Expr::Call(_) => PRIMARY,
    }
}

/// The least level of what stands on the left of an operator of a level: relations don't chain, and
/// `**` groups from the right.
fn least_on_left(level: u8) -> u8
    ensures { result ≡ left_least level }
{
    if level == RELATION {
        SIGNED
    } else if level == POWER {
        PRIMARY
    } else {
        level
    }
}

/// The least level of what stands on the right of an operator: `**` groups from the right, the
/// others from the left.
fn least_on_right(operator: Operator) -> u8
    ensures { result ≡ right_least (level operator) }
{
    let level = level_of_operator(operator);
    if level == POWER { POWER } else { level + 1 }
}

/// Whether an operator of this level or a stronger one may have this operand on its left.
fn continues(least: u8, left: &Expr, operator: Operator) -> bool
    ensures { result ≡ may_follow least (expr_tree left.now) operator }
{
    let level = level_of_operator(operator);
    least <= level && least_on_left(level) <= level_of_expression(left)
}

/// An operator and its operands.
fn join(alloc: Global, operator: Operator, left: Expr, right: Expr) -> Result<Expr, AllocError>
    ensures { IfOk result (λ e. expr_tree e ≡ binary operator (expr_tree left) (expr_tree right)) }
{
    match Box::new(alloc, left) {
        Err(refused) => {
            drop(right);
            Err(refused.into())
        }
        Ok(left) => match Box::new(alloc, right) {
            Err(refused) => {
                drop(left);
                Err(refused.into())
            }
            Ok(right) => Ok(Expr::Binary(operator, left, right)),
        },
    }
}

/// An expression before others.
pub fn list_with(alloc: Global, first: Expr, others: Exprs) -> Result<Exprs, AllocError>
    ensures { IfOk result (λ es. exprs_tree es ≡ exprs (expr_tree first) (exprs_tree others)) }
{
    match Box::new(alloc, others) {
        Err(refused) => {
            drop(first);
            Err(refused.into())
        }
        Ok(others) => Ok(Exprs::More(first, others)),
    }
}

/// A name, or with subscripts an element.
fn name_with(alloc: Global, name: Vec<u8>, subscripts: Exprs) -> Result<Expr, AllocError>
    ensures { IfOk result (λ e. expr_tree e ≡ named_by name.items (exprs_tree subscripts)) }
{
    match subscripts {
        Exprs::Empty => Ok(Expr::Name(name)),
        Exprs::More(first, others) => {
            let subscripts = Box::new(alloc, Exprs::More(first, others))?;
            Ok(Expr::Element(name, subscripts))
        }
    }
}

/// An expression of the weakest level behind an opening parenthesis, and the closing one.
#[cycle(expression)]
#[tactic(auto, unfolding(meaning::specs::Reading::paren_at))]
fn read_parenthesis(alloc: Global, depth: usize, text: &[u8]) -> Result<(Expr, &[u8]), ReadError>
    ensures { Agrees (λ x. (expr_tree x.0, x.1.now)) result
        (paren_at (expression_at depth) text.now) }
{
    let (inner, rest) = read_expression(alloc, depth, WEAKEST, text)?;
    match behind(b")", rest) {
        None => {
            drop(inner);
            Err(ReadError::NoReading)
        }
        Some(rest) => Ok((Expr::Paren(Box::new(alloc, inner)?), rest)),
    }
}

/// Expressions of the weakest level with commas between, one at least and so many at most.
#[cycle(expression)]
#[tactic(auto, unfolding(meaning::specs::Reading::exprs_at, meaning::specs::Reading::either))]
fn read_inner_expressions(
    alloc: Global,
    depth: usize,
    most: usize,
    text: &[u8],
) -> Result<(Exprs, &[u8]), ReadError>
    ensures { Agrees (λ x. (exprs_tree x.0, x.1.now)) result
        (exprs_at (expression_at depth) most text.now) }
{
    if most == 0 {
        return Err(ReadError::NoReading);
    }
    let (first, rest) = read_expression(alloc, depth, WEAKEST, text)?;
    match behind(b",", rest) {
        None => Ok((list_with(alloc, first, Exprs::Empty)?, rest)),
        Some(rest) => match read_inner_expressions(alloc, depth, most - 1, rest) {
            Err(error) => {
                drop(first);
                Err(error)
            }
            Ok((others, rest)) => Ok((list_with(alloc, first, others)?, rest)),
        },
    }
}

/// Subscripts in parentheses (ANSI X3.9-1978, 5.4), or none.
#[cycle(expression)]
#[tactic(auto, unfolding(meaning::specs::Reading::subscripts_at, meaning::specs::Reading::either))]
fn read_inner_subscripts(
    alloc: Global,
    depth: usize,
    text: &[u8],
) -> Result<(Exprs, &[u8]), ReadError>
    ensures { Agrees (λ x. (exprs_tree x.0, x.1.now)) result
        (subscripts_at (expression_at depth) text.now) }
{
    match behind(b"(", text) {
        None => Ok((Exprs::Empty, text)),
        Some(rest) => {
            let (list, rest) = read_inner_expressions(alloc, depth, rest.len() + 1, rest)?;
            match behind(b")", rest) {
                None => {
                    drop(list);
                    Err(ReadError::NoReading)
                }
                Some(rest) => Ok((list, rest)),
            }
        }
    }
}

/// A name, with subscripts an element, or with `()` a function reference.
#[cycle(expression)]
#[tactic(auto, unfolding(meaning::specs::Reading::name_or_element_at, meaning::specs::Reading::either))]
fn read_name_or_element(
    alloc: Global,
    depth: usize,
    text: &[u8],
) -> Result<(Expr, &[u8]), ReadError>
    ensures { Agrees (λ x. (expr_tree x.0, x.1.now)) result
        (name_or_element_at (expression_at depth) text.now) }
{
    let (name, rest) = read_name(alloc, text)?;
    match behind(b"()", rest) {
        None => {
            let (subscripts, rest) = read_inner_subscripts(alloc, depth, rest)?;
            Ok((name_with(alloc, name, subscripts)?, rest))
        }
        Some(rest) => Ok((Expr::Call(name), rest)),
    }
}

/// Digits, an expression in parentheses, a logical constant, a name, an element or a function
/// reference.
#[cycle(expression)]
#[tactic(auto, unfolding(meaning::specs::Reading::primary_at))]
fn read_primary(alloc: Global, depth: usize, text: &[u8]) -> Result<(Expr, &[u8]), ReadError>
    ensures { Agrees (λ x. (expr_tree x.0, x.1.now)) result
        (primary_at (expression_at depth) text.now) }
{
    let (first, behind) = text.split_first().ok_or(ReadError::NoReading)?;
    if first.is_ascii_digit() {
        let (digits, rest) = split_digits(text);
        return Ok((Expr::Number(Vec::from_slice(alloc, digits)?), rest));
    }
    if *first == b'(' {
        return read_parenthesis(alloc, depth, behind);
    }
    if *first == b'.' {
        let (value, rest) = read_truth(text).ok_or(ReadError::NoReading)?;
        return Ok((Expr::Truth(value), rest));
    }
    read_name_or_element(alloc, depth, text)
}

/// `.NOT.` and its operand, where the level lets it stand, or a primary.
#[cycle(expression)]
#[tactic(auto, unfolding(meaning::specs::Reading::negation_at, meaning::specs::Reading::either, meaning::specs::Reading::when))]
fn read_negation(
    alloc: Global,
    depth: usize,
    least: u8,
    text: &[u8],
) -> Result<(Expr, &[u8]), ReadError>
    ensures { Agrees (λ x. (expr_tree x.0, x.1.now)) result
        (negation_at (expression_at depth) least text.now) }
{
    match behind(b".NOT.", text) {
        None => read_primary(alloc, depth, text),
        Some(behind) => {
            if least > NEGATED {
                return Err(ReadError::NoReading);
            }
            let (operand, rest) = read_expression(alloc, depth, RELATION, behind)?;
            Ok((Expr::Not(Box::new(alloc, operand)?), rest))
        }
    }
}

/// What an expression of a level begins with: a sign and one term, where the level lets a sign
/// stand, `.NOT.` and its operand, or a primary.
#[cycle(expression)]
#[tactic(auto, unfolding(meaning::specs::Reading::front_at, meaning::specs::Reading::either, meaning::specs::Reading::when))]
fn read_front(
    alloc: Global,
    depth: usize,
    least: u8,
    text: &[u8],
) -> Result<(Expr, &[u8]), ReadError>
    ensures { Agrees (λ x. (expr_tree x.0, x.1.now)) result
        (front_at (expression_at depth) least text.now) }
{
    match read_sign(text) {
        None => read_negation(alloc, depth, least, text),
        Some((sign, behind)) => {
            if least > SIGNED {
                return Err(ReadError::NoReading);
            }
            let (operand, rest) = read_expression(alloc, depth, TERM, behind)?;
            Ok((Expr::Signed(sign, Box::new(alloc, operand)?), rest))
        }
    }
}

/// What begins with an operand: operators that bind this strongly, each with an operand that binds
/// strongly enough.
#[cycle(expression)]
#[tactic(auto, unfolding(meaning::specs::Reading::operations_at, meaning::specs::Reading::either))]
fn read_operations(
    alloc: Global,
    depth: usize,
    least: u8,
    first: Expr,
    text: &[u8],
) -> Result<(Expr, &[u8]), ReadError>
    ensures { Agrees (λ x. (expr_tree x.0, x.1.now)) result
        (operations_at (expression_at depth) (length text.now) least (expr_tree first) text.now) }
{
    let mut left = first;
    let mut rest = text;
    for _ in 0..text.len() {
        match read_operator(rest) {
            None => return Ok((left, rest)),
            Some((operator, behind)) => {
                if !continues(least, &left, operator) {
                    return Ok((left, rest));
                }
                match read_expression(alloc, depth, least_on_right(operator), behind) {
                    Err(error) => {
                        drop(left);
                        return Err(error);
                    }
                    Ok((right, after)) => {
                        left = join(alloc, operator, left, right)?;
                        rest = after;
                    }
                }
            }
        }
    }
    Ok((left, rest))
}

/// An expression whose operators bind at least this strongly, nested no deeper than this.
#[cycle(expression)]
#[tactic(auto, unfolding(meaning::specs::Reading::expression_at))]
fn read_expression(
    alloc: Global,
    depth: usize,
    least: u8,
    text: &[u8],
) -> Result<(Expr, &[u8]), ReadError>
    ensures { Agrees (λ x. (expr_tree x.0, x.1.now)) result (expression_at depth least text.now) }
{
    if depth == 0 {
        return Err(ReadError::NoReading);
    }
    let (front, rest) = read_front(alloc, depth - 1, least, text)?;
    read_operations(alloc, depth - 1, least, front, rest)
}

/// An expression of a level.
#[tactic(auto, unfolding(meaning::specs::Reading::expression_from))]
pub fn read_expression_from(
    alloc: Global,
    least: u8,
    text: &[u8],
) -> Result<(Expr, &[u8]), ReadError>
    ensures { Agrees (λ x. (expr_tree x.0, x.1.now)) result (expression_from least text.now) }
{
    read_expression(alloc, text.len() + 1, least, text)
}

/// An expression of the weakest level.
#[tactic(auto, unfolding(meaning::specs::Reading::whole_expression_at))]
pub fn read_whole_expression(alloc: Global, text: &[u8]) -> Result<(Expr, &[u8]), ReadError>
    ensures { Agrees (λ x. (expr_tree x.0, x.1.now)) result (whole_expression_at text.now) }
{
    read_expression(alloc, text.len() + 1, WEAKEST, text)
}
