//! Statements: a text as the form that it reads as.

ghost use Rattle.std.specs.Prelude.{◌≡◌, ◌<◌, false, option_map};
ghost use Rattle.meaning.specs.Kinds.{kind_of};
ghost use Rattle.meaning.specs.Syntax.{ExprTree, ExprsTree, assignment, expr_tree, exprs_tree};
ghost use Rattle.meaning.specs.Syntax.{limits_tree, shape_tree};
ghost use Rattle.meaning.specs.Reading.{Text, at_end as ends, whole_expression_at, exprs_at};
ghost use Rattle.meaning.specs.Reading.{subscripts_at, value_of, target_of, assignment_of};
ghost use Rattle.meaning.specs.Reading.{format_of, alone_of, limits_at, comma_at, range_label_at};
ghost use Rattle.meaning.specs.Reading.{doing_of, doing_while_of, simple_by, logical_if_of};
ghost use Rattle.meaning.specs.Reading.{shape_by, shape_of, most_open, read_shape};
ghost use Rattle.meaning.specs.Answers.{at_line};
ghost use Rattle.meaning.specs.Reports.{Gives};
ghost use Rattle.parser.specs.Behind.{limits_with, target_behind, step_behind, limits_behind};
ghost use Rattle.parser.specs.Reports.{Agrees};

use crate::control::{
    read_arithmetic_if, read_computed_go_to, read_condition, read_else_if, read_go_to,
    read_if_then, read_stop,
};
use crate::declarators::{read_dimension, read_integer, read_logical};
use crate::expression::{list_with, read_whole_expression};
use crate::initial_values::read_data;
use crate::left_out::begins_left_out;
use crate::output::{read_print, read_write};
use crate::read_error::ReadError;
use crate::specification::{read_implicit, read_parameter, read_program};
use crate::token::{before_parenthesis, behind, expect, read_label, read_name};
use lexer::{begins_with_digit, is_balanced, is_too_deep, kind, kind_of_text};
use meaning::refusal::{Refusal, Rule};
use meaning::statement::Bare;
use meaning::syntax::{Expr, Exprs, Form, Kind, Limits, Shape};
use std::alloc::Global;

/// Expressions with commas between, one at least.
#[tactic(auto, unfolding(meaning::specs::Reading::exprs_at, meaning::specs::Reading::either))]
fn read_expressions(alloc: Global, most: usize, text: &[u8]) -> Result<(Exprs, &[u8]), ReadError>
    ensures { Agrees (λ x. (exprs_tree x.0, x.1.now)) result
        (exprs_at (λ _ t. whole_expression_at t) most text.now) }
{
    if most == 0 {
        return Err(ReadError::NoReading);
    }
    let (first, rest) = read_whole_expression(alloc, text)?;
    match behind(b",", rest) {
        None => Ok((list_with(alloc, first, Exprs::Empty)?, rest)),
        Some(rest) => match read_expressions(alloc, most - 1, rest) {
            Err(error) => {
                drop(first);
                Err(error)
            }
            Ok((others, rest)) => Ok((list_with(alloc, first, others)?, rest)),
        },
    }
}

/// What was read, where nothing stands behind it.
pub fn at_end(shape: Shape, rest: &[u8]) -> Result<Shape, ReadError>
    ensures { Agrees (λ x. shape_tree x) result (ends (shape_tree shape, rest.now)) }
{
    if !rest.is_empty() {
        drop(shape);
        return Err(ReadError::NoReading);
    }
    Ok(shape)
}

/// Subscripts in parentheses (ANSI X3.9-1978, 5.4), or none.
#[tactic(auto, unfolding(meaning::specs::Reading::subscripts_at, meaning::specs::Reading::either))]
fn read_subscripts(alloc: Global, text: &[u8]) -> Result<(Exprs, &[u8]), ReadError>
    ensures { Agrees (λ x. (exprs_tree x.0, x.1.now)) result
        (subscripts_at (λ _ t. whole_expression_at t) text.now) }
{
    match behind(b"(", text) {
        None => Ok((Exprs::Empty, text)),
        Some(rest) => {
            let (list, rest) = read_expressions(alloc, rest.len() + 1, rest)?;
            match behind(b")", rest) {
                None => {
                    drop(list);
                    Err(ReadError::NoReading)
                }
                Some(rest) => Ok((list, rest)),
            }
        }
    }
}

/// An expression up to the end.
#[tactic(auto, unfolding(meaning::specs::Reading::value_of))]
pub fn read_value(alloc: Global, text: &[u8]) -> Result<Expr, ReadError>
    ensures { Agrees (λ x. expr_tree x) result (value_of text.now) }
{
    let (value, rest) = read_whole_expression(alloc, text)?;
    if !rest.is_empty() {
        drop(value);
        return Err(ReadError::NoReading);
    }
    Ok(value)
}

/// What stands on the right of an assignment, behind its equals sign.
#[tactic(auto, unfolding(crate::specs::Behind::target_behind))]
fn read_assigned(alloc: Global, text: &[u8]) -> Result<Expr, ReadError>
    ensures { (name : Text) (es : ExprsTree) →
        Agrees (λ x. assignment name es (expr_tree x)) result (target_behind name es text.now) }
{
    let rest = expect(b"=", text)?;
    read_value(alloc, rest)
}

/// What stands behind the name on the left of an assignment.
#[tactic(auto, unfolding(meaning::specs::Reading::target_of, crate::specs::Behind::target_behind))]
fn read_behind_name(alloc: Global, name: Vec<u8>, text: &[u8]) -> Result<Shape, ReadError>
    ensures { Agrees (λ x. shape_tree x) result (target_of name.items text.now) }
{
    let (subscripts, rest) = read_subscripts(alloc, text)?;
    match read_assigned(alloc, rest) {
        Err(error) => {
            drop(subscripts);
            Err(error)
        }
        Ok(value) => Ok(Shape::Assignment {
            name,
            subscripts,
            value,
        }),
    }
}

/// An assignment (ANSI X3.9-1978, 10.1), or a statement function without dummy arguments (15.4).
#[tactic(auto, unfolding(meaning::specs::Reading::assignment_of, meaning::specs::Reading::either))]
fn read_assignment(alloc: Global, text: &[u8]) -> Result<Shape, ReadError>
    ensures { Agrees (λ x. shape_tree x) result (assignment_of text.now) }
{
    let (name, rest) = read_name(alloc, text)?;
    match behind(b"()=", rest) {
        None => read_behind_name(alloc, name, rest),
        Some(rest) => {
            let value = read_value(alloc, rest)?;
            Ok(Shape::Definition(name, value))
        }
    }
}

/// A FORMAT statement (ANSI X3.9-1978, 13.1).
#[tactic(auto, unfolding(meaning::specs::Reading::format_of, meaning::specs::Reading::when))]
fn read_format(alloc: Global, text: &[u8]) -> Result<Shape, ReadError>
    ensures { Agrees (λ x. shape_tree x) result (format_of text.now) }
{
    let rest = expect(b"FORMAT(", text)?;
    let format = before_parenthesis(rest).ok_or(ReadError::NoReading)?;
    if !is_balanced(format) {
        return Err(ReadError::NoReading);
    }
    Ok(Shape::Format(Vec::from_slice(alloc, format)?))
}

/// A statement that is a keyword alone.
#[tactic(auto, unfolding(meaning::specs::Reading::alone_of))]
fn read_alone(word: &[u8], shape: Shape, text: &[u8]) -> Result<Shape, ReadError>
    ensures { Agrees (λ x. shape_tree x) result (alone_of word.now (shape_tree shape) text.now) }
{
    match behind(word, text) {
        None => {
            drop(shape);
            Err(ReadError::NoReading)
        }
        Some(rest) => at_end(shape, rest),
    }
}

/// A comma and an expression, or nothing.
#[tactic(auto, unfolding(crate::specs::Behind::step_behind, meaning::specs::Reading::either))]
fn read_step(alloc: Global, text: &[u8]) -> Result<(Option<Expr>, &[u8]), ReadError>
    ensures { (a b : ExprTree) →
        Agrees (λ x. (limits_with a b (option_map expr_tree x.0), x.1.now)) result
        (step_behind a b text.now) }
{
    match behind(b",", text) {
        None => Ok((None, text)),
        Some(rest) => {
            let (step, rest) = read_whole_expression(alloc, rest)?;
            Ok((Some(step), rest))
        }
    }
}

/// The limits behind the first: a comma and an expression, and a step or none.
#[tactic(auto, unfolding(crate::specs::Behind::limits_behind))]
fn read_last_limits(alloc: Global, text: &[u8]) -> Result<(Expr, Option<Expr>, &[u8]), ReadError>
    ensures { (a : ExprTree) →
        Agrees (λ x. (limits_with a (expr_tree x.0) (option_map expr_tree x.1), x.2.now)) result
        (limits_behind a text.now) }
{
    let rest = expect(b",", text)?;
    let (last, rest) = read_whole_expression(alloc, rest)?;
    match read_step(alloc, rest) {
        Err(error) => {
            drop(last);
            Err(error)
        }
        Ok((step, rest)) => Ok((last, step, rest)),
    }
}

/// The limits of a DO statement (ANSI X3.9-1978, 11.10): two expressions or three, with commas
/// between.
#[tactic(auto, unfolding(meaning::specs::Reading::limits_at, crate::specs::Behind::limits_behind, crate::specs::Behind::step_behind))]
pub fn read_limits(alloc: Global, text: &[u8]) -> Result<(Limits, &[u8]), ReadError>
    ensures { Agrees (λ x. (limits_tree x.0, x.1.now)) result (limits_at text.now) }
{
    let (first, rest) = read_whole_expression(alloc, text)?;
    match read_last_limits(alloc, rest) {
        Err(error) => {
            drop(first);
            Err(error)
        }
        Ok((last, step, rest)) => Ok((Limits { first, last, step }, rest)),
    }
}

/// Whether a comma stands at the front, and what stands behind it.
#[tactic(auto, unfolding(meaning::specs::Reading::comma_at, meaning::specs::Reading::either))]
pub fn split_comma(text: &[u8]) -> (bool, &[u8])
    ensures { (result.0, result.1.now) ≡ comma_at text.now }
{
    match behind(b",", text) {
        None => (false, text),
        Some(rest) => (true, rest),
    }
}

/// The label of a DO or DO WHILE statement and whether a comma stands behind it, or no label.
#[tactic(auto, unfolding(meaning::specs::Reading::range_label_at))]
fn read_range_label(alloc: Global, text: &[u8]) -> Result<(Option<Vec<u8>>, bool, &[u8]), ReadError>
    ensures { Agrees (λ x. ((option_map (λ l. l.items) x.0, x.1), x.2.now)) result
        (range_label_at text.now) }
{
    if !begins_with_digit(text) {
        return Ok((None, false, text));
    }
    let (label, rest) = read_label(alloc, text)?;
    let (comma, rest) = split_comma(rest);
    Ok((Some(label), comma, rest))
}

/// A DO WHILE statement.
#[tactic(auto, unfolding(meaning::specs::Reading::doing_while_of))]
fn read_do_while(alloc: Global, text: &[u8]) -> Result<Shape, ReadError>
    ensures { Agrees (λ x. shape_tree x) result (doing_while_of text.now) }
{
    let rest = expect(b"DO", text)?;
    let (label, comma, rest) = read_range_label(alloc, rest)?;
    let rest = expect(b"WHILE(", rest)?;
    let (condition, rest) = read_whole_expression(alloc, rest)?;
    let rest = expect(b")", rest)?;
    at_end(
        Shape::DoWhile {
            label,
            comma,
            condition,
        },
        rest,
    )
}

/// A DO statement (ANSI X3.9-1978, 11.10).
#[tactic(auto, unfolding(meaning::specs::Reading::doing_of))]
fn read_do(alloc: Global, text: &[u8]) -> Result<Shape, ReadError>
    ensures { Agrees (λ x. shape_tree x) result (doing_of text.now) }
{
    let rest = expect(b"DO", text)?;
    let (label, comma, rest) = read_range_label(alloc, rest)?;
    let (variable, rest) = read_name(alloc, rest)?;
    let rest = expect(b"=", rest)?;
    let (limits, rest) = read_limits(alloc, rest)?;
    at_end(
        Shape::Do {
            label,
            comma,
            variable,
            limits,
        },
        rest,
    )
}

/// A statement of a kind that may stand under a logical IF (ANSI X3.9-1978, 11.5).
#[tactic(auto, unfolding(meaning::specs::Reading::simple_by))]
fn read_simple(alloc: Global, kind: Kind, text: &[u8]) -> Result<Shape, ReadError>
    ensures { Agrees (λ x. shape_tree x) result (simple_by kind text.now) }
{
    match kind {
        Kind::Assignment => read_assignment(alloc, text),
        Kind::Write => read_write(alloc, text),
        Kind::Format => Err(ReadError::NoReading),
        Kind::Do => Err(ReadError::NoReading),
        Kind::DoWhile => Err(ReadError::NoReading),
        Kind::EndDo => Err(ReadError::NoReading),
        Kind::ImplicitNone => Err(ReadError::NoReading),
        Kind::Continue => read_alone(b"CONTINUE", Shape::Continue, text),
        Kind::Integer => Err(ReadError::NoReading),
        Kind::End => Err(ReadError::NoReading),
        Kind::Program => Err(ReadError::NoReading),
        Kind::Implicit => Err(ReadError::NoReading),
        Kind::Logical => Err(ReadError::NoReading),
        Kind::Dimension => Err(ReadError::NoReading),
        Kind::Parameter => Err(ReadError::NoReading),
        Kind::Data => Err(ReadError::NoReading),
        Kind::GoTo => read_go_to(alloc, text),
        Kind::ComputedGoTo => read_computed_go_to(alloc, text),
        Kind::ArithmeticIf => read_arithmetic_if(alloc, text),
        Kind::LogicalIf => Err(ReadError::NoReading),
        Kind::IfThen => Err(ReadError::NoReading),
        Kind::ElseIf => Err(ReadError::NoReading),
        Kind::Else => Err(ReadError::NoReading),
        Kind::EndIf => Err(ReadError::NoReading),
        Kind::Stop => read_stop(alloc, text),
        Kind::Print => read_print(alloc, text),
        Kind::Other => Err(ReadError::NoReading),
    }
}

/// The statement under a logical IF.
fn read_boxed_simple(alloc: Global, text: &[u8]) -> Result<Box<Shape>, ReadError>
    ensures { Agrees (λ x. shape_tree x.value) result (simple_by (kind_of text.now) text.now) }
{
    let statement = read_simple(alloc, kind_of_text(text), text)?;
    Ok(Box::new(alloc, statement)?)
}

/// A logical IF statement (ANSI X3.9-1978, 11.5).
#[tactic(auto, unfolding(meaning::specs::Reading::logical_if_of))]
fn read_logical_if(alloc: Global, text: &[u8]) -> Result<Shape, ReadError>
    ensures { Agrees (λ x. shape_tree x) result (logical_if_of text.now) }
{
    let (condition, rest) = read_condition(alloc, b"IF(", text)?;
    match read_boxed_simple(alloc, rest) {
        Err(error) => {
            drop(condition);
            Err(error)
        }
        Ok(statement) => Ok(Shape::LogicalIf(condition, statement)),
    }
}

/// A statement of a kind.
#[tactic(auto, unfolding(meaning::specs::Reading::shape_by))]
fn read_statement(alloc: Global, kind: Kind, text: &[u8]) -> Result<Shape, ReadError>
    ensures { Agrees (λ x. shape_tree x) result (shape_by kind text.now) }
{
    match kind {
        Kind::Assignment => read_simple(alloc, kind, text),
        Kind::Write => read_simple(alloc, kind, text),
        Kind::Format => read_format(alloc, text),
        Kind::Do => read_do(alloc, text),
        Kind::DoWhile => read_do_while(alloc, text),
        Kind::EndDo => read_alone(b"ENDDO", Shape::EndDo, text),
        Kind::ImplicitNone => read_alone(b"IMPLICITNONE", Shape::ImplicitNone, text),
        Kind::Continue => read_simple(alloc, kind, text),
        Kind::Integer => read_integer(alloc, text),
        Kind::End => read_alone(b"END", Shape::End, text),
        Kind::Program => read_program(alloc, text),
        Kind::Implicit => read_implicit(alloc, text),
        Kind::Logical => read_logical(alloc, text),
        Kind::Dimension => read_dimension(alloc, text),
        Kind::Parameter => read_parameter(alloc, text),
        Kind::Data => read_data(alloc, text),
        Kind::GoTo => read_simple(alloc, kind, text),
        Kind::ComputedGoTo => read_simple(alloc, kind, text),
        Kind::ArithmeticIf => read_simple(alloc, kind, text),
        Kind::LogicalIf => read_logical_if(alloc, text),
        Kind::IfThen => read_if_then(alloc, text),
        Kind::ElseIf => read_else_if(alloc, text),
        Kind::Else => read_alone(b"ELSE", Shape::Else, text),
        Kind::EndIf => read_alone(b"ENDIF", Shape::EndIf, text),
        Kind::Stop => read_simple(alloc, kind, text),
        Kind::Print => read_simple(alloc, kind, text),
        Kind::Other => read_simple(alloc, kind, text),
    }
}

/// The form that a bare text reads as.
#[tactic(auto, unfolding(meaning::specs::Reading::shape_of))]
fn read_shape_of(alloc: Global, bare: &Bare) -> Result<Shape, ReadError>
    ensures { Agrees (λ x. shape_tree x) result (shape_of bare.now.text.items) }
{
    read_statement(alloc, kind(bare), &bare.text)
}

/// That form behind a pointer.
fn boxed_shape_of(alloc: Global, bare: &Bare) -> Result<Box<Shape>, ReadError>
    ensures { Agrees (λ x. shape_tree x.value) result (shape_of bare.now.text.items) }
{
    let shape = read_shape_of(alloc, bare)?;
    Ok(Box::new(alloc, shape)?)
}

/// The form that a bare text reads as. More than 64 parentheses open at once break G3, and no
/// growth is made before that is known, so that want of memory is never answered then. Where there
/// is no reading, the text breaks G2 if it begins as a statement that is left out, and else G1.
/// Fails too if memory is refused.
#[tactic(auto, unfolding(meaning::specs::Reading::read_shape, meaning::specs::Reading::either))]
pub fn form(alloc: Global, bare: &Bare) -> Result<Form, Refusal>
    ensures exact { Gives (λ f. shape_tree f.shape.value) result
        (at_line bare.now.line (read_shape bare.now.text.items)) }
    ensures deep { 64 < most_open 0 false bare.now.text.items → result
        ≡ Err (Refusal.Rule Rule.G3 bare.now.line) }
{
    let line = bare.line;
    if is_too_deep(&bare.text) {
        return Err(Refusal::Rule {
            rule: Rule::G3,
            line,
        });
    }
    match boxed_shape_of(alloc, bare) {
        Ok(shape) => Ok(Form { shape }),
        Err(ReadError::Memory) => Err(Refusal::Memory),
        Err(ReadError::NoReading) => {
            let rule = if begins_left_out(&bare.text) {
                Rule::G2
            } else {
                Rule::G1
            };
            Err(Refusal::Rule { rule, line })
        }
    }
}
