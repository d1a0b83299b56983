//! The lists of WRITE, PRINT and DATA statements.

ghost use Rattle.std.specs.Prelude.{◌≡◌, IfOk, map};
ghost use Rattle.meaning.specs.Syntax.{ListItemsTree, loop_item, no_items, more_items, limits_tree};
ghost use Rattle.meaning.specs.Syntax.{list_item_tree, list_items_tree};
ghost use Rattle.meaning.specs.Reading.{begins_control as control_first, ends_list as list_end};
ghost use Rattle.meaning.specs.Reading.{value_item_at, loop_item_at, item_at, items_at, list_of};
ghost use Rattle.meaning.specs.Reading.{list_behind_comma};
ghost use Rattle.parser.specs.Behind.{loop_behind};
ghost use Rattle.parser.specs.Reports.{Agrees};
ghost use Rattle.parser.specs.Rows.{items_before};

use crate::expression::read_expression_from;
use crate::read_error::ReadError;
use crate::statement::read_limits;
use crate::token::{behind, expect, read_name, split_alphanumerics};
use lexer::{begins, has_equals_sign, is_symbolic_name};
use meaning::syntax::{Limits, ListItem, ListItems};
use std::alloc::{AllocError, Global};

/// Whether a text begins with a name and an equals sign, as what controls an implied DO.
#[tactic(auto, unfolding(meaning::specs::Reading::begins_control))]
fn begins_control(text: &[u8]) -> bool
    ensures { result ≡ control_first text.now }
{
    let (name, rest) = split_alphanumerics(text);
    is_symbolic_name(name) && begins(rest, b"=")
}

/// Whether no comma stands at the front, or a comma before what controls an implied DO.
#[tactic(auto, unfolding(meaning::specs::Reading::ends_list, meaning::specs::Reading::either))]
fn ends_list(text: &[u8]) -> bool
    ensures { result ≡ list_end text.now }
{
    match behind(b",", text) {
        None => true,
        Some(rest) => begins_control(rest),
    }
}

/// An item before others.
fn items_with(alloc: Global, first: ListItem, others: ListItems) -> Result<ListItems, AllocError>
    ensures { IfOk
        result (λ xs. list_items_tree xs
        ≡ more_items (list_item_tree first) (list_items_tree others)) }
{
    match Box::new(alloc, others) {
        Err(refused) => {
            drop(first);
            Err(refused.into())
        }
        Ok(others) => Ok(ListItems::More(first, others)),
    }
}

/// The items of a row, put together from the last one to the first.
fn items_of(alloc: Global, row: Vec<ListItem>) -> Result<ListItems, AllocError>
    ensures { IfOk
        result (λ xs. list_items_tree xs ≡ items_before (map list_item_tree row.items) no_items) }
{
    let mut row = row;
    let mut items = ListItems::Empty;
    while let Some(item) = row.pop() {
        items = items_with(alloc, item, items)?;
    }
    Ok(items)
}

/// An expression of a level.
#[tactic(auto, unfolding(meaning::specs::Reading::value_item_at))]
fn read_value_item(alloc: Global, least: u8, text: &[u8]) -> Result<(ListItem, &[u8]), ReadError>
    ensures { Agrees (λ x. (list_item_tree x.0, x.1.now)) result (value_item_at least text.now) }
{
    let (value, rest) = read_expression_from(alloc, least, text)?;
    Ok((ListItem::Value(value), rest))
}

/// What controls an implied DO, behind its items: a comma, a name, an equals sign, limits and the
/// closing parenthesis.
#[tactic(auto, unfolding(crate::specs::Behind::loop_behind))]
fn read_loop_control(alloc: Global, text: &[u8]) -> Result<(Vec<u8>, Limits, &[u8]), ReadError>
    ensures { (xs : ListItemsTree) →
        Agrees (λ x. (loop_item xs x.0.items (limits_tree x.1), x.2.now)) result
        (loop_behind xs text.now) }
{
    let rest = expect(b",", text)?;
    let (variable, rest) = read_name(alloc, rest)?;
    let rest = expect(b"=", rest)?;
    let (limits, rest) = read_limits(alloc, rest)?;
    match behind(b")", rest) {
        None => {
            drop(limits);
            Err(ReadError::NoReading)
        }
        Some(rest) => Ok((variable, limits, rest)),
    }
}

/// An implied DO of items and what controls it.
fn loop_with(
    alloc: Global,
    items: ListItems,
    variable: Vec<u8>,
    limits: Limits,
) -> Result<ListItem, AllocError>
    ensures { IfOk
        result (λ x. list_item_tree x
        ≡ loop_item (list_items_tree items) variable.items (limits_tree limits)) }
{
    match Box::new(alloc, items) {
        Err(refused) => {
            drop(limits);
            Err(refused.into())
        }
        Ok(items) => Ok(ListItem::Loop {
            items,
            variable,
            limits,
        }),
    }
}

/// An implied DO behind its opening parenthesis (ANSI X3.9-1978, 9.3 and 12.8.2.3).
#[cycle(items)]
#[tactic(auto, unfolding(meaning::specs::Reading::loop_item_at, crate::specs::Behind::loop_behind))]
fn read_loop_item(
    alloc: Global,
    most: usize,
    least: u8,
    text: &[u8],
) -> Result<(ListItem, &[u8]), ReadError>
    ensures { Agrees (λ x. (list_item_tree x.0, x.1.now)) result
        (loop_item_at (items_at least most) text.now) }
{
    let (items, rest) = read_items(alloc, most, least, text)?;
    match read_loop_control(alloc, rest) {
        Err(error) => {
            drop(items);
            Err(error)
        }
        Ok((variable, limits, rest)) => { Ok((loop_with(alloc, items, variable, limits)?, rest)) }
    }
}

/// An expression, or an implied DO: its parenthesis has an equals sign before the one that closes
/// it.
#[cycle(items)]
#[tactic(auto, unfolding(meaning::specs::Reading::item_at, meaning::specs::Reading::either))]
fn read_item(
    alloc: Global,
    most: usize,
    least: u8,
    text: &[u8],
) -> Result<(ListItem, &[u8]), ReadError>
    ensures { Agrees (λ x. (list_item_tree x.0, x.1.now)) result
        (item_at least (items_at least most) text.now) }
{
    if let Some(rest) = behind(b"(", text) {
        if has_equals_sign(rest) {
            return read_loop_item(alloc, most, least, rest);
        }
    }
    read_value_item(alloc, least, text)
}

/// Items with commas between, one at least and so many at most: read into a row, so that none takes
/// a stack frame of its own.
#[cycle(items)]
pub fn read_items(
    alloc: Global,
    most: usize,
    least: u8,
    text: &[u8],
) -> Result<(ListItems, &[u8]), ReadError>
    ensures { Agrees (λ x. (list_items_tree x.0, x.1.now)) result (items_at least most text.now) }
{
    let mut row = Vec::new(alloc);
    let mut rest = text;
    for turn in 0..most {
        let (item, after) = read_item(alloc, most - (turn + 1), least, rest)?;
        row.push(item)?;
        if ends_list(after) {
            return Ok((items_of(alloc, row)?, after));
        }
        match behind(b",", after) {
            None => return Err(ReadError::NoReading),
            Some(more) => rest = more,
        }
    }
    Err(ReadError::NoReading)
}

/// The rest of a text: items, or nothing.
#[tactic(auto, unfolding(meaning::specs::Reading::list_of))]
pub fn read_list(alloc: Global, text: &[u8]) -> Result<ListItems, ReadError>
    ensures { Agrees (λ x. list_items_tree x) result (list_of text.now) }
{
    if text.is_empty() {
        return Ok(ListItems::Empty);
    }
    let (list, rest) = read_items(alloc, text.len() + 1, 0, text)?;
    if !rest.is_empty() {
        drop(list);
        return Err(ReadError::NoReading);
    }
    Ok(list)
}

/// The rest of a text: a comma and items, or nothing.
#[tactic(auto, unfolding(meaning::specs::Reading::list_behind_comma, meaning::specs::Reading::when))]
pub fn read_list_behind_comma(alloc: Global, text: &[u8]) -> Result<ListItems, ReadError>
    ensures { Agrees (λ x. list_items_tree x) result (list_behind_comma text.now) }
{
    match text.split_first() {
        None => Ok(ListItems::Empty),
        Some((first, rest)) => {
            if *first != b',' {
                return Err(ReadError::NoReading);
            }
            let (list, rest) = read_items(alloc, rest.len() + 1, 0, rest)?;
            if !rest.is_empty() {
                drop(list);
                return Err(ReadError::NoReading);
            }
            Ok(list)
        }
    }
}
