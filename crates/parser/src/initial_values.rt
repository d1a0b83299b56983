//! DATA statements.

ghost use Rattle.std.specs.Prelude.{◌≡◌, ◌+◌, Bool, length, map};
ghost use Rattle.meaning.specs.Syntax.{ListItemsTree, expr_tree, list_item_tree, list_items_tree};
ghost use Rattle.meaning.specs.Syntax.{data_constant_tree, repeat_tree, data_value_tree};
ghost use Rattle.meaning.specs.Syntax.{data_set_tree, shape_tree};
ghost use Rattle.meaning.specs.Spelling.{is_data_value as data_value, is_data_item as data_item};
ghost use Rattle.meaning.specs.Spelling.{are_data_items as data_items};
ghost use Rattle.meaning.specs.Spelling.{begins_without_comma as uncommaed};
ghost use Rattle.meaning.specs.Reading.{number_behind_sign, unsigned_at, data_constant_at};
ghost use Rattle.meaning.specs.Reading.{begins_repeat as repeat_first, repeat_of};
ghost use Rattle.meaning.specs.Reading.{repeated_value_at, data_value_at, separated_at};
ghost use Rattle.meaning.specs.Reading.{data_list_at, data_set_at, data_sets_of, initializing_of};
ghost use Rattle.parser.specs.Behind.{set_with, data_list_behind};
ghost use Rattle.parser.specs.Reports.{Agrees};

use crate::list::read_items;
use crate::read_error::ReadError;
use crate::statement::split_comma;
use crate::token::{
    behind, expect, is_number, read_name, read_sign, read_truth, split_alphanumerics, split_digits,
};
use lexer::{begins, is_symbolic_name};
use meaning::syntax::{
    DataConstant, DataSet, DataValue, Expr, ListItem, ListItems, RepeatCount, Shape, Sign,
};
use std::alloc::Global;

/// The level of names and elements, of which a list in a DATA statement is made.
const PRIMARY: u8 = 8;

/// An integer constant with a sign, if it has one.
#[tactic(auto, unfolding(meaning::specs::Reading::number_behind_sign, meaning::specs::Reading::when))]
fn read_number(
    alloc: Global,
    sign: Option<Sign>,
    text: &[u8],
) -> Result<(DataConstant, &[u8]), ReadError>
    ensures { Agrees (λ x. (data_constant_tree x.0, x.1.now)) result
        (number_behind_sign sign text.now) }
{
    let (digits, rest) = split_digits(text);
    if !is_number(digits) {
        return Err(ReadError::NoReading);
    }
    let digits = Vec::from_slice(alloc, digits)?;
    Ok((DataConstant::Number(sign, digits), rest))
}

/// A constant without a sign.
#[tactic(auto, unfolding(meaning::specs::Reading::unsigned_at))]
fn read_unsigned(alloc: Global, text: &[u8]) -> Result<(DataConstant, &[u8]), ReadError>
    ensures { Agrees (λ x. (data_constant_tree x.0, x.1.now)) result (unsigned_at text.now) }
{
    let (first, _) = text.split_first().ok_or(ReadError::NoReading)?;
    if first.is_ascii_digit() {
        return read_number(alloc, None, text);
    }
    if *first == b'.' {
        let (value, rest) = read_truth(text).ok_or(ReadError::NoReading)?;
        return Ok((DataConstant::Truth(value), rest));
    }
    let (name, rest) = read_name(alloc, text)?;
    Ok((DataConstant::Name(name), rest))
}

/// A constant: an integer constant with a sign or without one, a logical constant, or a name (ANSI
/// X3.9-1978, 9.1).
#[tactic(auto, unfolding(meaning::specs::Reading::data_constant_at, meaning::specs::Reading::either))]
fn read_constant(alloc: Global, text: &[u8]) -> Result<(DataConstant, &[u8]), ReadError>
    ensures { Agrees (λ x. (data_constant_tree x.0, x.1.now)) result (data_constant_at text.now) }
{
    match read_sign(text) {
        None => read_unsigned(alloc, text),
        Some((sign, rest)) => read_number(alloc, Some(sign), rest),
    }
}

/// Whether letters and digits stand at the front with an asterisk behind them.
#[tactic(auto, unfolding(meaning::specs::Reading::begins_repeat))]
fn begins_repeat(text: &[u8]) -> bool
    ensures { result ≡ repeat_first text.now }
{
    let (_, rest) = split_alphanumerics(text);
    begins(rest, b"*")
}

/// A repeat count: an integer constant or a name.
#[tactic(auto, unfolding(meaning::specs::Reading::repeat_of, meaning::specs::Reading::when))]
fn read_repeat(alloc: Global, word: &[u8]) -> Result<RepeatCount, ReadError>
    ensures { Agrees (λ x. repeat_tree x) result (repeat_of word.now) }
{
    if is_number(word) {
        return Ok(RepeatCount::Number(Vec::from_slice(alloc, word)?));
    }
    if !is_symbolic_name(word) {
        return Err(ReadError::NoReading);
    }
    Ok(RepeatCount::Name(Vec::from_slice(alloc, word)?))
}

/// A repeat count, an asterisk and a constant.
#[tactic(auto, unfolding(meaning::specs::Reading::repeated_value_at))]
fn read_repeated_value(alloc: Global, text: &[u8]) -> Result<(DataValue, &[u8]), ReadError>
    ensures { Agrees (λ x. (data_value_tree x.0, x.1.now)) result (repeated_value_at text.now) }
{
    let (word, rest) = split_alphanumerics(text);
    let count = read_repeat(alloc, word)?;
    let rest = expect(b"*", rest)?;
    let (constant, rest) = read_constant(alloc, rest)?;
    Ok((
        DataValue {
            repeat_count: Some(count),
            constant,
        },
        rest,
    ))
}

/// A constant with a repeat count or without one.
#[tactic(auto, unfolding(meaning::specs::Reading::data_value_at))]
fn read_data_value(alloc: Global, text: &[u8]) -> Result<(DataValue, &[u8]), ReadError>
    ensures { Agrees (λ x. (data_value_tree x.0, x.1.now)) result (data_value_at text.now) }
{
    if begins_repeat(text) {
        return read_repeated_value(alloc, text);
    }
    let (constant, rest) = read_constant(alloc, text)?;
    Ok((
        DataValue {
            repeat_count: None,
            constant,
        },
        rest,
    ))
}

/// Constants with commas between, one at least.
fn read_data_values(alloc: Global, text: &[u8]) -> Result<(Vec<DataValue>, &[u8]), ReadError>
    ensures { Agrees (λ x. (map data_value_tree x.0.items, x.1.now)) result
        (separated_at data_value_at (length text.now + 1) text.now) }
{
    let mut list = Vec::new(alloc);
    let mut rest = text;
    for _ in 0..text.len() + 1 {
        let (one, after) = read_data_value(alloc, rest)?;
        list.push(one)?;
        match behind(b",", after) {
            None => return Ok((list, after)),
            Some(more) => rest = more,
        }
    }
    Err(ReadError::NoReading)
}

/// Whether an expression is an element, or outside implied DOs a name.
fn is_data_value(outside: bool, value: &Expr) -> bool
    ensures { result ≡ data_value outside (expr_tree value.now) }
{
    match value {
        Expr::Number(_) => false,
        Expr::Truth(_) => false,
        Expr::Name(_) => outside,
        Expr::Signed(_, _) => false,
        Expr::Not(_) => false,
        Expr::Binary(_, _, _) => false,
        Expr::Paren(_) => false,
        Expr::Element(_, _) => true,
        Expr::Call(_) => false,
    }
}

/// Whether an item is a name, an element or an implied DO with elements and implied DOs.
#[cycle(data_items)]
fn is_data_item(outside: bool, item: &ListItem) -> bool
    ensures { result ≡ data_item outside (list_item_tree item.now) }
{
    match item {
        ListItem::Value(value) => is_data_value(outside, value),
        ListItem::Loop {
            items,
            variable: _,
            limits: _,
        } => are_data_items(false, items),
    }
}

/// Whether each item is one that may stand in a DATA statement, inside implied DOs no name.
#[cycle(data_items)]
fn are_data_items(outside: bool, items: &ListItems) -> bool
    ensures { result ≡ data_items outside (list_items_tree items.now) }
{
    match items {
        ListItems::Empty => true,
        ListItems::More(first, others) => is_data_item(outside, first)
            && are_data_items(outside, others),
    }
}

/// The list before the constants.
#[tactic(auto, unfolding(meaning::specs::Reading::data_list_at, meaning::specs::Reading::when))]
fn read_data_list(alloc: Global, text: &[u8]) -> Result<(ListItems, &[u8]), ReadError>
    ensures { Agrees (λ x. (list_items_tree x.0, x.1.now)) result (data_list_at text.now) }
{
    let (list, rest) = read_items(alloc, text.len() + 1, PRIMARY, text)?;
    if !are_data_items(true, &list) {
        drop(list);
        return Err(ReadError::NoReading);
    }
    Ok((list, rest))
}

/// Constants between slashes, behind their list.
#[tactic(auto, unfolding(crate::specs::Behind::data_list_behind))]
fn read_set_values(alloc: Global, text: &[u8]) -> Result<(Vec<DataValue>, &[u8]), ReadError>
    ensures { (comma : Bool) (xs : ListItemsTree) →
        Agrees (λ x. (set_with comma xs (map data_value_tree x.0.items), x.1.now)) result
        (data_list_behind comma xs text.now) }
{
    let rest = expect(b"/", text)?;
    let (values, rest) = read_data_values(alloc, rest)?;
    match behind(b"/", rest) {
        None => {
            drop(values);
            Err(ReadError::NoReading)
        }
        Some(rest) => Ok((values, rest)),
    }
}

/// A list and its constants between slashes, with a comma before them or none.
#[tactic(auto, unfolding(meaning::specs::Reading::data_set_at, crate::specs::Behind::data_list_behind))]
fn read_data_set(alloc: Global, text: &[u8]) -> Result<(DataSet, &[u8]), ReadError>
    ensures { Agrees (λ x. (data_set_tree x.0, x.1.now)) result (data_set_at text.now) }
{
    let (comma, rest) = split_comma(text);
    let (list, rest) = read_data_list(alloc, rest)?;
    match read_set_values(alloc, rest) {
        Err(error) => {
            drop(list);
            Err(error)
        }
        Ok((values, rest)) => Ok((
            DataSet {
                comma,
                list,
                values,
            },
            rest,
        )),
    }
}

/// The rest of a text: lists with their constants.
fn read_data_sets(alloc: Global, text: &[u8]) -> Result<Vec<DataSet>, ReadError>
    ensures { Agrees (λ x. map data_set_tree x.items) result
        (data_sets_of (length text.now + 1) text.now) }
{
    let mut sets = Vec::new(alloc);
    let mut rest = text;
    for _ in 0..text.len() + 1 {
        if rest.is_empty() {
            return Ok(sets);
        }
        let (set, after) = read_data_set(alloc, rest)?;
        sets.push(set)?;
        rest = after;
    }
    Err(ReadError::NoReading)
}

/// Whether there is a list, and no comma before the first.
fn begins_without_comma(sets: &[DataSet]) -> bool
    ensures { result ≡ uncommaed (map data_set_tree sets.now) }
{
    match sets.first() {
        None => false,
        Some(set) => !set.comma,
    }
}

/// A DATA statement (ANSI X3.9-1978, 9.1).
#[tactic(auto, unfolding(meaning::specs::Reading::initializing_of, meaning::specs::Reading::when))]
pub fn read_data(alloc: Global, text: &[u8]) -> Result<Shape, ReadError>
    ensures { Agrees (λ x. shape_tree x) result (initializing_of text.now) }
{
    let rest = expect(b"DATA", text)?;
    let sets = read_data_sets(alloc, rest)?;
    if !begins_without_comma(&sets) {
        return Err(ReadError::NoReading);
    }
    Ok(Shape::Data(sets))
}
