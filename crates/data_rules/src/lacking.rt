//! DATA statements with a constant that has no value, or an array that has no size: another rule is
//! broken where these are defined, and so this one counts no such statement (ANSI X3.9-1978, 5.1,
//! 8.6 and 9.1).

ghost use Rattle.std.specs.Prelude.{◌≡◌, ◌∷◌, [], OnOk};
ghost use Rattle.meaning.specs.Initial.{list_uses};
ghost use Rattle.meaning.specs.Syntax.{expr_tree, exprs_tree, limits_tree, list_items_tree};
ghost use Rattle.meaning.specs.Trees.{item_tree};
ghost use Rattle.meaning.specs.Uses.{limit_uses, uses_in, uses_in_all};
ghost use Rattle.data_rules.specs.Lacking.{any_lacks, constant_uses, count_uses, is_sizeless_at};
ghost use Rattle.data_rules.specs.Lacking.{lacks_name, names_kept, sets_lack, values_uses};
ghost use Rattle.data_rules.specs.Lacking.{GainsSizeless, GoOn};

use declarations::{Table, lacks_bound, pass_constants};
use expressions::Constants;
use meaning::syntax::{
    DataConstant, DataSet, DataValue, Declarator, Expr, Exprs, Item, Limits, ListItem, ListItems,
    RepeatCount,
};
use std::alloc::{AllocError, Global};
use symbols::{declarators_in, is_constant_name};

/// What is known where a DATA statement stands.
#[derive(Clone, Copy)]
pub struct Known<'a> {
    /// The constants so far.
    pub table: &'a Table<'a>,
    /// The arrays so far one of whose bounds has no value.
    pub sizeless: &'a [&'a [u8]],
}

/// Whether a name is one of an array without a size.
fn is_sizeless(sizeless: &[&[u8]], name: &[u8]) -> bool
    ensures { result ≡ is_sizeless_at sizeless.now name.now }
{
    for one in sizeless {
        if name == *one {
            return true;
        }
    }
    false
}

/// Whether a name is a constant's that has no value, or an array's that has no size.
fn lacks(known: &Known, name: &[u8]) -> bool
    ensures { result ≡ lacks_name known.now name.now }
{
    (is_constant_name(known.table.symbols, name) && known.table.constant(name).is_none())
        || is_sizeless(known.sizeless, name)
}

/// Whether a name in an expression is one of these.
#[cycle(lacking)]
#[tactic(auto, using(rule_passes::proofs::Missing::any_both))]
fn in_expression(known: &Known, expression: &Expr) -> bool
    ensures { result ≡ any_lacks known.now (uses_in (expr_tree expression.now)) }
{
    match expression {
        Expr::Number(_) => false,
        Expr::Truth(_) => false,
        Expr::Name(name) => lacks(known, name),
        Expr::Call(name) => lacks(known, name),
        Expr::Signed(_, operand) => in_expression(known, operand),
        Expr::Not(operand) => in_expression(known, operand),
        Expr::Paren(operand) => in_expression(known, operand),
        Expr::Binary(_, left, right) => in_expression(known, left) || in_expression(known, right),
        Expr::Element(name, subscripts) => lacks(known, name) || in_all(known, subscripts),
    }
}

/// Whether a name in a list of expressions is one of these.
#[cycle(lacking)]
#[tactic(auto, using(rule_passes::proofs::Missing::any_both))]
fn in_all(known: &Known, expressions: &Exprs) -> bool
    ensures { result ≡ any_lacks known.now (uses_in_all (exprs_tree expressions.now)) }
{
    match expressions {
        Exprs::Empty => false,
        Exprs::More(first, rest) => in_expression(known, first) || in_all(known, rest),
    }
}

/// Whether a name in the limits of an implied DO is one of these.
#[tactic(auto, using(rule_passes::proofs::Missing::any_both))]
fn in_limits(known: &Known, limits: &Limits) -> bool
    ensures { result ≡ any_lacks known.now (limit_uses (limits_tree limits.now)) }
{
    if in_expression(known, &limits.first) || in_expression(known, &limits.last) {
        return true;
    }
    match &limits.step {
        Some(step) => in_expression(known, step),
        None => false,
    }
}

/// Whether a name in a list is one of these.
#[tactic(auto, using(rule_passes::proofs::Missing::any_both))]
fn in_items(known: &Known, items: &ListItems) -> bool
    ensures { result ≡ any_lacks known.now (list_uses (list_items_tree items.now)) }
{
    match items {
        ListItems::Empty => false,
        ListItems::More(item, rest) => match item {
            ListItem::Value(value) => {
                if in_expression(known, value) {
                    return true;
                }
                in_items(known, rest)
            }
            ListItem::Loop { items, limits, .. } => {
                if in_items(known, items) {
                    return true;
                }
                if in_limits(known, limits) {
                    return true;
                }
                in_items(known, rest)
            }
        },
    }
}

/// Whether a repeat count is one of these.
fn in_count(known: &Known, repeat_count: &Option<RepeatCount>) -> bool
    ensures { result ≡ any_lacks known.now (count_uses repeat_count.now) }
{
    match repeat_count {
        Some(RepeatCount::Name(name)) => lacks(known, name),
        Some(RepeatCount::Number(_)) => false,
        None => false,
    }
}

/// Whether a constant is one of these.
fn in_constant(known: &Known, constant: &DataConstant) -> bool
    ensures { result ≡ any_lacks known.now (constant_uses constant.now) }
{
    match constant {
        DataConstant::Name(name) => lacks(known, name),
        DataConstant::Number(_, _) => false,
        DataConstant::Truth(_) => false,
    }
}

/// Whether one among the values of a set is.
#[tactic(auto, using(rule_passes::proofs::Missing::any_both))]
fn in_values(known: &Known, values: &[DataValue]) -> bool
    ensures { result ≡ any_lacks known.now (values_uses values.now) }
{
    for value in values {
        if in_count(known, &value.repeat_count) || in_constant(known, &value.constant) {
            return true;
        }
    }
    false
}

/// Whether a name in the sets of a DATA statement is a constant's that has no value, or an array's
/// that has no size.
#[tactic(auto, using(rule_passes::proofs::Missing::any_both))]
pub fn lack_value(known: &Known, sets: &[DataSet]) -> bool
    ensures { result ≡ sets_lack known.now sets.now }
{
    for set in sets {
        if in_items(known, &set.list) || in_values(known, &set.values) {
            return true;
        }
    }
    false
}

/// Adds the name of a declarator, if one of its bounds has no value.
fn add_one<'a>(
    sizeless: &mut Vec<&'a [u8]>,
    table: &Table,
    declarator: &'a Declarator,
) -> Result<(), AllocError>
    ensures { OnOk result
        (GainsSizeless table.now (declarator.now ∷ []) sizeless.old sizeless.new) }
{
    if lacks_bound(table, declarator) {
        sizeless.push(declarator.name.as_slice())?;
    }
    Ok(())
}

/// Adds the names of declarators one of whose bounds has no value.
fn add_sizeless<'a>(
    sizeless: &mut Vec<&'a [u8]>,
    table: &Table,
    declarators: &'a [Declarator],
) -> Result<(), AllocError>
    ensures { OnOk result (GainsSizeless table.now declarators.now sizeless.old sizeless.new) }
{
    for declarator in declarators {
        add_one(sizeless, table, declarator)?;
    }
    Ok(())
}

/// Passes one statement more: its constants are known behind it, and which of its arrays have no
/// size. The `AllocError` comes where a growth was refused.
pub fn pass_names<'a>(
    table: &mut Table,
    sizeless: &mut Vec<&'a [u8]>,
    alloc: Global,
    item: &'a Item,
) -> Result<(), AllocError>
    ensures symbols { OnOk result (table.new.symbols ≡ table.old.symbols) }
    ensures known { OnOk result
        (GoOn table.old table.new (names_kept sizeless.old.items) (names_kept sizeless.new.items)
        (item_tree item.now)) }
{
    add_sizeless(sizeless, table, declarators_in(&*item.form.shape))?;
    pass_constants(table, alloc, item)?;
    Ok(())
}
