//! The variables of DO statements and implied DOs (ANSI X3.9-1978, 11.10.5 and 12.8.2.3).

ghost use Rattle.std.specs.Prelude.{◌≡◌};
ghost use Rattle.meaning.specs.LoopRules.{is_no_counter as is_no_counter_by};
ghost use Rattle.symbols.specs.SymbolsAt.{symbols_at};
ghost use Rattle.statement_rules.specs.Counters.{LeavesCounter, counts_by_none_in, has_none_in};

use crate::counters::counter_of;
use meaning::syntax::{DataType, Item, ListItem, ListItems, Shape};
use symbols::{Symbols, is_other_name, type_of_name};

/// Leaves the variable of a DO statement.
pub fn leave_counter(variables: &mut Vec<Vec<u8>>, item: &Item)
    ensures { LeavesCounter item.now variables.old.items variables.new.items }
{
    match counter_of(&*item.form.shape) {
        Some(_) => {
            let _ = variables.pop();
        }
        None => {}
    }
}

/// Whether a name is no INTEGER variable.
fn is_no_counter(symbols: &Symbols, name: &[u8]) -> bool
    ensures { result ≡ is_no_counter_by (symbols_at symbols.now) name.now }
{
    match type_of_name(symbols, name) {
        Some(DataType::Integer) => !is_other_name(symbols, name),
        Some(DataType::Logical) => true,
        None => true,
    }
}

/// Whether the variable of an implied DO in a list is none.
#[tactic(auto, using(rule_passes::proofs::Missing::any_both))]
fn has_no_counter(symbols: &Symbols, items: &ListItems) -> bool
    ensures { result ≡ has_none_in symbols.now items.now }
{
    match items {
        ListItems::Empty => false,
        ListItems::More(item, rest) => match item {
            ListItem::Value(_) => has_no_counter(symbols, rest),
            ListItem::Loop {
                items: inner,
                variable,
                ..
            } => {
                is_no_counter(symbols, variable)
                    || has_no_counter(symbols, inner)
                    || has_no_counter(symbols, rest)
            }
        },
    }
}

/// Whether the variable of a DO statement or of an implied DO is none.
pub fn counts_by_none(symbols: &Symbols, shape: &Shape) -> bool
    ensures { result ≡ counts_by_none_in symbols.now shape.now }
{
    match shape {
        Shape::Do { variable, .. } => is_no_counter(symbols, variable),
        Shape::Write { control: _, list } => has_no_counter(symbols, list),
        Shape::Print { list, .. } => has_no_counter(symbols, list),
        Shape::LogicalIf(_, statement) => counts_by_none(symbols, statement),
        _ => false,
    }
}
