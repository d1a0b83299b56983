//! Variables of DO statements and implied DOs that are none, or that are set while they control one
//! (ANSI X3.9-1978, 9.3, 11.10 and 12.8.2.3).

ghost use Rattle.std.specs.Prelude.{◌≡◌, [], map, reverse, OnOk};
ghost use Rattle.std.specs.List.{list_any};
ghost use Rattle.meaning.specs.LoopRules.{breaks_loops, has_nested_variable, resets_in};
ghost use Rattle.meaning.specs.Surroundings.{loop_variables};
ghost use Rattle.meaning.specs.Syntax.{data_set_tree, list_items_tree, shape_tree};
ghost use Rattle.meaning.specs.Uses.{is_one_of};
ghost use Rattle.symbols.specs.SymbolsAt.{symbols_at};
ghost use Rattle.statement_rules.specs.Counters.{counters, has_one_in, sets_one};
ghost use Rattle.statement_rules.specs.Implied.{misuses_one, stands_in_own};
ghost use Rattle.statement_rules.specs.Reached.{AddsInBody};

use crate::counters::{enter_counter, is_counter};
use crate::loops::{counts_by_none, leave_counter};
use meaning::refusal::{Broken, Rule};
use meaning::syntax::{DataSet, Exprs, Item, ListItem, ListItems, Member, Shape};
use rule_passes::{Within, add_in};
use std::alloc::{AllocError, Global};
use symbols::Symbols;

/// Whether a name is the variable of an implied DO in a list.
#[tactic(auto, using(rule_passes::proofs::Missing::any_both))]
fn is_variable_in(items: &ListItems, name: &[u8]) -> bool
    ensures { result ≡ is_one_of (loop_variables (list_items_tree items.now)) name.now }
{
    match items {
        ListItems::Empty => false,
        ListItems::More(item, rest) => match item {
            ListItem::Value(_) => is_variable_in(rest, name),
            ListItem::Loop {
                items: inner,
                variable,
                ..
            } => {
                name == variable.as_slice()
                    || is_variable_in(inner, name)
                    || is_variable_in(rest, name)
            }
        },
    }
}

/// Whether an implied DO stands in one that has its variable.
fn has_own_inside(items: &ListItems) -> bool
    ensures { result ≡ stands_in_own (list_items_tree items.now) }
{
    match items {
        ListItems::Empty => false,
        ListItems::More(item, rest) => match item {
            ListItem::Value(_) => has_own_inside(rest),
            ListItem::Loop {
                items: inner,
                variable,
                ..
            } => {
                is_variable_in(inner, variable) || has_own_inside(inner) || has_own_inside(rest)
            }
        },
    }
}

/// Whether an implied DO in a list sets the variable of one around it.
#[tactic(auto, using(crate::proofs::Implying::stands_is))]
fn resets(items: &ListItems) -> bool
    ensures { result ≡ resets_in [] (list_items_tree items.now) }
{
    has_own_inside(items)
}

/// Whether one in the lists of a DATA statement does.
fn has_resetting(sets: &[DataSet]) -> bool
    ensures { result ≡ list_any (λ s. resets_in [] s.list) (map data_set_tree sets.now) }
{
    for set in sets {
        if resets(&set.list) {
            return true;
        }
    }
    false
}

/// Whether one in a statement does.
fn has_reset(shape: &Shape) -> bool
    ensures { result ≡ has_nested_variable (shape_tree shape.now) }
{
    match shape {
        Shape::Write { control: _, list } => resets(list),
        Shape::Print { list, .. } => resets(list),
        Shape::Data(sets) => has_resetting(sets),
        Shape::LogicalIf(_, statement) => has_reset(statement),
        _ => false,
    }
}

/// Whether an implied DO in a list has one of the variables.
#[tactic(auto, using(rule_passes::proofs::Missing::any_both))]
fn has_counter_in(variables: &[Vec<u8>], items: &ListItems) -> bool
    ensures { result ≡ has_one_in variables.now items.now }
{
    match items {
        ListItems::Empty => false,
        ListItems::More(item, rest) => match item {
            ListItem::Value(_) => has_counter_in(variables, rest),
            ListItem::Loop {
                items: inner,
                variable,
                ..
            } => {
                is_counter(variables, variable)
                    || has_counter_in(variables, inner)
                    || has_counter_in(variables, rest)
            }
        },
    }
}

/// Whether a statement sets one of the variables.
fn sets_counter(variables: &[Vec<u8>], shape: &Shape) -> bool
    ensures { result ≡ sets_one variables.now shape.now }
{
    match shape {
        Shape::Assignment {
            name,
            subscripts,
            ..
        } => match subscripts {
            Exprs::Empty => is_counter(variables, name),
            Exprs::More(_, _) => false,
        },
        Shape::Do { variable, .. } => is_counter(variables, variable),
        Shape::Write { control: _, list } => has_counter_in(variables, list),
        Shape::Print { list, .. } => has_counter_in(variables, list),
        Shape::LogicalIf(_, statement) => sets_counter(variables, statement),
        _ => false,
    }
}

/// Whether a statement breaks the rule, by the variables of the DO statements around.
fn misuses_variable(symbols: &Symbols, variables: &[Vec<u8>], shape: &Shape) -> bool
    ensures { result ≡ misuses_one symbols.now variables.now shape.now }
{
    counts_by_none(symbols, shape) || sets_counter(variables, shape) || has_reset(shape)
}

/// The variables of the DO statements around.
#[derive(Drop)]
struct Controlled<'a> {
    alloc: Global,
    symbols: &'a Symbols<'a>,
    /// Those variables, the outermost first.
    variables: Vec<Vec<u8>>,
}

impl Within for Controlled<'_> {
    ghost breaks = { λ s a x. breaks_loops (symbols_at s.symbols.now) a x };

    ghost knows = { λ s a. counters s.variables.items ≡ reverse a.variables };

    fn is_broken(&self, item: &Item) -> bool {
        misuses_variable(self.symbols, &self.variables, &*item.form.shape)
    }

    fn enter_range(&mut self, head: &Item, _range: &[Member]) -> Result<(), AllocError> {
        enter_counter(&mut self.variables, self.alloc, &*head.form.shape)
    }

    fn leave_range(&mut self, head: &Item, _range: &[Member]) {
        leave_counter(&mut self.variables, head);
    }

    fn enter_arm(&mut self, _body: &[Member]) -> Result<(), AllocError> {
        Ok(())
    }

    fn leave_arm(&mut self, _body: &[Member]) {}
}

/// K9: adds the pair of each line at which a DO statement or an implied DO has no INTEGER variable,
/// or one is set that controls one around.
pub fn add_bad_loop_variables(
    pairs: &mut Vec<Broken>,
    alloc: Global,
    symbols: &Symbols,
    members: &[Member],
) -> Result<(), AllocError>
    ensures { OnOk result
        (AddsInBody (breaks_loops (symbols_at symbols.now)) Rule.K9 members.now pairs.old.items
        pairs.new.items) }
{
    let mut controlled = Controlled {
        alloc,
        symbols,
        variables: Vec::new(alloc),
    };
    add_in(pairs, &mut controlled, Rule::K9, members)
}
