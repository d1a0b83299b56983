//! Variables of DO statements and implied DOs (ANSI X3.9-1978, 9.3, 11.10 and 12.8.2.3).

ghost use Rattle.std.specs.Prelude.{◌≡◌, ◌∷◌, [], ℕ, Bool, List, Some, map, option_map};
ghost use Rattle.std.specs.List.{find};
ghost use Rattle.std.specs.Str.{bytes_eq};
ghost use Rattle.meaning.specs.LoopRules.{is_no_counter, variables_set};
ghost use Rattle.meaning.specs.Surroundings.{controlled_by, loop_variables};
ghost use Rattle.meaning.specs.Syntax.{data_set_tree, list_items_tree, shape_tree};
ghost use Rattle.meaning.specs.Uses.{is_one_of};
ghost use Rattle.symbols.specs.Listed.{tree_at};
ghost use Rattle.symbols.specs.SymbolsAt.{symbols_at};
ghost use Rattle.finding.specs.Finding.{name_if};
ghost use Rattle.list_culprits.specs.Loops.{counter_of, implied_by, implied_in, implied_in_sets};
ghost use Rattle.list_culprits.specs.Loops.{is_counter, looped_in, told_counting, uncounted_in};
ghost use Rattle.list_culprits.specs.Seats.{counted_in, head_in, opener_at, seat_at};
ghost use Rattle.list_culprits.specs.Told.{tell};

use crate::culprit::ListCulprit;
use crate::seats::{Opener, Seat};
use meaning::syntax::{DataSet, DataType, Exprs, Item, ListItem, ListItems, Shape};
use symbols::{Symbols, is_other_name, type_of_name};

/// A test of names.
trait NameTest {
    /// Whether a name passes.
    ghost passes: { Self → List ℕ → Bool };

    /// Whether a name passes.
    fn is(&self, name: &[u8]) -> bool
        ensures { result ≡ passes self.now name.now };
}

/// A name, if it passes.
fn name_passing<'a, T: NameTest>(test: &T, name: &'a [u8]) -> Option<&'a [u8]>
    ensures { name_if result ≡ find (T.passes test.now) (name.now ∷ []) }
{
    if test.is(name) { Some(name) } else { None }
}

/// The first variable of an implied DO in a list that passes.
fn first_variable<'a, T: NameTest>(test: &T, items: &'a ListItems) -> Option<&'a [u8]>
    ensures { name_if result
        ≡ find (T.passes test.now) (loop_variables (list_items_tree items.now)) }
{
    match items {
        ListItems::Empty => None,
        ListItems::More(item, rest) => match item {
            ListItem::Value(_) => first_variable(test, rest),
            ListItem::Loop {
                items: inner,
                variable,
                ..
            } => {
                if test.is(variable) {
                    return Some(variable);
                }
                match first_variable(test, inner) {
                    Some(name) => Some(name),
                    None => first_variable(test, rest),
                }
            }
        },
    }
}

/// The first variable of a DO or an implied DO of a statement that passes.
fn first_controlling<'a, T: NameTest>(test: &T, shape: &'a Shape) -> Option<&'a [u8]>
    ensures { name_if result ≡ find (T.passes test.now) (controlled_by (shape_tree shape.now)) }
{
    match shape {
        Shape::Do { variable, .. } => name_passing(test, variable),
        Shape::Write { control: _, list } => first_variable(test, list),
        Shape::Print { list, .. } => first_variable(test, list),
        Shape::LogicalIf(_, statement) => first_controlling(test, statement),
        _ => None,
    }
}

/// The first variable that a statement sets and that passes.
fn first_set<'a, T: NameTest>(test: &T, shape: &'a Shape) -> Option<&'a [u8]>
    ensures { name_if result ≡ find (T.passes test.now) (variables_set (shape_tree shape.now)) }
{
    match shape {
        Shape::Assignment {
            name,
            subscripts,
            ..
        } => match subscripts {
            Exprs::Empty => name_passing(test, name),
            Exprs::More(_, _) => None,
        },
        Shape::LogicalIf(_, statement) => first_set(test, statement),
        _ => first_controlling(test, shape),
    }
}

/// The names that are no INTEGER variables.
#[derive(Clone, Copy)]
struct NoCounter<'a> {
    symbols: &'a Symbols<'a>,
}

impl NameTest for NoCounter<'_> {
    ghost passes = { λ s. is_no_counter (symbols_at s.symbols.now) };

    fn is(&self, name: &[u8]) -> bool {
        match type_of_name(self.symbols, name) {
            Some(DataType::Integer) => !is_other_name(self.symbols, name),
            Some(DataType::Logical) => true,
            None => true,
        }
    }
}

/// A name alone.
#[derive(Clone, Copy)]
struct Same<'a> {
    name: &'a [u8],
}

impl NameTest for Same<'_> {
    ghost passes = { λ s. bytes_eq s.name.now };

    fn is(&self, name: &[u8]) -> bool {
        self.name == name
    }
}

/// Whether a range counts with a name.
fn counts_with(opener: &Opener, name: &[u8]) -> bool
    ensures { result ≡ is_one_of (counted_in (opener_at opener.now)) name.now }
{
    match opener {
        Opener::Range(head) => match &*head.form.shape {
            Shape::Do { variable, .. } => name == variable.as_slice(),
            _ => false,
        },
        Opener::Block(_) => false,
    }
}

/// The statement with which a range or a block begins.
fn head_of<'a>(opener: &Opener<'a>) -> &'a Item
    ensures { tree_at result ≡ head_in (opener_at opener.now) }
{
    match opener {
        Opener::Range(head) => head,
        Opener::Block(head) => head,
    }
}

/// The innermost DO statement that counts with a name.
fn counter<'a>(openers: &[Opener<'a>], name: &[u8]) -> Option<&'a Item>
    ensures { option_map tree_at result ≡ counter_of (map opener_at openers.now) name.now }
{
    for opener in openers {
        if counts_with(opener, name) {
            return Some(head_of(opener));
        }
    }
    None
}

/// The names that DO statements around count with.
#[derive(Clone, Copy)]
struct Counters<'a> {
    openers: &'a [Opener<'a>],
}

impl NameTest for Counters<'_> {
    ghost passes = { λ s. is_counter (map opener_at s.openers.now) };

    fn is(&self, name: &[u8]) -> bool {
        match counter(self.openers, name) {
            Some(_) => true,
            None => false,
        }
    }
}

/// Whether a name is the variable of an implied DO in a list.
fn is_inside(items: &ListItems, name: &[u8]) -> bool
    ensures { result ≡ is_one_of (loop_variables (list_items_tree items.now)) name.now }
{
    match first_variable(&Same { name }, items) {
        Some(_) => true,
        None => false,
    }
}

/// The first implied DO in a list whose variable one inside it has.
fn implied<'a>(items: &'a ListItems) -> Option<&'a [u8]>
    ensures { name_if result ≡ implied_in (list_items_tree items.now) }
{
    match items {
        ListItems::Empty => None,
        ListItems::More(item, rest) => match item {
            ListItem::Value(_) => implied(rest),
            ListItem::Loop {
                items: inner,
                variable,
                ..
            } => {
                if is_inside(inner, variable) {
                    return Some(variable);
                }
                match implied(inner) {
                    Some(name) => Some(name),
                    None => implied(rest),
                }
            }
        },
    }
}

/// The first one in the lists of a DATA statement.
fn implied_of_data(sets: &[DataSet]) -> Option<&[u8]>
    ensures { name_if result ≡ implied_in_sets (map data_set_tree sets.now) }
{
    for set in sets {
        if let Some(name) = implied(&set.list) {
            return Some(name);
        }
    }
    None
}

/// The first one in a statement.
fn implied_of(shape: &Shape) -> Option<&[u8]>
    ensures { name_if result ≡ implied_by (shape_tree shape.now) }
{
    match shape {
        Shape::Write { control: _, list } => implied(list),
        Shape::Print { list, .. } => implied(list),
        Shape::Data(sets) => implied_of_data(sets),
        Shape::LogicalIf(_, statement) => implied_of(statement),
        _ => None,
    }
}

/// The first variable of a statement that is none.
fn uncounted<'a>(symbols: &Symbols, shape: &'a Shape) -> Option<ListCulprit<'a>>
    ensures { tell result ≡ uncounted_in (symbols_at symbols.now) (shape_tree shape.now) }
{
    match first_controlling(&NoCounter { symbols }, shape) {
        Some(name) => Some(ListCulprit::Uncounted { name }),
        None => None,
    }
}

/// What is told of a name that a DO statement around counts with.
fn told_of_counter<'a>(openers: &[Opener], name: &'a [u8]) -> Option<ListCulprit<'a>>
    ensures { tell result ≡ told_counting (map opener_at openers.now) (Some name.now) }
{
    match counter(openers, name) {
        None => None,
        Some(head) => Some(ListCulprit::Counting {
            name,
            line: head.line,
        }),
    }
}

/// The first variable that a statement sets and that a DO statement around counts with.
fn counting<'a>(openers: &[Opener], shape: &'a Shape) -> Option<ListCulprit<'a>>
    ensures { tell result
        ≡ told_counting (map opener_at openers.now)
        (find (is_counter (map opener_at openers.now)) (variables_set (shape_tree shape.now))) }
{
    match first_set(&Counters { openers }, shape) {
        None => None,
        Some(name) => told_of_counter(openers, name),
    }
}

/// K9: what is told of the first name by which a statement breaks the rule.
pub fn looped_name<'a>(symbols: &Symbols, seat: &Seat<'a>) -> Option<ListCulprit<'a>>
    ensures { tell result ≡ looped_in (symbols_at symbols.now) (seat_at seat.now) }
{
    let shape = &*seat.item.form.shape;
    if let Some(culprit) = uncounted(symbols, shape) {
        return Some(culprit);
    }
    if let Some(culprit) = counting(&seat.openers, shape) {
        return Some(culprit);
    }
    match implied_of(shape) {
        Some(name) => Some(ListCulprit::Implied { name }),
        None => None,
    }
}
