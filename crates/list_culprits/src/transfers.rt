//! Labels that a transfer of control misses (ANSI X3.9-1978, 11.1, 11.2, 11.4 and 11.10.8).

ghost use Rattle.std.specs.Prelude.{◌≡◌, ◌∷◌, [], IfOk, map, option_map};
ghost use Rattle.std.specs.List.{find};
ghost use Rattle.meaning.specs.Characters.{number_of};
ghost use Rattle.meaning.specs.LabelRules.{has_label, not_executable};
ghost use Rattle.meaning.specs.Syntax.{shape_tree};
ghost use Rattle.meaning.specs.Trees.{item_tree, nested};
ghost use Rattle.symbols.specs.Listed.{tree_at, trees_at};
ghost use Rattle.symbols.specs.SymbolsAt.{symbols_at};
ghost use Rattle.symbols.specs.Stages.{IsBehind};
ghost use Rattle.rule_passes.specs.Telling.{Finds};
ghost use Rattle.statement_rules.specs.Reached.{is_not_executable};
ghost use Rattle.list_culprits.specs.Listed.{is_closed_at, reach_at, unit_at, unit_by};
ghost use Rattle.list_culprits.specs.Seats.{opener_at, seat_at, seat_passing, seats_of};
ghost use Rattle.list_culprits.specs.Told.{tell, told_at};
ghost use Rattle.list_culprits.specs.Transfers.{branch_kind, closed_kind, first_told, missed_at};
ghost use Rattle.list_culprits.specs.Transfers.{missed_in, targets_of, times, told_absent, told_in};
ghost use Rattle.list_culprits.specs.Transfers.{told_present};

use crate::culprit::{Kind, ListCulprit};
use crate::seats::{ItemTest, Opener, Seat, seat_of};
use meaning::number::number;
use meaning::syntax::{Item, Shape, Tree};
use std::alloc::{AllocError, Global};
use symbols::{Stage, Symbols, is_specification};

/// Whether a statement has the label that digits spell.
fn is_at(item: &Item, label: &[u8]) -> bool
    ensures { result ≡ has_label (number_of label.now) (item_tree item.now) }
{
    match item.label {
        Some(own) => u64::from(own) == number(label),
        None => false,
    }
}

/// The statements that have a label.
#[derive(Clone, Copy)]
struct Labelled<'a> {
    label: &'a [u8],
}

impl ItemTest for Labelled<'_> {
    ghost passes = { λ s. has_label (number_of s.label.now) };

    fn is(&self, item: &Item) -> bool {
        is_at(item, self.label)
    }
}

/// How often a label stands.
fn count_at(items: &[&Item], label: &[u8]) -> usize
    ensures { result ≡ times label.now (trees_at items.now) }
{
    let mut count = 0;
    for item in items {
        if is_at(item, label) {
            count += 1;
        }
    }
    count
}

/// The kind of an ELSE IF or ELSE statement.
fn kind_of_branch(shape: &Shape) -> Option<Kind>
    ensures { result ≡ branch_kind (shape_tree shape.now) }
{
    match shape {
        Shape::ElseIf(_) => Some(Kind::ElseIf),
        Shape::Else => Some(Kind::Else),
        _ => None,
    }
}

/// The kind of a statement that isn't executable.
fn kind_of_closed(shape: &Shape) -> Kind
    ensures { result ≡ closed_kind (shape_tree shape.now) }
{
    match shape {
        Shape::Program(_) => Kind::Program,
        Shape::Implicit(_) => Kind::Implicit,
        Shape::ImplicitNone => Kind::Implicit,
        Shape::Parameter(_) => Kind::Parameter,
        Shape::Integer(_) => Kind::Integer,
        Shape::Logical(_) => Kind::Logical,
        Shape::Dimension(_) => Kind::Dimension,
        Shape::Data(_) => Kind::Data,
        Shape::Format(_) => Kind::Format,
        _ => Kind::StatementFunction,
    }
}

/// Whether a statement isn't executable.
fn is_closed(symbols: &Symbols, stage: &Stage, item: &Item) -> bool
    ensures { Finds (IsBehind symbols.now stage.now) (is_not_executable symbols.now item.now)
        result }
{
    is_specification(&*item.form.shape) || stage.is_defining(symbols, item)
}

/// Whether a statement isn't executable and has a label.
fn closes(symbols: &Symbols, stage: &Stage, item: &Item, label: &[u8]) -> bool
    ensures { Finds (IsBehind symbols.now stage.now) (is_closed_at symbols.now item.now label.now)
        result }
{
    is_closed(symbols, stage, item) && is_at(item, label)
}

/// The first statement with a label that isn't executable.
fn first_closed<'a>(symbols: &Symbols, items: &[&'a Item], label: &[u8]) -> Option<&'a Item>
    ensures { option_map tree_at result
        ≡ find (has_label (number_of label.now))
        (not_executable (symbols_at symbols.now) [] (trees_at items.now)) }
{
    let mut stage = Stage::new();
    for item in items {
        if closes(symbols, &stage, item, label) {
            return Some(item);
        }
        stage.pass(symbols, item);
    }
    None
}

/// What is told of a label in what it stands in.
fn told_within<'a>(label: &'a [u8], openers: &[Opener]) -> ListCulprit<'a>
    ensures { told_at result ≡ told_in label.now (map opener_at openers.now) }
{
    match openers.first() {
        None => ListCulprit::Apart { label },
        Some(Opener::Range(head)) => ListCulprit::InRange {
            label,
            line: head.line,
        },
        Some(Opener::Block(head)) => ListCulprit::InBlock {
            label,
            line: head.line,
        },
    }
}

/// What is told of a label that isn't around. The `AllocError` comes where a growth was refused.
fn absent_label<'a>(
    alloc: Global,
    unit: &Tree,
    label: &'a [u8],
) -> Result<ListCulprit<'a>, AllocError>
    ensures { IfOk
        result (λ c. told_at c
        ≡ told_absent label.now
        (seat_passing (has_label (number_of label.now)) (seats_of (nested unit.now)))) }
{
    match seat_of(alloc, &Labelled { label }, unit)? {
        None => Ok(ListCulprit::Nowhere { label }),
        Some(seat) => Ok(match kind_of_branch(&*seat.item.form.shape) {
            Some(kind) => ListCulprit::Closed { label, kind },
            None => told_within(label, &seat.openers),
        }),
    }
}

/// What is told of a label that is around, if it is missed.
fn present_label<'a>(symbols: &Symbols, reach: &[&Item], label: &'a [u8]) -> Option<ListCulprit<'a>>
    ensures { tell result
        ≡ told_present (symbols_at symbols.now) (trees_at symbols.now.items.now)
        (trees_at reach.now)
        label.now }
{
    if count_at(reach, label) != count_at(symbols.items, label) {
        return Some(ListCulprit::Shared { label });
    }
    match first_closed(symbols, symbols.items, label) {
        None => None,
        Some(item) => Some(ListCulprit::Closed {
            label,
            kind: kind_of_closed(&*item.form.shape),
        }),
    }
}

/// What a transfer's labels are sought in.
#[derive(Clone, Copy)]
struct Search<'a> {
    alloc: Global,
    symbols: &'a Symbols<'a>,
    unit: &'a Tree,
    reach: &'a [&'a Item],
}

/// What is told of a label, if it is missed.
fn missed<'a>(search: &Search, label: &'a [u8]) -> Result<Option<ListCulprit<'a>>, AllocError>
    ensures { IfOk
        result (λ c. tell c ≡ missed_at (unit_at search.now) (reach_at search.now) label.now) }
{
    if count_at(search.reach, label) == 0 {
        Ok(Some(absent_label(search.alloc, search.unit, label)?))
    } else {
        Ok(present_label(search.symbols, search.reach, label))
    }
}

/// What is told of a label alone.
fn missed_alone<'a>(search: &Search, label: &'a [u8]) -> Result<Option<ListCulprit<'a>>, AllocError>
    ensures { IfOk
        result (λ c. tell c
        ≡ first_told (missed_at (unit_at search.now) (reach_at search.now)) (label.now ∷ [])) }
{
    match missed(search, label)? {
        Some(culprit) => Ok(Some(culprit)),
        None => Ok(None),
    }
}

/// What is told of the first of these labels that is missed.
fn missed_one<'a>(
    search: &Search,
    labels: &'a [Vec<u8>],
) -> Result<Option<ListCulprit<'a>>, AllocError>
    ensures { IfOk
        result (λ c. tell c
        ≡ first_told (missed_at (unit_at search.now) (reach_at search.now))
        (map (λ l. l.items) labels.now)) }
{
    for label in labels {
        match missed(search, label)? {
            Some(culprit) => return Ok(Some(culprit)),
            None => {}
        }
    }
    Ok(None)
}

/// What is told of the first of three labels that is missed.
fn missed_of_three<'a>(
    search: &Search,
    negative: &'a [u8],
    zero: &'a [u8],
    positive: &'a [u8],
) -> Result<Option<ListCulprit<'a>>, AllocError>
    ensures { IfOk
        result (λ c. tell c
        ≡ first_told (missed_at (unit_at search.now) (reach_at search.now))
        (negative.now ∷ (zero.now ∷ (positive.now ∷ [])))) }
{
    if let Some(culprit) = missed(search, negative)? {
        return Ok(Some(culprit));
    }
    if let Some(culprit) = missed(search, zero)? {
        return Ok(Some(culprit));
    }
    missed(search, positive)
}

/// What is told of the first label of a statement that is missed.
fn missed_by<'a>(search: &Search, shape: &'a Shape) -> Result<Option<ListCulprit<'a>>, AllocError>
    ensures { IfOk
        result (λ c. tell c
        ≡ first_told (missed_at (unit_at search.now) (reach_at search.now))
        (targets_of (shape_tree shape.now))) }
{
    match shape {
        Shape::GoTo(label) => missed_alone(search, label),
        Shape::ComputedGoTo { labels, .. } => missed_one(search, labels),
        Shape::ArithmeticIf {
            negative,
            zero,
            positive,
            ..
        } => missed_of_three(search, negative, zero, positive),
        Shape::LogicalIf(_, statement) => missed_by(search, statement),
        _ => Ok(None),
    }
}

/// K2: what is told of the first label of a statement that it misses.
pub fn missed_label<'a>(
    alloc: Global,
    symbols: &Symbols,
    unit: &Tree,
    seat: &Seat<'a>,
) -> Result<Option<ListCulprit<'a>>, AllocError>
    ensures { IfOk
        result (λ c. tell c ≡ missed_in (unit_by symbols.now unit.now) (seat_at seat.now)) }
{
    let search = Search {
        alloc,
        symbols,
        unit,
        reach: &seat.reach,
    };
    missed_by(&search, &*seat.item.form.shape)
}
