//! The statement of a line, and what breaks a rule there.

ghost use Rattle.std.specs.Prelude.{◌≡◌, ◌==◌, [], IfOk};
ghost use Rattle.meaning.specs.Trees.{flatten, item_tree, nested};
ghost use Rattle.meaning.specs.Uses.{is_defining as is_defining_behind};
ghost use Rattle.symbols.specs.Listed.{trees_at};
ghost use Rattle.symbols.specs.SymbolsAt.{symbols_at};
ghost use Rattle.symbols.specs.Stages.{IsBehind};
ghost use Rattle.culprits.specs.Culprits.{culprit_at, item_culprit_in, list_culprit_in, listed_in};
ghost use Rattle.culprits.specs.Placing.{at_line, item_line, seat_line};
ghost use Rattle.culprits.specs.Told.{tell};
ghost use Rattle.list_culprits.specs.Seats.{seat_at, seats_of};
ghost use Rattle.list_culprits.specs.Told.{tell as tell_list};

use crate::counts::miscounted_name;
use crate::culprit::Culprit;
use crate::functions::misdefined_function;
use crate::labels::repeated_label;
use crate::names::{real_name, unknown_function};
use crate::others::{
    data_culprit, name_culprit, number_culprit, output_culprit, size_culprit, type_culprit,
};
use list_culprits::{ItemTest, ListCulprit, Seat, looped_name, missed_label, seat_of};
use meaning::refusal::Rule;
use meaning::syntax::{Item, Tree};
use std::alloc::{AllocError, Global};
use symbols::{Stage, Symbols, items_of};

/// How far one has come behind statements.
fn stage_behind(symbols: &Symbols, before: &[&Item]) -> Stage
    ensures { IsBehind symbols.now result (trees_at before.now) }
{
    let mut stage = Stage::new();
    for item in before {
        stage.pass(symbols, item);
    }
    stage
}

/// Whether the statement behind these is that of a statement function.
fn is_defining(symbols: &Symbols, before: &[&Item], item: &Item) -> bool
    ensures { result
        ≡ is_defining_behind (symbols_at symbols.now) (trees_at before.now) (item_tree item.now) }
{
    stage_behind(symbols, before).is_defining(symbols, item)
}

/// What breaks a rule at the statement behind these.
fn culprit_in<'a>(
    alloc: Global,
    symbols: &Symbols,
    before: &[&Item],
    item: &'a Item,
    rule: Rule,
) -> Result<Option<Culprit<'a>>, AllocError>
    ensures { IfOk
        result (λ c. tell c
        ≡ item_culprit_in rule (trees_at symbols.now.items.now) (trees_at before.now)
        (item_tree item.now)) }
{
    let shape = &*item.form.shape;
    match rule {
        Rule::K1 => Ok(repeated_label(before, item.label)),
        Rule::K3 => real_name(alloc, symbols, is_defining(symbols, before, item), shape),
        Rule::K5 => type_culprit(alloc, symbols, is_defining(symbols, before, item), shape),
        Rule::K6 => number_culprit(alloc, symbols, before, item),
        Rule::K7 => size_culprit(alloc, symbols, before, item),
        Rule::K4 => name_culprit(alloc, symbols, before, item),
        Rule::K8 => miscounted_name(alloc, symbols, is_defining(symbols, before, item), shape),
        Rule::K10 => data_culprit(alloc, symbols, before, item),
        Rule::K11 => output_culprit(alloc, symbols, before, item),
        Rule::K12 => misdefined_function(alloc, symbols, before, item),
        Rule::K13 => unknown_function(alloc, symbols, is_defining(symbols, before, item), shape),
        Rule::C1 | Rule::C2 | Rule::C3 | Rule::C4 | Rule::C5 | Rule::C6 | Rule::C7 => Ok(None),
        Rule::G1 | Rule::G2 | Rule::G3 => Ok(None),
        Rule::N1 | Rule::N2 | Rule::N3 | Rule::N4 | Rule::N5 => Ok(None),
        Rule::K2 | Rule::K9 => Ok(None),
    }
}

/// What breaks a rule at the first of these statements that stands at a line.
#[tactic(auto, using(crate::proofs::Placing::at_hit, crate::proofs::Placing::at_miss))]
fn culprit_among<'a>(
    alloc: Global,
    symbols: &Symbols,
    items: &[&'a Item],
    rule: Rule,
    line: u32,
) -> Result<Option<Culprit<'a>>, AllocError>
    ensures { IfOk
        result (λ c. tell c
        ≡ at_line item_line (item_culprit_in rule (trees_at symbols.now.items.now)) line []
        (trees_at items.now)) }
{
    for (index, item) in items.iter().enumerate() {
        if item.line == line {
            return culprit_in(alloc, symbols, &items[..index], item, rule);
        }
    }
    Ok(None)
}

/// The statements that stand at a line.
#[derive(Clone, Copy)]
struct AtLine {
    line: u32,
}

impl ItemTest for AtLine {
    ghost passes = { λ s x. x.line == s.line };

    fn is(&self, item: &Item) -> bool {
        item.line == self.line
    }
}

/// What breaks a rule on lists at a statement in its seat.
fn culprit_in_seat<'a>(
    alloc: Global,
    symbols: &Symbols,
    unit: &Tree,
    rule: Rule,
    seat: &Seat<'a>,
) -> Result<Option<ListCulprit<'a>>, AllocError>
    requires { trees_at symbols.now.items.now ≡ flatten (nested unit.now) }
    ensures { IfOk
        result (λ c. tell_list c ≡ list_culprit_in rule (nested unit.now) (seat_at seat.now)) }
{
    match rule {
        Rule::K2 => missed_label(alloc, symbols, unit, seat),
        Rule::K9 => Ok(looped_name(symbols, seat)),
        Rule::C1 | Rule::C2 | Rule::C3 | Rule::C4 | Rule::C5 | Rule::C6 | Rule::C7 => Ok(None),
        Rule::G1 | Rule::G2 | Rule::G3 => Ok(None),
        Rule::N1 | Rule::N2 | Rule::N3 | Rule::N4 | Rule::N5 => Ok(None),
        Rule::K1 | Rule::K3 | Rule::K4 | Rule::K5 | Rule::K6 | Rule::K7 | Rule::K8 => Ok(None),
        Rule::K10 | Rule::K11 | Rule::K12 | Rule::K13 => Ok(None),
    }
}

/// The same among the culprits of all rules.
fn listed_culprit<'a>(
    alloc: Global,
    symbols: &Symbols,
    unit: &Tree,
    rule: Rule,
    seat: &Seat<'a>,
) -> Result<Option<Culprit<'a>>, AllocError>
    requires { trees_at symbols.now.items.now ≡ flatten (nested unit.now) }
    ensures { IfOk result (λ c. tell c ≡ listed_in rule (nested unit.now) (seat_at seat.now)) }
{
    match culprit_in_seat(alloc, symbols, unit, rule, seat)? {
        None => Ok(None),
        Some(culprit) => Ok(Some(Culprit::Listed { culprit })),
    }
}

/// What breaks a rule on lists at the first statement of a program unit that stands at a line.
fn list_culprit<'a>(
    alloc: Global,
    symbols: &Symbols,
    unit: &'a Tree,
    rule: Rule,
    line: u32,
) -> Result<Option<Culprit<'a>>, AllocError>
    requires { trees_at symbols.now.items.now ≡ flatten (nested unit.now) }
    ensures { IfOk
        result (λ c. tell c
        ≡ at_line seat_line (λ front z. listed_in rule (nested unit.now) z) line []
        (seats_of (nested unit.now))) }
{
    match seat_of(alloc, &AtLine { line }, unit)? {
        None => Ok(None),
        Some(seat) => listed_culprit(alloc, symbols, unit, rule, &seat),
    }
}

/// What breaks a rule K at the first statement of a program unit that stands at a line, by what its
/// statements say of names.
fn culprit_by<'a>(
    alloc: Global,
    symbols: &Symbols,
    items: &[&'a Item],
    unit: &'a Tree,
    rule: Rule,
    line: u32,
) -> Result<Option<Culprit<'a>>, AllocError>
    requires whole { trees_at items.now ≡ flatten (nested unit.now) }
    requires same { symbols.now.items.now ≡ items.now }
    ensures { IfOk result (λ c. tell c ≡ culprit_at rule line (nested unit.now)) }
{
    match culprit_among(alloc, symbols, items, rule, line)? {
        Some(culprit) => Ok(Some(culprit)),
        None => list_culprit(alloc, symbols, unit, rule, line),
    }
}

/// What breaks a rule K at the first statement of a program unit that stands at a line.
///
/// # Errors
///
/// `AllocError` only where a growth was refused.
pub fn culprit_of<'a>(
    alloc: Global,
    unit: &'a Tree,
    rule: Rule,
    line: u32,
) -> Result<Option<Culprit<'a>>, AllocError>
    ensures { IfOk result (λ c. tell c ≡ culprit_at rule line (nested unit.now)) }
{
    let items = items_of(alloc, unit)?;
    let symbols = Symbols::new(alloc, &*items)?;
    culprit_by(alloc, &symbols, &items, unit, rule, line)
}
