//! Transfers of control and the statements that they reach (ANSI X3.9-1978, 11.1, 11.2, 11.4 and
//! 11.10.8).

ghost use Rattle.std.specs.Prelude.{◌≡◌, ◌≤◌, ◌^◌, MatchOption, IfOk, OnOk};
ghost use Rattle.meaning.specs.Characters.{number_of};
ghost use Rattle.symbols.specs.Stages.{IsBehind};
ghost use Rattle.rule_passes.specs.Telling.{Finds};
ghost use Rattle.statement_rules.specs.Counted.{AreCounts};
ghost use Rattle.statement_rules.specs.Reached.{AddsMissed, AreClosed, Closes, IsAround};
ghost use Rattle.statement_rules.specs.Reached.{is_not_executable, misses_by, misses_label};
ghost use Rattle.statement_rules.specs.Reached.{misses_one_of, shape_misses};

use crate::counts::{LinesByLabel, add_label, count_of};
use crate::reach::{add_list, take_list};
use meaning::number::number;
use meaning::refusal::{Broken, Rule};
use meaning::syntax::{Item, Member, Shape};
use rule_passes::{Within, add_in};
use std::alloc::{AllocError, Global};
use std::collections::{BTreeMap, BTreeSet};
use symbols::{Stage, Symbols, is_specification};

/// The label that digits spell, if it is below 2^32.
pub fn label_of(digits: &[u8]) -> Option<u32>
    ensures { MatchOption result (2 ^ 32 ≤ number_of digits.now) (λ s. s ≡ number_of digits.now) }
{
    let label = number(digits);
    if label > 0xffff_ffff {
        None
    } else {
        Some(label as u32)
    }
}

/// What is known of labels while transfers are looked at.
#[derive(Drop)]
pub struct Transfers<'a> {
    alloc: Global,
    /// Where each stands in the program unit.
    all: &'a LinesByLabel,
    /// Those of statements that aren't executable.
    closed: &'a BTreeSet<u32>,
    /// Where each stands in the lists around.
    reach: LinesByLabel,
}

/// Whether a transfer misses the label that digits spell.
fn misses(transfers: &Transfers, digits: &[u8]) -> bool
    ensures { Finds (IsAround transfers.now) (misses_label transfers.now digits.now) result }
{
    match label_of(digits) {
        None => true,
        Some(label) => {
            let count = count_of(&transfers.reach, label);
            count == 0
                || count != count_of(transfers.all, label)
                || transfers.closed.contains(&label)
        }
    }
}

/// Whether a transfer misses one of the labels.
fn misses_one(transfers: &Transfers, labels: &[Vec<u8>]) -> bool
    ensures { Finds (IsAround transfers.now) (misses_one_of transfers.now labels.now) result }
{
    for label in labels {
        if misses(transfers, label) {
            return true;
        }
    }
    false
}

/// Whether a statement transfers to a label that it can't reach.
fn transfer_misses(transfers: &Transfers, shape: &Shape) -> bool
    ensures { Finds (IsAround transfers.now) (shape_misses transfers.now shape.now) result }
{
    match shape {
        Shape::GoTo(label) => misses(transfers, label),
        Shape::ComputedGoTo { labels, .. } => misses_one(transfers, labels),
        Shape::ArithmeticIf {
            negative,
            zero,
            positive,
            ..
        } => {
            if misses(transfers, negative) {
                return true;
            }
            if misses(transfers, zero) {
                return true;
            }
            misses(transfers, positive)
        }
        Shape::LogicalIf(_, statement) => transfer_misses(transfers, statement),
        _ => false,
    }
}

impl Within for Transfers<'_> {
    ghost breaks = { λ s a x. misses_by s x.shape a };

    ghost knows = { λ s a. IsAround s a };

    fn is_broken(&self, item: &Item) -> bool {
        transfer_misses(self, &*item.form.shape)
    }

    fn enter_range(&mut self, _head: &Item, range: &[Member]) -> Result<(), AllocError> {
        add_list(&mut self.reach, self.alloc, range)
    }

    fn leave_range(&mut self, _head: &Item, range: &[Member]) {
        take_list(&mut self.reach, range);
    }

    fn enter_arm(&mut self, body: &[Member]) -> Result<(), AllocError> {
        add_list(&mut self.reach, self.alloc, body)
    }

    fn leave_arm(&mut self, body: &[Member]) {
        take_list(&mut self.reach, body);
    }
}

/// Where labels stand at statements.
fn lines_of(alloc: Global, items: &[&Item]) -> Result<LinesByLabel, AllocError>
    ensures { IfOk result (AreCounts items.now) }
{
    let mut lines = BTreeMap::new(alloc);
    for item in items {
        add_label(&mut lines, alloc, item.label, item.line)?;
    }
    Ok(lines)
}

/// Whether a statement isn't executable.
fn is_closed(symbols: &Symbols, stage: &Stage, item: &Item) -> bool
    ensures { Finds (IsBehind symbols.now stage.now) (is_not_executable symbols.now item.now)
        result }
{
    is_specification(&*item.form.shape) || stage.is_defining(symbols, item)
}

/// Puts a label to others, if it is to be and there is one.
fn close_label(
    closed: &mut BTreeSet<u32>,
    closes: bool,
    label: Option<u32>,
) -> Result<(), AllocError>
    ensures { OnOk result (Closes closes label closed.old closed.new) }
{
    if !closes {
        return Ok(());
    }
    match label {
        Some(label) => {
            closed.insert(label)?;
            Ok(())
        }
        None => Ok(()),
    }
}

/// The labels of the statements that aren't executable.
fn closed_labels(
    alloc: Global,
    symbols: &Symbols,
    items: &[&Item],
) -> Result<BTreeSet<u32>, AllocError>
    ensures { IfOk result (AreClosed symbols.now items.now) }
{
    let mut closed = BTreeSet::new(alloc);
    let mut stage = Stage::new();
    for item in items {
        let closes = is_closed(symbols, &stage, item);
        close_label(&mut closed, closes, item.label)?;
        stage.pass(symbols, item);
    }
    Ok(closed)
}

/// K2: adds the pair of each line at which a transfer misses a label, in a list of statements that
/// is the body of a unit with these items.
pub fn add_missed_labels(
    pairs: &mut Vec<Broken>,
    alloc: Global,
    symbols: &Symbols,
    items: &[&Item],
    members: &[Member],
) -> Result<(), AllocError>
    ensures { OnOk result
        (AddsMissed symbols.now items.now members.now pairs.old.items pairs.new.items) }
{
    let all = lines_of(alloc, items)?;
    let closed = closed_labels(alloc, symbols, items)?;
    let mut reach = BTreeMap::new(alloc);
    add_list(&mut reach, alloc, members)?;
    let mut transfers = Transfers {
        alloc,
        all: &all,
        closed: &closed,
        reach,
    };
    add_in(pairs, &mut transfers, Rule::K2, members)
}
