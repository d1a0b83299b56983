//! What a block did, by itself.

ghost use Rattle.std.specs.Prelude.{◌≡◌, false, MatchOption};
ghost use Rattle.marks.specs.Cells.{Share};
ghost use Rattle.block_stage.specs.Causes.{CarriesLeast, IsLeastShared};
ghost use Rattle.meaning.specs.Turns.{is_turn_limit as limits};
ghost use Rattle.block_stage.specs.Cuts.{is_limit, reads_of};
ghost use Rattle.block_stage.specs.Taken.{wrote_by};

use crate::place::CellRun;
use marks::{Marks, lowest_bit};
use meaning::ending::{FaultKind, Outcome};
use private_view::{View, WriteSet};
use std::marker::Model;

/// What a block did, by itself. Contracts see its number, its outcome, its turns and what its view
/// saw.
#[derive(Drop)]
pub(crate) struct BlockResult<'a> {
    index: u32,
    outcome: Outcome,
    used: u64,
    view: View<'a>,
    // The cells that were exposed in its view from the start.
    shown: CellRun,
}

impl<'a> Model for BlockResult<'a> {
    ghost use Rattle.block_stage.specs.Faithful.{RunData, coded_run};

    ghost Value = { RunData };

    ghost coded = { coded_run };

    ghost view = { λ t.
        record { index = t.index; outcome = t.outcome; used = t.used; seen = t.view } };
}

impl<'a> BlockResult<'a> {
    // A block's number, outcome, turns and view, and the cells that were exposed from the start.
    pub(crate) fn new(
        index: u32,
        outcome: Outcome,
        used: u64,
        view: View<'a>,
        shown: CellRun,
    ) -> BlockResult<'a>
        ensures { result
            ≡ record { index = index; outcome = outcome; used = used; seen = view.entry } }
    {
        BlockResult {
            index,
            outcome,
            used,
            view,
            shown,
        }
    }

    // The block's number.
    pub(crate) fn index(&self) -> u32
        ensures { result ≡ self.now.index }
    {
        self.index
    }

    // How many turns it used.
    pub(crate) fn used(&self) -> u64
        ensures { result ≡ self.now.used }
    {
        self.used
    }

    // How its trips ended.
    pub(crate) fn outcome(&self) -> Outcome
        ensures { result ≡ self.now.outcome }
    {
        self.outcome
    }

    // Whether it met the turn limit.
    pub(crate) fn met_limit(&self) -> bool
        ensures { result ≡ is_limit self.now.outcome }
    {
        match self.outcome {
            Outcome::Normal => false,
            Outcome::Left(_) => false,
            Outcome::Stopped(_) => false,
            Outcome::Fault(fault) => is_turn_limit(fault.kind),
        }
    }

    // Whether it exposed a cell that the other wrote.
    pub(crate) fn reads_of(&self, other: &BlockResult<'_>) -> bool
        ensures { result ≡ reads_of other.now self.now }
    {
        self.view.exposed().meets(other.view.written())
    }

    // The least cell that it exposed and the other wrote, if there is one.
    pub(crate) fn cell_of(&self, other: &BlockResult<'_>) -> Option<usize>
        ensures { MatchOption result (reads_of other.now self.now ≡ false)
            (CarriesLeast other.now self.now) }
    {
        shared_cell(self.view.exposed(), other.view.written())
    }

    // What its view weighs: one for each cell that it exposed, other than from the start, two for
    // each that it wrote, sixteen for each page that was copied.
    pub(crate) fn weight(&self) -> u64 {
        let written = weight_of(self.view.written().words(), 2, 16);
        let exposed = self.view.exposed().words();
        let behind = exposed.len().min(self.shown.until / 64);
        let before = behind.min(self.shown.from / 64);
        weight_of(&exposed[..before], 1, 0)
            .saturating_add(weight_of(&exposed[behind..], 1, 0))
            .saturating_add(written)
    }

    // What it saw and wrote.
    pub(crate) fn view(&self) -> &View<'a>
        ensures { result.now ≡ self.now.seen }
    {
        &self.view
    }

    // What it wrote, without the loan of the cells.
    pub(crate) fn into_changes(self) -> WriteSet
        ensures { result ≡ wrote_by self.entry }
    {
        let BlockResult {
            index: _,
            outcome: _,
            used: _,
            view,
            shown: _,
        } = self;
        view.into_changes()
    }
}

// What mask words weigh, where a bit weighs so much, and a word that has one so much more.
fn weight_of(words: &[u64], bit: u64, word: u64) -> u64 {
    let mut weight: u64 = 0;
    for mask in words {
        if *mask != 0 {
            let bits = u64::from(mask.count_ones()).saturating_mul(bit);
            weight = weight.saturating_add(word).saturating_add(bits);
        }
    }
    weight
}

// The least cell that is in both sets, if there is one.
fn shared_cell(one: &Marks, other: &Marks) -> Option<usize>
    ensures { MatchOption result (Share one.now other.now → ⊥) (IsLeastShared one.now other.now) }
{
    let (mine, others) = (one.words(), other.words());
    for at in 0..mine.len().min(others.len()) {
        let both = mine[at] & others[at];
        if both != 0 {
            return Some(64 * at + lowest_bit(both));
        }
    }
    None
}

// Whether it is the turn limit's fault.
fn is_turn_limit(kind: FaultKind) -> bool
    ensures { result ≡ limits kind }
{
    match kind {
        FaultKind::F4 => true,
        FaultKind::F1 => false,
        FaultKind::F2 => false,
        FaultKind::F3 => false,
        FaultKind::F5 => false,
        FaultKind::F6 => false,
        FaultKind::F7 => false,
        FaultKind::F8 => false,
    }
}
