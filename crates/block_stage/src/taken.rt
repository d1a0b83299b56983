//! What is taken of a stage when its blocks have let the cells go.

ghost use Rattle.std.specs.Prelude.{◌≡◌, ◌≤◌, take, length};
ghost use Rattle.meaning.specs.Stores.{known};
ghost use Rattle.array_store.specs.Whole.{world_of};
ghost use Rattle.block_stage.specs.Taken.{AreSized, TakenParts, overlay_each};

use crate::posted::joined;
use array_store::Whole;
use meaning::ending::{Outcome, Run};
use private_view::WriteSet;
use std::marker::Model;

/// What the blocks before a cut wrote, in their order, how the last of them ended, and the turns
/// that they used; without the loan of the cells that they stood on. Its type keeps that all stood
/// on as many cells.
#[derive(Drop)]
pub struct Committed {
    cells: usize,
    cut: usize,
    run: Run,
    // What all blocks wrote that have a run, also those past the cut.
    changes: Vec<WriteSet>,
    spares: Vec<WriteSet>,
}

impl Model for Committed {
    ghost use Rattle.std.specs.Prelude.{◌≤◌, take, length};
    ghost use Rattle.block_stage.specs.Taken.{AreSized, TakenParts, coded_taken};

    ghost Value = { TakenParts };

    ghost coded = { coded_taken };

    ghost view = { λ t. record {
      cells = t.cells;
      outcome = t.run.outcome;
      used = t.run.turns_used;
      written
          = take t.cut t.changes.items;
    } };

    ghost invariant = { λ t. AreSized t.cells t.changes.items × (t.cut ≤ length t.changes.items) };
}

impl Committed {
    // What blocks wrote, of which the first so many are taken.
    pub(crate) fn new(
        cells: usize,
        cut: usize,
        run: Run,
        changes: Vec<WriteSet>,
        spares: Vec<WriteSet>,
    ) -> Committed
        requires sized { AreSized cells changes.items }
        requires within { cut ≤ length changes.items }
        ensures { result
            ≡ record {
              cells = cells;
              outcome = run.outcome;
              used = run.turns_used;
              written = take
                  cut changes.items;
            } }
    {
        Committed {
            cells,
            cut,
            run,
            changes,
            spares,
        }
    }

    /// Puts what the blocks wrote into a whole store of as many cells, in their order, and answers
    /// how they ended and the turns that they used. It takes no memory.
    pub fn apply(&self, target: &mut Whole) -> Run
        requires { length target.old ≡ self.now.cells }
        ensures map { known (world_of target.new)
            ≡ overlay_each (known (world_of target.old)) self.now.written }
        ensures run { result ≡ record { outcome = self.now.outcome; turns_used = self.now.used } }
        ensures len { length target.new ≡ length target.old }
    {
        apply_each(self.cells, &self.changes[..self.cut], target);
        Run {
            outcome: self.run.outcome,
            turns_used: self.run.turns_used,
        }
    }

    /// How many turns the blocks before the cut used.
    pub fn used(&self) -> u64
        ensures { result ≡ self.now.used }
    {
        self.run.turns_used
    }

    /// What the runs were kept in, for the blocks of further stages; where memory for their list is
    /// refused some are let go.
    pub fn into_spares(self) -> Vec<WriteSet> {
        let Committed {
            cells: _,
            cut: _,
            run: _,
            changes,
            spares,
        } = self;
        joined(changes, spares)
    }
}

// Puts what was written into a whole store, one behind the other.
fn apply_each(cells: usize, changes: &[WriteSet], target: &mut Whole)
    requires sized { AreSized cells changes.now }
    requires as_many { length target.old ≡ cells }
    ensures map { known (world_of target.new)
        ≡ overlay_each (known (world_of target.old)) changes.now }
    ensures len { length target.new ≡ length target.old }
{
    for one in changes {
        one.apply_to(target);
    }
}
