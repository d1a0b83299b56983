//! What is kept of a DO statement that is run by stages.

ghost use Rattle.std.specs.Prelude.{◌≡◌, [], OnErr, OnOk};
ghost use Rattle.loop_reports.specs.Carrying.{carried_of, cells_with, most_often, no_counts};
ghost use Rattle.loop_reports.specs.Carrying.{oftener_of, with_cell};
ghost use Rattle.loop_reports.specs.Counting.{ordered_with, reached_with, staged_with};

use crate::counts::{Counts, counts_ordered, counts_reached, counts_staged};
use crate::trips::{Trips, trips_of_block};
use block_stage::{Cause, StageStats};
use indexmap::IndexMap;
use std::alloc::{AllocError, Global};

/// What is kept of a cell at which stages of a DO statement were cut, since a block read what an
/// earlier one wrote.
#[derive(Clone, Copy, Debug, PartialEq, Eq)]
pub struct Carried {
    /// How many stages.
    pub cuts: u64,
    /// The execution of the statement in which the first of them was, counted from 1.
    pub execution: u64,
    /// The trips of the block that wrote it there.
    pub writer: Trips,
    /// The trips of the block that read it there.
    pub reader: Trips,
}

/// What is kept of a DO statement.
#[derive(Drop)]
pub struct Row {
    /// What is counted of it.
    pub counts: Counts,
    /// The cells at which its stages were cut, in the order in which they came.
    pub cells: IndexMap<usize, Carried>,
}

impl Row {
    /// What is kept of a statement that wasn't reached.
    pub fn new(alloc: Global) -> Row
        ensures counts { result.counts ≡ no_counts }
        ensures cells { result.cells.entries ≡ [] }
    {
        Row {
            counts: Counts::default(),
            cells: IndexMap::new(alloc),
        }
    }

    /// Notes that the statement is reached, with so many trips.
    pub fn reach(&mut self, trips: u64)
        ensures counts { self.new.counts ≡ reached_with self.old.counts trips }
        ensures cells { self.new.cells ≡ self.old.cells }
    {
        self.counts = counts_reached(self.counts, trips);
    }

    /// Notes that so many trips were executed in order.
    pub fn pass(&mut self, trips: u64)
        ensures counts { self.new.counts ≡ ordered_with self.old.counts trips }
        ensures cells { self.new.cells ≡ self.old.cells }
    {
        self.counts = counts_ordered(self.counts, trips);
    }

    /// Notes a stage, before which so many trips of the execution were done. The `AllocError` comes
    /// where a growth was refused, and the counts are what they were.
    pub fn add(&mut self, done: u64, told: &StageStats) -> Result<(), AllocError>
        ensures counts { OnOk result (self.new.counts ≡ staged_with self.old.counts told.now) }
        ensures cells { OnOk result (self.new.cells.entries
            ≡ cells_with self.old.cells.entries self.old.counts.reached done told.now) }
        ensures err { OnErr result (self.new.counts ≡ self.old.counts) }
    {
        if let Cause::Dependence(dependence) = told.cause {
            let fresh = carried_by(self.counts.reached, done, told, dependence.writer);
            add_cell(&mut self.cells, dependence.cell, fresh)?;
        }
        self.counts = counts_staged(self.counts, told);
        Ok(())
    }
}

// What is kept of a cell at which a stage is cut for the first time.
fn carried_by(execution: u64, done: u64, told: &StageStats, writer: usize) -> Carried
    ensures { result ≡ carried_of execution done told.now writer }
{
    Carried {
        cuts: 1,
        execution,
        writer: trips_of_block(done, told, writer),
        reader: trips_of_block(done, told, told.cut),
    }
}

// Notes a cell at which a stage is cut, once more if it is there.
fn add_cell(
    cells: &mut IndexMap<usize, Carried>,
    cell: usize,
    fresh: Carried,
) -> Result<(), AllocError>
    ensures { OnOk result (cells.new.entries ≡ with_cell cells.old.entries cell fresh) }
{
    let carried = match cells.get(&cell) {
        Some(known) => Carried {
            cuts: known.cuts.saturating_add(1),
            ..*known
        },
        None => fresh,
    };
    cells.insert(cell, carried)?;
    Ok(())
}

/// The cell at which most stages of the statement were cut, of several the first; `None` where none
/// was cut at one.
pub fn dependence_of(row: &Row) -> Option<(usize, Carried)>
    ensures { result ≡ most_often row.now.cells.entries }
{
    let mut most: Option<(usize, Carried)> = None;
    for (cell, carried) in row.cells.iter() {
        most = oftener(most, *cell, *carried);
    }
    most
}

// The cell of two at which more stages were cut, of equals the first.
fn oftener(
    most: Option<(usize, Carried)>,
    cell: usize,
    carried: Carried,
) -> Option<(usize, Carried)>
    ensures { result ≡ oftener_of most (cell, carried) }
{
    match most {
        Some((first, known)) => {
            if known.cuts < carried.cuts {
                Some((cell, carried))
            } else {
                Some((first, known))
            }
        }
        None => Some((cell, carried)),
    }
}
