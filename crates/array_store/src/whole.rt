//! A store that holds the value of each cell.

ghost use Rattle.std.specs.Prelude.{◌≡◌, ◌<◌, ◌≤◌, ◌+◌, Some, IfOk, length, slice_get, slice_set};
ghost use Rattle.array_store.specs.Whole.{ArePut, world_of};

use crate::store::Store;
use meaning::cell::Cell;
use std::alloc::{AllocError, Global};
use std::marker::Model;

/// The value of each cell, in the order of their numbers. A LOGICAL is kept as 0 or 1.
#[derive(Drop)]
pub struct Whole {
    cells: Vec<i32>,
}

impl Model for Whole {
    ghost use Rattle.std.specs.Prelude.{List, ℤ};

    ghost Value = { List ℤ };

    ghost view = { λ w. w.cells.items };
}

impl Whole {
    /// Cells with these values.
    pub fn new(alloc: Global, values: &[i32]) -> Result<Whole, AllocError>
        ensures { IfOk result (λ whole. whole ≡ values.now) }
    {
        let cells = values.to_vec(alloc)?;
        Ok(Whole { cells })
    }

    /// The value of a cell.
    pub fn read(&self, cell: Cell) -> i32
        requires { cell.0 < length self.now }
        ensures { slice_get self.now cell.0 ≡ Some result }
    {
        self.cells[cell.0]
    }

    /// Writes a value to a cell. It takes no memory, and is never refused.
    pub fn write(&mut self, cell: Cell, value: i32)
        requires { cell.0 < length self.old }
        ensures { self.new ≡ slice_set self.old cell.0 value }
    {
        self.cells[cell.0] = value;
    }

    /// Writes values to consecutive cells, from one on. It takes no memory, and is never refused.
    pub fn put(&mut self, from: Cell, values: &[i32])
        requires { from.0 + length values.now ≤ length self.old }
        ensures len { length self.new ≡ length self.old }
        ensures values { ArePut from.0 values.now self.old self.new }
    {
        self.cells[from.0..from.0 + values.len()].copy_from_slice(values);
    }

    /// The values, in the order of the cells' numbers.
    pub fn cells(&self) -> &[i32]
        ensures { result.now ≡ self.now }
    {
        &self.cells
    }
}

impl Store for Whole {
    ghost world = { world_of };

    #[tactic(auto, using(crate::proofs::Wholes::known_is, crate::proofs::Wholes::leaves_read))]
    fn read(&mut self, cell: Cell) -> i32 {
        Whole::read(self, cell)
    }

    #[tactic(auto, using(crate::proofs::Wholes::written_is))]
    fn write(&mut self, cell: Cell, value: i32) -> Result<(), AllocError> {
        Whole::write(self, cell, value);
        Ok(())
    }
}
