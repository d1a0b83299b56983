//! The values of the first cells, at hand.

ghost use Rattle.std.specs.Prelude.{◌≡◌, ◌≢◌, ◌<◌, ◌≤◌, ℕ, ℤ, pos, true, false, Some, List, IfSome};
ghost use Rattle.std.specs.Prelude.{IsTrue, is_some, length, slice_get, slice_index_or, slice_set};
ghost use Rattle.meaning.specs.Stores.{World, LeavesRead, after_write};
ghost use Rattle.private_view.specs.Fronts.{AreFirst, IsFront, is_first, is_shown};
ghost use Rattle.private_view.specs.Fronts.{world_with_first};
ghost use Rattle.private_view.specs.Views.{new_view, world_seen};

use array_store::Whole;
use marks::{has_bit, with_bit};

/// The first 64 cells, which variables have before all others: the value of each, which of them
/// were written, and which may be shown without a mark.
#[derive(Clone, Copy)]
pub(crate) struct FirstCells {
    // In the place of each cell itself where it may be shown, else another one: so one comparison
    // tells whether a cell is one of these.
    pub shown: [u32; 64],
    pub written: u64,
    pub values: [i32; 64],
}

// The values of the first 64 cells, and 0 behind the last cell.
fn first_values(base: &Whole) -> [i32; 64]
    ensures { (b : ℕ) → b < 64 → b < length base.now →
        slice_get base.now b ≡ Some (slice_index_or result b (pos 0)) }
{
    let cells = base.cells();
    let count = cells.len().min(64);
    let mut values = [0; 64];
    values[..count].copy_from_slice(&cells[..count]);
    values
}

// No cell may be shown.
fn none_shown() -> [u32; 64]
    ensures none { (b : ℕ) → b < 64 → slice_index_or result b 0 ≢ b }
    ensures first { AreFirst result }
{
    let mut shown = [0; 64];
    shown[0] = 1;
    shown
}

impl FirstCells {
    /// Nothing was written or shown.
    #[inline(always)]
    pub fn new(base: &Whole) -> FirstCells
        ensures none { result.written ≡ 0 }
        ensures front { IsFront result.shown result.written result.values
            (world_seen (new_view base.now)) }
    {
        FirstCells {
            shown: none_shown(),
            written: 0,
            values: first_values(base),
        }
    }

    /// The value of a cell, if it is one that may be shown without a mark.
    #[inline(always)]
    pub fn value(&self, cell: usize) -> Option<i32>
        requires { AreFirst self.now.shown }
        ensures some { is_some result ≡ is_shown self.now.shown cell }
        ensures value { IfSome result (λ x. x ≡ slice_index_or self.now.values cell (pos 0)) }
    {
        let place = cell % 64;
        if self.shown[place] as usize == cell {
            Some(self.values[place])
        } else {
            None
        }
    }

    /// The values of the first so many cells.
    pub fn first(&self, count: usize) -> &[i32]
        requires { count ≤ 64 }
        ensures len { length result.now ≡ count }
        ensures values { (b : ℕ) → b < count →
            slice_get result.now b ≡ Some (slice_index_or self.now.values b (pos 0)) }
    {
        &self.values[..count]
    }

    /// Has a cell that was read shown without a mark from now on, if it is one of the first 64.
    #[inline(always)]
    pub fn show(&mut self, cell: usize)
        ensures front { (before : World) → (after : World) → LeavesRead cell before after →
            IsFront self.old.shown self.old.written self.old.values before →
            IsFront self.new.shown self.new.written self.new.values after }
        ensures written { self.new.written ≡ self.old.written }
        ensures values { self.new.values ≡ self.old.values }
    {
        if cell < 64 {
            self.shown[cell] = cell as u32;
        }
    }

    /// Gives a cell its value, if it is one of the first 64 and was written before.
    #[inline(always)]
    pub fn put(&mut self, cell: usize, value: i32) -> bool
        ensures whether { result ≡ is_first self.old.written cell }
        ensures other { result ≡ false → self.new ≡ self.old }
        ensures front { result ≡ true → (w : World) →
            IsFront self.old.shown self.old.written self.old.values w →
            IsFront self.new.shown self.new.written self.new.values w }
        ensures world { result ≡ true → (w : World) →
            world_with_first self.new.written self.new.values w ≡
            after_write cell value (world_with_first self.old.written self.old.values w) }
    {
        if cell < 64 && has_bit(self.written, cell) {
            self.values[cell] = value;
            true
        } else {
            false
        }
    }

    /// Notes that a cell was given a value, if it is one of the first 64.
    #[inline(always)]
    pub fn note(&mut self, cell: usize, value: i32)
        ensures front { (w : World) →
            IsFront self.old.shown self.old.written self.old.values w →
            IsFront self.new.shown self.new.written self.new.values (after_write cell value w) }
        ensures world { (w : World) →
            world_with_first self.new.written self.new.values (after_write cell value w) ≡
            after_write cell value (world_with_first self.old.written self.old.values w) }
    {
        if cell < 64 {
            self.shown[cell] = cell as u32;
            self.written = with_bit(self.written, cell);
            self.values[cell] = value;
        }
    }
}
