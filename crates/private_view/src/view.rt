//! A view of a whole store.

ghost use Rattle.std.specs.Prelude.{◌↔◌, ◌<◌, IsTrue, OnErr, OnOk, ◌≡◌, ℕ, is_some, IfSome, length};
ghost use Rattle.std.specs.FinSet as set;
ghost use Rattle.std.specs.FinMap as map;
ghost use Rattle.meaning.specs.Stores.{known, overlay, after_write, LeavesRead};
ghost use Rattle.array_store.specs.Whole.{world_of};
ghost use Rattle.private_view.specs.Fronts.{IsFront, with_first};
ghost use Rattle.private_view.specs.Views.{ExposesRun, Seen, ShowsPage, WroteIn, coded_seen};
ghost use Rattle.private_view.specs.Views.{new_view, world_seen};

use crate::front::FirstCells;
use crate::paged::{Paged, WriteSet};
use array_store::{Store, Whole};
use marks::Marks;
use meaning::cell::Cell;
use std::alloc::{AllocError, Global};
use std::marker::Model;

/// What was written over a whole store, and which of its cells were read before they were written.
/// The whole store itself stays as it is.
#[derive(Drop)]
pub struct View<'a> {
    paged: Paged<'a>,
    // The first cells, without a look-up: their newest values stand here alone until the view is
    // let go.
    front: FirstCells,
}

impl<'a> Model for View<'a> {
    ghost Value = { Seen };

    ghost coded = { coded_seen };

    ghost view = { λ v. with_first v.front.written v.front.values v.paged };

    ghost invariant = { λ v.
        IsFront v.front.shown v.front.written v.front.values (world_seen v.paged) };
}

impl<'a> View<'a> {
    /// A view in which nothing was read or written. It takes no memory, and no time for each cell.
    pub fn new(alloc: Global, base: &'a Whole) -> View<'a>
        ensures { result ≡ new_view base.entry.now }
    {
        View {
            paged: Paged::new(alloc, base),
            front: FirstCells::new(base),
        }
    }

    /// A view in which nothing was read or written, kept where another one was. It takes no memory,
    /// and no time for each cell.
    pub fn again(changes: WriteSet, base: &'a Whole) -> View<'a>
        ensures { result ≡ new_view base.entry.now }
    {
        View {
            paged: Paged::again(changes, base),
            front: FirstCells::new(base),
        }
    }

    /// Exposes the cells of whole groups of 512 among those from one on up to another, as if they
    /// had been read, in a view in which nothing was written: then to read one of their elements
    /// takes least time, up to the first of them that is written. Where memory is refused the view
    /// stays as it was.
    pub fn expose(&mut self, from: usize, until: usize)
        requires { self.old.written ≡ map.empty }
        ensures rest { self.new ≡ record self.old { exposed = self.new.exposed } }
        ensures run { ExposesRun from until self.old.exposed self.new.exposed }
    {
        self.paged.expose(from, until);
    }

    /// The cells that were read before they were written.
    pub fn exposed(&self) -> &Marks
        ensures { result.now ≡ self.now.exposed }
    {
        self.paged.exposed()
    }

    /// The cells that were written.
    pub fn written(&self) -> &Marks
        ensures { (c : ℕ) → set.contains result.now c ≡ is_some (map.get self.now.written c) }
    {
        self.paged.written()
    }

    /// The values of the cells from 64 times the page's number on, fewer in the last page, exactly
    /// where one of these cells was written. It takes no memory.
    pub fn page(&self, page: usize) -> Option<&[i32]>
        ensures some { IsTrue (is_some result) ↔ WroteIn self.now page }
        ensures values { IfSome result (λ p. ShowsPage self.now page p.now) }
    {
        match self.paged.page(page) {
            None => None,
            Some(part) if page == 0 => Some(self.front.first(part.len())),
            Some(part) => Some(part),
        }
    }

    /// Whether a cell was read that couldn't be marked as exposed, since memory was refused.
    pub fn is_lost(&self) -> bool
        ensures { result ≡ self.now.lost }
    {
        self.paged.is_lost()
    }

    // Reads a cell that isn't shown without a mark, or any other one. It stands by itself, so that
    // one of the first cells is read where it is wanted.
    #[cold]
    #[inline(never)]
    fn read_behind(&mut self, cell: Cell) -> i32
        requires { cell.0 < length self.old.base }
        ensures value { result ≡ known (world_seen self.old) cell.0 }
        ensures after { LeavesRead cell.0 (world_seen self.old) (world_seen self.new) }
        ensures cells { length self.new.base ≡ length self.old.base }
    {
        if cell.0 >= 64 {
            return self.paged.read(cell);
        }
        self.read_first(cell)
    }

    // Reads a cell, and shows it without a mark from then on, if it is one of the first.
    #[cold]
    #[inline(never)]
    fn read_first(&mut self, cell: Cell) -> i32
        requires { cell.0 < length self.old.base }
        ensures value { result ≡ known (world_seen self.old) cell.0 }
        ensures after { LeavesRead cell.0 (world_seen self.old) (world_seen self.new) }
        ensures cells { length self.new.base ≡ length self.old.base }
    {
        match self.front.value(cell.0) {
            Some(value) => value,
            None => {
                let value = self.paged.read(cell);
                self.front.show(cell.0);
                value
            }
        }
    }

    // Writes a cell, and notes it, if it is one of the first.
    #[cold]
    #[inline(never)]
    fn write_first(&mut self, cell: Cell, value: i32) -> Result<(), AllocError>
        requires { cell.0 < length self.old.base }
        ensures ok { OnOk result
            (world_seen self.new ≡ after_write cell.0 value (world_seen self.old)) }
        ensures err { OnErr result (world_seen self.new ≡ world_seen self.old) }
        ensures cells { length self.new.base ≡ length self.old.base }
    {
        if self.front.put(cell.0, value) {
            return Ok(());
        }
        self.paged.write(cell, value)?;
        self.front.note(cell.0, value);
        Ok(())
    }

    /// Lets the whole store go, and keeps what was written. It takes no memory.
    pub fn into_changes(self) -> WriteSet
        ensures { result ≡ record { cells = length self.entry.base; written = self.entry.written } }
    {
        let View { paged, front } = self;
        let mut paged = paged;
        paged.put_first(front.written, &front.values);
        paged.into_changes()
    }

    /// Puts what was written into a whole store of as many cells, and lets the view go. It takes no
    /// memory.
    pub fn apply(self, target: &mut Whole)
        requires { length target.old ≡ length self.base }
        ensures values { known (world_of target.new) ≡
            overlay (known (world_of target.old)) (map.get self.entry.written) }
        ensures len { length target.new ≡ length target.old }
    {
        self.into_changes().apply_to(target);
    }
}

impl<'a> Store for View<'a> {
    ghost world = { world_seen };

    #[inline]
    fn read(&mut self, cell: Cell) -> i32 {
        match self.front.value(cell.0) {
            Some(value) => value,
            None => self.read_behind(cell),
        }
    }

    #[inline]
    fn read_element(&mut self, cell: Cell) -> i32 {
        if let Some(value) = self.paged.value_in_run(cell) {
            return value;
        }
        if cell.0 < 64 {
            return self.read(cell);
        }
        self.paged.read(cell)
    }

    #[inline(always)]
    fn write(&mut self, cell: Cell, value: i32) -> Result<(), AllocError> {
        if self.front.put(cell.0, value) {
            return Ok(());
        }
        if cell.0 >= 64 {
            self.paged.write(cell, value)?;
            return Ok(());
        }
        self.write_first(cell, value)
    }
}
