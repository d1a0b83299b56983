//! What is collected while a program runs.

use crate::noting::{note_ordered, note_reached, note_staged};
use crate::row::Row;
use block_stage::StageStats;
use stage_loop::Observer;
use std::alloc::{AllocError, Global};
use std::cell::Cell;
use std::collections::BTreeMap;

/// A watcher that notes what it is told while a program runs. Where that isn't wanted it notes
/// nothing, and takes no memory.
#[derive(Drop)]
pub struct Loops {
    alloc: Global,
    is_wanted: bool,
    // An error where memory was refused, so that something is untold.
    rows: Cell<Result<BTreeMap<u32, Row>, AllocError>>,
}

impl Loops {
    /// Nothing is noted yet.
    pub fn new(alloc: Global, is_wanted: bool) -> Loops {
        Loops {
            alloc,
            is_wanted,
            rows: Cell::new(Ok(BTreeMap::new(alloc))),
        }
    }

    /// What was noted, by the lines of the statements. The `AllocError` comes where memory was
    /// refused to something of it.
    pub fn into_rows(self) -> Result<BTreeMap<u32, Row>, AllocError> {
        let Loops {
            alloc: _,
            is_wanted: _,
            rows,
        } = self;
        rows.into_inner()
    }

    // What was noted so far, if it is wanted and memory was never refused; until it is kept again,
    // it counts as refused.
    fn take_rows(&self) -> Option<BTreeMap<u32, Row>> {
        if self.is_wanted {
            self.rows.replace(Err(AllocError)).ok()
        } else {
            None
        }
    }

    // Keeps it again, unless memory was refused to something more.
    fn keep_rows(&self, rows: BTreeMap<u32, Row>, noted: Result<(), AllocError>) {
        match noted {
            Ok(()) => self.rows.set(Ok(rows)),
            Err(AllocError) => drop(rows),
        }
    }
}

impl Observer for Loops {
    fn reached(&self, line: u32, trips: u64) {
        if let Some(mut rows) = self.take_rows() {
            let noted = note_reached(&mut rows, self.alloc, line, trips);
            self.keep_rows(rows, noted);
        }
    }

    fn passed(&self, line: u32, trips: u64) {
        if let Some(mut rows) = self.take_rows() {
            let noted = note_ordered(&mut rows, self.alloc, line, trips);
            self.keep_rows(rows, noted);
        }
    }

    fn staged(&self, line: u32, done: u64, told: &StageStats) {
        if let Some(mut rows) = self.take_rows() {
            let noted = note_staged(&mut rows, self.alloc, line, done, told);
            self.keep_rows(rows, noted);
        }
    }

    fn is_watching(&self) -> bool {
        self.is_wanted
    }
}
