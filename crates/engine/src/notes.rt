//! What is noted of a run while it goes on, for what is told of it behind its ending.

use array_store::Whole;
use command_line::asked::Options;
use executor::{Observer, StageStats};
use fault_details::{add_text, detail_of};
use loop_reports::{Loops, Row};
use meaning::ending::Fault;
use program::Program;
use std::alloc::{AllocError, Global};
use std::cell::Cell;
use std::collections::BTreeMap;
use std::io;

/// What is noted of a run. What no flag asks for is noted nowhere, and takes no memory.
#[derive(Drop)]
pub struct Notes {
    alloc: Global,
    stages: bool,
    explain: bool,
    loops: Loops,
    detail: Cell<Result<Vec<u8>, AllocError>>,
    refusal: Cell<Option<io::Error>>,
}

/// What was noted. The `AllocError` stands where a growth was refused for it.
#[derive(Drop)]
pub struct Noted {
    /// What became of DO statements by stages, by their lines.
    pub rows: Result<BTreeMap<u32, Row>, AllocError>,
    /// What a fault was about, empty where that isn't known or there was none.
    pub detail: Result<Vec<u8>, AllocError>,
}

impl Notes {
    /// Nothing is noted yet.
    pub fn new(alloc: Global, asked: &Options<'_>) -> Notes {
        Notes {
            alloc,
            stages: asked.stages,
            explain: asked.explain,
            loops: Loops::new(alloc, asked.stages),
            detail: Cell::new(Ok(Vec::new(alloc))),
            refusal: Cell::new(None),
        }
    }

    /// Notes why a write was refused, if one was.
    pub fn note_refusal(&self, refusal: Option<io::Error>) {
        self.refusal.set(refusal);
    }

    /// Why a write was refused, if one was.
    pub fn refusal(&self) -> Option<io::Error> {
        self.refusal.get()
    }

    /// What was noted.
    pub fn into_noted(self) -> Noted {
        let Notes {
            alloc: _,
            stages: _,
            explain: _,
            loops,
            detail,
            refusal: _,
        } = self;
        Noted {
            rows: loops.into_rows(),
            detail: detail.into_inner(),
        }
    }
}

impl Observer for Notes {
    fn reached(&self, line: u32, trips: u64) {
        self.loops.reached(line, trips);
    }

    fn passed(&self, line: u32, trips: u64) {
        self.loops.passed(line, trips);
    }

    fn staged(&self, line: u32, done: u64, told: &StageStats) {
        self.loops.staged(line, done, told);
    }

    fn is_watching(&self) -> bool {
        self.stages
    }

    fn faulted(&self, program: &Program, fault: Fault, cells: &Whole) {
        if self.explain {
            self.detail
                .set(detail_text(self.alloc, program, fault, cells.cells()));
        }
    }
}

// What a fault was about, in words.
fn detail_text(
    alloc: Global,
    program: &Program,
    fault: Fault,
    cells: &[i32],
) -> Result<Vec<u8>, AllocError> {
    let mut text = Vec::new(alloc);
    if let Some(detail) = detail_of(program.unit(), fault, cells) {
        add_text(&mut text, detail)?;
    }
    Ok(text)
}
