//! How many processors are idle, by what Linux says in its files (proc(5) and sysfs). It is seen in
//! how long a run takes, and nowhere else.

use crate::notes::Notes;
use array_store::Whole;
use executor::{Observer, StageStats};
use meaning::ending::Fault;
use program::Program;
use std::cell::Cell;
use std::io::Read;
use std::rt::Files;
use std::thread::{Threads, available_parallelism};
use std::{fs, str};

// Which processors are online, as 0-3 or 0,2-5.
const ONLINE: &str = "/sys/devices/system/cpu/online";

// Three averages, and how many threads of all programs run or wait for a processor, as 2/345.
const LOAD: &str = "/proc/loadavg";

// So many bytes of these files are read.
const BYTES_READ: usize = 128;

// The processors of the machine, and how many of them this program may use.
#[derive(Clone, Copy)]
struct Processors {
    online: u32,
    allowed: u32,
}

// How many processors one part of a list of them names, as 2-5 or 0.
fn processors_in(part: &str) -> Option<u32> {
    match part.split_once('-') {
        Some((first, last)) => {
            let first = first.parse::<u32>().ok()?;
            let last = last.parse::<u32>().ok()?;
            last.checked_sub(first)?.checked_add(1)
        }
        None => Some(1),
    }
}

// How many processors a list names.
fn count_in(list: &str) -> Option<u32> {
    let mut count = 0u32;
    for part in list.trim().split(',') {
        count = count.checked_add(processors_in(part)?)?;
    }
    Some(count)
}

// How many threads run or wait for a processor.
fn running_in(load: &str) -> Option<u32> {
    let threads = load.split(' ').nth(3)?;
    let (running, _) = threads.split_once('/')?;
    running.parse::<u32>().ok()
}

// The text at the front of a file.
fn front_of<'b, R: Files>(rt: &R, path: &str, bytes: &'b mut [u8; BYTES_READ]) -> Option<&'b str> {
    let mut file = fs::open(rt, path).ok()?;
    let count = file.read(bytes).ok()?;
    str::from_utf8(&bytes[..count]).ok()
}

// The processors, where that is known.
fn processors_of<R: Files + Threads>(rt: &R) -> Option<Processors> {
    let mut bytes = [0u8; BYTES_READ];
    let online = count_in(front_of(rt, ONLINE, &mut bytes)?)?;
    let allowed = available_parallelism(rt).ok()?.get();
    Some(Processors {
        online,
        allowed: u32::try_from(allowed).ok()?,
    })
}

// How many of them are idle and may be used by threads more than the one that asks.
fn idle_of<R: Files>(rt: &R, processors: Processors) -> Option<u32> {
    let mut bytes = [0u8; BYTES_READ];
    let running = running_in(front_of(rt, LOAD, &mut bytes)?)?;
    let idle = processors.online.saturating_sub(running);
    Some(idle.min(processors.allowed.saturating_sub(1)))
}

/// Who watches a run: it notes what is asked for, and tells how many processors are idle. Where
/// stages are told, it doesn't, so that what is told is the same whatever else runs.
#[derive(Drop)]
pub struct Watcher<'n, R> {
    rt: &'n R,
    notes: &'n Notes,
    // Nothing until it was asked; then the processors, where they are known.
    processors: Cell<Option<Option<Processors>>>,
}

impl<'n, R: Files + Threads> Watcher<'n, R> {
    /// Nothing was asked yet.
    pub fn new(rt: &'n R, notes: &'n Notes) -> Watcher<'n, R> {
        Watcher {
            rt,
            notes,
            processors: Cell::new(None),
        }
    }

    // The processors, which are looked at once.
    fn processors(&self) -> Option<Processors> {
        match self.processors.get() {
            Some(processors) => processors,
            None => {
                let processors = processors_of(self.rt);
                self.processors.set(Some(processors));
                processors
            }
        }
    }
}

impl<'n, R: Files + Threads> Observer for Watcher<'n, R> {
    fn reached(&self, line: u32, trips: u64) {
        self.notes.reached(line, trips);
    }

    fn passed(&self, line: u32, trips: u64) {
        self.notes.passed(line, trips);
    }

    fn staged(&self, line: u32, done: u64, told: &StageStats) {
        self.notes.staged(line, done, told);
    }

    fn is_watching(&self) -> bool {
        self.notes.is_watching()
    }

    fn idle(&self) -> Option<u32> {
        if self.is_watching() {
            return None;
        }
        idle_of(self.rt, self.processors()?)
    }

    fn faulted(&self, program: &Program, fault: Fault, cells: &Whole) {
        self.notes.faulted(program, fault, cells);
    }
}
