//! Workers of a stage.

ghost use Rattle.std.specs.Prelude.{◌≡◌, ◌<◌, IfSome};

use crate::boards::run::{Run, value_at};
use schedules::{Board, Event};
use std::alloc::AllocError;
use std::sync::atomic::{AtomicU64, Ordering};
use workers::{Desk, Work, run_all};

/// Block 0 waits until block 1 has begun, for so many looks at most.
#[derive(Drop)]
struct Meeting {
    begun: AtomicU64,
}

const LOOKS: u32 = 100_000_000;

impl Meeting {
    fn wait(&self) -> u32 {
        for _ in 0..LOOKS {
            if self.begun.load(Ordering::SeqCst) == 1 {
                return 1;
            }
        }
        0
    }
}

impl Work<Run<2>, u32> for Meeting {
    fn run(&self, block: u32, _spare: Option<u32>) -> Option<Run<2>>
        requires { block < 2 }
        ensures { IfSome result (λ r. r.block ≡ block) }
    {
        if block == 1 {
            self.begun.store(1, Ordering::SeqCst);
            return Some(Run { block, value: 1 });
        }
        let value = self.wait();
        Some(Run { block, value })
    }
}

#[test]
fn two_blocks_at_once(rt: HostRuntime) -> Result<(), AllocError> {
    let board: Board<Run<2>> = Board::new(rt.alloc(), 2, 2)?;
    let work = Meeting {
        begun: AtomicU64::new(0),
    };
    let desk = Desk {
        board,
        spares: Vec::new(rt.alloc()),
    };
    let closed = run_all(&rt, desk, &work, 2, 2, 0).board.close();
    assert_eq!(rt; value_at(closed.places.as_slice(), 0), Some(1));
    assert_eq!(rt; value_at(closed.places.as_slice(), 1), Some(1));
    Ok(())
}

/// Every third block is lost.
#[derive(Drop)]
struct Thirds;

impl Work<Run<100>, u32> for Thirds {
    fn run(&self, block: u32, spare: Option<u32>) -> Option<Run<100>>
        requires { block < 100 }
        ensures { IfSome result (λ r. r.block ≡ block) }
    {
        if block % 3 == 2 {
            None
        } else {
            Some(Run {
                block,
                value: spare.unwrap_or(1000).wrapping_add(block),
            })
        }
    }
}

#[test]
fn many_blocks_by_many_workers(rt: HostRuntime) -> Result<(), AllocError> {
    let board: Board<Run<100>> = Board::new(rt.alloc(), 100, 7)?;
    let desk = Desk {
        board,
        spares: Vec::new(rt.alloc()),
    };
    let closed = run_all(&rt, desk, &Thirds, 100, 7, 0).board.close();
    assert_eq!(rt; closed.events.len(), 200);
    for block in 0..100_u32 {
        let wanted = if block % 3 == 2 {
            None
        } else {
            Some(block + 1000)
        };
        assert_eq!(rt;
            value_at(closed.places.as_slice(), block as usize),
            wanted,
            "at {block}"
        );
    }
    Ok(())
}

// How many claims a worker made.
fn claims_of(events: &[Event], worker: u32) -> usize {
    let mut count: usize = 0;
    for event in events {
        if let Event::Claim(ticket) = event {
            if ticket.worker == worker {
                count = count.saturating_add(1);
            }
        }
    }
    count
}

// Each block is handed a spare while there are any, and the calling thread works whoever is
// missing.
#[test]
fn spares_are_handed_out(rt: HostRuntime) -> Result<(), AllocError> {
    let board: Board<Run<100>> = Board::new(rt.alloc(), 100, 64)?;
    let spares = vec![in rt.alloc(); 5000_u32; 3]?;
    let desk = Desk { board, spares };
    let done = run_all(&rt, desk, &Thirds, 100, 64, u64::MAX);
    assert_eq!(rt; done.spares.len(), 0);
    let closed = done.board.close();
    assert_eq!(rt; claims_of(closed.events.as_slice(), 0), 100);
    assert_eq!(rt; value_at(closed.places.as_slice(), 1), Some(5001));
    assert_eq!(rt; value_at(closed.places.as_slice(), 2), None);
    assert_eq!(rt; value_at(closed.places.as_slice(), 3), Some(1003));
    Ok(())
}

// What no block was handed is left.
#[test]
fn spares_are_left(rt: HostRuntime) -> Result<(), AllocError> {
    let board: Board<Run<100>> = Board::new(rt.alloc(), 100, 1)?;
    let spares = vec![in rt.alloc(); 5000_u32; 130]?;
    let desk = Desk { board, spares };
    let done = run_all(&rt, desk, &Thirds, 100, 1, 0);
    assert_eq!(rt; done.spares.len(), 30);
    Ok(())
}
