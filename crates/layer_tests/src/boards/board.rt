//! The board of a stage.

use crate::boards::run::{Run, are_alike, claim, lose, post};
use schedules::{Board, Event, Ticket};
use std::alloc::AllocError;

/// What is asked of a board, and what it is to answer.
#[derive(Clone, Copy)]
enum Step {
    /// Whether it is a worker that has nothing out.
    Idle(u32, bool),
    /// The next block for a worker; none for a busy one, and where all were given out.
    Claim(u32, Option<u32>),
    /// A run of a block with this value, in a worker's name: whether it is taken.
    Post(u32, u32, u32, bool),
    /// A block given up in a worker's name: whether it was out.
    Lose(u32, u32, bool),
}

// Whether a board answers as it is to.
fn answers<const BLOCKS: u32>(board: &mut Board<Run<BLOCKS>>, step: Step) -> bool {
    match step {
        Step::Idle(worker, wanted) => board.idle(worker) == wanted,
        Step::Claim(worker, wanted) => {
            claim(board, worker) == wanted.map(|block| Ticket { worker, block })
        }
        Step::Post(worker, block, value, wanted) => post(board, worker, block, value) == wanted,
        Step::Lose(worker, block, wanted) => lose(board, worker, block) == wanted,
    }
}

// How many first steps a board answers as it is to.
fn answered<const BLOCKS: u32>(board: &mut Board<Run<BLOCKS>>, steps: &[Step]) -> usize {
    let mut count = 0usize;
    for &step in steps {
        if !answers(board, step) {
            return count;
        }
        count = count.saturating_add(1);
    }
    count
}

const STEPS: &[Step] = &[
    Step::Claim(0, Some(0)),
    Step::Claim(1, Some(1)),
    Step::Claim(2, Some(2)),
    Step::Post(2, 2, 20, true),
    Step::Lose(1, 1, true),
    Step::Post(0, 0, 10, true),
    Step::Claim(0, Some(3)),
    Step::Post(0, 3, 30, true),
    Step::Claim(1, None),
];

const EVENTS: &[Event] = &[
    Event::Claim(Ticket {
        worker: 0,
        block: 0,
    }),
    Event::Claim(Ticket {
        worker: 1,
        block: 1,
    }),
    Event::Claim(Ticket {
        worker: 2,
        block: 2,
    }),
    Event::Post(Ticket {
        worker: 2,
        block: 2,
    }),
    Event::Lose(Ticket {
        worker: 1,
        block: 1,
    }),
    Event::Post(Ticket {
        worker: 0,
        block: 0,
    }),
    Event::Claim(Ticket {
        worker: 0,
        block: 3,
    }),
    Event::Post(Ticket {
        worker: 0,
        block: 3,
    }),
];

#[test]
fn claims_posts_and_losses(rt: HostRuntime) -> Result<(), AllocError> {
    let mut board: Board<Run<4>> = Board::new(rt.alloc(), 4, 3)?;
    let count = answered(&mut board, STEPS);
    let closed = board.close();
    assert!(rt; count == STEPS.len(), "{count}");
    assert!(rt; closed.events.as_slice() == EVENTS);
    assert!(rt; are_alike(&closed.places, &[Some(10), None, Some(20), Some(30)]));
    Ok(())
}

/// Another worker's ticket, another block, numbers that there are none of, and a block that came
/// back.
const REFUSED: &[Step] = &[
    Step::Idle(1, true),
    Step::Idle(2, false),
    Step::Post(0, 0, 1, false),
    Step::Claim(1, Some(0)),
    Step::Idle(1, false),
    Step::Post(0, 0, 2, false),
    Step::Post(1, 1, 3, false),
    Step::Lose(0, 0, false),
    Step::Lose(1, 3, false),
    Step::Lose(2, 0, false),
    Step::Post(1, 0, 4, true),
    Step::Post(1, 0, 5, false),
    Step::Lose(1, 0, false),
];

#[test]
fn tickets_that_are_not_out(rt: HostRuntime) -> Result<(), AllocError> {
    let mut board: Board<Run<3>> = Board::new(rt.alloc(), 3, 2)?;
    let count = answered(&mut board, REFUSED);
    let closed = board.close();
    assert!(rt; count == REFUSED.len(), "{count}");
    assert!(rt; closed.events.len() == 2);
    assert!(rt; are_alike(&closed.places, &[Some(4), Some(99), Some(99)]));
    Ok(())
}

const OPEN: &[Step] = &[
    Step::Claim(0, Some(0)),
    Step::Claim(1, Some(1)),
    Step::Post(0, 0, 7, true),
];

const SETTLED: &[Event] = &[
    Event::Claim(Ticket {
        worker: 0,
        block: 0,
    }),
    Event::Claim(Ticket {
        worker: 1,
        block: 1,
    }),
    Event::Post(Ticket {
        worker: 0,
        block: 0,
    }),
    Event::Lose(Ticket {
        worker: 1,
        block: 1,
    }),
    Event::Claim(Ticket {
        worker: 0,
        block: 2,
    }),
    Event::Lose(Ticket {
        worker: 0,
        block: 2,
    }),
];

#[test]
fn settled(rt: HostRuntime) -> Result<(), AllocError> {
    let mut board: Board<Run<3>> = Board::new(rt.alloc(), 3, 2)?;
    let count = answered(&mut board, OPEN);
    board.settle();
    let closed = board.close();
    assert!(rt; count == OPEN.len(), "{count}");
    assert!(rt; closed.events.as_slice() == SETTLED);
    assert!(rt; are_alike(&closed.places, &[Some(7), None, None]));
    Ok(())
}
