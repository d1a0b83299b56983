//! The board of a job in one thread: all orders in which workers can post four blocks, also with a
//! block that is lost.

ghost use Rattle.std.specs.Prelude.{◌≡◌};

use crate::staged::by_hand::{Step, posted_by};
use crate::staged::meeting::{STATES, see_only_stage};
use crate::staged::states::commit_checked;
use crate::staged::watch::Watch;
use Step::{Claims, Loses, Posts};
use array_store::Whole;
use block_stage::Job;
use std::alloc::{AllocError, Global};
use std::process::Abort;
use std::sync::Wait;
use std::thread::Threads;

/// How many blocks there are. Where a block of this number is to be lost, none is.
const BLOCKS: u32 = 4;

/// How many workers there are, when they claim, and how many orders of posting they can bring
/// about.
#[derive(Clone, Copy)]
pub struct Orders {
    // 4 at most.
    workers: usize,
    // Whether a worker claims as soon as it is idle, or only once its block is to be posted next.
    eager: bool,
    count: u64,
}

/// Four workers can post four blocks in any order. Two have two of them out at most, so that each
/// of the first three posts is one of two.
const ORDERS: &[Orders] = &[
    Orders {
        workers: 2,
        eager: false,
        count: 8,
    },
    Orders {
        workers: 2,
        eager: true,
        count: 8,
    },
    Orders {
        workers: 4,
        eager: false,
        count: 24,
    },
    Orders {
        workers: 4,
        eager: true,
        count: 24,
    },
];

// The steps taken by now, the block that each worker has out, and how many blocks are claimed.
#[derive(Drop)]
struct Hands {
    steps: Vec<Step>,
    outs: Vec<Option<u32>>,
    claimed: u32,
}

// The first worker who has this out.
fn worker_with(outs: &[Option<u32>], wanted: Option<u32>) -> Option<u32> {
    let mut worker = 0u32;
    for &out in outs {
        if out == wanted {
            return Some(worker);
        }
        worker = worker.saturating_add(1);
    }
    None
}

// A worker has this out from now on, by a step.
fn take(hands: &mut Hands, worker: u32, out: Option<u32>, step: Step) -> Result<(), AllocError> {
    if let Some(place) = hands.outs.get_mut(worker as usize) {
        *place = out;
    }
    hands.steps.push(step)?;
    Ok(())
}

// Idle workers claim blocks, up to one or, where they are eager, all that they can.
fn claim(hands: &mut Hands, last: u32, eager: bool) -> Result<(), AllocError> {
    for block in hands.claimed..BLOCKS {
        if eager || block <= last {
            if let Some(worker) = worker_with(&hands.outs, None) {
                take(hands, worker, Some(block), Claims(worker, Some(block)))?;
                hands.claimed = block.saturating_add(1);
            }
        }
    }
    Ok(())
}

// A block is posted or lost by the worker who has it out. It answers false where none has.
fn give_back(hands: &mut Hands, block: u32, lost: u32) -> Result<bool, AllocError> {
    match worker_with(&hands.outs, Some(block)) {
        Some(worker) if block == lost => take(hands, worker, None, Loses(worker, block))?,
        Some(worker) => take(hands, worker, None, Posts(worker, block, true))?,
        None => return Ok(false),
    }
    Ok(true)
}

// The steps by which blocks are given back in this order, one of them lost; none where the workers
// can't bring it about.
fn steps_of(
    alloc: Global,
    orders: Orders,
    order: &[u32],
    lost: u32,
) -> Result<Option<Vec<Step>>, AllocError> {
    let outs = [None, None, None, None];
    let mut hands = Hands {
        steps: Vec::new(alloc),
        outs: Vec::from_slice(alloc, outs.get(..orders.workers).unwrap_or(&outs))?,
        claimed: 0,
    };
    for &block in order {
        claim(&mut hands, block, orders.eager)?;
        if !give_back(&mut hands, block, lost)? {
            return Ok(None);
        }
    }
    Ok(Some(hands.steps))
}

// Takes steps, and commits what is posted. It answers where the stage is cut.
fn cut_behind<R: Abort>(
    rt: &R,
    alloc: Global,
    job: &Job<'_>,
    blocks: u32,
    base: &Whole,
    steps: &[Step],
) -> usize
    requires blocks { blocks ≡ job.now.blocks }
    requires base { base.now ≡ job.now.base }
{
    let mut target = Whole::new(alloc, base.cells()).expect(rt, "memory");
    let posted = posted_by(rt, alloc, job, blocks, steps);
    commit_checked(rt, posted, &mut target, STATES)
}

// Plays an order with each block lost in turn, and with none. It answers whether the workers can
// bring the order about.
fn plays<R: Abort>(
    rt: &R,
    alloc: Global,
    job: &Job<'_>,
    blocks: u32,
    base: &Whole,
    orders: Orders,
    order: &[u32],
) -> bool
    requires blocks { blocks ≡ job.now.blocks }
    requires base { base.now ≡ job.now.base }
{
    for lost in 0..=BLOCKS {
        match steps_of(alloc, orders, order, lost).expect(rt, "memory") {
            Some(steps) => {
                let place = cut_behind(rt, alloc, job, blocks, base, &steps);
                assert!(rt; place == lost as usize, "{order:?} {lost}");
            }
            None => return false,
        }
    }
    true
}

/// Plays all orders of four blocks, each also with each block lost in turn: the stage is cut at the
/// lost block, or behind the last one, and the blocks before that are committed. Of all lists of
/// four blocks workers can bring about those alone in which none stands twice.
pub fn see_orders<R: Abort>(
    rt: &R,
    alloc: Global,
    job: &Job<'_>,
    blocks: u32,
    base: &Whole,
    orders: Orders,
)
    requires blocks { blocks ≡ job.now.blocks }
    requires base { base.now ≡ job.now.base }
{
    let mut count = 0u64;
    for number in 0..256u32 {
        let order = [number % 4, number / 4 % 4, number / 16 % 4, number / 64];
        if plays(rt, alloc, job, blocks, base, orders, &order) {
            count = count.saturating_add(1);
        }
    }
    assert!(rt; count == orders.count, "{count}");
}

#[test]
fn all_orders(rt: HostRuntime) {
    for &orders in ORDERS {
        see_only_stage(&rt, rt.alloc(), &Watch::Orders(orders));
    }
}

/// Two workers post block 1 before 0, claim again, and post block 3 before 2.
const CROSSED: &[Step] = &[
    Claims(0, Some(0)),
    Claims(1, Some(1)),
    Posts(1, 1, true),
    Posts(0, 0, true),
    Claims(0, Some(2)),
    Claims(1, Some(3)),
    Posts(1, 3, true),
    Posts(0, 2, true),
];

#[test]
fn steps_of_an_order(rt: HostRuntime) -> Result<(), AllocError> {
    let orders = Orders {
        workers: 2,
        eager: false,
        count: 8,
    };
    match steps_of(rt.alloc(), orders, &[1, 0, 3, 2], BLOCKS)? {
        Some(steps) => assert!(rt; steps.as_slice() == CROSSED),
        None => assert!(rt; false),
    }
    Ok(())
}
