//! What is done with the first stage of a DO statement.

ghost use Rattle.std.specs.Prelude.{◌≡◌};

use crate::staged::by_hand::{ByHand, see_by_hand};
use crate::staged::meeting::{Meeting, see_alone, see_meeting};
use crate::staged::orders::{Orders, see_orders};
use crate::staged::refusals::{Blocks, Stage, see_blocks, see_stage};
use crate::staged::row::{Row, see_row};
use crate::staged::spares::see_spares;
use array_store::Whole;
use block_stage::Job;
use std::alloc::Global;
use std::process::Abort;
use std::sync::Wait;
use std::thread::Threads;

/// What is done with a stage.
#[derive(Clone, Copy)]
pub enum Watch<'a> {
    /// Its blocks are looked at, and where it is cut.
    Row(&'a Row),
    /// It is run by steps.
    ByHand(&'a ByHand),
    /// Its blocks are posted in all orders.
    Orders(Orders),
    /// It is run through a gate.
    Meeting(&'a Meeting),
    /// It is run through a gate by the calling thread alone.
    Alone(&'a Meeting),
    /// It is run twice, the second time in what the views of the first time were kept in.
    Spares,
    /// Its blocks are looked at, with memory refused.
    Blocks(&'a Blocks),
    /// It is run and committed, with memory refused.
    Stage(&'a Stage),
}

/// Sees a stage of so many blocks over these cells.
pub fn see<R: Abort + Threads + Wait + Sync>(
    rt: &R,
    alloc: Global,
    job: &Job<'_>,
    blocks: u32,
    base: &Whole,
    watch: &Watch<'_>,
)
    requires blocks { blocks ≡ job.now.blocks }
    requires base { base.now ≡ job.now.base }
{
    match *watch {
        Watch::Row(row) => see_row(rt, alloc, job, blocks, base, row),
        Watch::ByHand(by_hand) => see_by_hand(rt, alloc, job, blocks, base, by_hand),
        Watch::Orders(orders) => see_orders(rt, alloc, job, blocks, base, orders),
        Watch::Meeting(meeting) => see_meeting(rt, alloc, job, base, meeting),
        Watch::Alone(meeting) => see_alone(rt, alloc, job, base, meeting),
        Watch::Spares => see_spares(rt, alloc, job, base),
        Watch::Blocks(looked) => see_blocks(rt, alloc, job, blocks, base, looked),
        Watch::Stage(stage) => see_stage(rt, alloc, job, base, stage),
    }
}
