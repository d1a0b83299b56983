//! Stages whose blocks are handed what earlier views were kept in.

ghost use Rattle.std.specs.Prelude.{◌≡◌};

use crate::staged::meeting::{STATES, see_only_stage};
use crate::staged::states::are_alike;
use crate::staged::watch::Watch;
use array_store::Whole;
use block_stage::{Job, Open, Posted, WriteSet, cut, run_stage_in};
use meaning::ending::Outcome;
use std::alloc::Global;
use std::process::Abort;
use std::sync::Wait;
use std::thread::Threads;

// Takes all blocks of a stage, puts what they wrote into the cells, and compares these. It answers
// what the views were kept in.
fn take_checked<R: Abort>(rt: &R, posted: Posted<'_>, target: &mut Whole) -> Vec<WriteSet>
    requires { target.old ≡ posted.job.base }
{
    assert!(rt; posted.turns() == 8);
    let place = cut(&posted);
    assert!(rt; place == 4, "{place}");
    let taken = posted.taken(place);
    assert!(rt; taken.used() == 8);
    let run = taken.apply(target);
    assert!(rt; run.outcome == Outcome::Normal);
    assert!(rt; run.turns_used == 8);
    assert!(rt; are_alike(target.cells(), STATES[4].cells));
    taken.into_spares()
}

// Runs the blocks of a stage, kept in spares.
fn run_checked<R: Abort + Threads + Wait + Sync>(
    rt: &R,
    alloc: Global,
    job: &Job<'_>,
    base: &Whole,
    spares: Vec<WriteSet>,
) -> Vec<WriteSet>
    requires { base.now ≡ job.now.base }
{
    let mut target = Whole::new(alloc, base.cells()).expect(rt, "memory");
    let posted = run_stage_in(rt, alloc, job, 4, &Open, spares).expect(rt, "memory");
    take_checked(rt, posted, &mut target)
}

// Puts spares behind others.
fn put_all<R: Abort>(rt: &R, all: &mut Vec<WriteSet>, spares: Vec<WriteSet>) {
    for spare in spares {
        assert!(rt; all.push(spare).is_ok());
    }
}

/// Runs a stage of four blocks with none, with four and with eight spares, the four that no block
/// was handed coming back with the others; and lets one go unused, from which they all come back.
pub fn see_spares<R: Abort + Threads + Wait + Sync>(
    rt: &R,
    alloc: Global,
    job: &Job<'_>,
    base: &Whole,
)
    requires { base.now ≡ job.now.base }
{
    let first = run_checked(rt, alloc, job, base, Vec::new(alloc));
    assert!(rt; first.len() == 4);
    let mut all = run_checked(rt, alloc, job, base, first);
    assert!(rt; all.len() == 4);
    put_all(
        rt,
        &mut all,
        run_checked(rt, alloc, job, base, Vec::new(alloc)),
    );
    let left = run_checked(rt, alloc, job, base, all);
    assert!(rt; left.len() == 8);
    let posted = run_stage_in(rt, alloc, job, 2, &Open, left).expect(rt, "memory");
    assert!(rt; posted.into_spares().len() == 8);
}

#[test]
fn views_are_used_again(rt: HostRuntime) {
    see_only_stage(&rt, rt.alloc(), &Watch::Spares);
}
