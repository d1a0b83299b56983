//! Plans: which numbers are in their ranges.

use meaning::plan::Plan;

/// Numbers of a plan, and whether each is in its range.
const NUMBERS: &[((u64, u64, u64, u64), bool)] = &[
    ((1, 1, 1, 1), true),
    ((64, 1_000_000, 256, 1_000_000_000_000), true),
    ((0, 1, 1, 1), false),
    ((65, 1, 1, 1), false),
    ((1, 0, 1, 1), false),
    ((1, 1_000_001, 1, 1), false),
    ((1, 1, 0, 1), false),
    ((1, 1, 257, 1), false),
    ((1, 1, 1, 0), false),
    ((1, 1, 1, 1_000_000_000_001), false),
    ((u64::MAX, u64::MAX, u64::MAX, u64::MAX), false),
];

/// Whether numbers make a plan that has them, where one is wanted, and none otherwise.
fn is_as_wanted(workers: u64, block: u64, window: u64, turns: u64, wanted: bool) -> bool {
    match Plan::new(workers, block, window, turns) {
        None => !wanted,
        Some(plan) => {
            let told = (plan.workers(), plan.block(), plan.window(), plan.turns());
            wanted && told == (workers, block, window, turns)
        }
    }
}

#[test]
fn numbers_of_plans(rt: HostRuntime) {
    for &((workers, block, window, turns), wanted) in NUMBERS {
        assert!(rt; is_as_wanted(workers, block, window, turns, wanted));
    }
}
