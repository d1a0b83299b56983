//! DO statements in the ranges of others.

use meaning::syntax::{Arm, Member};

// Whether a DO statement stands in one of the arms, or further in.
#[cycle(held)]
fn arms_hold_loops(arms: &[Arm]) -> bool {
    for arm in arms {
        if holds_loops(&arm.body) {
            return true;
        }
    }
    false
}

// Whether a member of a list is a DO or DO WHILE statement, or holds one.
#[cycle(held)]
fn is_or_holds_loop(member: &Member) -> bool {
    match member {
        Member::Plain(_) => false,
        Member::Loop(_) => true,
        Member::Block(block) => arms_hold_loops(&block.arms),
    }
}

/// Whether a DO or DO WHILE statement stands in a list, or further in.
#[cycle(held)]
pub(crate) fn holds_loops(members: &[Member]) -> bool {
    for member in members {
        if is_or_holds_loop(member) {
            return true;
        }
    }
    false
}
