//! DO statements in whose ranges output stands (ANSI X3.9-1978, 11.10 and 12.8).

ghost use Rattle.std.specs.Prelude.{◌≡◌, ◌&&◌, ◌==◌, ℕ, IfOk, OnOk, not};
ghost use Rattle.std.specs.BTreeSet.{contains};
ghost use Rattle.std.specs.Ordering.{nat_cmp};
ghost use Rattle.meaning.specs.declared.syntax.Loop.{out-Loop};
ghost use Rattle.meaning.specs.Trees.{arms_tree, members_tree};
ghost use Rattle.label_targets.specs.Output.{has_output, has_output_in_arms};
ghost use Rattle.label_targets.specs.Puts.{PutsLines, member_loud};
ghost use Rattle.label_targets.specs.Quiet.{is_quiet};

use crate::quiet::is_quiet_list;
use meaning::syntax::{Arm, Loop, Member};
use std::alloc::{AllocError, Global};
use std::collections::BTreeSet;

// Puts the line of a DO statement to others, if output stands in its range.
fn put(lines: &mut BTreeSet<u32>, repeated: &Loop) -> Result<(), AllocError>
    ensures { OnOk result (PutsLines (λ line. ((out-Loop repeated.now).head.line == line) &&
        not (is_quiet (members_tree (out-Loop repeated.now).range.items))) lines.old lines.new) }
{
    if !is_quiet_list(&repeated.range) {
        lines.insert(repeated.head.line)?;
    }
    Ok(())
}

// Puts the lines in the arms of a block IF.
#[cycle(output)]
fn put_arms(lines: &mut BTreeSet<u32>, arms: &[Arm]) -> Result<(), AllocError>
    ensures { OnOk result (PutsLines (λ line. has_output_in_arms line (arms_tree arms.now))
        lines.old lines.new) }
{
    for arm in arms {
        put_list(lines, &arm.body)?;
    }
    Ok(())
}

// Puts the lines of a member of a list and those further in.
#[cycle(output)]
fn put_member(lines: &mut BTreeSet<u32>, member: &Member) -> Result<(), AllocError>
    ensures { OnOk result (PutsLines (member_loud member.now) lines.old lines.new) }
{
    match member {
        Member::Plain(_) => Ok(()),
        Member::Loop(repeated) => {
            put(lines, repeated)?;
            put_list(lines, &repeated.range)
        }
        Member::Block(block) => put_arms(lines, &block.arms),
    }
}

// Puts the lines of a list and those further in.
#[cycle(output)]
fn put_list(lines: &mut BTreeSet<u32>, members: &[Member]) -> Result<(), AllocError>
    ensures { OnOk result (PutsLines (λ line. has_output line (members_tree members.now))
        lines.old lines.new) }
{
    for member in members {
        put_member(lines, member)?;
    }
    Ok(())
}

/// The initial lines of the DO statements in whose ranges a WRITE or PRINT statement stands. The
/// `AllocError` comes where a growth was refused.
pub(crate) fn lines_with_output(
    alloc: Global,
    members: &[Member],
) -> Result<BTreeSet<u32>, AllocError>
    ensures { IfOk result (λ lines. (line : ℕ) →
        contains nat_cmp lines line ≡ has_output line (members_tree members.now)) }
{
    let mut lines = BTreeSet::new(alloc);
    put_list(&mut lines, members)?;
    Ok(lines)
}
