//! Consecutive members of a list, executed as a list by themselves (ANSI X3.9-1978, 11.1 to 11.4).

ghost use Rattle.std.specs.Prelude.{◌≡◌, ◌≤◌, ◌-◌, ℕ, IfSome, drop, length, take};
ghost use Rattle.meaning.specs.Execution.{heads};
ghost use Rattle.meaning.specs.LabelRules.{is_label_at};
ghost use Rattle.meaning.specs.Trees.{arms_tree, flat, members_tree};
ghost use Rattle.evaluator.specs.Known.{AreStatements};
ghost use Rattle.evaluator.specs.Places.{IsLedTo};
ghost use Rattle.evaluator.specs.Slices.{IsSlice, IsSliceFrom};

use meaning::syntax::{Arm, Member};
use program::Program;

// The label of a block IF, which is that of its first arm.
fn label_of(arms: &[Arm]) -> Option<u32>
    ensures { (s : ℕ) → is_label_at result s ≡ heads s (arms_tree arms.now) }
{
    match arms.first() {
        Some(arm) => arm.head.label,
        None => None,
    }
}

// The label by which a transfer leads to a member, if there is one, and how far behind its
// beginning: the label of its first statement, or else that of its END IF statement.
fn led_by(member: &Member) -> Option<(u32, usize)>
    ensures is { IsLedTo member.now result }
    ensures near { IfSome result (λ h. h.1 ≤ 1) }
{
    match member {
        Member::Plain(item) => Some((item.label?, 0)),
        Member::Loop(repeated) => Some((repeated.head.label?, 0)),
        Member::Block(block) => match label_of(&block.arms) {
            Some(label) => Some((label, 0)),
            None => Some((block.end.label?, 1)),
        },
    }
}

// The place in its list at which a slice of the program begins, by the first of its members that a
// label leads to; any place will do where no label leads to one.
pub(crate) fn first_of(program: &Program, members: &[Member]) -> usize
    requires slice { IsSlice program.now (members_tree members.now) }
    ensures { IsSliceFrom program.now result (members_tree members.now) }
{
    for at in 0..members.len() {
        match led_by(&members[at]) {
            Some((label, behind)) => {
                return match program.place(label) {
                    Some(place) => place - at - behind,
                    None => 0,
                };
            }
            None => {}
        }
    }
    0
}

/// The members of a program's body from one place up to another, which `run_list` executes where
/// they write nothing.
pub fn body_members(program: &Program, from: usize, to: usize) -> &[Member]
    requires order { from ≤ to }
    requires within { to ≤ length program.now.body.items }
    ensures is { result.now ≡ take (to - from) (drop from program.now.body.items) }
    ensures named { AreStatements program.now (flat (members_tree result.now)) }
    ensures slice { IsSlice program.now (members_tree result.now) }
{
    &program.tree().body[from..to]
}
