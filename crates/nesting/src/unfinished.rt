//! A program unit as far as it was read, and what may stand behind it.

ghost use Rattle.std.specs.Prelude.{◌≡◌, nat_le, length, IfOk};
ghost use Rattle.meaning.specs.Nesting.{levels, innermost, is_stray as stray, is_named as named_by};
ghost use Rattle.meaning.specs.Nesting.{is_hidden as hidden_by, is_end_in_range as ends_in_range};
ghost use Rattle.meaning.specs.Nesting.{is_crossing, is_too_deep, breaks_nesting};
ghost use Rattle.meaning.specs.Nesting.{is_ended as ended_by, add as added};
ghost use Rattle.meaning.specs.Nesting.{next_arm as next_arm_of, close_block as close_block_of};
ghost use Rattle.meaning.specs.Nesting.{close_range as close_range_of, is_label_named};
ghost use Rattle.meaning.specs.Nesting.{is_stray_end_do, may_close, in_range};
ghost use Rattle.meaning.specs.Nesting.{with_arm as with_arm_of, range, branch, past as past_of};
ghost use Rattle.meaning.specs.Nesting.{ended, joined, effect_of};
ghost use Rattle.meaning.specs.LabelRules.{is_label_at};
ghost use Rattle.meaning.specs.Trees.{item_tree, member_before, members_tree, arms_tree, none};
ghost use Rattle.meaning.specs.Trees.{plain, loop, block, no_arms};
ghost use Rattle.nesting.specs.Open.{unfinished, effect};

use crate::effect::{
    Effect, closes_unit, effect_of_item, is_else_item, label_named, may_end_range, opens_level,
};
use meaning::refusal::Rule;
use meaning::syntax::{Arm, Block, Item, Loop, Member};
use std::alloc::{AllocError, Global};

/// A program unit as far as it was read.
#[derive(Drop)]
pub enum Open {
    /// END was reached.
    Ended(Vec<Member>),
    /// No range and no block IF is open.
    Body(Vec<Member>),
    /// The innermost thing that is open is a range: its DO statement, the label that it names and
    /// what stands in the range so far.
    Range {
        head: Item,
        label: Option<u64>,
        members: Vec<Member>,
        around: Box<Open>,
    },
    /// The innermost thing that is open is a block IF: its earlier arms, the statement of the arm
    /// that is read, and what stands in this so far.
    Branch {
        arms: Vec<Arm>,
        head: Item,
        members: Vec<Member>,
        around: Box<Open>,
    },
}

/// How many DO statements and block IFs are open at most.
const MOST_OPEN: u32 = 32;

/// The label of a statement.
fn label_of(item: &Item) -> Option<u64>
    ensures { result ≡ (item_tree item.now).label }
{
    match item.label {
        Some(label) => Some(u64::from(label)),
        None => None,
    }
}

/// Whether a label is this one.
fn is_label(label: Option<u64>, other: u64) -> bool
    ensures { result ≡ is_label_at label other }
{
    match label {
        Some(label) => label == other,
        None => false,
    }
}

/// Whether a label is the one that a DO statement names.
fn is_label_of(label: Option<u64>, other: Option<u64>) -> bool
    ensures { result ≡ is_label_named label other }
{
    match other {
        Some(other) => is_label(label, other),
        None => false,
    }
}

/// Whether an open DO statement names the label.
fn is_named(so_far: &Open, label: Option<u64>) -> bool
    ensures { result ≡ named_by label (levels (unfinished so_far.now)) }
{
    match so_far {
        Open::Ended(_) | Open::Body(_) => false,
        Open::Range {
            label: other,
            around,
            ..
        } => is_label_of(label, *other) || is_named(around, label),
        Open::Branch { around, .. } => is_named(around, label),
    }
}

/// Whether an open DO statement names the label, behind which one that names another, or a block
/// IF, is open.
fn is_hidden(so_far: &Open, label: Option<u64>) -> bool
    ensures { result ≡ hidden_by label (levels (unfinished so_far.now)) }
{
    match so_far {
        Open::Ended(_) | Open::Body(_) => false,
        Open::Range {
            label: other,
            around,
            ..
        } => {
            if is_label_of(label, *other) {
                is_hidden(around, label)
            } else {
                is_named(around, label)
            }
        }
        Open::Branch { around: outer, .. } => is_named(outer, label),
    }
}

/// Whether so many DO statements and block IFs are open.
fn holds(so_far: &Open, count: u32) -> bool
    ensures { result ≡ nat_le count (length (levels (unfinished so_far.now))) }
{
    if count == 0 {
        return true;
    }
    match so_far {
        Open::Ended(_) | Open::Body(_) => false,
        Open::Range { around, .. } => holds(around, count - 1),
        Open::Branch { around, .. } => holds(around, count - 1),
    }
}

/// Whether ELSE IF, ELSE or END IF stands out of place, or END in a block IF (ANSI X3.9-1978, 11.6
/// to 11.9).
fn is_stray(so_far: &Open, done: Effect) -> bool
    ensures { result ≡ stray (effect done) (levels (unfinished so_far.now)) }
{
    match so_far {
        Open::Branch { head, .. } => match done {
            Effect::OpensArm => is_else_item(head),
            Effect::ClosesUnit => true,
            Effect::OpensRange(_)
            | Effect::ClosesRange
            | Effect::OpensBlock
            | Effect::ClosesBlock
            | Effect::Stands(_) => false,
        },
        Open::Ended(_) | Open::Body(_) | Open::Range { .. } => match done {
            Effect::OpensArm | Effect::ClosesBlock => true,
            Effect::OpensRange(_)
            | Effect::ClosesRange
            | Effect::OpensBlock
            | Effect::ClosesUnit
            | Effect::Stands(_) => false,
        },
    }
}

/// Whether END would stand in a range.
fn ends_unit_in_range(so_far: &Open, done: Effect) -> bool
    ensures { result ≡ ends_in_range (effect done) (levels (unfinished so_far.now)) }
{
    match so_far {
        Open::Range { .. } => closes_unit(done),
        Open::Ended(_) | Open::Body(_) | Open::Branch { .. } => false,
    }
}

/// Whether END DO with a label is where it ends no range, or another open DO statement names its
/// label.
fn is_stray_end(so_far: &Open, label: Option<u64>, done: Effect) -> bool
    ensures { result ≡ is_stray_end_do label (effect done) (levels (unfinished so_far.now)) }
{
    match done {
        Effect::ClosesRange => match so_far {
            Open::Range {
                label: other,
                around,
                ..
            } => !may_close_range(label, *other) || is_named(around, label),
            Open::Ended(_) | Open::Body(_) | Open::Branch { .. } => true,
        },
        Effect::OpensRange(_)
        | Effect::OpensBlock
        | Effect::OpensArm
        | Effect::ClosesBlock
        | Effect::ClosesUnit
        | Effect::Stands(_) => false,
    }
}

/// Whether END DO with a label may end the range of a DO statement, which names a label or none.
fn may_close_range(label: Option<u64>, other: Option<u64>) -> bool
    ensures { result ≡ may_close label (in_range other) }
{
    match other {
        Some(other) => is_label(label, other),
        None => true,
    }
}

/// Whether a range would cross another or a block IF with the statement, or end with one that may
/// not end it, or hold END.
fn crosses(so_far: &Open, label: Option<u64>, done: Effect) -> bool
    ensures { result ≡ is_crossing (levels (unfinished so_far.now)) label (effect done) }
{
    is_hidden(so_far, label)
        || (is_named(so_far, label) && !may_end_range(done))
        || is_hidden(so_far, label_named(done))
        || ends_unit_in_range(so_far, done)
        || is_stray_end(so_far, label, done)
}

/// Whether the statement would open one thing too many.
fn is_one_too_many(so_far: &Open, done: Effect) -> bool
    ensures { result ≡ is_too_deep (levels (unfinished so_far.now)) (effect done) }
{
    opens_level(done) && holds(so_far, MOST_OPEN)
}

/// Whether END was read.
pub fn is_ended(so_far: &Open) -> bool
    ensures { result ≡ ended_by (unfinished so_far.now) }
{
    match so_far {
        Open::Ended(_) => true,
        Open::Body(_) | Open::Range { .. } | Open::Branch { .. } => false,
    }
}

/// The least of N3, N4 and N5 that a statement breaks there, if it breaks one.
pub fn broken_nesting(so_far: &Open, item: &Item) -> Option<Rule>
    ensures { result
        ≡ breaks_nesting (levels (unfinished so_far.now)) (item_tree item.now).label
        (effect_of (item_tree item.now).shape) }
{
    let done = effect_of_item(item);
    if is_stray(so_far, done) {
        return Some(Rule::N3);
    }
    if crosses(so_far, label_of(item), done) {
        return Some(Rule::N4);
    }
    if is_one_too_many(so_far, done) {
        return Some(Rule::N5);
    }
    None
}

/// The members of the innermost list.
pub fn into_innermost(so_far: Open) -> Vec<Member>
    ensures { members_tree result.items ≡ innermost (unfinished so_far) }
{
    match so_far {
        Open::Ended(members) => members,
        Open::Body(members) => members,
        Open::Range {
            head,
            label: _,
            members,
            around,
        } => {
            drop(head);
            drop(around);
            members
        }
        Open::Branch {
            arms,
            head,
            members,
            around,
        } => {
            drop(arms);
            drop(head);
            drop(around);
            members
        }
    }
}

/// A list with one member more at its end.
fn with_last(members: Vec<Member>, member: Member) -> Result<Vec<Member>, AllocError>
    ensures { IfOk
        result (λ z. members_tree z.items
        ≡ joined (members_tree members.items) (member_before member none)) }
{
    let mut longer = members;
    match longer.push(member) {
        Ok(()) => Ok(longer),
        Err(refused) => {
            drop(longer);
            Err(refused.into())
        }
    }
}

/// A DO statement with its range, as one member.
fn whole_loop(head: Item, range: Vec<Member>) -> Member
    ensures { member_before result none ≡ loop (item_tree head) (members_tree range.items) none }
{
    Member::Loop(Loop { head, range })
}

/// An open block IF with one member more in the arm that is read.
fn branch_with(
    arms: Vec<Arm>,
    head: Item,
    members: Vec<Member>,
    around: Box<Open>,
    member: Member,
) -> Result<Open, AllocError>
    ensures { IfOk
        result (λ z. unfinished z
        ≡ branch (arms_tree arms.items) (item_tree head)
        (joined (members_tree members.items) (member_before member none))
        (unfinished around.value)) }
{
    match with_last(members, member) {
        Ok(members) => Ok(Open::Branch {
            arms,
            head,
            members,
            around,
        }),
        Err(refused) => {
            drop(arms);
            drop(head);
            drop(around);
            Err(refused)
        }
    }
}

/// One member more in the innermost list; its last statement's label ends the innermost ranges that
/// name it.
fn with_member(so_far: Open, label: Option<u64>, member: Member) -> Result<Open, AllocError>
    ensures { IfOk
        result (λ z. unfinished z ≡ added label (member_before member none) (unfinished so_far)) }
{
    match so_far {
        Open::Ended(members) => Ok(Open::Ended(with_last(members, member)?)),
        Open::Body(members) => Ok(Open::Body(with_last(members, member)?)),
        Open::Range {
            head,
            label: other,
            members,
            around,
        } => match with_last(members, member) {
            Ok(members) => {
                if is_label_of(label, other) {
                    with_member(Box::into_inner(around), label, whole_loop(head, members))
                } else {
                    Ok(Open::Range {
                        head,
                        label: other,
                        members,
                        around,
                    })
                }
            }
            Err(refused) => {
                drop(head);
                drop(around);
                Err(refused)
            }
        },
        Open::Branch {
            arms,
            head,
            members,
            around,
        } => branch_with(arms, head, members, around, member),
    }
}

/// The arms of a block IF with the one that was read.
fn with_arm(arms: Vec<Arm>, head: Item, body: Vec<Member>) -> Result<Vec<Arm>, AllocError>
    ensures { IfOk
        result (λ z. arms_tree z.items
        ≡ with_arm_of (arms_tree arms.items) (item_tree head) (members_tree body.items)) }
{
    let mut longer = arms;
    match longer.push(Arm { head, body }) {
        Ok(()) => Ok(longer),
        Err(refused) => {
            drop(longer);
            Err(refused.into())
        }
    }
}

/// The next arm of the innermost block IF, behind ELSE IF or ELSE.
fn next_arm(alloc: Global, so_far: Open, item: Item) -> Result<Open, AllocError>
    ensures { IfOk result (λ z. unfinished z ≡ next_arm_of (item_tree item) (unfinished so_far)) }
{
    match so_far {
        Open::Branch {
            arms,
            head,
            members,
            around,
        } => match with_arm(arms, head, members) {
            Ok(arms) => Ok(Open::Branch {
                arms,
                head: item,
                members: Vec::new(alloc),
                around,
            }),
            Err(refused) => {
                drop(around);
                drop(item);
                Err(refused)
            }
        },
        other => {
            drop(item);
            Ok(other)
        }
    }
}

/// A block IF with its END IF statement, as one member.
fn whole_block(arms: Vec<Arm>, end: Item) -> Member
    ensures { member_before result none ≡ block (arms_tree arms.items) (item_tree end) none }
{
    Member::Block(Block { arms, end })
}

/// The innermost block IF as a member of the list that holds it, behind END IF.
fn close_block(so_far: Open, item: Item) -> Result<Open, AllocError>
    ensures { IfOk
        result (λ z. unfinished z ≡ close_block_of (item_tree item) (unfinished so_far)) }
{
    match so_far {
        Open::Branch {
            arms,
            head,
            members,
            around,
        } => match with_arm(arms, head, members) {
            Ok(arms) => {
                let ends = label_of(&item);
                with_member(Box::into_inner(around), ends, whole_block(arms, item))
            }
            Err(refused) => {
                drop(around);
                drop(item);
                Err(refused)
            }
        },
        other => {
            drop(item);
            Ok(other)
        }
    }
}

/// The innermost range as a member of the list that holds it, behind END DO.
fn close_range(so_far: Open, item: Item) -> Result<Open, AllocError>
    ensures { IfOk
        result (λ z. unfinished z ≡ close_range_of (item_tree item) (unfinished so_far)) }
{
    match so_far {
        Open::Range {
            head,
            label: _,
            members,
            around,
        } => match with_last(members, Member::Plain(item)) {
            Ok(members) => with_member(Box::into_inner(around), None, whole_loop(head, members)),
            Err(refused) => {
                drop(head);
                drop(around);
                Err(refused)
            }
        },
        other => {
            drop(item);
            Ok(other)
        }
    }
}

/// The program unit behind END.
fn close_unit(so_far: Open, item: Item) -> Result<Open, AllocError>
    ensures { IfOk
        result (λ z. unfinished z
        ≡ ended (joined (innermost (unfinished so_far)) (plain (item_tree item) none))) }
{
    let members = into_innermost(so_far);
    Ok(Open::Ended(with_last(members, Member::Plain(item))?))
}

/// The range of a DO statement, which names the label, is open.
fn open_range(
    alloc: Global,
    so_far: Open,
    head: Item,
    label: Option<u64>,
) -> Result<Open, AllocError>
    ensures { IfOk
        result (λ z. unfinished z ≡ range (item_tree head) label none (unfinished so_far)) }
{
    match Box::new(alloc, so_far) {
        Ok(around) => Ok(Open::Range {
            head,
            label,
            members: Vec::new(alloc),
            around,
        }),
        Err(refused) => {
            drop(head);
            Err(refused.into())
        }
    }
}

/// The block IF of an IF THEN statement is open.
fn open_block(alloc: Global, so_far: Open, head: Item) -> Result<Open, AllocError>
    ensures { IfOk
        result (λ z. unfinished z ≡ branch no_arms (item_tree head) none (unfinished so_far)) }
{
    match Box::new(alloc, so_far) {
        Ok(around) => Ok(Open::Branch {
            arms: Vec::new(alloc),
            head,
            members: Vec::new(alloc),
            around,
        }),
        Err(refused) => {
            drop(head);
            Err(refused.into())
        }
    }
}

/// The program unit as far as it was read, with one statement more.
#[tactic(auto, unfolding(meaning::specs::Nesting::past))]
pub fn past(alloc: Global, so_far: Open, item: Item) -> Result<Open, AllocError>
    ensures { IfOk result (λ z. unfinished z ≡ past_of (unfinished so_far) (item_tree item)) }
{
    match effect_of_item(&item) {
        Effect::OpensRange(label) => open_range(alloc, so_far, item, label),
        Effect::ClosesRange => close_range(so_far, item),
        Effect::OpensBlock => open_block(alloc, so_far, item),
        Effect::OpensArm => next_arm(alloc, so_far, item),
        Effect::ClosesBlock => close_block(so_far, item),
        Effect::ClosesUnit => close_unit(so_far, item),
        Effect::Stands(_) => {
            let label = label_of(&item);
            with_member(so_far, label, Member::Plain(item))
        }
    }
}
