//! Where in a list a transfer of control goes on (ANSI X3.9-1978, 11.1 to 11.4).

ghost use Rattle.std.specs.Prelude.{◌≡◌, ◌≤◌, ℕ, IfSome, drop, length, option_map};
ghost use Rattle.meaning.specs.Execution.{heads, labelled};
ghost use Rattle.meaning.specs.LabelRules.{has_label as has};
ghost use Rattle.meaning.specs.Trees.{arms_tree, item_tree, members_tree};
ghost use Rattle.label_targets.specs.Entries.{entry, is_entered_at};
ghost use Rattle.label_targets.specs.Places.{own_place};

use meaning::syntax::{Arm, Item, Member};

// Whether a statement has the label.
fn has_label(item: &Item, label: u32) -> bool
    ensures { result ≡ has label (item_tree item.now) }
{
    match item.label {
        Some(own) => own == label,
        None => false,
    }
}

// Whether the first of the arms has the label.
fn heads_arms(arms: &[Arm], label: u32) -> bool
    ensures { result ≡ heads label (arms_tree arms.now) }
{
    match arms.first() {
        Some(arm) => has_label(&arm.head, label),
        None => false,
    }
}

// How far behind the beginning of a member a transfer to the label goes on: at the member, or, at
// the label of its END IF statement, behind it.
fn entry_of(member: &Member, label: u32) -> Option<usize>
    ensures exact { result ≡ entry label member.now }
    ensures near { IfSome result (λ n. n ≤ 1) }
{
    match member {
        Member::Plain(item) => {
            if has_label(item, label) {
                Some(0)
            } else {
                None
            }
        }
        Member::Loop(repeated) => {
            if has_label(&repeated.head, label) {
                Some(0)
            } else {
                None
            }
        }
        Member::Block(block) => {
            if heads_arms(&block.arms, label) {
                return Some(0);
            }
            if has_label(&block.end, label) {
                Some(1)
            } else {
                None
            }
        }
    }
}

// Whether a member stands at a place of a list, so far behind whose beginning a transfer to the
// label goes on.
fn is_entered(members: &[Member], place: usize, label: u32, behind: usize) -> bool
    ensures { result ≡ is_entered_at label members.now place behind }
{
    if place >= members.len() {
        return false;
    }
    match entry_of(&members[place], label) {
        Some(entry) => entry == behind,
        None => false,
    }
}

/// Where in a slice of a list, which begins at a place of that list, a transfer to the label goes
/// on, if the slice has the label: at the first member that begins with it, or behind the block IF
/// whose END IF statement has it. `place` is where the label leads, as `LabelTargets::place` tells,
/// which is in that list if the slice has the label. The slice has it if the member at that place
/// begins with it, or the block IF before that place ends with it.
pub fn place_in_slice(
    members: &[Member],
    first: usize,
    place: Option<usize>,
    label: u32,
) -> Option<usize>
    requires { (n : ℕ) → own_place label first (members_tree members.now) ≡ Some n → place
        ≡ Some n }
    ensures at { option_map (λ i. members_tree (drop i members.now)) result ≡
        labelled label (members_tree members.now) }
    ensures within { IfSome result (λ i. i ≤ length members.now) }
{
    match place {
        Some(place) => {
            if place < first {
                return None;
            }
            let here = place - first;
            if is_entered(members, here, label, 0) {
                return Some(here);
            }
            if here == 0 {
                return None;
            }
            if is_entered(members, here - 1, label, 1) {
                return Some(here);
            }
            None
        }
        None => None,
    }
}
