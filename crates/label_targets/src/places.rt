//! Where in their lists statements with labels stand (ANSI X3.9-1978, 3.4 and 11.1 to 11.9).

ghost use Rattle.std.specs.Prelude.{◌≡◌, ◌<◌, ◌-◌, ◌^◌, ℕ, IfOk, OnOk, length};
ghost use Rattle.meaning.specs.Execution.{heads};
ghost use Rattle.meaning.specs.LabelRules.{is_label_at};
ghost use Rattle.meaning.specs.Trees.{arms_tree, members_tree};
ghost use Rattle.label_targets.specs.Places.{place_from, place_in_arms};
ghost use Rattle.label_targets.specs.Puts.{Puts, member_places, place_at, place_if};

use meaning::syntax::{Arm, Member};
use std::alloc::{AllocError, Global};

// No statement has this label, or none yet. No list is so long.
pub(crate) const NOWHERE: usize = 0xffff_ffff_ffff_ffff;

// Sees that there is a place for a label.
fn grow_to(places: &mut Vec<usize>, label: usize) -> Result<(), AllocError>
    requires { label < 2 ^ 32 }
    ensures same { (s : ℕ) → place_at places.new.items s ≡ place_at places.old.items s }
    ensures long { OnOk result (label < length places.new.items) }
{
    if places.len() <= label {
        places.resize(label + 1, NOWHERE)?;
    }
    Ok(())
}

// Puts the place of a statement with a label to others, unless one is kept for the label.
fn put(places: &mut Vec<usize>, label: Option<u32>, place: usize) -> Result<(), AllocError>
    requires { place < 2 ^ 64 - 1 }
    ensures { OnOk result (Puts (place_if label place) places.old.items places.new.items) }
{
    match label {
        Some(label) => {
            let at = label as usize;
            grow_to(places, at)?;
            if places[at] == NOWHERE {
                places[at] = place;
            }
            Ok(())
        }
        None => Ok(()),
    }
}

// The label of a block IF, which is that of its first arm.
fn label_of(arms: &[Arm]) -> Option<u32>
    ensures { (s : ℕ) → is_label_at result s ≡ heads s (arms_tree arms.now) }
{
    match arms.first() {
        Some(arm) => arm.head.label,
        None => None,
    }
}

// Puts the places in the arms of a block IF.
#[cycle(places)]
fn put_arms(places: &mut Vec<usize>, arms: &[Arm]) -> Result<(), AllocError>
    ensures { OnOk result
        (Puts (λ s. place_in_arms s (arms_tree arms.now)) places.old.items places.new.items) }
{
    for arm in arms {
        put_list(places, &arm.body)?;
    }
    Ok(())
}

// Puts the places of a member of a list and those further in.
#[cycle(places)]
fn put_member(places: &mut Vec<usize>, member: &Member, place: usize) -> Result<(), AllocError>
    requires { place < 2 ^ 64 - 2 }
    ensures { OnOk result
        (Puts (member_places member.now place) places.old.items places.new.items) }
{
    match member {
        Member::Plain(item) => put(places, item.label, place),
        Member::Loop(repeated) => {
            put(places, repeated.head.label, place)?;
            put_list(places, &repeated.range)
        }
        Member::Block(block) => {
            put(places, label_of(&block.arms), place)?;
            put_arms(places, &block.arms)?;
            put(places, block.end.label, place + 1)
        }
    }
}

// Puts the places of a list and of those further in.
#[cycle(places)]
fn put_list(places: &mut Vec<usize>, members: &[Member]) -> Result<(), AllocError>
    ensures { OnOk result (Puts (λ s. place_from s 0 (members_tree members.now))
        places.old.items places.new.items) }
{
    for place in 0..members.len() {
        put_member(places, &members[place], place)?;
    }
    Ok(())
}

/// For each label, up to the greatest one, the place in its list that it leads to, and `NOWHERE`
/// for those that no statement has: that of its statement, or, of END IF, that behind the block IF.
/// Of the statements with one label the first counts. The `AllocError` comes where a growth was
/// refused.
pub(crate) fn places_of(alloc: Global, members: &[Member]) -> Result<Vec<usize>, AllocError>
    ensures { IfOk result (λ places. (s : ℕ) →
        place_at places.items s ≡ place_from s 0 (members_tree members.now)) }
{
    let mut places = Vec::new(alloc);
    put_list(&mut places, members)?;
    Ok(places)
}
