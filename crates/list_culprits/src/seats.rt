//! Where a statement stands (ANSI X3.9-1978, 3.5 and 11.6 to 11.10).

ghost use Rattle.std.specs.Prelude.{◌≡◌, ◌++◌, Bool, IfOk, OnOk, option_map};
ghost use Rattle.meaning.specs.Surroundings.{head_of, own_items};
ghost use Rattle.meaning.specs.Syntax.{ItemTree};
ghost use Rattle.meaning.specs.Trees.{arms_tree, item_tree, member_before, members_tree, nested};
ghost use Rattle.meaning.specs.Trees.{none};
ghost use Rattle.symbols.specs.Listed.{trees_at};
ghost use Rattle.list_culprits.specs.Seats.{Enters, IsSeatHere, IsSeatIn, IsSeatInArms};
ghost use Rattle.list_culprits.specs.Seats.{IsSeatInside, arm_alone, opener_at, seat_at};
ghost use Rattle.list_culprits.specs.Seats.{seat_passing, seats_of};

use meaning::syntax::{Arm, Item, Member, Tree};
use std::alloc::{AllocError, Global};

/// The statement with which a range begins, or a block of a block IF.
#[derive(Clone, Copy)]
pub enum Opener<'a> {
    /// A DO or DO WHILE statement.
    Range(&'a Item),
    /// An IF THEN, ELSE IF or ELSE statement.
    Block(&'a Item),
}

/// A statement and what it stands in.
#[derive(Drop)]
pub struct Seat<'a> {
    /// What it stands in, innermost first.
    pub openers: Vec<Opener<'a>>,
    /// The statements of its list and of those around it.
    pub reach: Vec<&'a Item>,
    pub item: &'a Item,
}

/// A test of statements.
pub trait ItemTest {
    /// Whether a statement passes.
    ghost passes: { Self → ItemTree → Bool };

    /// Whether a statement passes.
    fn is(&self, item: &Item) -> bool
        ensures { result ≡ passes self.now (item_tree item.now) };
}

/// Puts the statements that stand in a list directly behind others.
fn add_own<'a>(reach: &mut Vec<&'a Item>, members: &'a [Member]) -> Result<(), AllocError>
    ensures { OnOk result
        (trees_at reach.new.items ≡ trees_at reach.old.items
        ++ own_items (members_tree members.now)) }
{
    for member in members {
        match member {
            Member::Plain(item) => reach.push(item)?,
            Member::Loop(outer) => reach.push(&outer.head)?,
            Member::Block(block) => {
                add_first(reach, &block.arms)?;
                reach.push(&block.end)?;
            }
        }
    }
    Ok(())
}

/// Puts the statement with which a block IF begins behind others.
fn add_first<'a>(reach: &mut Vec<&'a Item>, arms: &'a [Arm]) -> Result<(), AllocError>
    ensures { OnOk result
        (trees_at reach.new.items ≡ trees_at reach.old.items ++ head_of (arms_tree arms.now)) }
{
    match arms.first() {
        Some(arm) => {
            reach.push(&arm.head)?;
            Ok(())
        }
        None => Ok(()),
    }
}

/// The seat of a statement that passes, in nothing so far.
fn seat_here<'a, T: ItemTest>(alloc: Global, test: &T, item: &'a Item) -> Option<Seat<'a>>
    ensures { IsSeatHere (T.passes test.now) (item_tree item.now) result }
{
    if test.is(item) {
        Some(Seat {
            openers: Vec::new(alloc),
            reach: Vec::new(alloc),
            item,
        })
    } else {
        None
    }
}

/// The seat, found in what holds its list. The `AllocError` comes where a growth was refused.
fn entered<'a>(
    seat: Seat<'a>,
    opener: Opener<'a>,
    members: &'a [Member],
) -> Result<Seat<'a>, AllocError>
    ensures { IfOk result (Enters (opener_at opener.entry) (members_tree members.now) seat.entry) }
{
    let Seat {
        mut openers,
        mut reach,
        item,
    } = seat;
    openers.push(opener)?;
    add_own(&mut reach, members)?;
    Ok(Seat {
        openers,
        reach,
        item,
    })
}

/// The seat in a range or a block.
#[cycle(seats)]
fn seat_inside<'a, T: ItemTest>(
    alloc: Global,
    test: &T,
    opener: Opener<'a>,
    members: &'a [Member],
) -> Result<Option<Seat<'a>>, AllocError>
    ensures { IfOk result
        (IsSeatInside (T.passes test.now) (opener_at opener.entry) (members_tree members.now)) }
{
    match seat_in(alloc, test, members)? {
        Some(seat) => Ok(Some(entered(seat, opener, members)?)),
        None => Ok(None),
    }
}

/// The first seat in a list whose statement passes.
#[cycle(seats)]
fn seat_in<'a, T: ItemTest>(
    alloc: Global,
    test: &T,
    members: &'a [Member],
) -> Result<Option<Seat<'a>>, AllocError>
    ensures { IfOk result (IsSeatIn (T.passes test.now) (members_tree members.now)) }
{
    for member in members {
        match seat_in_member(alloc, test, member)? {
            Some(seat) => return Ok(Some(seat)),
            None => {}
        }
    }
    Ok(None)
}

/// The first such seat in a member of a list.
#[cycle(seats)]
fn seat_in_member<'a, T: ItemTest>(
    alloc: Global,
    test: &T,
    member: &'a Member,
) -> Result<Option<Seat<'a>>, AllocError>
    ensures { IfOk result (IsSeatIn (T.passes test.now) (member_before member.now none)) }
{
    match member {
        Member::Plain(item) => Ok(seat_here(alloc, test, item)),
        Member::Loop(outer) => match seat_here(alloc, test, &outer.head) {
            Some(seat) => Ok(Some(seat)),
            None => seat_inside(alloc, test, Opener::Range(&outer.head), &outer.range),
        },
        Member::Block(block) => match seat_in_arms(alloc, test, &block.arms)? {
            Some(seat) => Ok(Some(seat)),
            None => Ok(seat_here(alloc, test, &block.end)),
        },
    }
}

/// The first such seat in an arm.
#[cycle(seats)]
fn seat_in_arm<'a, T: ItemTest>(
    alloc: Global,
    test: &T,
    arm: &'a Arm,
) -> Result<Option<Seat<'a>>, AllocError>
    ensures { IfOk result (IsSeatInArms (T.passes test.now) (arm_alone arm.now)) }
{
    match seat_here(alloc, test, &arm.head) {
        Some(seat) => Ok(Some(seat)),
        None => seat_inside(alloc, test, Opener::Block(&arm.head), &arm.body),
    }
}

/// The first such seat in arms.
#[cycle(seats)]
fn seat_in_arms<'a, T: ItemTest>(
    alloc: Global,
    test: &T,
    arms: &'a [Arm],
) -> Result<Option<Seat<'a>>, AllocError>
    ensures { IfOk result (IsSeatInArms (T.passes test.now) (arms_tree arms.now)) }
{
    for arm in arms {
        match seat_in_arm(alloc, test, arm)? {
            Some(seat) => return Ok(Some(seat)),
            None => {}
        }
    }
    Ok(None)
}

/// The first seat in a program unit whose statement passes.
///
/// # Errors
///
/// `AllocError` only where a growth was refused.
pub fn seat_of<'a, T: ItemTest>(
    alloc: Global,
    test: &T,
    unit: &'a Tree,
) -> Result<Option<Seat<'a>>, AllocError>
    ensures { IfOk
        result (λ found. option_map seat_at found
        ≡ seat_passing (T.passes test.now) (seats_of (nested unit.now))) }
{
    match seat_in(alloc, test, &unit.body)? {
        None => Ok(None),
        Some(seat) => {
            let Seat {
                openers,
                mut reach,
                item,
            } = seat;
            add_own(&mut reach, &unit.body)?;
            Ok(Some(Seat {
                openers,
                reach,
                item,
            }))
        }
    }
}
