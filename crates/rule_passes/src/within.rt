//! One pass over the lists of a program unit for one rule (ANSI X3.9-1978, 3.5 and 11.6 to 11.10).

ghost use Rattle.std.specs.Prelude.{◌≡◌, [], ◌∷◌, Bool, OnOk};
ghost use Rattle.meaning.specs.Surroundings.{Around};
ghost use Rattle.meaning.specs.Syntax.{ItemTree};
ghost use Rattle.rule_passes.specs.Telling.{AddsArms, AddsIn, AddsLoop, AddsOne, Enters};
ghost use Rattle.rule_passes.specs.Telling.{EntersArm, Finds, Leaves, LeavesArm, breaks_within};

use crate::broken::add_broken;
use meaning::refusal::{Broken, Rule};
use meaning::syntax::{Arm, Item, Loop, Member};
use std::alloc::AllocError;

/// A rule that a statement breaks in what it stands in: what is known of the lists around it, and
/// what breaks the rule.
pub trait Within {
    /// Whether a statement breaks the rule in what it stands in.
    ghost breaks: { Self → Around → ItemTree → Bool };

    /// What is known of the lists around.
    ghost knows: { Self → Around → Type 0 };

    /// Whether a statement breaks the rule there.
    fn is_broken(&self, item: &Item) -> bool
        ensures { Finds (knows self.now) (breaks_within (breaks self.now) item.now) result };

    /// Enters the range of a DO statement. The `AllocError` comes where a growth was refused.
    fn enter_range(&mut self, head: &Item, range: &[Member]) -> Result<(), AllocError>
        ensures knows { OnOk result (Enters (knows self.old) (knows self.new) head.now range.now) }
        ensures same { OnOk result (breaks self.new ≡ breaks self.old) };

    /// Leaves it.
    fn leave_range(&mut self, head: &Item, range: &[Member])
        ensures knows { Leaves (knows self.old) (knows self.new) head.now range.now }
        ensures same { breaks self.new ≡ breaks self.old };

    /// Enters an arm of a block IF. The `AllocError` comes where a growth was refused.
    fn enter_arm(&mut self, body: &[Member]) -> Result<(), AllocError>
        ensures knows { OnOk result (EntersArm (knows self.old) (knows self.new) body.now) }
        ensures same { OnOk result (breaks self.new ≡ breaks self.old) };

    /// Leaves it.
    fn leave_arm(&mut self, body: &[Member])
        ensures knows { LeavesArm (knows self.old) (knows self.new) body.now }
        ensures same { breaks self.new ≡ breaks self.old };
}

/// Adds the pair of a statement, if it breaks the rule there.
fn add_at<W: Within>(
    pairs: &mut Vec<Broken>,
    within: &W,
    rule: Rule,
    item: &Item,
) -> Result<(), AllocError>
    ensures { OnOk result
        (AddsOne (W.knows within.now) (W.breaks within.now) rule item.now pairs.old.items
        pairs.new.items) }
{
    let is_broken = within.is_broken(item);
    add_broken(pairs, is_broken, item.line, rule)
}

/// Adds the pair of each line of a list at which a statement breaks the rule, in the order of the
/// statements. The `AllocError` comes where a growth was refused.
#[cycle(adding)]
pub fn add_in<W: Within>(
    pairs: &mut Vec<Broken>,
    within: &mut W,
    rule: Rule,
    members: &[Member],
) -> Result<(), AllocError>
    ensures told { OnOk result
        (AddsIn (W.knows within.old) (W.breaks within.old) rule members.now pairs.old.items
        pairs.new.items) }
    ensures knows { OnOk result ((a : Around) → W.knows within.old a → W.knows within.new a) }
    ensures same { OnOk result (W.breaks within.new ≡ W.breaks within.old) }
{
    for member in members {
        add_member(pairs, within, rule, member)?;
    }
    Ok(())
}

/// Adds those of one member of a list.
#[cycle(adding)]
fn add_member<W: Within>(
    pairs: &mut Vec<Broken>,
    within: &mut W,
    rule: Rule,
    member: &Member,
) -> Result<(), AllocError>
    ensures told { OnOk result
        (AddsIn (W.knows within.old) (W.breaks within.old) rule (member.now ∷ []) pairs.old.items
        pairs.new.items) }
    ensures knows { OnOk result ((a : Around) → W.knows within.old a → W.knows within.new a) }
    ensures same { OnOk result (W.breaks within.new ≡ W.breaks within.old) }
{
    match member {
        Member::Plain(item) => add_at(pairs, within, rule, item),
        Member::Loop(outer) => add_in_loop(pairs, within, rule, outer),
        Member::Block(block) => {
            add_in_arms(pairs, within, rule, &block.arms)?;
            add_at(pairs, within, rule, &block.end)
        }
    }
}

/// Adds those of a DO statement and its range.
#[cycle(adding)]
fn add_in_loop<W: Within>(
    pairs: &mut Vec<Broken>,
    within: &mut W,
    rule: Rule,
    outer: &Loop,
) -> Result<(), AllocError>
    ensures told { OnOk result
        (AddsLoop (W.knows within.old) (W.breaks within.old) rule outer.now pairs.old.items
        pairs.new.items) }
    ensures knows { OnOk result ((a : Around) → W.knows within.old a → W.knows within.new a) }
    ensures same { OnOk result (W.breaks within.new ≡ W.breaks within.old) }
{
    add_at(pairs, within, rule, &outer.head)?;
    within.enter_range(&outer.head, &outer.range)?;
    add_in(pairs, within, rule, &outer.range)?;
    within.leave_range(&outer.head, &outer.range);
    Ok(())
}

/// Adds those of arms.
#[cycle(adding)]
fn add_in_arms<W: Within>(
    pairs: &mut Vec<Broken>,
    within: &mut W,
    rule: Rule,
    arms: &[Arm],
) -> Result<(), AllocError>
    ensures told { OnOk result
        (AddsArms (W.knows within.old) (W.breaks within.old) rule arms.now pairs.old.items
        pairs.new.items) }
    ensures knows { OnOk result ((a : Around) → W.knows within.old a → W.knows within.new a) }
    ensures same { OnOk result (W.breaks within.new ≡ W.breaks within.old) }
{
    for arm in arms {
        add_at(pairs, within, rule, &arm.head)?;
        within.enter_arm(&arm.body)?;
        add_in(pairs, within, rule, &arm.body)?;
        within.leave_arm(&arm.body);
    }
    Ok(())
}
