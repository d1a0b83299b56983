//! The labels of the statements that stand in a list directly (ANSI X3.9-1978, 3.4 and 11.10.8).

ghost use Rattle.std.specs.Prelude.{OnOk};
ghost use Rattle.statement_rules.specs.Counted.{AddsLabels, HasSmallLabels, IsFirstLabel};
ghost use Rattle.statement_rules.specs.Counted.{TakesLabels};

use crate::counts::{LinesByLabel, add_label, take_label};
use meaning::syntax::{Arm, Member};
use std::alloc::{AllocError, Global};

/// The label of the statement with which a block IF begins.
fn label_of_first(arms: &[Arm]) -> Option<u32>
    ensures { IsFirstLabel arms.now result }
{
    match arms.first() {
        Some(arm) => arm.head.label,
        None => None,
    }
}

/// Counts the labels of the statements that stand in a list directly. The `AllocError` comes where
/// a growth was refused.
pub fn add_list(
    lines: &mut LinesByLabel,
    alloc: Global,
    members: &[Member],
) -> Result<(), AllocError>
    ensures counted { OnOk result (AddsLabels members.now lines.old lines.new) }
    ensures small { OnOk result (HasSmallLabels members.now) }
{
    for member in members {
        match member {
            Member::Plain(item) => add_label(lines, alloc, item.label, item.line)?,
            Member::Loop(outer) => add_label(lines, alloc, outer.head.label, outer.head.line)?,
            Member::Block(block) => {
                add_label(lines, alloc, label_of_first(&block.arms), block.end.line)?;
                add_label(lines, alloc, block.end.label, block.end.line)?;
            }
        }
    }
    Ok(())
}

/// Counts them no more.
pub fn take_list(lines: &mut LinesByLabel, members: &[Member])
    ensures { TakesLabels members.now lines.old lines.new }
{
    for member in members {
        match member {
            Member::Plain(item) => take_label(lines, item.label),
            Member::Loop(outer) => take_label(lines, outer.head.label),
            Member::Block(block) => {
                take_label(lines, label_of_first(&block.arms));
                take_label(lines, block.end.label);
            }
        }
    }
}
