//! Lists without output (ANSI X3.9-1978, 12.8).

ghost use Rattle.std.specs.Prelude.{◌≡◌, not, option_map};
ghost use Rattle.meaning.specs.Syntax.{shape_tree};
ghost use Rattle.meaning.specs.Trees.{none, arms_tree, member_before, members_tree};
ghost use Rattle.label_targets.specs.Quiet.{are_quiet, is_quiet, is_writing, output_in};
ghost use Rattle.label_targets.specs.Quiet.{output_tree};
ghost use Rattle.label_targets.specs.Quiet.{under};

use meaning::syntax::{Arm, FormatSource, Item, ListItems, Member, Shape};

/// The format and the list of a WRITE or PRINT statement.
pub fn output_of(shape: &Shape) -> Option<(&FormatSource, &ListItems)>
    ensures { option_map output_tree result ≡ output_in (shape_tree shape.now) }
{
    match shape {
        Shape::Write { control, list } => Some((&control.format, list)),
        Shape::Print { format, list } => Some((format, list)),
        _ => None,
    }
}

/// The statement under a logical IF, and another one itself.
pub fn statement_of(shape: &Shape) -> &Shape
    ensures { shape_tree result.now ≡ under (shape_tree shape.now) }
{
    match shape {
        Shape::LogicalIf(_, statement) => statement,
        _ => shape,
    }
}

// Whether a statement, or the one under a logical IF, is neither WRITE nor PRINT.
fn is_quiet_statement(item: &Item) -> bool
    ensures { result ≡ not (is_writing (shape_tree item.now.form.shape.value)) }
{
    output_of(statement_of(&*item.form.shape)).is_none()
}

// Whether the arms of a block IF write nothing.
#[cycle(quiet)]
fn are_quiet_arms(arms: &[Arm]) -> bool
    ensures { result ≡ are_quiet (arms_tree arms.now) }
{
    for arm in arms {
        if !is_quiet_list(&arm.body) {
            return false;
        }
    }
    true
}

// Whether a member of a list writes nothing.
#[cycle(quiet)]
fn is_quiet_member(member: &Member) -> bool
    ensures { result ≡ is_quiet (member_before member.now none) }
{
    match member {
        Member::Plain(item) => is_quiet_statement(item),
        Member::Loop(repeated) => is_quiet_list(&repeated.range),
        Member::Block(block) => are_quiet_arms(&block.arms),
    }
}

/// Whether no WRITE or PRINT statement stands in a list, in its ranges and arms, and under its
/// logical IFs.
#[cycle(quiet)]
pub fn is_quiet_list(members: &[Member]) -> bool
    ensures { result ≡ is_quiet (members_tree members.now) }
{
    for member in members {
        if !is_quiet_member(member) {
            return false;
        }
    }
    true
}
