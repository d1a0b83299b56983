//! DO and DO WHILE statements, and where they stand.

ghost use Rattle.std.specs.Prelude.{◌≡◌, ◌++◌, ◌∷◌, [], None, IfOk, OnOk};
ghost use Rattle.meaning.specs.declared.syntax.Loop.{out-Loop};
ghost use Rattle.meaning.specs.Syntax.{shape_tree};
ghost use Rattle.meaning.specs.Trees.{arms_tree, member_before, members_tree, none};
ghost use Rattle.do_statements.specs.Listing.{inner_of, is_while as is_while_shape, listed_in};
ghost use Rattle.do_statements.specs.Listing.{listed_in_arms, listed_of, standing_of};

use label_targets::is_quiet_list;
use meaning::syntax::{Arm, Loop, Member, Shape, Tree};
use std::alloc::{AllocError, Global};

/// Where a DO statement stands.
#[derive(Clone, Copy, Debug, PartialEq, Eq)]
pub enum Standing {
    /// It is a DO WHILE statement, and never a loop by stages.
    While,
    /// A WRITE or PRINT statement stands in its range.
    Output,
    /// It stands in the range of the DO statement of that line, which has no output.
    Inside(u32),
    /// None of these: a loop by stages.
    Apart,
}

/// A DO statement.
#[derive(Clone, Copy, Debug, PartialEq, Eq)]
pub struct DoStatement {
    /// Its initial line.
    pub line: u32,
    /// Where it stands.
    pub standing: Standing,
}

// Whether it is a DO WHILE statement.
fn is_while(repeated: &Loop) -> bool
    ensures { result ≡ is_while_shape
        (shape_tree (out-Loop repeated.now).head.form.shape.value) }
{
    match &*repeated.head.form.shape {
        Shape::DoWhile { .. } => true,
        _ => false,
    }
}

// Where a DO statement stands that is in the range of one without output, or in none.
fn standing_in(around: Option<u32>, repeated: &Loop) -> Standing
    ensures { result ≡ standing_of around
        (shape_tree (out-Loop repeated.now).head.form.shape.value)
        (members_tree (out-Loop repeated.now).range.items) }
{
    if is_while(repeated) {
        Standing::While
    } else if !is_quiet_list(&repeated.range) {
        Standing::Output
    } else {
        match around {
            Some(line) => Standing::Inside(line),
            None => Standing::Apart,
        }
    }
}

// The innermost DO statement without output around its range.
fn inner_in(around: Option<u32>, line: u32, standing: Standing) -> Option<u32>
    ensures { result ≡ inner_of around line standing }
{
    match standing {
        Standing::While => around,
        Standing::Output => around,
        Standing::Inside(_) => Some(line),
        Standing::Apart => Some(line),
    }
}

// Adds a DO statement, and those in its range.
#[cycle(listing)]
fn add_loop(
    found: &mut Vec<DoStatement>,
    around: Option<u32>,
    repeated: &Loop,
) -> Result<(), AllocError>
    ensures { OnOk result (found.new.items ≡ found.old.items ++ listed_of around
        (out-Loop repeated.now).head.line
        (shape_tree (out-Loop repeated.now).head.form.shape.value)
        (members_tree (out-Loop repeated.now).range.items)) }
{
    let line = repeated.head.line;
    let standing = standing_in(around, repeated);
    found.push(DoStatement { line, standing })?;
    add_list(found, inner_in(around, line, standing), &repeated.range)
}

// Adds those in arms.
#[cycle(listing)]
fn add_arms(
    found: &mut Vec<DoStatement>,
    around: Option<u32>,
    arms: &[Arm],
) -> Result<(), AllocError>
    ensures { OnOk result (found.new.items
        ≡ found.old.items ++ listed_in_arms around (arms_tree arms.now)) }
{
    for arm in arms {
        add_list(found, around, &arm.body)?;
    }
    Ok(())
}

// Adds a member of a list, if it is a DO statement, and those in it.
#[cycle(listing)]
fn add_member(
    found: &mut Vec<DoStatement>,
    around: Option<u32>,
    member: &Member,
) -> Result<(), AllocError>
    ensures { OnOk result (found.new.items
        ≡ found.old.items ++ listed_in around (member_before member.now none)) }
{
    match member {
        Member::Plain(_) => Ok(()),
        Member::Loop(repeated) => add_loop(found, around, repeated),
        Member::Block(block) => add_arms(found, around, &block.arms),
    }
}

// Adds those in a list.
#[cycle(listing)]
fn add_list(
    found: &mut Vec<DoStatement>,
    around: Option<u32>,
    members: &[Member],
) -> Result<(), AllocError>
    ensures { OnOk result (found.new.items
        ≡ found.old.items ++ listed_in around (members_tree members.now)) }
{
    for member in members {
        add_member(found, around, member)?;
    }
    Ok(())
}

/// The DO and DO WHILE statements of a program unit, in the order of their lines.
///
/// # Errors
///
/// `AllocError` only where a growth was refused.
pub fn do_statements(alloc: Global, unit: &Tree) -> Result<Vec<DoStatement>, AllocError>
    ensures { IfOk result (λ v. v.items ≡ listed_in None (members_tree unit.now.body.items)) }
{
    let mut found = Vec::new(alloc);
    add_list(&mut found, None, &unit.body)?;
    Ok(found)
}
