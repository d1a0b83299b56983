//! The statements of a program unit in order (ANSI X3.9-1978, 3.5 and 11.10).

ghost use Rattle.std.specs.Prelude.{◌≡◌, ◌++◌, map, IfOk, OnOk};
ghost use Rattle.meaning.specs.Trees.{arms_tree, flat, flat_arms, flatten, members_tree, nested};
ghost use Rattle.symbols.specs.Listed.{tree_at};

use meaning::syntax::{Arm, Item, Member, Tree};
use std::alloc::{AllocError, Global};

/// Puts the statements of a list behind those that are there, each DO statement in front of its
/// range, and END IF behind its arms.
#[cycle(items)]
fn add_items<'a>(items: &mut Vec<&'a Item>, members: &'a [Member]) -> Result<(), AllocError>
    ensures { OnOk result
        (map tree_at items.new.items ≡ map tree_at items.old.items
        ++ flat (members_tree members.now)) }
{
    for member in members {
        match member {
            Member::Plain(item) => items.push(item)?,
            Member::Loop(outer) => {
                items.push(&outer.head)?;
                add_items(items, &outer.range)?;
            }
            Member::Block(block) => {
                add_arms(items, &block.arms)?;
                items.push(&block.end)?;
            }
        }
    }
    Ok(())
}

/// Puts the statements of arms behind those that are there.
#[cycle(items)]
fn add_arms<'a>(items: &mut Vec<&'a Item>, arms: &'a [Arm]) -> Result<(), AllocError>
    ensures { OnOk result
        (map tree_at items.new.items ≡ map tree_at items.old.items
        ++ flat_arms (arms_tree arms.now)) }
{
    for arm in arms {
        items.push(&arm.head)?;
        add_items(items, &arm.body)?;
    }
    Ok(())
}

/// The statements of a program unit, first to last.
pub fn items_of(alloc: Global, tree: &Tree) -> Result<Vec<&Item>, AllocError>
    ensures { IfOk result (λ items. map tree_at items.items ≡ flatten (nested tree.now)) }
{
    let mut items = Vec::new(alloc);
    add_items(&mut items, &tree.body)?;
    Ok(items)
}
