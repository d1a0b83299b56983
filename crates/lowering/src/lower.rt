//! From a program that keeps the rules to one with what its statements need.

ghost use Rattle.std.specs.Prelude.{◌≡◌, ◌^◌, IfOk};
ghost use Rattle.std.specs.List.{AllByRecursion};
ghost use Rattle.meaning.specs.Trees.{Members};
ghost use Rattle.label_targets.specs.Lists.{IsListIn};
ghost use Rattle.symbols.specs.Listed.{trees_at};
ghost use Rattle.storage.specs.Checked.{items_in, tree_of};
ghost use Rattle.program.specs.Kept.{AreFunctions, AreKept, HasNoOther};
ghost use Rattle.program.specs.Codes.{setting_in};
ghost use Rattle.program.specs.Listed.{HasOrders};
ghost use Rattle.rule_laws.specs.Lawful.{IsAccepted};
ghost use Rattle.rule_laws.specs.Units.{IsSpelled};
ghost use Rattle.ruly_laws.specs.Statements.{AreCodable, AreFunctionsCodable, IsCodable};
ghost use Rattle.lowering.specs.Lines.{Climb, lines_of};

use crate::functions::functions_of;
use crate::lists::lists_of;
use crate::statement::action_of;
use meaning::syntax::Item;
use postfix::Code;
use program::{Actions, Lists};
use std::alloc::{AllocError, Global};
use storage::CheckedProgram;
use symbols::items_of;

// What statements need.
fn actions_of(
    alloc: Global,
    items: &[&Item],
    program: &CheckedProgram,
) -> Result<Actions, AllocError>
    requires codable { AllByRecursion (λ x. IsCodable (setting_in program.now) x.shape)
        (trees_at items.now) }
    requires lines { Climb 0 (2 ^ 16) (lines_of (trees_at items.now)) }
    ensures kept { IfOk result (λ a. AreKept program.now a (trees_at items.now)) }
    ensures others { IfOk result (λ a. HasNoOther a (trees_at items.now)) }
{
    let mut actions = Actions::new(alloc);
    for item in items {
        let action = match action_of(alloc, &*item.form.shape, program) {
            Ok(action) => action,
            Err(AllocError) => {
                drop(actions);
                return Err(AllocError);
            }
        };
        match actions.add(item.line, action) {
            Ok(()) => {}
            Err(AllocError) => {
                drop(actions);
                return Err(AllocError);
            }
        }
    }
    Ok(actions)
}

// What is kept beside a program.
#[derive(Drop)]
struct Kept {
    actions: Actions,
    functions: Vec<Code>,
    lists: Lists,
}

// What its statements need and the codes of its statement functions, with the orders of its lists.
fn with_lists(
    alloc: Global,
    actions: Actions,
    functions: Vec<Code>,
    program: &CheckedProgram,
) -> Result<Kept, AllocError>
    requires kept { AreKept program.now actions (items_in program.now) }
    requires lines { Climb 0 (2 ^ 16) (lines_of (items_in program.now)) }
    ensures actions { IfOk result (λ k. k.actions ≡ actions) }
    ensures functions { IfOk result (λ k. k.functions ≡ functions) }
    ensures lists { IfOk result (λ k. (ms : Members) → IsListIn program.now ms →
        HasOrders program.now k.lists ms) }
{
    match lists_of(alloc, &program.tree().body, &actions, program) {
        Ok(lists) => Ok(Kept {
            actions,
            functions,
            lists,
        }),
        Err(AllocError) => {
            drop(actions);
            drop(functions);
            Err(AllocError)
        }
    }
}

// What its statements need, the codes of its statement functions, and the orders of its lists.
fn kept_of(alloc: Global, program: &CheckedProgram) -> Result<Kept, AllocError>
    requires statements { AreCodable (tree_of program.now) }
    requires functions { AreFunctionsCodable (tree_of program.now) }
    requires lines { Climb 0 (2 ^ 16) (lines_of (items_in program.now)) }
    ensures actions { IfOk result (λ k. AreKept program.now k.actions (items_in program.now)) }
    ensures others { IfOk result (λ k. HasNoOther k.actions (items_in program.now)) }
    ensures functions { IfOk result (λ k. AreFunctions program.now k.functions.items) }
    ensures lists { IfOk result (λ k. (ms : Members) → IsListIn program.now ms →
        HasOrders program.now k.lists ms) }
{
    let items = items_of(alloc, program.tree())?;
    let functions = functions_of(alloc, items.as_slice(), program)?;
    match actions_of(alloc, items.as_slice(), program) {
        Ok(actions) => with_lists(alloc, actions, functions, program),
        Err(AllocError) => {
            drop(functions);
            Err(AllocError)
        }
    }
}

/// Makes what the statements of a program that keeps the rules need, and the orders of its lists:
/// the program with it. `AllocError` where a growth was refused.
pub fn lowered(alloc: Global, unit: CheckedProgram) -> Result<program::Program, AllocError>
    requires spelled { IsSpelled (tree_of unit) }
    requires accepted { IsAccepted (tree_of unit) }
    ensures { IfOk result (λ p. p ≡ unit) }
{
    match kept_of(alloc, &unit) {
        Ok(
            Kept {
                actions,
                functions,
                lists,
            },
        ) => Ok(program::Program::new(unit, actions, functions, lists)),
        Err(AllocError) => {
            drop(unit);
            Err(AllocError)
        }
    }
}
