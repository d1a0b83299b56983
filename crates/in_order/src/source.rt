//! From the bytes of a source to a program that keeps the rules.

ghost use Rattle.std.specs.Prelude.{map};
ghost use Rattle.meaning.specs.Reports.{Gives};
ghost use Rattle.meaning.specs.Statements.{entry_of};
ghost use Rattle.meaning.specs.Trees.{item_tree, nested};
ghost use Rattle.meaning.specs.Answers.{member_of, members_of, program_of};
ghost use Rattle.storage.specs.Checked.{tree_of};
ghost use Rattle.rule_laws.specs.Units.{unit_of};

use checker::check;
use lexer::bare;
use lowering::lowered;
use meaning::refusal::{Broken, Refusal, lesser};
use meaning::statement::Statement;
use meaning::syntax::{Item, Tree};
use nesting::tree;
use parser::form;
use program::Program;
use source_columns::statements;
use std::alloc::Global;

// What one statement says, in its place.
fn member_in(alloc: Global, statement: &Statement) -> Result<Item, Refusal>
    ensures { Gives item_tree result (member_of (entry_of statement.now)) }
{
    let text = bare(alloc, statement)?;
    let form = form(alloc, &text)?;
    Ok(Item {
        line: statement.line,
        label: statement.label,
        form,
    })
}

// What the statements say, or the least rule that one of them breaks.
fn members_in(alloc: Global, found: &[Statement]) -> Result<Vec<Item>, Refusal>
    ensures { Gives (λ v. map item_tree v.items) result (members_of (map entry_of found.now)) }
{
    let mut members = Vec::new(alloc);
    let mut broken = None;
    for statement in found {
        match member_in(alloc, statement) {
            Ok(member) => match members.push(member) {
                Ok(()) => {}
                Err(unpushed) => {
                    drop(unpushed);
                    drop(members);
                    return Err(Refusal::Memory);
                }
            },
            Err(Refusal::Rule { rule, line }) => {
                broken = lesser(broken, Some(Broken { line, rule }));
            }
            Err(Refusal::Memory) => {
                drop(members);
                return Err(Refusal::Memory);
            }
        }
    }
    match broken {
        None => Ok(members),
        Some(Broken { line, rule }) => {
            drop(members);
            Err(Refusal::Rule { rule, line })
        }
    }
}

/// The program unit that a source spells, whether or not it keeps the rules K, or why it spells
/// none: the least broken rule of the first of the phases C, G and N that has one, or `Memory`
/// where a growth was refused.
pub fn unit_in(alloc: Global, source: &[u8]) -> Result<Tree, Refusal>
    ensures { Gives nested result (unit_of source.now) }
{
    let found = statements(alloc, source)?;
    let members = members_in(alloc, &found)?;
    tree(alloc, members)
}

/// The program that a source spells, or why it is refused: the least broken rule of the first phase
/// that has one, or `Memory` where a growth was refused.
#[tactic(auto, using(crate::proofs::Units::passes, crate::proofs::Units::refuses))]
pub fn program_in(alloc: Global, source: &[u8]) -> Result<Program, Refusal>
    ensures { Gives tree_of result (program_of source.now) }
{
    let unit = unit_in(alloc, source)?;
    let program = check(alloc, unit)?;
    Ok(lowered(alloc, program)?)
}
