//! What statements say, and each rule that their texts break.

ghost use Rattle.std.specs.Prelude.{◌≡◌, map, IfOk, OnOk};
ghost use Rattle.meaning.specs.Answers.{member_of};
ghost use Rattle.meaning.specs.Reports.{Gives};
ghost use Rattle.meaning.specs.Statements.{entry_of};
ghost use Rattle.meaning.specs.Trees.{item_tree};
ghost use Rattle.all_breaches.specs.Adding.{AddsBroken, AddsMember};
ghost use Rattle.all_breaches.specs.Phases.{pairs_of_texts};
ghost use Rattle.all_breaches.specs.Texts.{members_read};

use lexer::bare;
use meaning::refusal::{Broken, Refusal};
use meaning::statement::Statement;
use meaning::syntax::Item;
use parser::form;
use std::alloc::{AllocError, Global};

/// What statements say.
pub struct Texts {
    /// Those that can be read, in their places.
    pub members: Vec<Item>,
    /// The rules that the others break.
    pub broken: Vec<Broken>,
}

// What one statement says, in its place.
fn member_in(alloc: Global, statement: &Statement) -> Result<Item, Refusal>
    ensures { Gives item_tree result (member_of (entry_of statement.now)) }
{
    let text = bare(alloc, statement)?;
    let form = form(alloc, &text)?;
    Ok(Item {
        line: statement.line,
        label: statement.label,
        form,
    })
}

/// Adds what one statement says.
fn add_said(
    members: &mut Vec<Item>,
    broken: &mut Vec<Broken>,
    said: Result<Item, Refusal>,
) -> Result<(), AllocError>
    ensures members { OnOk result (AddsMember said members.old.items members.new.items) }
    ensures broken { OnOk result (AddsBroken said broken.old.items broken.new.items) }
{
    match said {
        Ok(member) => match members.push(member) {
            Ok(()) => Ok(()),
            Err(unpushed) => {
                drop(unpushed);
                Err(AllocError)
            }
        },
        Err(Refusal::Rule { rule, line }) => {
            broken.push(Broken { line, rule })?;
            Ok(())
        }
        Err(Refusal::Memory) => Err(AllocError),
    }
}

/// What statements say.
pub fn texts_in(alloc: Global, found: &[Statement]) -> Result<Texts, AllocError>
    ensures members { IfOk result (λ t.
        map item_tree t.members.items ≡ members_read (map entry_of found.now)) }
    ensures broken { IfOk result (λ t. t.broken.items ≡ pairs_of_texts (map entry_of found.now)) }
{
    let mut members = Vec::new(alloc);
    let mut broken = Vec::new(alloc);
    for statement in found {
        let said = member_in(alloc, statement);
        match add_said(&mut members, &mut broken, said) {
            Ok(()) => {}
            Err(AllocError) => {
                drop(members);
                drop(broken);
                return Err(AllocError);
            }
        }
    }
    Ok(Texts { members, broken })
}
