//! What STOP statements tell (ANSI X3.9-1978, 11.12).

ghost use Rattle.std.specs.Prelude.{◌≡◌, IfOk};
ghost use Rattle.meaning.specs.declared.syntax.Tree.{Tree};
ghost use Rattle.meaning.specs.Answers.{told_by};
ghost use Rattle.meaning.specs.Formats.{undoubled};
ghost use Rattle.meaning.specs.Syntax.{stop_tree, stopping};
ghost use Rattle.program.specs.Acts.{Acts};

use meaning::ending::StopMessage;
use meaning::syntax::StopText;
use program::Action;
use std::alloc::{AllocError, Global};

// The characters of a character constant, which stand between its apostrophes: of two apostrophes
// the second is left out (4.8).
#[tactic(auto, unfolding(meaning::specs::Formats::single_behind, meaning::specs::Formats::undoubled))]
fn characters(alloc: Global, text: &[u8]) -> Result<Vec<u8>, AllocError>
    ensures { IfOk result (λ v. v.items ≡ undoubled text.now) }
{
    let mut single = Vec::new(alloc);
    let mut pending = false;
    for &c in text {
        if pending && c == b'\'' {
            pending = false;
        } else {
            single.push(c)?;
            pending = c == b'\'';
        }
    }
    Ok(single)
}

// What a STOP statement tells.
fn told(alloc: Global, text: &StopText) -> Result<Vec<u8>, AllocError>
    ensures { IfOk result (λ v. v.items ≡ told_by (stop_tree text.now)) }
{
    match text {
        StopText::None => Ok(Vec::new(alloc)),
        StopText::Digits(digits) => {
            let mut copied = Vec::new(alloc);
            copied.extend_from_slice(digits)?;
            Ok(copied)
        }
        StopText::Constant(constant) => characters(alloc, constant),
    }
}

/// What a STOP statement needs: what it tells.
pub(crate) fn stop_action(alloc: Global, text: &StopText) -> Result<Action, AllocError>
    ensures { (t : Tree) → IfOk result (λ a. Acts t a (stopping (stop_tree text.now))) }
{
    Ok(Action::Stop(StopMessage::new(told(alloc, text)?)))
}
