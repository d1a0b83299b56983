//! The bare text of a statement, and of a format.

ghost use Rattle.std.specs.Prelude.{◌≡◌, ◌≤◌, IfOk, length};
ghost use Rattle.meaning.specs.BareText.{bare as bare_text};

use meaning::statement::{Bare, Statement};
use std::alloc::{AllocError, Global};

/// A text without the blanks outside its apostrophes, and with the letters there raised (ANSI
/// X3.9-1978, 3.1.5 and 3.1.6). The `AllocError` comes where a growth was refused.
#[tactic(auto, unfolding(meaning::specs::BareText::bare_behind, meaning::specs::BareText::bare))]
pub fn bare_bytes(alloc: Global, text: &[u8]) -> Result<Vec<u8>, AllocError>
    ensures same { IfOk result (λ b. b.items ≡ bare_text text.now) }
    ensures short { IfOk result (λ b. length b.items ≤ length text.now) }
{
    let mut bare = Vec::new(alloc);
    let mut inside = false;
    for &c in text {
        if inside {
            bare.push(c)?;
        } else if c != b' ' {
            bare.push(c.to_ascii_uppercase())?;
        }
        if c == b'\'' {
            inside = !inside;
        }
    }
    Ok(bare)
}

/// The bare text of a statement. The `AllocError` comes where a growth was refused.
pub fn bare(alloc: Global, statement: &Statement) -> Result<Bare, AllocError>
    ensures line { IfOk result (λ b. b.line ≡ statement.now.line) }
    ensures text { IfOk result (λ b. b.text.items ≡ bare_text statement.now.text.items) }
{
    let text = bare_bytes(alloc, &statement.text)?;
    Ok(Bare {
        line: statement.line,
        text,
    })
}
