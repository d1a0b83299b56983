//! The hint for a refused source, or for a fault.

ghost use Rattle.std.specs.Prelude.{◌≡◌, IfOk};
ghost use Rattle.hints.specs.Forms.{first_hint, forms_of};
ghost use Rattle.hints.specs.Views.{view as view_by};

use crate::hint::Hint;
use crate::tables::{hint_for, rows_of};
use crate::view::{line_view, statement_view};
use meaning::refusal::Rule;
use std::alloc::{AllocError, Global};

/// The text by which a rule's forms are told.
fn view(alloc: Global, source: &[u8], rule: Rule, line: u32) -> Result<Vec<u8>, AllocError>
    ensures { IfOk result (λ v. v.items ≡ view_by rule line source.now) }
{
    match rule {
        Rule::C1 | Rule::C2 | Rule::C3 | Rule::C4 | Rule::C5 => line_view(alloc, source, line),
        _ => statement_view(alloc, source, line),
    }
}

/// The hint for a source that is refused by a rule at a line: that of the first of the rule's forms
/// that the line, or the statement that begins there, has. None where it has none of them.
///
/// # Errors
///
/// `AllocError` if a growth was refused.
pub fn hint_of(
    alloc: Global,
    source: &[u8],
    rule: Rule,
    line: u32,
) -> Result<Option<Hint>, AllocError>
    ensures { IfOk result (λ h. h ≡ first_hint (forms_of rule) (view_by rule line source.now)) }
{
    let text = view(alloc, source, rule, line)?;
    Ok(hint_for(rows_of(rule), &text))
}
