//! The hints for faults.

ghost use Rattle.std.specs.Prelude.{◌≡◌, IfOk};
ghost use Rattle.hints.specs.Faults.{are_with_product as are_product, fault_hint};
ghost use Rattle.hints.specs.Faults.{from_equals as behind_equals, is_mod_of_product as is_mod};
ghost use Rattle.hints.specs.Views.{statement_view as view_of_statement};

use crate::hint::Hint;
use crate::pattern::holds;
use crate::view::statement_view;
use lexer::is_balanced;
use meaning::ending::FaultKind;
use std::alloc::{AllocError, Global};

/// The first equals sign of a text and what stands behind it.
#[tactic(auto, unfolding(crate::specs::Faults::from_equals))]
fn from_equals(text: &[u8]) -> &[u8]
    ensures { result.now ≡ behind_equals text.now }
{
    let mut rest = text;
    while let Some((&c, behind)) = rest.split_first() {
        if c == b'=' {
            return rest;
        }
        rest = behind;
    }
    rest
}

/// Whether a text is arguments and the parenthesis that closes them at the end, with a product
/// among them.
fn are_with_product(rest: &[u8]) -> bool
    ensures { result ≡ are_product rest.now }
{
    match rest.strip_suffix(b")\n") {
        Some(arguments) => is_balanced(arguments) && holds(arguments, b"*"),
        None => false,
    }
}

/// Whether a text is an equals sign and a reference to MOD by itself, with a product among its
/// arguments.
fn is_mod_of_product(text: &[u8]) -> bool
    ensures { result ≡ is_mod text.now }
{
    match text.strip_prefix(b"=MOD(") {
        Some(rest) => are_with_product(rest),
        None => false,
    }
}

/// The hint for a fault in the statement that begins at a line: for the turn limit, and for a
/// product that is too large in an assignment of MOD alone. None for other faults.
///
/// # Errors
///
/// `AllocError` if a growth was refused.
pub fn hint_of_fault(
    alloc: Global,
    source: &[u8],
    kind: FaultKind,
    line: u32,
) -> Result<Option<Hint>, AllocError>
    ensures { IfOk result (λ h. h ≡ fault_hint kind (view_of_statement line source.now)) }
{
    match kind {
        FaultKind::F4 => Ok(Some(Hint::Turns)),
        FaultKind::F2 => {
            let text = statement_view(alloc, source, line)?;
            if is_mod_of_product(from_equals(&text)) {
                Ok(Some(Hint::Product))
            } else {
                Ok(None)
            }
        }
        _ => Ok(None),
    }
}
