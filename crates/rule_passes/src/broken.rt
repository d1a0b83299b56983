//! A broken rule and the line at which it is.

ghost use Rattle.std.specs.Prelude.{◌≡◌, ◌++◌, OnOk};
ghost use Rattle.meaning.specs.Statements.{broken_if as broken_list};

use meaning::refusal::{Broken, Rule};
use std::alloc::AllocError;

/// Adds the pair behind others, if the test says so. The `AllocError` comes where a growth was
/// refused.
pub fn add_broken(
    pairs: &mut Vec<Broken>,
    test: bool,
    line: u32,
    rule: Rule,
) -> Result<(), AllocError>
    ensures { OnOk result (pairs.new.items ≡ pairs.old.items ++ broken_list test line rule) }
{
    if test {
        pairs.push(Broken { line, rule })?;
    }
    Ok(())
}
