//! How often statement labels stand (ANSI X3.9-1978, 3.4).

ghost use Rattle.std.specs.Prelude.{◌≡◌, ◌≤◌, ◌^◌, ℕ, false, OnOk};
ghost use Rattle.meaning.specs.LabelRules.{is_label_at};
ghost use Rattle.statement_rules.specs.Counted.{AddsLabel, TakesLabel, count_in};

use std::alloc::{AllocError, Global};
use std::collections::BTreeMap;

/// By labels the lines of the statements at which they stand.
pub type LinesByLabel = BTreeMap<u32, Vec<u32>>;

/// How often a label stands.
pub fn count_of(lines: &LinesByLabel, label: u32) -> usize
    ensures { result ≡ count_in lines.now label }
{
    match lines.get(&label) {
        Some(lines) => lines.len(),
        None => 0,
    }
}

/// Counts a label once more, if there is one, at a line. The `AllocError` comes where a growth was
/// refused.
pub fn add_label(
    lines: &mut LinesByLabel,
    alloc: Global,
    label: Option<u32>,
    line: u32,
) -> Result<(), AllocError>
    ensures counted { OnOk result (AddsLabel label lines.old lines.new) }
    ensures small { (s : ℕ) → 2 ^ 32 ≤ s → is_label_at label s ≡ false }
{
    match label {
        None => Ok(()),
        Some(label) => {
            let mut here = match lines.remove(&label) {
                Some(here) => here,
                None => Vec::new(alloc),
            };
            here.push(line)?;
            lines.insert(label, here)?;
            Ok(())
        }
    }
}

/// Counts a label once less, if there is one.
pub fn take_label(lines: &mut LinesByLabel, label: Option<u32>)
    ensures { TakesLabel label lines.old lines.new }
{
    match label {
        None => {}
        Some(label) => {
            if let Some(here) = lines.get_mut(&label) {
                here.pop();
            }
        }
    }
}
