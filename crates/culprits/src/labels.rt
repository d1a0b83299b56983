//! Statement labels that stand twice (ANSI X3.9-1978, 3.4).

ghost use Rattle.std.specs.Prelude.{◌≡◌, option_map};
ghost use Rattle.std.specs.List.{find};
ghost use Rattle.meaning.specs.LabelRules.{has_label};
ghost use Rattle.symbols.specs.Listed.{trees_at};
ghost use Rattle.culprits.specs.Culprits.{repeated_in};
ghost use Rattle.culprits.specs.Told.{tell};

use crate::culprit::Culprit;
use meaning::syntax::Item;

/// The line of the first statement that has a label.
fn first_labelled(items: &[&Item], label: u32) -> Option<u32>
    ensures { result ≡ option_map (λ y. y.line) (find (has_label label) (trees_at items.now)) }
{
    for item in items {
        if item.label == Some(label) {
            return Some(item.line);
        }
    }
    None
}

/// K1: the label of a statement, and the first statement before it that has it.
pub fn repeated_label<'a>(before: &[&Item], label: Option<u32>) -> Option<Culprit<'a>>
    ensures { tell result ≡ repeated_in (trees_at before.now) label }
{
    match label {
        None => None,
        Some(label) => match first_labelled(before, label) {
            None => None,
            Some(earlier) => Some(Culprit::Repeated { label, earlier }),
        },
    }
}
