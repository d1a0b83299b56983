//! What is kept of the lists of a program unit.

ghost use Rattle.std.specs.Prelude.{◌≡◌, IfOk};
ghost use Rattle.meaning.specs.Trees.{Members, members_tree};
ghost use Rattle.label_targets.specs.Output.{has_output};
ghost use Rattle.label_targets.specs.Landmarked.{AreLabelTargets};
ghost use Rattle.label_targets.specs.Places.{place_from};

use crate::output::lines_with_output;
use crate::places::{NOWHERE, places_of};
use meaning::syntax::Member;
use std::alloc::{AllocError, Global};
use std::collections::BTreeSet;

/// Where the labels of a list and of those further in lead, and which DO statements have output in
/// their ranges.
pub struct LabelTargets {
    /// For each label, up to the greatest one, its place in the list that has it.
    places: Vec<usize>,
    /// The initial lines of the DO statements with a WRITE or PRINT statement in their ranges.
    output: BTreeSet<u32>,
}

impl Drop for LabelTargets {
    fn drop(self) {
        let LabelTargets { places, output } = self;
        drop(places);
        drop(output);
    }
}

impl LabelTargets {
    /// Those of a list. The `AllocError` comes where a growth was refused.
    pub fn new(alloc: Global, members: &[Member]) -> Result<Self, AllocError>
        ensures { IfOk result (AreLabelTargets (members_tree members.now)) }
    {
        let places = places_of(alloc, members)?;
        match lines_with_output(alloc, members) {
            Ok(output) => Ok(LabelTargets { places, output }),
            Err(AllocError) => {
                drop(places);
                Err(AllocError)
            }
        }
    }

    /// The place in its list that a label leads to: that of its statement, or, of END IF, that
    /// behind the block IF; none where no statement has the label, or ELSE IF or ELSE alone (ANSI
    /// X3.9-1978, 11.1 to 11.9). Of the statements with one label the first counts.
    pub fn place(&self, label: u32) -> Option<usize>
        ensures { (ms : Members) → AreLabelTargets ms self.now → result ≡ place_from label 0 ms }
    {
        match self.places.get(label as usize) {
            Some(place) if *place != NOWHERE => Some(*place),
            _ => None,
        }
    }

    /// Whether a DO statement with this initial line has a WRITE or PRINT statement in its range.
    pub fn has_output(&self, line: u32) -> bool
        ensures { (ms : Members) → AreLabelTargets ms self.now → result ≡ has_output line ms }
    {
        self.output.contains(&line)
    }
}
