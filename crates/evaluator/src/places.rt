//! Where in a list of a program a transfer of control goes on (ANSI X3.9-1978, 11.1 to 11.4).

ghost use Rattle.std.specs.Prelude.{◌≡◌, ◌≤◌, IfSome, drop, length, option_map};
ghost use Rattle.meaning.specs.Execution.{labelled};
ghost use Rattle.meaning.specs.Trees.{members_tree};
ghost use Rattle.label_targets.specs.Kept.{IsKept};
ghost use Rattle.evaluator.specs.Slices.{IsSliceFrom};

use label_targets::place_in_slice;
use meaning::syntax::Member;
use program::Program;

// Where in a slice of the program, which begins at a place of its list, a transfer to the label
// goes on, if the slice has the label: at the first member that begins with it, or behind the block
// IF whose END IF statement has it.
pub(crate) fn place_from(
    program: &Program,
    members: &[Member],
    first: usize,
    label: u32,
) -> Option<usize>
    requires slice { IsSliceFrom program.now first (members_tree members.now) }
    ensures at { option_map (λ i. members_tree (drop i members.now)) result ≡
        labelled label (members_tree members.now) }
    ensures within { IfSome result (λ i. i ≤ length members.now) }
{
    place_in_slice(members, first, program.place(label), label)
}

/// Where in a list of the program a transfer to the label goes on, if the list has the label: at
/// the first member that begins with it, or behind the block IF whose END IF statement has it.
pub fn place_of(program: &Program, members: &[Member], label: u32) -> Option<usize>
    requires kept { IsKept program.now (members_tree members.now) }
    ensures at { option_map (λ i. members_tree (drop i members.now)) result ≡
        labelled label (members_tree members.now) }
    ensures within { IfSome result (λ i. i ≤ length members.now) }
{
    place_from(program, members, 0, label)
}
