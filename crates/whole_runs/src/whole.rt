//! What is proved over any store, over a whole store, which refuses no write.

ghost use Rattle.std.specs.Prelude.{◌≡◌, ◌<◌, ◌≤◌, ℕ, List, [], IsTrue, length, not, IfOk};
ghost use Rattle.meaning.specs.Execution.{step};
ghost use Rattle.meaning.specs.Lists.{listed, list_limit};
ghost use Rattle.meaning.specs.Maps.{put};
ghost use Rattle.meaning.specs.Syntax.{ExprTree, LimitsTree, list_items_tree, shape_tree};
ghost use Rattle.meaning.specs.Trees.{item_tree};
ghost use Rattle.meaning.specs.Trips.{span_of};
ghost use Rattle.storage.specs.Checked.{items_in, count_in};
ghost use Rattle.storage.specs.Starts.{map_of};
ghost use Rattle.values.specs.Programs.{scope_in};
ghost use Rattle.program.specs.Codes.{AreLimits, IsCell, IsCode};
ghost use Rattle.program.specs.Items.{AreItems};
ghost use Rattle.program.specs.Programs.{IsStatement};
ghost use Rattle.evaluator.specs.Limited.{SpanIs};
ghost use Rattle.evaluator.specs.Listing.{ListIs};
ghost use Rattle.evaluator.specs.Over.{ConditionIn, MovesIn, TestsIn};
ghost use Rattle.label_targets.specs.Quiet.{is_writing};
ghost use Rattle.evaluator.specs.Statements.{Adds, Spends};

use crate::listing::list_values;
use array_store::Whole;
use evaluator::{Span, add_to, run_item, set_variable, test_arm, test_condition, values_of_codes};
use meaning::ending::{Fault, FaultKind, Outcome, Value};
use meaning::syntax::{Item, ListItems};
use postfix::Code;
use program::{ListCodes, Program, Repeat};
use std::alloc::{AllocError, Global};

/// Gives a variable a value, by its cell.
pub fn set_whole(program: &Program, cell: usize, x: i32, cells: &mut Whole)
    requires small { cell < count_in program.now }
    requires sized { length cells.old ≡ count_in program.now }
    ensures set { (n : List ℕ) → IsCell program.now n cell →
        map_of program.now cells.new ≡ put (map_of program.now cells.old) n [] x }
    ensures len { length cells.new ≡ length cells.old }
{
    match set_variable(program, cell, x, cells) {
        Ok(()) => {}
        // A whole store refuses no write.
        Err(_) => {}
    }
}

/// Executes one statement that stands by itself and writes nothing, or passes over one that isn't
/// executable.
pub fn item_whole(program: &Program, item: &Item, cells: &mut Whole, turns: &mut u64) -> Outcome
    requires known { IsStatement program.now (item_tree item.now) }
    requires quiet { IsTrue (not (is_writing (shape_tree item.now.form.shape.value))) }
    requires sized { length cells.old ≡ count_in program.now }
    ensures moves { MovesIn program.now cells.old cells.new
        (step (items_in program.now) (shape_tree item.now.form.shape.value) item.now.line)
        turns.old turns.new result }
    ensures spends { Spends result turns.old turns.new }
    ensures len { length cells.new ≡ length cells.old }
{
    match run_item(program, item, cells, turns) {
        Ok(outcome) => outcome,
        // A whole store refuses no write.
        Err(_) => Outcome::Normal,
    }
}

/// Whether an arm of a block IF is executed, or the fault of its test. The block IF takes a turn,
/// so its first arm does in any case; each ELSE IF that is tested takes another, and ELSE none. The
/// cells keep their values.
pub fn test_whole(
    program: &Program,
    first: bool,
    head: &Item,
    cells: &mut Whole,
    turns: &mut u64,
) -> Result<bool, Fault>
    requires known { IsStatement program.now (item_tree head.now) }
    requires sized { length cells.old ≡ count_in program.now }
    ensures tests { TestsIn program.now cells.old first (item_tree head.now)
        turns.old turns.new result }
    ensures spends { turns.new ≤ turns.old }
    ensures first { IfOk result (λ _. IsTrue first → turns.new < turns.old) }
    ensures kept { map_of program.now cells.new ≡ map_of program.now cells.old }
    ensures len { length cells.new ≡ length cells.old }
{
    test_arm(program, first, head, cells, turns)
}

/// Whether the condition of a statement at a line is true, or the fault of its test, which takes a
/// turn. The cells keep their values.
pub fn condition_whole(
    program: &Program,
    line: u32,
    code: &Code,
    cells: &mut Whole,
    turns: &mut u64,
) -> Result<bool, Fault>
    requires sized { length cells.old ≡ count_in program.now }
    ensures tests { (e : ExprTree) → IsCode program.now e code.now →
        ConditionIn program.now cells.old e line turns.old turns.new result }
    ensures spends { turns.new ≤ turns.old }
    ensures taken { IfOk result (λ _. turns.new < turns.old) }
    ensures kept { (e : ExprTree) → IsCode program.now e code.now →
        map_of program.now cells.new ≡ map_of program.now cells.old }
    ensures len { length cells.new ≡ length cells.old }
{
    test_condition(program, line, code, cells, turns)
}

/// Adds to a variable, by its cell. A sum outside INTEGER is F2, and the variable stays.
pub fn add_whole(
    program: &Program,
    cell: usize,
    by: i32,
    cells: &mut Whole,
) -> Result<(), FaultKind>
    requires small { cell < count_in program.now }
    requires sized { length cells.old ≡ count_in program.now }
    ensures adds { (n : List ℕ) → IsCell program.now n cell →
        Adds n by (map_of program.now cells.old) (map_of program.now cells.new) result }
    ensures len { length cells.new ≡ length cells.old }
{
    match add_to(program, cell, by, cells) {
        Ok(outcome) => outcome,
        // A whole store refuses no write.
        Err(_) => Ok(()),
    }
}

/// The values of limits by their codes, or their fault. The cells keep their values.
pub fn limits_whole(
    program: &Program,
    repeat: &Repeat,
    cells: &mut Whole,
) -> Result<Span, FaultKind>
    requires sized { length cells.old ≡ count_in program.now }
    ensures span { (l : LimitsTree) → AreLimits program.now l repeat.now →
        SpanIs result (span_of (scope_in program.now) l (map_of program.now cells.old)) }
    ensures kept { (l : LimitsTree) → AreLimits program.now l repeat.now →
        map_of program.now cells.new ≡ map_of program.now cells.old }
    ensures len { length cells.new ≡ length cells.old }
{
    values_of_codes(program, repeat, cells)
}

/// The values of an output list, first to last, or the leftmost fault, as `list_values` tells them.
/// The `AllocError` comes where a growth was refused.
pub fn list_whole(
    alloc: Global,
    program: &Program,
    list: &ListItems,
    codes: &ListCodes,
    cells: &mut Whole,
) -> Result<Result<Vec<Value>, FaultKind>, AllocError>
    requires coded { AreItems program.now (list_items_tree list.now) codes.now }
    requires sized { length cells.old ≡ count_in program.now }
    ensures values { IfOk result (λ r. ListIs r (map_of program.now cells.new)
        (listed (scope_in program.now) (list_items_tree list.now)
        (map_of program.now cells.old) list_limit)) }
    ensures len { length cells.new ≡ length cells.old }
{
    list_values(alloc, program, list, codes, cells)
}
