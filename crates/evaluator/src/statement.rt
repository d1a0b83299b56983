//! Statements that write nothing, by their codes: assignments, and logical IFs with what stands
//! under them (ANSI X3.9-1978, 10.1 and 11.5), over any store. All their codes are run at one
//! place, in which the machine stands.

ghost use Rattle.std.specs.Prelude.{◌≡◌, ◌≤◌, ℕ, IsOk, IsTrue, IfOk, not};
ghost use Rattle.meaning.specs.declared.syntax.Tree.{Tree};
ghost use Rattle.meaning.specs.Execution.{step};
ghost use Rattle.meaning.specs.Stores.{IsLater};
ghost use Rattle.meaning.specs.Syntax.{ShapeTree, shape_tree};
ghost use Rattle.meaning.specs.Trees.{item_tree};
ghost use Rattle.label_targets.specs.Quiet.{is_writing};
ghost use Rattle.storage.specs.Checked.{items_in, count_in};
ghost use Rattle.program.specs.Acts.{Acts};
ghost use Rattle.program.specs.Programs.{IsStatement};
ghost use Rattle.evaluator.specs.Acting.{IsOfStatement};
ghost use Rattle.evaluator.specs.Over.{MovesOver};
ghost use Rattle.evaluator.specs.Parts.{AssignsBy, IsBareUnless, IsPart, IsSafe, IsSafeIf};
ghost use Rattle.evaluator.specs.Parts.{IsShortIf, Rest, StepsBy};
ghost use Rattle.evaluator.specs.Statements.{Spends};

use crate::control::{run_bare, take_turn};
use array_store::Store;
use expressions::as_logical;
use meaning::cell::Cell;
use meaning::ending::{Fault, FaultKind, Outcome};
use meaning::syntax::Item;
use postfix::Code;
use program::{Action, Program, Target};
use std::alloc::AllocError;
use values::{cell_by, number_of, value_by};

// What is done with the number that a code leaves.
#[derive(Clone, Copy)]
enum Purpose<'a> {
    // The variable or the element with this cell gets its value.
    Set(usize),
    // It is the cell of an element, which gets the value by this code.
    Find(&'a Code),
    // Where it is true, the statement under the logical IF is executed, which needs this.
    Decide(&'a Action),
}

// A code of a statement, and what is done with the number that it leaves.
#[derive(Clone, Copy)]
struct Part<'a> {
    code: &'a Code,
    purpose: Purpose<'a>,
}

// How an assignment begins, behind its turn; `None` for other statements.
#[inline(always)]
fn assignment_part(action: &Action) -> Option<Part<'_>>
    ensures begins { (t : Tree) (s : ShapeTree) (line : ℕ) → Acts t action.now s →
        AssignsBy t s line result }
    ensures safe { (t : Tree) (s : ShapeTree) → Acts t action.now s → IsSafeIf t result }
    ensures short { IsShortIf result }
    ensures bare { IsBareUnless result action.now }
{
    match action {
        Action::Assign(target, code) => match target {
            Target::Variable(cell) => Some(Part {
                code,
                purpose: Purpose::Set(*cell),
            }),
            Target::Element(place) => Some(Part {
                code: place,
                purpose: Purpose::Find(code),
            }),
        },
        _ => None,
    }
}

// How an assignment or a logical IF begins, behind its turn; `None` for other statements.
#[inline(always)]
fn first_part(action: &Action) -> Option<Part<'_>>
    ensures begins { (t : Tree) (s : ShapeTree) (line : ℕ) → Acts t action.now s →
        IsTrue (not (is_writing s)) → StepsBy t s line result }
    ensures safe { (t : Tree) (s : ShapeTree) → Acts t action.now s → IsSafeIf t result }
    ensures bare { IsBareUnless result action.now }
{
    match action.conditional() {
        Some((code, under)) => Some(Part {
            code,
            purpose: Purpose::Decide(under),
        }),
        None => assignment_part(action),
    }
}

// Runs the codes that are left of a statement, one after another, and does what it says with their
// numbers.
#[inline(always)]
fn run_codes<S: Store>(
    program: &Program,
    line: u32,
    first: Part<'_>,
    store: &mut S,
    turns: &mut u64,
) -> Result<Outcome, AllocError>
    requires safe { IsSafe program.now first.purpose }
    requires sized { (S.world store.old).cells ≡ count_in program.now }
    ensures does { (rest : Rest) → IsPart program.now line first.entry rest → IfOk result
        (MovesOver program.now (S.world store.old) (S.world store.new) rest turns.old turns.new) }
    ensures spends { IfOk result (λ o. Spends o turns.old turns.new) }
    ensures sure { IsTrue (S.world store.old).sure → IsOk result }
    ensures later { IsLater (S.world store.old) (S.world store.new) }
{
    let mut part = first;
    loop {
        let x = match number_of(program, part.code, store) {
            Ok(x) => x,
            Err(kind) => return Ok(Outcome::Fault(Fault { kind, line })),
        };
        match part.purpose {
            Purpose::Set(cell) => {
                store.write(Cell(cell), x)?;
                return Ok(Outcome::Normal);
            }
            Purpose::Find(code) => match cell_by(x, program.cells()) {
                Ok(cell) => {
                    part = Part {
                        code,
                        purpose: Purpose::Set(cell),
                    };
                }
                Err(kind) => return Ok(Outcome::Fault(Fault { kind, line })),
            },
            Purpose::Decide(under) => {
                if !as_logical(value_by(part.code.is_logical(), x)) {
                    return Ok(Outcome::Normal);
                }
                match assignment_part(under) {
                    Some(next) => {
                        if !take_turn(turns) {
                            let kind = FaultKind::F4;
                            return Ok(Outcome::Fault(Fault { kind, line }));
                        }
                        part = next;
                    }
                    None => return Ok(run_bare(program, line, under, store, turns)),
                }
            }
        }
    }
}

// Executes a statement that writes nothing, by what it needs.
#[inline(always)]
fn run_action<S: Store>(
    program: &Program,
    line: u32,
    action: &Action,
    store: &mut S,
    turns: &mut u64,
) -> Result<Outcome, AllocError>
    requires known { IsOfStatement program.now action.now }
    requires sized { (S.world store.old).cells ≡ count_in program.now }
    ensures does { (s : ShapeTree) → Acts program.now action.now s → IsTrue (not (is_writing s)) →
        IfOk result (MovesOver program.now (S.world store.old) (S.world store.new)
        (step (items_in program.now) s line) turns.old turns.new) }
    ensures spends { IfOk result (λ o. Spends o turns.old turns.new) }
    ensures sure { IsTrue (S.world store.old).sure → IsOk result }
    ensures later { IsLater (S.world store.old) (S.world store.new) }
{
    match first_part(action) {
        Some(first) => {
            if !take_turn(turns) {
                let kind = FaultKind::F4;
                return Ok(Outcome::Fault(Fault { kind, line }));
            }
            run_codes(program, line, first, store, turns)
        }
        None => Ok(run_bare(program, line, action, store, turns)),
    }
}

/// Executes one statement that stands by itself and writes nothing, or passes over one that isn't
/// executable. The `AllocError` comes where the store refused a write.
#[inline(always)]
pub fn run_item<S: Store>(
    program: &Program,
    item: &Item,
    store: &mut S,
    turns: &mut u64,
) -> Result<Outcome, AllocError>
    requires known { IsStatement program.now (item_tree item.now) }
    requires quiet { IsTrue (not (is_writing (shape_tree item.now.form.shape.value))) }
    requires sized { (S.world store.old).cells ≡ count_in program.now }
    ensures does { IfOk result (MovesOver program.now (S.world store.old) (S.world store.new)
        (step (items_in program.now) (shape_tree item.now.form.shape.value) item.now.line)
        turns.old turns.new) }
    ensures spends { IfOk result (λ o. Spends o turns.old turns.new) }
    ensures sure { IsTrue (S.world store.old).sure → IsOk result }
    ensures later { IsLater (S.world store.old) (S.world store.new) }
{
    match program.action(item.line) {
        Some(action) => run_action(program, item.line, action, store, turns),
        None => Ok(Outcome::Normal),
    }
}
