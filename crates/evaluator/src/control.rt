//! Statements that stand by themselves and write nothing (ANSI X3.9-1978, 10.1, 11.1 to 11.5, 11.11
//! and 11.12), and the conditions of block IFs (11.6 and 11.7).

ghost use Rattle.std.specs.Prelude.{◌≡◌, ◌<◌, ◌≤◌, ℕ, List, IsTrue, IfOk, map, not};
ghost use Rattle.meaning.specs.Characters.{number_of};
ghost use Rattle.meaning.specs.Execution.{at_label, by_count, by_sign, simple};
ghost use Rattle.meaning.specs.Maps.{Map};
ghost use Rattle.meaning.specs.Stores.{IsLater, Reads};
ghost use Rattle.meaning.specs.Syntax.{ExprTree, ItemTree, ShapeTree, StopTree, continuing};
ghost use Rattle.meaning.specs.Syntax.{shape_tree, stopping};
ghost use Rattle.meaning.specs.Trees.{item_tree};
ghost use Rattle.storage.specs.Checked.{items_in, count_in};
ghost use Rattle.program.specs.Acts.{Acts, Goes, GoesByCount, GoesBySign};
ghost use Rattle.program.specs.Asked.{ConditionIs};
ghost use Rattle.program.specs.Codes.{IsCode};
ghost use Rattle.program.specs.Programs.{IsStatement};
ghost use Rattle.evaluator.specs.Over.{ConditionAt, StaysAt, TestsAt};
ghost use Rattle.evaluator.specs.Parts.{IsBare};
ghost use Rattle.evaluator.specs.Places.{next_of};
ghost use Rattle.label_targets.specs.Quiet.{writes};
ghost use Rattle.evaluator.specs.Statements.{Moves, Spends, TakesTurn};

use array_store::Store;
use expressions::{as_integer, as_logical};
use meaning::ending::{Fault, FaultKind, Outcome};
use meaning::syntax::Item;
use postfix::Code;
use program::{Action, Program};
use values::value;

/// Takes one of the turns that are left, if there is one.
#[inline(always)]
pub fn take_turn(turns: &mut u64) -> bool
    ensures { TakesTurn turns.old turns.new result }
{
    if *turns == 0 {
        return false;
    }
    *turns -= 1;
    true
}

// Executes a CONTINUE or END DO statement: it takes a turn.
#[inline(always)]
fn run_continue(line: u32, turns: &mut u64) -> Outcome
    ensures moves { (all : List ItemTree) (m : Map) →
        Moves (λ go. simple all continuing line m turns.old go) turns.old m turns.new result }
    ensures spends { Spends result turns.old turns.new }
{
    if !take_turn(turns) {
        return Outcome::Fault(Fault {
            kind: FaultKind::F4,
            line,
        });
    }
    Outcome::Normal
}

// Executes a GO TO statement.
#[inline(always)]
fn run_go_to(line: u32, label: u32, turns: &mut u64) -> Outcome
    ensures moves { (all : List ItemTree) (s : ShapeTree) (m : Map) → Goes label s →
        Moves (λ go. simple all s line m turns.old go) turns.old m turns.new result }
    ensures spends { Spends result turns.old turns.new }
{
    if !take_turn(turns) {
        return Outcome::Fault(Fault {
            kind: FaultKind::F4,
            line,
        });
    }
    Outcome::Left(label)
}

// Executes a STOP statement.
fn run_stop(line: u32, turns: &mut u64) -> Outcome
    ensures moves { (all : List ItemTree) (text : StopTree) (m : Map) →
        Moves (λ go. simple all (stopping text) line m turns.old go) turns.old m turns.new result }
    ensures spends { Spends result turns.old turns.new }
{
    if !take_turn(turns) {
        return Outcome::Fault(Fault {
            kind: FaultKind::F4,
            line,
        });
    }
    Outcome::Stopped(line)
}

// The label that a computed GO TO picks: the first at 1, and so on; none where there is none.
fn counted_target(labels: &[u32], value: i32) -> Option<u32>
    ensures { (digits : List (List ℕ)) → map number_of digits ≡ labels.now →
        next_of result ≡ by_count digits value }
{
    match usize::try_from(value) {
        Ok(0) => None,
        Ok(count) => match labels.get(count - 1) {
            Some(label) => Some(*label),
            None => None,
        },
        Err(_) => None,
    }
}

// Executes a computed GO TO statement.
#[inline(never)]
fn run_computed_go_to<S: Store>(
    program: &Program,
    line: u32,
    labels: &[u32],
    code: &Code,
    store: &mut S,
    turns: &mut u64,
) -> Outcome
    requires sized { (S.world store.old).cells ≡ count_in program.now }
    ensures reads { (s : ShapeTree) → GoesByCount program.now labels.now code.now s →
        Reads (S.world store.old) (S.world store.new)
        (StaysAt program.now (simple (items_in program.now) s line) turns.old turns.new result) }
    ensures spends { Spends result turns.old turns.new }
    ensures later { IsLater (S.world store.old) (S.world store.new) }
    ensures cells { (S.world store.new).cells ≡ (S.world store.old).cells }
{
    if !take_turn(turns) {
        return Outcome::Fault(Fault {
            kind: FaultKind::F4,
            line,
        });
    }
    match value(program, code, store) {
        Ok(x) => match counted_target(labels, as_integer(x)) {
            Some(label) => Outcome::Left(label),
            None => Outcome::Normal,
        },
        Err(kind) => Outcome::Fault(Fault { kind, line }),
    }
}

// The label that an arithmetic IF picks, by a value that is negative, zero or positive.
fn signed_target(value: i32, negative: u32, zero: u32, positive: u32) -> u32
    ensures { (below at_zero above : List ℕ) → number_of below ≡ negative → number_of at_zero
        ≡ zero →
        number_of above ≡ positive → at_label result ≡ by_sign below at_zero above value }
{
    if value < 0 {
        return negative;
    }
    if value == 0 {
        return zero;
    }
    positive
}

// Executes an arithmetic IF statement.
#[inline(never)]
fn run_arithmetic_if<S: Store>(
    program: &Program,
    line: u32,
    code: &Code,
    negative: u32,
    zero: u32,
    positive: u32,
    store: &mut S,
    turns: &mut u64,
) -> Outcome
    requires sized { (S.world store.old).cells ≡ count_in program.now }
    ensures reads { (s : ShapeTree) → GoesBySign program.now code.now negative zero positive s →
        Reads (S.world store.old) (S.world store.new)
        (StaysAt program.now (simple (items_in program.now) s line) turns.old turns.new result) }
    ensures spends { Spends result turns.old turns.new }
    ensures later { IsLater (S.world store.old) (S.world store.new) }
    ensures cells { (S.world store.new).cells ≡ (S.world store.old).cells }
{
    if !take_turn(turns) {
        return Outcome::Fault(Fault {
            kind: FaultKind::F4,
            line,
        });
    }
    match value(program, code, store) {
        Ok(x) => Outcome::Left(signed_target(as_integer(x), negative, zero, positive)),
        Err(kind) => Outcome::Fault(Fault { kind, line }),
    }
}

/// Executes a statement without an assignment or a logical IF in it, which writes nothing, or
/// passes over one that isn't executable.
#[inline(always)]
pub(crate) fn run_bare<S: Store>(
    program: &Program,
    line: u32,
    action: &Action,
    store: &mut S,
    turns: &mut u64,
) -> Outcome
    requires bare { IsBare action.now }
    requires sized { (S.world store.old).cells ≡ count_in program.now }
    ensures reads { (s : ShapeTree) → Acts program.now action.now s → IsTrue (not (writes s)) →
        Reads (S.world store.old) (S.world store.new)
        (StaysAt program.now (simple (items_in program.now) s line) turns.old turns.new result) }
    ensures spends { Spends result turns.old turns.new }
    ensures later { IsLater (S.world store.old) (S.world store.new) }
    ensures cells { (S.world store.new).cells ≡ (S.world store.old).cells }
{
    match action {
        Action::Continue => run_continue(line, turns),
        Action::GoTo(label) => run_go_to(line, *label, turns),
        Action::ComputedGoTo(labels, code) => {
            run_computed_go_to(program, line, labels, code, store, turns)
        }
        Action::ArithmeticIf(code, negative, zero, positive) => run_arithmetic_if(
            program, line, code, *negative, *zero, *positive, store, turns,
        ),
        Action::Stop(_) => run_stop(line, turns),
        Action::Assign(_, _) => Outcome::Normal,
        Action::Pass => Outcome::Normal,
        Action::Output(_) => Outcome::Normal,
        Action::If(_, _) => Outcome::Normal,
        Action::Test(_) => Outcome::Normal,
        Action::Repeat(_) => Outcome::Normal,
        Action::While(_) => Outcome::Normal,
    }
}

// The code of the condition of an arm of a block IF; none of ELSE.
#[inline(always)]
fn condition_in<'a>(program: &'a Program, head: &Item) -> Option<&'a Code>
    requires { IsStatement program.now (item_tree head.now) }
    ensures { ConditionIs program.now (shape_tree head.now.form.shape.value) result }
{
    match program.action(head.line) {
        Some(action) => action.condition(),
        None => None,
    }
}

/// Whether the condition of a statement at a line is true, or the fault of its test, which takes a
/// turn.
#[inline(always)]
pub fn test_condition<S: Store>(
    program: &Program,
    line: u32,
    code: &Code,
    store: &mut S,
    turns: &mut u64,
) -> Result<bool, Fault>
    requires sized { (S.world store.old).cells ≡ count_in program.now }
    ensures reads { (e : ExprTree) → IsCode program.now e code.now →
        Reads (S.world store.old) (S.world store.new)
        (ConditionAt program.now e line turns.old turns.new result) }
    ensures spends { turns.new ≤ turns.old }
    ensures taken { IfOk result (λ _. turns.new < turns.old) }
    ensures cells { (S.world store.new).cells ≡ (S.world store.old).cells }
    ensures later { IsLater (S.world store.old) (S.world store.new) }
{
    if !take_turn(turns) {
        let kind = FaultKind::F4;
        return Err(Fault { kind, line });
    }
    match value(program, code, store) {
        Ok(x) => Ok(as_logical(x)),
        Err(kind) => Err(Fault { kind, line }),
    }
}

/// Whether an arm of a block IF is executed, or the fault of its test. The block IF takes a turn,
/// so its first arm does in any case; each ELSE IF that is tested takes another, and ELSE none.
pub fn test_arm<S: Store>(
    program: &Program,
    first: bool,
    head: &Item,
    store: &mut S,
    turns: &mut u64,
) -> Result<bool, Fault>
    requires known { IsStatement program.now (item_tree head.now) }
    requires sized { (S.world store.old).cells ≡ count_in program.now }
    ensures reads { Reads (S.world store.old) (S.world store.new)
        (TestsAt program.now first (item_tree head.now) turns.old turns.new result) }
    ensures spends { turns.new ≤ turns.old }
    ensures first { IfOk result (λ _. IsTrue first → turns.new < turns.old) }
    ensures cells { (S.world store.new).cells ≡ (S.world store.old).cells }
{
    let line = head.line;
    match condition_in(program, head) {
        Some(code) => test_condition(program, line, code, store, turns),
        None => {
            if !first {
                return Ok(true);
            }
            if !take_turn(turns) {
                let kind = FaultKind::F4;
                return Err(Fault { kind, line });
            }
            Ok(true)
        }
    }
}
