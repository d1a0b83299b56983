//! A DO statement by itself, by the call that executes one from its limits on.

ghost use Rattle.std.specs.Prelude.{◌≡◌, ◌<◌, length};
ghost use Rattle.meaning.specs.Trees.{flat, members_tree};
ghost use Rattle.storage.specs.Checked.{count_in};
ghost use Rattle.evaluator.specs.Known.{AreStatements};
ghost use Rattle.program_runs.specs.Allowed.{IsAllowed};

use array_store::Whole;
use in_order::program_in;
use meaning::ending::{Outcome, Run};
use meaning::plan::Plan;
use meaning::syntax::Member;
use program::Program;
use stage_loop::{Open, run_loop};
use std::alloc::Global;
use std::process::Abort;
use std::sync::Wait;
use std::test::*;
use std::thread::Threads;

/// I's cell is 0, those of A's elements are 1 to 10. The DO statement stands at place 1 of the
/// body.
const SOURCE: &str = "      INTEGER A(10)\n      DO 10 I=1,10\n   10 A(I)=I*I\n      END\n";

const SQUARES: [i32; 11] = [11, 1, 4, 9, 16, 25, 36, 49, 64, 81, 100];

// Executes a member of a list by stages, if it is a DO statement without output.
fn run_at<R: Abort + Threads + Wait + Sync>(
    rt: &R,
    alloc: Global,
    program: &Program,
    members: &[Member],
    place: usize,
    plan: &Plan,
    cells: &mut Whole,
) -> Option<Run>
    requires inside { place < length members.now }
    requires named { AreStatements program.now (flat (members_tree members.now)) }
    requires allowed { IsAllowed program.now (members_tree members.now) }
    requires sized { length cells.old ≡ count_in program.now }
{
    match &members[place] {
        Member::Loop(repeated) => {
            if program.has_output(repeated.head.line) {
                return None;
            }
            let run = run_loop(rt, alloc, program, repeated, cells, 1_000, plan, &Open);
            Some(run)
        }
        Member::Plain(_) => None,
        Member::Block(_) => None,
    }
}

// The outcome and the turns of the program's DO statement, and the cells behind it.
fn check<R: Abort + Threads + Wait + Sync>(
    rt: &R,
    alloc: Global,
    program: &Program,
    workers: u64,
    block: u64,
) {
    let plan = Plan::new(workers, block, 8, 1_000).expect(rt, "a plan");
    let mut cells = Whole::new(alloc, program.starts()).expect(rt, "memory");
    let tree = program.tree();
    assert!(rt; tree.body.len() > 1);
    let found = run_at(rt, alloc, program, &tree.body, 1, &plan, &mut cells);
    let run = found.expect(rt, "a DO statement without output");
    assert!(rt; run.outcome == Outcome::Normal);
    assert!(rt; run.turns_used == 11, "{run:?}");
    assert!(rt; cells.cells() == SQUARES.as_slice());
}

#[test]
fn by_itself(rt: HostRuntime) {
    let program = program_in(rt.alloc(), SOURCE.as_bytes()).expect(&rt, "a program");
    check(&rt, rt.alloc(), &program, 4, 2);
    check(&rt, rt.alloc(), &program, 1, 64);
    drop(program);
}
