//! What a program keeps of each statement.

use crate::kept::sources::program_of;
use program::{Action, ListCode, ListCodes, Target};
use std::test::*;

/// What is kept, by a word.
fn word_for(action: Option<&Action>) -> &'static str {
    match action {
        None => "none",
        Some(Action::Pass) => "pass",
        Some(Action::Assign(Target::Variable(_), _)) => "variable",
        Some(Action::Assign(Target::Element(_), _)) => "element",
        Some(Action::Continue) => "continue",
        Some(Action::GoTo(_)) => "go to",
        Some(Action::ComputedGoTo(_, _)) => "computed go to",
        Some(Action::ArithmeticIf(_, _, _, _)) => "arithmetic if",
        Some(Action::Stop(_)) => "stop",
        Some(Action::Output(_)) => "output",
        Some(Action::If(_, _)) => "if",
        Some(Action::Test(_)) => "test",
        Some(Action::Repeat(_)) => "repeat",
        Some(Action::While(_)) => "while",
    }
}

const STATEMENTS: &[&[u8]] = &[
    b"INTEGER A(3)",
    b"N(M)=I+M",
    b"J=1",
    b"A(J)=2",
    b"IF(J.EQ.1)STOP",
    b"IF(J.EQ.2)THEN",
    b"ELSE",
    b"END IF",
    b"DO WHILE(J.EQ.3)",
    b"END DO",
    b"STOP",
];

const WORDS: &[&str] = &[
    "pass", "pass", "variable", "element", "if", "test", "pass", "pass", "while", "continue",
    "stop", "pass", "none",
];

/// The action of the statement at each line; END is the last, and no statement stands behind it.
#[test]
fn kept_by_line(rt: HostRuntime) {
    let program = program_of(&rt, rt.alloc(), STATEMENTS);
    for at in 0..WORDS.len() {
        let line = at as u32 + 1;
        assert!(rt; word_for(program.action(line)) == WORDS[at], "{line}");
    }
    drop(program);
}

/// A name is found in its cell: variables are numbered in the order of their first appearance, and
/// then arrays.
#[test]
fn cells_by_name(rt: HostRuntime) {
    let program = program_of(&rt, rt.alloc(), STATEMENTS);
    assert!(rt; program.cells() == 5);
    assert!(rt; program.callable() == 1);
    assert!(rt; program.functions().len() == 1);
    assert!(rt; program.cell(b"A".as_slice()).is_none());
    assert!(rt; program.cell(b"Q".as_slice()).is_none());
    drop(program);
}

/// I's cell is 0, A's are 1 to 3, L's 4 to 7.
const LISTED: &[&[u8]] = &[
    b"INTEGER A(3)",
    b"LOGICAL L(2,2)",
    b"PRINT'(9I4,4L2)',A,I+1,L,(A(I),I=1,3),L(1,2)",
    b"IF(I.EQ.0)PRINT'(I4)',I",
];

/// Which item it is, with how many instructions the code of an expression has, with the first cell
/// and the number of cells of an array, or with the cell of the variable of an implied DO.
fn item_told(item: &ListCode) -> (&'static str, usize, usize) {
    match item {
        ListCode::Value(code) => ("value", code.len(), 0),
        ListCode::Array(array) => {
            let word = if array.is_logical {
                "truths"
            } else {
                "numbers"
            };
            (word, array.first, array.size)
        }
        ListCode::Loop(_, repeat) => ("loop", repeat.variable, 0),
    }
}

const ITEMS: &[(&str, usize, usize)] = &[
    ("numbers", 1, 3),
    ("value", 1, 0),
    ("truths", 4, 4),
    ("loop", 0, 0),
    ("value", 6, 0),
];

/// The items of a list, first to last.
#[test]
fn items_by_codes(rt: HostRuntime) {
    let program = program_of(&rt, rt.alloc(), LISTED);
    let list = program.action(3).and_then(|action| action.list());
    let mut rest = list.expect(&rt, "a list");
    for &wanted in ITEMS {
        match rest {
            ListCodes::More(item, others) => {
                assert!(rt; item_told(item) == wanted, "{wanted:?}");
                rest = others;
            }
            ListCodes::Empty => panic!(rt; "no item"),
        }
    }
    assert!(rt; program.action(1).and_then(|action| action.list()).is_none());
    assert!(rt; program.action(4).and_then(|action| action.list()).is_none());
    drop(program);
}
