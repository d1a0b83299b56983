//! The deepest and the longest texts, and parentheses past the limit.

use meaning::refusal::{Refusal, Rule};
use meaning::statement::Bare;
use parser::form;
use std::alloc::{AllocError, Global};
use std::process::Abort;

/// A front, a text and how often it stands behind it, an end, and how many parentheses are closed
/// behind that.
type Parts = (&'static str, &'static str, usize, &'static str, usize);

fn text_of(alloc: Global, parts: Parts) -> Result<Vec<u8>, AllocError> {
    let (front, more, count, end, closed) = parts;
    let mut text = Vec::new(alloc);
    text.extend_from_slice(front.as_bytes())?;
    for _ in 0..count {
        text.extend_from_slice(more.as_bytes())?;
    }
    text.extend_from_slice(end.as_bytes())?;
    for _ in 0..closed {
        text.push(b')')?;
    }
    Ok(text)
}

/// The rule that is told of a text, at line 7; none where it has a form.
fn rule_of(rt: &impl Abort, alloc: Global, parts: Parts) -> Option<Rule> {
    let text = text_of(alloc, parts).expect(rt, "memory");
    assert!(rt; text.len() <= 1320, "the text is too long");
    match form(alloc, &Bare { line: 7, text }) {
        Ok(read) => {
            drop(read);
            None
        }
        Err(Refusal::Rule { rule, line: 7 }) => Some(rule),
        Err(_) => Some(Rule::C7),
    }
}

/// Texts that open parentheses, and what is told.
const OPENED: &[(Parts, Rule)] = &[
    (("CALLF", "(", 64, "", 0), Rule::G2),
    (("CALLF", "(", 65, "", 0), Rule::G3),
    (("I=", "(", 64, "", 0), Rule::G1),
    (("I=", "(", 65, "", 0), Rule::G3),
    (("I='", "(", 65, "", 0), Rule::G1),
    (("DOWHILE(", "(", 63, "", 0), Rule::G1),
    (("DOWHILE(", "(", 64, "", 0), Rule::G3),
    // A value inside one more than may be open at once.
    (("I=", "(", 65, "1", 65), Rule::G3),
    (("I=", "-J+K*(", 65, "1", 65), Rule::G3),
    (("I=", "A(", 65, "1", 65), Rule::G3),
    (("I=", "-J+A(2)*B(", 65, "1", 65), Rule::G3),
];

#[test]
fn parentheses(rt: HostRuntime) {
    for &(parts, wanted) in OPENED {
        assert!(rt;
            rule_of(&rt, rt.alloc(), parts) == Some(wanted),
            "{}",
            parts.1
        );
    }
}

const LONGEST: &[Parts] = &[
    // A value inside as many parentheses as may be open at once, each with a sign and operators
    // before it too, or a name.
    ("I=", "(", 64, "1", 64),
    ("I=", "-J+K*(", 64, "1", 64),
    ("I=", "A(", 64, "1", 64),
    ("I=", "-J+A(2)*B(", 64, "1", 64),
    // The deepest expressions that 1320 characters can hold are read within the stack: 439 `**`,
    // 659 operators of one level, 64 parentheses, and both together.
    ("I=A", "**A", 439, "", 0),
    ("I=-A", "-A", 658, "", 0),
    ("I=A", ".OR.A", 263, "", 0),
    ("DOWHILE(A", ".OR.A", 262, "", 1),
    ("DO10,WHILE(", "(", 63, "A", 64),
    ("I=", "(", 64, "A", 64),
    ("I=", "A**A**A**A**A**A**(", 64, "A", 64),
    ("I=", ".NOT.-A*B**(", 64, "A", 64),
    ("I=", "A(A,", 64, "A", 64),
    // So are the longest lists.
    ("I=1", "-1", 650, "", 0),
    ("I=A(1", ",1", 650, "", 1),
    ("A(1", ",1", 650, ")=1", 0),
    ("WRITE(6,10)I", ",I", 650, "", 0),
    ("PRINT10,I", ",I", 650, "", 0),
    ("DATAI", ",I", 650, "/1/", 0),
    ("INTEGERI", ",I", 650, "", 0),
    ("INTEGERI(1", ",1", 650, "", 1),
    ("DATAI/1", ",1", 650, "/", 0),
];

#[test]
fn longest_texts(rt: HostRuntime) {
    for &parts in LONGEST {
        assert!(rt; rule_of(&rt, rt.alloc(), parts).is_none(), "{}", parts.1);
    }
}
