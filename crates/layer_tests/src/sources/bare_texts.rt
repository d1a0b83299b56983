//! Bare texts, and which statement each can be.

use lexer::{bare, begins, has_equals_sign, is_balanced, is_too_deep, kind};
use meaning::statement::{Bare, Statement};
use meaning::syntax::Kind;
use std::alloc::Global;
use std::process::Abort;

/// Columns 7 to 72 of a statement, and its bare text.
const BARE: &[(&str, &str)] = &[
    ("wRiTe (6, 10) ' a B'", "WRITE(6,10)' a B'"),
    (" x = 'it''s a B' + y ", "X='it''s a B'+Y"),
    ("D O 10 I = 1", "DO10I=1"),
    ("", ""),
];

/// A statement at line 3.
fn statement_of(rt: &impl Abort, alloc: Global, columns: &[u8]) -> Statement {
    assert!(rt; columns.len() <= 1320, "the text is too long");
    Statement {
        line: 3,
        label: None,
        text: Vec::from_slice(alloc, columns).expect(rt, "memory"),
    }
}

#[test]
fn bare_texts(rt: HostRuntime) {
    for &(columns, wanted) in BARE {
        let statement = statement_of(&rt, rt.alloc(), columns.as_bytes());
        let read = bare(rt.alloc(), &statement).expect(&rt, "memory");
        assert!(rt;
            read.line == 3 && read.text.as_slice() == wanted.as_bytes(),
            "{columns}"
        );
    }
}

/// Bare texts, and which statement each can be.
const KINDS: &[(&str, Kind)] = &[
    ("DO10I=1", Kind::Assignment),
    ("END=1", Kind::Assignment),
    ("WRITE(6,10)I,J", Kind::Write),
    ("FORMAT('=',(A='))", Kind::Format),
    ("ENDX", Kind::End),
    ("GOTO10", Kind::GoTo),
    ("GOTO(10)I", Kind::ComputedGoTo),
    ("IF(I)10,20,30", Kind::ArithmeticIf),
    ("IF(I)=3", Kind::Assignment),
    ("IF(I)(J)=3", Kind::LogicalIf),
    ("IF('(')THEN", Kind::IfThen),
    ("IF(A)THEN=1", Kind::LogicalIf),
    ("IF", Kind::Other),
    ("ELSEIF(A)THEN", Kind::ElseIf),
    ("ELSE", Kind::Else),
    ("ENDIF", Kind::EndIf),
    ("STOP'A=B'", Kind::Stop),
    ("PARAMETER(A=B)", Kind::Parameter),
    ("PROGRAMA", Kind::Program),
    ("IMPLICITINTEGER(A)", Kind::Implicit),
    ("LOGICALA", Kind::Logical),
    ("DIMENSIONA(1)", Kind::Dimension),
    ("DATAI/1/", Kind::Data),
    ("DATA", Kind::Data),
    ("DATA(A(I),I=1,2)/1,2/", Kind::Data),
    ("DATAI/1/,J/'='/", Kind::Data),
    ("DATAX=1", Kind::Assignment),
    ("DATA(I)=1", Kind::Assignment),
    ("DATAI=1,2", Kind::Do),
    ("DO10I=1,5", Kind::Do),
    ("DO10,I=1,5", Kind::Do),
    ("DO10,I=1", Kind::Assignment),
    ("I=(1,2)", Kind::Assignment),
    ("I=1,2", Kind::Do),
    ("DO=1", Kind::Assignment),
    ("DO10I", Kind::Other),
    ("ENDDO", Kind::EndDo),
    ("ENDDO=1", Kind::Assignment),
    ("IMPLICITNONE", Kind::ImplicitNone),
    ("DOI=1,5", Kind::Do),
    ("DOWHILE(I)", Kind::DoWhile),
    ("DOWHILE(I=1)", Kind::DoWhile),
    ("DO10WHILE(I)", Kind::DoWhile),
    ("DO10,WHILE(I)", Kind::DoWhile),
    ("DO,WHILE(I)", Kind::DoWhile),
    ("DO10,,WHILE(I)", Kind::Other),
    ("DOWHILE", Kind::Other),
    ("DOWHILE=5", Kind::Assignment),
    ("DOWHILE(I)=3", Kind::Assignment),
    ("DO10,WHILE(I)=3", Kind::Assignment),
    ("DOWHILE(I)=1,2", Kind::Do),
    ("CONTINUE", Kind::Continue),
    ("CONTINUE1", Kind::Continue),
    ("CONTINUE=1", Kind::Assignment),
    ("INTEGERI", Kind::Integer),
    ("INTEGER", Kind::Integer),
    ("INTEGER=1", Kind::Assignment),
    ("INTEGERI(1)=1,2", Kind::Do),
    ("INTEGERI(1=2)", Kind::Integer),
    ("INTEGE", Kind::Other),
    ("A(1,2)=1", Kind::Assignment),
];

/// A bare text at line 7.
fn bare_of(rt: &impl Abort, alloc: Global, text: &[u8]) -> Bare {
    assert!(rt; text.len() <= 1320, "the text is too long");
    let text = Vec::from_slice(alloc, text).expect(rt, "memory");
    Bare { line: 7, text }
}

#[test]
fn kinds(rt: HostRuntime) {
    for &(text, wanted) in KINDS {
        let read = bare_of(&rt, rt.alloc(), text.as_bytes());
        assert!(rt; kind(&read) == wanted, "{text}");
    }
}

/// What is seen outside apostrophes: an equals sign outside parentheses, and whether parentheses
/// pair up.
const SCANS: &[(&str, bool, bool)] = &[
    ("A(I)=1", true, true),
    ("A(I=1)", false, true),
    ("I'='", false, true),
    ("')'(", false, false),
    ("I)=1", false, false),
    ("(I))(", false, false),
    ("'IT''S'(')')=", true, true),
    ("'", false, false),
    ("", false, true),
];

#[test]
fn scans(rt: HostRuntime) {
    for &(text, equals, balanced) in SCANS {
        let bytes = text.as_bytes();
        assert!(rt;
            has_equals_sign(bytes) == equals && is_balanced(bytes) == balanced,
            "{text}"
        );
    }
    assert!(rt; begins(b"ENDIF", b"END") && begins(b"END", b"END") && !begins(b"EN", b"END"));
}

/// 64 parentheses may be open at once; what stands between apostrophes opens none.
const DEPTHS: &[(&str, usize, &str, bool)] = &[
    ("", 64, "", false),
    ("", 65, "", true),
    ("'", 65, "", false),
    ("()()", 64, ")((", true),
    ("()", 64, ")(", false),
];

#[test]
fn depths(rt: HostRuntime) {
    for &(front, count, end, deep) in DEPTHS {
        let mut text = Vec::from_slice(rt.alloc(), front.as_bytes()).expect(&rt, "memory");
        for _ in 0..count {
            text.push(b'(').expect(&rt, "memory");
        }
        text.extend_from_slice(end.as_bytes()).expect(&rt, "memory");
        assert!(rt; is_too_deep(&text) == deep, "{front}{count}{end}");
    }
}
