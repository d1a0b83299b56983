//! As what statements without a reading are read, one of each kind.

use crate::{Reading, add_reading, reading_at};
use meaning::syntax::Kind;
use std::test::Fail;

/// Statements that have no reading, with their kinds and the words for these.
const STATEMENTS: &[(&str, Kind, &str)] = &[
    ("I=2*-3", Kind::Assignment, "an assignment"),
    ("READ(5)=", Kind::Assignment, "an assignment"),
    ("WRITE (6,10) 5HHELLO", Kind::Write, "a WRITE statement"),
    ("FORMAT (1X,I5", Kind::Format, "a FORMAT statement"),
    ("DO 10 I=1,N,", Kind::Do, "a DO statement"),
    ("DO 10 WHILE (I.LT.)", Kind::DoWhile, "a DO WHILE statement"),
    ("END DO I", Kind::EndDo, "an END DO statement"),
    ("CONTINUE 10", Kind::Continue, "a CONTINUE statement"),
    ("INTEGER*4 I", Kind::Integer, "an INTEGER statement"),
    ("END PROGRAM", Kind::End, "an END statement"),
    (
        "PROGRAM P(INPUT,OUTPUT)",
        Kind::Program,
        "a PROGRAM statement",
    ),
    (
        "IMPLICIT INTEGER*4 (A-Z)",
        Kind::Implicit,
        "an IMPLICIT statement",
    ),
    (
        "IMPLICIT NONE (TYPE)",
        Kind::ImplicitNone,
        "an IMPLICIT NONE statement",
    ),
    ("LOGICAL*1 L", Kind::Logical, "a LOGICAL statement"),
    ("DIMENSION A", Kind::Dimension, "a DIMENSION statement"),
    ("PARAMETER (N)", Kind::Parameter, "a PARAMETER statement"),
    ("DATA I/5HHELLO/", Kind::Data, "a DATA statement"),
    ("GO TO L", Kind::GoTo, "a GO TO statement"),
    (
        "GO TO (10,20)",
        Kind::ComputedGoTo,
        "a computed GO TO statement",
    ),
    (
        "IF (I) 10,20",
        Kind::ArithmeticIf,
        "an arithmetic IF statement",
    ),
    ("IF (L) THEN STOP", Kind::IfThen, "a block IF statement"),
    ("ELSE IF (L) GO TO 10", Kind::ElseIf, "an ELSE IF statement"),
    ("ELSE WHERE", Kind::Else, "an ELSE statement"),
    ("END IF I", Kind::EndIf, "an END IF statement"),
    ("STOP 123456", Kind::Stop, "a STOP statement"),
    ("PRINT I", Kind::Print, "a PRINT statement"),
    ("INCLUDE 'SIZES'", Kind::Other, "no statement"),
];

/// Statements under a logical IF, with their kinds and what is said of the whole.
const UNDER: &[(&str, Kind, &str)] = &[
    (
        "IF (L) GO TO",
        Kind::GoTo,
        "read as IF (expression) and a GO TO statement, which is GO TO and a label",
    ),
    (
        "IF (I>4) J=I",
        Kind::Assignment,
        "read as IF (expression) and an assignment, which is a variable or an element, = and an \
         expression",
    ),
    (
        "IF (A(1).EQ.')') CALL P",
        Kind::Other,
        "read as IF (expression) and no statement: no = stands outside parentheses, and none \
         begins so",
    ),
    (
        "IF (L) IF (M) J=I",
        Kind::LogicalIf,
        "read as IF (expression) and a logical IF statement, which may not stand there",
    ),
    (
        "IF (L",
        Kind::Other,
        "read as IF (expression) and no statement: no = stands outside parentheses, and none \
         begins so",
    ),
];

/// As what a statement is read that stands at line 3 of a source.
fn reading_of(rt: &HostRuntime, text: &str) -> Result<Option<Reading>, Fail> {
    let source = format!(in rt.alloc(); "C\n      I=1\n      {text}\n      END\n")?;
    Ok(reading_at(rt.alloc(), source.as_bytes(), 3)?)
}

#[test]
fn tells_each_kind(rt: HostRuntime) -> Result<(), Fail> {
    for (text, want, words) in STATEMENTS {
        let found = Reading::Alone(*want);
        assert_eq!(rt; reading_of(&rt, text)?, Some(found), "{text}");
        let mut told = Vec::new(rt.alloc());
        add_reading(&mut told, found)?;
        let front = format!(in rt.alloc(); "read as {words}")?;
        assert!(rt; told.starts_with(front.as_bytes()), "{text}");
        assert!(rt; told.len() <= 80, "{text}");
    }
    Ok(())
}

#[test]
fn tells_of_statements_under_logical_ifs(rt: HostRuntime) -> Result<(), Fail> {
    for (text, want, words) in UNDER {
        let found = Reading::Under(*want);
        assert_eq!(rt; reading_of(&rt, text)?, Some(found), "{text}");
        let mut told = Vec::new(rt.alloc());
        add_reading(&mut told, found)?;
        assert_eq!(rt; told.as_slice(), words.as_bytes(), "{text}");
    }
    Ok(())
}

#[test]
fn takes_all_lines_of_a_statement(rt: HostRuntime) -> Result<(), Fail> {
    let alloc = rt.alloc();
    let source = b"      I=1\n   10 PR\nC\n     1INT\n     2 I\n      STOP I\n";
    assert_eq!(rt;
        reading_at(alloc, source, 2)?,
        Some(Reading::Alone(Kind::Print))
    );
    assert_eq!(rt;
        reading_at(alloc, source, 6)?,
        Some(Reading::Alone(Kind::Stop))
    );
    // no statement begins at a comment line, a continuation line, or behind the last
    assert_eq!(rt; reading_at(alloc, source, 3)?, None);
    assert_eq!(rt; reading_at(alloc, source, 4)?, None);
    assert_eq!(rt; reading_at(alloc, source, 7)?, None);
    // nor anywhere in a source that breaks a rule on lines
    assert_eq!(rt; reading_at(alloc, b"\tI=1\n      STOP I\n", 2)?, None);
    Ok(())
}
