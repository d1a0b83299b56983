//! Statements by their lines and columns; what breaks a rule stands in tests/columns.txt, which is
//! run over the program.

use meaning::statement::Statement;
use source_columns::statements;
use std::alloc::Global;
use std::process::Abort;

/// A statement: its line, its label, and the texts in columns 7 to 72 of its lines, without blanks
/// behind.
type Found = (u32, Option<u32>, &'static [&'static [u8]]);

/// Sources and their statements.
const GIVEN: &[(&[u8], &[Found])] = &[
    (b"      I = 1\n", &[(1, None, &[b"I = 1"])]),
    // Blanks and leading zeros of a label don't count.
    (
        b" 10   WRITE(6, 20) I\n",
        &[(1, Some(10), &[b"WRITE(6, 20) I"])],
    ),
    (b"0 1 0 END\n", &[(1, Some(10), &[b"END"])]),
    (b" 0 1 0END\n", &[(1, Some(1), &[b"END"])]),
    (b"00010 END\n", &[(1, Some(10), &[b"END"])]),
    (b"99999 END\n", &[(1, Some(99999), &[b"END"])]),
    // A zero in column 6, with something behind it and with nothing.
    (b"     0END\n", &[(1, None, &[b"END"])]),
    (b"     0\n", &[(1, None, &[b""])]),
    // Ends of lines.
    (b"      END\r\n", &[(1, None, &[b"END"])]),
    (b"      END", &[(1, None, &[b"END"])]),
    (b"      END\r", &[(1, None, &[b"END"])]),
    (b"      END\n\r", &[(1, None, &[b"END"])]),
    (b"\n\n  5   I=2\r\n", &[(3, Some(5), &[b"I=2"])]),
    // Comment lines are counted, and their bytes aren't looked at.
    (
        b"C \xff'\nc\n*\t\n\n  \r\n      END\n",
        &[(6, None, &[b"END"])],
    ),
    (b"CEND\n1     END\nC", &[(2, Some(1), &[b"END"])]),
    (b"*1\n      END\n\n\n", &[(2, None, &[b"END"])]),
    (
        b"                                                                        X\n      END\n",
        &[(2, None, &[b"END"])],
    ),
    // Apostrophes in pairs, and the last character that can be printed.
    (
        b"   20 FORMAT('DON''T ~')\n",
        &[(1, Some(20), &[b"FORMAT('DON''T ~')"])],
    ),
    // What stands past column 72 is ignored.
    (
        b"      ABCDEFGHIJKLMNOPQRSTUVWXYZABCDEFGHIJKLMNOPQRSTUVWXYZABCDEFGHIJKLMN\xff'\n",
        &[(
            1,
            None,
            &[b"ABCDEFGHIJKLMNOPQRSTUVWXYZABCDEFGHIJKLMNOPQRSTUVWXYZABCDEFGHIJKLMN"],
        )],
    ),
    (b"      'A'TEXT\n", &[(1, None, &[b"'A'TEXT"])]),
    // An initial line and a continuation line.
    (
        b"      I = 1\n     1+ 2\n",
        &[(1, None, &[b"I = 1", b"+ 2"])],
    ),
    // Any other character than a blank and 0 in column 6.
    (b"      I=1\n     C+2\n", &[(1, None, &[b"I=1", b"+2"])]),
    (b"      I=1\n     *+2\n", &[(1, None, &[b"I=1", b"+2"])]),
    (b"      I=1\n     '+2\n", &[(1, None, &[b"I=1", b"+2"])]),
    (b"     0I=1\n     9+2\n", &[(1, None, &[b"I=1", b"+2"])]),
    // In the middle of a name and of a character constant.
    (
        b"  7   WRI\n     1TE(6,10)\n",
        &[(1, Some(7), &[b"WRI", b"TE(6,10)"])],
    ),
    (
        b"      STOP 'A\n     1B'\n",
        &[(1, None, &[b"STOP 'A", b"B'"])],
    ),
    (
        b"      STOP 'DON'\n     1'T'\n",
        &[(1, None, &[b"STOP 'DON'", b"'T'"])],
    ),
    // Comments between and behind.
    (
        b"*\n      i\nC'\xff\n\n  \n     1=1\n\n",
        &[(2, None, &[b"i", b"=1"])],
    ),
    // Ends of lines.
    (b"      I=1\r\n     1+2\r\n", &[(1, None, &[b"I=1", b"+2"])]),
    (b"      I=1\n     1+2", &[(1, None, &[b"I=1", b"+2"])]),
    // An empty continuation line, and what stands past column 72.
    (
        b"      D O 10 I = 1                                                      ABC\n     1\n",
        &[(1, None, &[b"D O 10 I = 1", b""])],
    ),
    // More statements, and none.
    (
        b"  1   I=1\n*\n\n      END\n",
        &[(1, Some(1), &[b"I=1"]), (4, None, &[b"END"])],
    ),
    (
        b"     0I=\n\n     11\n    1 J=\n     2\n     32\n      END\n",
        &[
            (1, None, &[b"I=", b"1"]),
            (4, Some(1), &[b"J=", b"", b"2"]),
            (7, None, &[b"END"]),
        ],
    ),
    (b"", &[]),
];

/// Texts, each with blanks behind up to 66 characters.
fn padded(rt: &impl Abort, alloc: Global, pieces: &[&[u8]]) -> Vec<u8> {
    let mut text = Vec::new(alloc);
    for &piece in pieces {
        text.extend_from_slice(piece).expect(rt, "memory");
        for _ in piece.len()..66 {
            text.push(b' ').expect(rt, "memory");
        }
    }
    text
}

/// Compares a statement.
fn is_found(rt: &impl Abort, alloc: Global, statement: &Statement, want: Found) {
    let (line, label, pieces) = want;
    let text = padded(rt, alloc, pieces);
    assert!(rt;
        statement.line == line
            && statement.label == label
            && statement.text.as_slice() == text.as_slice(),
        "{pieces:?}"
    );
}

/// Compares the statements of a source.
fn gives(rt: &impl Abort, alloc: Global, source: &[u8], wanted: &[Found]) {
    let found = statements(alloc, source).expect(rt, "a source is refused");
    assert!(rt; found.len() == wanted.len(), "{source:?}");
    for (statement, &want) in found.iter().zip(wanted) {
        is_found(rt, alloc, statement, want);
    }
}

#[test]
fn given(rt: HostRuntime) {
    for &(source, wanted) in GIVEN {
        gives(&rt, rt.alloc(), source, wanted);
    }
}
