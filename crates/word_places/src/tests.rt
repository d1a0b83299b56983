//! Places that were counted by hand.

use crate::place_of;
use std::test::Fail;

#[test]
fn finds_whole_words(rt: HostRuntime) -> Result<(), Fail> {
    let alloc = rt.alloc();
    for (source, line, word, want) in [
        // a name by itself, behind a keyword, and behind a DO statement's label
        ("      X=1\n", 1, "X", (1, 7)),
        ("      INTEGERX,Y\n", 1, "X", (1, 14)),
        ("      DO10X=1,2\n", 1, "X", (1, 11)),
        ("      IF (I.EQ.1)GOTO20\n", 1, "20", (1, 22)),
        // no part of a longer name or number, and no keyword's end
        ("      XX=X1+1X+X\n", 1, "X", (1, 16)),
        ("      I=11+1\n", 1, "1", (1, 12)),
        ("      I=DATAA+A\n", 1, "A", (1, 15)),
        // blanks in it, small letters, and a name cut into two lines with a comment between
        ("      I=J+a B\n", 1, "AB", (1, 11)),
        ("      I=J+A\nC AB\n     1B\n", 1, "AB", (1, 11)),
        ("      I=J\n\n     1 +AB\n", 1, "AB", (3, 9)),
        // neither in a character constant nor between the periods of an operator, nor behind column
        // 72
        ("      WRITE (6,'(1X)') X\n", 1, "X", (1, 24)),
        ("      I=J.EQ.EQ(1)\n", 1, "EQ", (1, 14)),
        (
            "      I=1                                                               X\n     1+X\n",
            1,
            "X",
            (2, 8),
        ),
        // where it stands nowhere, the first character; lines of other statements aren't searched
        ("C\n   10   I=1\n      X=1\n", 2, "X", (2, 9)),
    ] {
        let place = place_of(alloc, source.as_bytes(), line, Some(word.as_bytes()))?.ok_or("none")?;
        assert_eq!(rt; (place.line, place.column), want, "{word} in {source}");
    }
    assert_eq!(rt; place_of(alloc, b"      X=1\n", 2, None)?, None);
    Ok(())
}
