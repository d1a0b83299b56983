//! What is told of wrong types; the columns were counted by hand.

use crate::asking::told;
use meaning::refusal::Rule;
use std::test::Fail;

#[test]
fn tells_of_types(rt: HostRuntime) -> Result<(), Fail> {
    let alloc = rt.alloc();
    for (source, line, want) in [
        (
            "      LOGICAL L\n      I=J+L\n      END\n",
            2,
            "2:11: L is LOGICAL, and + wants INTEGER",
        ),
        (
            "      I=1.EQ.1\n      END\n",
            1,
            "1:9: the result of .EQ. is LOGICAL, and I wants INTEGER",
        ),
        (
            "      IF(I)J=1\n      END\n",
            1,
            "1:10: I is INTEGER, and a condition wants LOGICAL",
        ),
        (
            "      IF(I.EQ.1.AND.N)J=1\n      END\n",
            1,
            "1:21: N is INTEGER, and .AND. wants LOGICAL",
        ),
        (
            "      IF(.NOT.(I+J))K=1\n      END\n",
            1,
            "1:16: the result of + is INTEGER, and .NOT. wants LOGICAL",
        ),
        (
            "      LOGICAL L\n      I=-L\n      END\n",
            2,
            "2:10: L is LOGICAL, and - wants INTEGER",
        ),
        (
            "      I=IABS(.TRUE.)\n      END\n",
            1,
            "1:14: .TRUE. is LOGICAL, and IABS wants INTEGER",
        ),
        (
            "      INTEGER A(2)\n      LOGICAL L\n      A(L)=1\n      END\n",
            3,
            "3:9: L is LOGICAL, and A wants INTEGER",
        ),
        (
            "      LOGICAL L,P\n      L(P)=P\n      I=J\n      IF(L(I))J=2\n      END\n",
            4,
            "4:12: I is INTEGER, and L wants LOGICAL",
        ),
        (
            "      LOGICAL L\n      L=3\n      END\n",
            2,
            "2:9: 3 is INTEGER, and L wants LOGICAL",
        ),
        (
            "      LOGICAL L(2)\n      DO 10 I=1,L(1)\n   10 CONTINUE\n      END\n",
            2,
            "2:17: L is LOGICAL, and a DO limit wants INTEGER",
        ),
        (
            "      LOGICAL L\n      IF(I.EQ.1)L=2\n      END\n",
            2,
            "2:19: 2 is INTEGER, and L wants LOGICAL",
        ),
        (
            "      LOGICAL L\n      PARAMETER (L=1)\n      END\n",
            2,
            "2:20: 1 is INTEGER, and the constant wants LOGICAL",
        ),
        (
            "      INTEGER A(.TRUE.)\n      END\n",
            1,
            "1:17: .TRUE. is LOGICAL, and a bound wants INTEGER",
        ),
        (
            "   10 IF(.NOT.L)10,10,10\n      END\n",
            1,
            "1:15: the result of .NOT. is LOGICAL, and an arithmetic IF wants INTEGER",
        ),
        (
            "      LOGICAL L\n   10 GO TO (10),L\n      END\n",
            2,
            "2:18: L is LOGICAL, and a computed GO TO wants INTEGER",
        ),
        ("      I=J+1\n      END\n", 1, ""),
        ("      I=X+1\n      END\n", 1, ""),
    ] {
        let is = told(alloc, source, Rule::K5, line)?;
        assert_eq!(rt; is.as_str(), want);
    }
    Ok(())
}
