//! What is told of transfers of control and of variables of DO statements; the columns were counted
//! by hand.

use crate::asking::told;
use meaning::refusal::Rule;
use std::test::Fail;

#[test]
fn tells_of_lists(rt: HostRuntime) -> Result<(), Fail> {
    let alloc = rt.alloc();
    for (source, rule, line, want) in [
        (
            "      GO TO 30\n      END\n",
            Rule::K2,
            1,
            "1:13: label 30 stands nowhere",
        ),
        (
            "      GO TO 30\n   30 FORMAT(I3)\n      END\n",
            Rule::K2,
            1,
            "1:13: label 30 is that of a FORMAT statement",
        ),
        (
            "   10 M(J)=J+1\n      GO TO 10\n      END\n",
            Rule::K2,
            2,
            "2:13: label 10 is that of a statement function",
        ),
        (
            "      GO TO 10\n   20 DO 10 I=1,2\n   10 J=J+I\n      END\n",
            Rule::K2,
            1,
            "1:13: label 10 stands in the DO range that begins at line 2",
        ),
        (
            "      GO TO 10\n      IF(I.EQ.0)THEN\n   10 J=1\n      END IF\n      END\n",
            Rule::K2,
            1,
            "1:13: label 10 stands in the block that begins at line 2",
        ),
        (
            "      IF(I.EQ.0)THEN\n      GO TO 10\n   10 ELSE\n      J=1\n      END IF\n      END\n",
            Rule::K2,
            2,
            "2:13: label 10 is that of an ELSE statement",
        ),
        (
            "   10 I=1\n      GO TO 10\n      DO 20 J=1,2\n   10 I=2\n   20 CONTINUE\n      END\n",
            Rule::K2,
            2,
            "2:13: label 10 stands at more than one statement",
        ),
        (
            "   10 GO TO (10,30),I\n      END\n",
            Rule::K2,
            1,
            "1:17: label 30 stands nowhere",
        ),
        (
            "   10 I=1\n   20 IF(I)10,20,30\n      END\n",
            Rule::K2,
            2,
            "2:18: label 30 stands nowhere",
        ),
        (
            "      IF(I.EQ.1)GO TO 00030\n      END\n",
            Rule::K2,
            1,
            "1:23: label 00030 stands nowhere",
        ),
        ("   10 GO TO 10\n      END\n", Rule::K2, 1, ""),
        (
            "      DO 10 I=1,2\n   10 I=3\n      END\n",
            Rule::K9,
            2,
            "2:7: I is the DO variable of line 1",
        ),
        (
            "      DO 10 J=1,2\n      DO 10 I=1,2\n      IF(J.EQ.2)THEN\n      I=3\n      END IF\n   10 CONTINUE\n      END\n",
            Rule::K9,
            4,
            "4:7: I is the DO variable of line 2",
        ),
        (
            "      DO 10 I=1,2\n      DO 10 I=1,3\n   10 CONTINUE\n      END\n",
            Rule::K9,
            2,
            "2:13: I is the DO variable of line 1",
        ),
        (
            "      LOGICAL L\n      DO 10 L=1,2\n   10 CONTINUE\n      END\n",
            Rule::K9,
            2,
            "2:13: L is no INTEGER variable",
        ),
        (
            "      DO 10 I=1,2\n   10 PRINT '(I3)',(I,I=1,2)\n      END\n",
            Rule::K9,
            2,
            "2:21: I is the DO variable of line 1",
        ),
        (
            "      PRINT '(2I3)',((I,I=1,2),I=1,2)\n      END\n",
            Rule::K9,
            1,
            "1:23: I is the variable of an implied DO around it",
        ),
        ("      DO 10 I=1,2\n   10 J=3\n      END\n", Rule::K9, 2, ""),
    ] {
        let is = told(alloc, source, rule, line)?;
        assert_eq!(rt; is.as_str(), want);
    }
    Ok(())
}
