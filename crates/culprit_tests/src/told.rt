//! What is told of programs that break a rule, and where; the columns were counted by hand.

use crate::asking::told;
use meaning::refusal::Rule;
use std::test::Fail;

#[test]
fn tells_each_rule(rt: HostRuntime) -> Result<(), Fail> {
    let alloc = rt.alloc();
    for (source, rule, line, want) in [
        (
            "      X=1\n      END\n",
            Rule::K3,
            1,
            "1:7: X is REAL, by its first letter",
        ),
        (
            "      DO 10 X=1,2\n   10 I=1\n      END\n",
            Rule::K3,
            1,
            "1:13: X is REAL, by its first letter",
        ),
        (
            "      IMPLICIT NONE\n      INTEGER J\n      J=2+\n     1  I I\n      END\n",
            Rule::K3,
            3,
            "4:9: II has no type, and IMPLICIT NONE wants one",
        ),
        ("      I=1\n      END\n", Rule::K3, 1, ""),
        (
            "      LOGICAL L\n      L=J.EQ.EQ(1)\n      END\n",
            Rule::K13,
            2,
            "2:14: EQ is neither an array nor a function",
        ),
        (
            "      IF(I.EQ.1)I=N(1)\n      END\n",
            Rule::K13,
            1,
            "1:19: N is neither an array nor a function",
        ),
        (
            "   10 I=1\n   20 I=2\n   10 I=3\n   10 I=4\n      END\n",
            Rule::K1,
            4,
            "4:7: label 10 stands at line 1 too",
        ),
        (
            "      INTEGER A(2,3)\n      I=A(1)\n      END\n",
            Rule::K8,
            2,
            "2:9: A wants 2 subscripts and has 1",
        ),
        (
            "      INTEGER A(2)\n      I=A+1\n      END\n",
            Rule::K8,
            2,
            "2:9: A wants 1 subscript and has none",
        ),
        (
            "      I=MAX(1)\n      END\n",
            Rule::K8,
            1,
            "1:9: MAX wants 2 arguments or more and has 1",
        ),
        (
            "      I=IABS(1,2,3)\n      END\n",
            Rule::K8,
            1,
            "1:9: IABS wants 1 argument and has 3",
        ),
    ] {
        let is = told(alloc, source, rule, line)?;
        assert_eq!(rt; is.as_str(), want);
    }
    Ok(())
}
