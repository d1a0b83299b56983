//! What is told of what names are; the columns were counted by hand.

use crate::asking::told;
use meaning::refusal::Rule;
use std::test::Fail;

#[test]
fn tells_of_names(rt: HostRuntime) -> Result<(), Fail> {
    let alloc = rt.alloc();
    for (source, line, want) in [
        (
            "      INTEGER I\n      LOGICAL I\n      END\n",
            2,
            "2:15: I gets a type at line 1",
        ),
        (
            "      INTEGER I,J,I\n      END\n",
            1,
            "1:15: I gets a type at line 1",
        ),
        (
            "      INTEGER A(2)\n      DIMENSION A(3)\n      END\n",
            2,
            "2:17: A gets bounds at line 1",
        ),
        (
            "      PARAMETER (N=1)\n      PARAMETER (N=2)\n      END\n",
            2,
            "2:18: N gets a value at line 1",
        ),
        (
            "      M(J)=J\n      M(J)=1\n      END\n",
            2,
            "2:7: M is a statement function of line 1",
        ),
        (
            "      INTEGER N(2)\n      PARAMETER (N=1)\n      END\n",
            2,
            "2:18: N is an array or a statement function of line 1",
        ),
        (
            "      PARAMETER (N=1)\n      DIMENSION N(2)\n      END\n",
            2,
            "2:17: N gets a value at line 1",
        ),
        (
            "      PARAMETER (N=1)\n      N=2\n      END\n",
            2,
            "2:7: N is a constant and can't be set",
        ),
        (
            "      PARAMETER (N=1)\n      I=N(1)\n      END\n",
            2,
            "2:9: N is a constant and has no parentheses",
        ),
        (
            "      M(J)=J\n      I=M\n      END\n",
            2,
            "2:9: M is a statement function and wants parentheses",
        ),
        (
            "      IMPLICIT NONE\n      IMPLICIT INTEGER(A-Z)\n      END\n",
            2,
            "2:7: line 1 has IMPLICIT too",
        ),
        ("      I=J\n      I=J(1)\n      END\n", 2, ""),
        ("      INTEGER I\n      I=1\n      END\n", 2, ""),
    ] {
        let is = told(alloc, source, Rule::K4, line)?;
        assert_eq!(rt; is.as_str(), want);
    }
    Ok(())
}
