//! What is told of statement functions; the columns were counted by hand.

use crate::asking::told;
use meaning::refusal::Rule;
use std::test::Fail;

#[test]
fn tells_of_functions(rt: HostRuntime) -> Result<(), Fail> {
    let alloc = rt.alloc();
    for (source, line, want) in [
        (
            "      I=1\n      M(J)=J+1\n      END\n",
            2,
            "2:7: M is no array, and it is too late for a statement function",
        ),
        (
            "      IF(I.EQ.1)M(J)=J\n      END\n",
            1,
            "1:17: M is no array, and a logical IF has no statement function",
        ),
        (
            "      M(I,J,K,L,I1,J1,K1,L1,I2,J2,K2,L2,I3,J3,K3,L3,N)=1\n      END\n",
            1,
            "1:7: M has more than 16 dummy arguments",
        ),
        (
            "      M(1)=2\n      END\n",
            1,
            "1:7: M has a dummy argument that is no name",
        ),
        (
            "      M(J,J)=J\n      END\n",
            1,
            "1:9: J is a dummy argument twice",
        ),
        (
            "      M(J)=J(1)\n      END\n",
            1,
            "1:9: J is a dummy argument and no function",
        ),
        (
            "      M(J)=M(J-1)+1\n      END\n",
            1,
            "1:7: M refers to itself",
        ),
        (
            "      M(J)=N(J)\n      N(J)=J\n      END\n",
            1,
            "1:12: N is a statement function that stands later",
        ),
        ("      M(J)=J+1\n      END\n", 1, ""),
    ] {
        let is = told(alloc, source, Rule::K12, line)?;
        assert_eq!(rt; is.as_str(), want);
    }
    Ok(())
}
