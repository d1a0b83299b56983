//! What is told of the sizes of arrays; the columns were counted by hand.

use crate::asking::told;
use meaning::refusal::Rule;
use std::test::Fail;

#[test]
fn tells_of_arrays(rt: HostRuntime) -> Result<(), Fail> {
    let alloc = rt.alloc();
    for (source, line, want) in [
        (
            "      INTEGER A(20000000)\n      END\n",
            1,
            "1:15: A has 20000000 elements, 16777216 at most",
        ),
        (
            "      INTEGER A(10000000),B(9000000)\n      END\n",
            1,
            "1:27: B has 9000000 elements with 10000000 before it, 16777216 at most",
        ),
        (
            "      INTEGER A(2000000000,2000000000,2000000000)\n      END\n",
            1,
            "1:15: A has more than 18446744073709551614 elements, 16777216 at most",
        ),
        (
            "      INTEGER A(1,1,1,1,1,1,1,1)\n      END\n",
            1,
            "1:15: A has 8 dimensions, 7 at most",
        ),
        (
            "      INTEGER A(3:2)\n      END\n",
            1,
            "1:15: A has bounds 3 TO 2",
        ),
        (
            "      PARAMETER (N=-5)\n      INTEGER A(2,-1:N)\n      END\n",
            2,
            "2:15: A has bounds -1 TO -5",
        ),
        ("      INTEGER A(16777216)\n      END\n", 1, ""),
    ] {
        let is = told(alloc, source, Rule::K7, line)?;
        assert_eq!(rt; is.as_str(), want);
    }
    Ok(())
}
