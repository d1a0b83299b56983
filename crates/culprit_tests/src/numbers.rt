//! What is told of integer constants and constant expressions; the columns were counted by hand.

use crate::asking::told;
use meaning::refusal::Rule;
use std::test::Fail;

#[test]
fn tells_of_numbers(rt: HostRuntime) -> Result<(), Fail> {
    let alloc = rt.alloc();
    for (source, line, want) in [
        (
            "      I=2147483648\n      END\n",
            1,
            "1:9: 2147483648 is more than 2147483647",
        ),
        (
            "      DATA I/99999999999/\n      END\n",
            1,
            "1:14: 99999999999 is more than 2147483647",
        ),
        (
            "      INTEGER A(N)\n      END\n",
            1,
            "1:17: N is no constant here",
        ),
        (
            "      PARAMETER (N=M(1))\n      END\n",
            1,
            "1:20: M has parentheses, and a constant has none",
        ),
        (
            "      PARAMETER (N=1/0)\n      END\n",
            1,
            "1:18: N has an expression without a value",
        ),
        (
            "      INTEGER A(1/0)\n      END\n",
            1,
            "1:15: A has a bound without a value",
        ),
        (
            "      PARAMETER (N=2,M=N)\n      INTEGER A(M)\n      END\n",
            1,
            "",
        ),
        ("      I=2147483647\n      END\n", 1, ""),
    ] {
        let is = told(alloc, source, Rule::K6, line)?;
        assert_eq!(rt; is.as_str(), want);
    }
    Ok(())
}
