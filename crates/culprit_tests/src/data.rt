//! What is told of DATA statements; the columns were counted by hand.

use crate::asking::told;
use meaning::refusal::Rule;
use std::test::Fail;

#[test]
fn tells_of_lists(rt: HostRuntime) -> Result<(), Fail> {
    let alloc = rt.alloc();
    for (source, line, want) in [
        (
            "      PARAMETER (N=1)\n      DATA N/1/\n      END\n",
            2,
            "2:12: N can't be given a value by DATA",
        ),
        (
            "      INTEGER A(10)\n      DATA A(K)/1/\n      END\n",
            2,
            "2:14: K is no constant here",
        ),
        (
            "      INTEGER A(10)\n      DATA A(1),A(11)/2*1/\n      END\n",
            2,
            "2:12: A has the subscript 11, and bounds 1 TO 10",
        ),
        (
            "      INTEGER A(2,2)\n      DATA A(1)/1/\n      END\n",
            2,
            "2:12: A has another number of subscripts than dimensions",
        ),
        (
            "      INTEGER A(3)\n      LOGICAL L\n      DATA (A(L),L=1,3)/3*1/\n      END\n",
            3,
            "3:15: L is no INTEGER variable",
        ),
        (
            "      INTEGER A(3)\n      DATA (A(I),I=1,3,0)/3*1/\n      END\n",
            2,
            "2:15: I gets no value from its limits",
        ),
        (
            "      INTEGER A(3)\n      DATA (A(I),I=1,K)/3*1/\n      END\n",
            2,
            "2:22: K is no constant here",
        ),
        (
            "      INTEGER A(3)\n      DATA (A(I),I=1,3)/3*1/\n      END\n",
            2,
            "",
        ),
    ] {
        let is = told(alloc, source, Rule::K10, line)?;
        assert_eq!(rt; is.as_str(), want);
    }
    Ok(())
}

#[test]
fn tells_of_values(rt: HostRuntime) -> Result<(), Fail> {
    let alloc = rt.alloc();
    for (source, line, want) in [
        (
            "      LOGICAL L\n      DATA L/5/\n      END\n",
            2,
            "2:12: L is LOGICAL, and 5 is INTEGER",
        ),
        (
            "      INTEGER A(2)\n      DATA A/-3,.TRUE./\n      END\n",
            2,
            "2:12: A is INTEGER, and .TRUE. is LOGICAL",
        ),
        (
            "      DATA I,J/1/\n      END\n",
            1,
            "1:14: no value is left for J",
        ),
        (
            "      DATA I,J/3*1/\n      END\n",
            1,
            "1:7: a value is left over",
        ),
        (
            "      DATA I/0*1/\n      END\n",
            1,
            "1:14: 0 is no repeat count",
        ),
        (
            "      PARAMETER (M=-1)\n      DATA I/M*1/\n      END\n",
            2,
            "2:14: M is no repeat count",
        ),
        (
            "      DATA I/K/\n      END\n",
            1,
            "1:14: K is no constant here",
        ),
        (
            "      DATA I/1/\n      DATA J,I/2*1/\n      END\n",
            2,
            "2:14: I is given a value twice",
        ),
        (
            "      INTEGER A(3)\n      DATA (A(I),I=1,2)/2*1/,A/3*1/\n      END\n",
            2,
            "2:13: A is given a value twice",
        ),
        // where one before breaks the rule, too
        (
            "      DATA I/K/\n      DATA J/K/\n      END\n",
            2,
            "2:14: K is no constant here",
        ),
    ] {
        let is = told(alloc, source, Rule::K10, line)?;
        assert_eq!(rt; is.as_str(), want);
    }
    Ok(())
}
