//! What is told of units and formats; the columns were counted by hand.

use crate::asking::told;
use meaning::refusal::Rule;
use std::test::Fail;

#[test]
fn tells_of_outputs(rt: HostRuntime) -> Result<(), Fail> {
    let alloc = rt.alloc();
    for (source, line, want) in [
        (
            "      WRITE (5,10) I\n   10 FORMAT (I3)\n      END\n",
            1,
            "1:14: the unit is neither 6 nor *",
        ),
        (
            "      WRITE (6,10) I\n      END\n",
            1,
            "1:16: label 10 is that of no FORMAT statement",
        ),
        (
            "      IF (I.EQ.1) PRINT 20,I\n   20 CONTINUE\n      END\n",
            1,
            "1:25: label 20 is that of no FORMAT statement",
        ),
        (
            "      FORMAT (I3)\n      END\n",
            1,
            "1:7: the FORMAT statement has no label",
        ),
        (
            "   10 FORMAT (I5,2(I3,1X),F8.1,I3)\n      END\n",
            1,
            "1:27: F8.1 can't stand in a format",
        ),
        (
            "   10 FORMAT (I5,3(I3,A4))\n      END\n",
            1,
            "1:18: 3(I3,A4) can't stand in a format",
        ),
        (
            "   10 FORMAT ('A,B',1H1)\n      END\n",
            1,
            "1:21: 1H1 can't stand in a format",
        ),
        (
            "   10 FORMAT (I5,,I5)\n      END\n",
            1,
            "1:18: an item is missing beside a comma",
        ),
        (
            "      PRINT '(F8.1)',I\n      END\n",
            1,
            "1:13: '(F8.1)' is no format",
        ),
        (
            "      PARAMETER (N=6)\n      WRITE (N,'(I3)') I\n      END\n",
            2,
            "",
        ),
        (
            "   10 FORMAT (I3)\n      WRITE (*,10) I\n      END\n",
            2,
            "",
        ),
    ] {
        let is = told(alloc, source, Rule::K11, line)?;
        assert_eq!(rt; is.as_str(), want);
    }
    Ok(())
}
