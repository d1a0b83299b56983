//! Single blocks of DO statements, and where their first stages are cut. The figures are worked by
//! hand.

use crate::staged::row::{Row, check_row, run_row};
use crate::staged::seen::Seen;
use meaning::ending::{Ending, Fault, FaultKind, Outcome};

/// A copy through an array of subscripts: I has cell 0, A 1 to 8, K 9 to 16.
pub const PERMUTED: &[Seen] = &[
    Seen {
        exposed: &[9, 10],
        written: &[(0, 3), (3, 1), (1, 2)],
        outcome: Outcome::Normal,
        turns: 2,
    },
    Seen {
        exposed: &[11, 12],
        written: &[(0, 5), (4, 3), (8, 4)],
        outcome: Outcome::Normal,
        turns: 2,
    },
    Seen {
        exposed: &[13, 14],
        written: &[(0, 7), (5, 5), (2, 6)],
        outcome: Outcome::Normal,
        turns: 2,
    },
    Seen {
        exposed: &[15, 16],
        written: &[(0, 9), (7, 7), (6, 8)],
        outcome: Outcome::Normal,
        turns: 2,
    },
];

/// A recurrence: I has cell 0, A 1 to 9. Each trip adds 1 to the element before, which is 0 in the
/// base.
const RECURRENCE: &[Seen] = &[
    Seen {
        exposed: &[1],
        written: &[(0, 3), (2, 1)],
        outcome: Outcome::Normal,
        turns: 1,
    },
    Seen {
        exposed: &[2],
        written: &[(0, 4), (3, 1)],
        outcome: Outcome::Normal,
        turns: 1,
    },
    Seen {
        exposed: &[3],
        written: &[(0, 5), (4, 1)],
        outcome: Outcome::Normal,
        turns: 1,
    },
    Seen {
        exposed: &[4],
        written: &[(0, 6), (5, 1)],
        outcome: Outcome::Normal,
        turns: 1,
    },
    Seen {
        exposed: &[5],
        written: &[(0, 7), (6, 1)],
        outcome: Outcome::Normal,
        turns: 1,
    },
    Seen {
        exposed: &[6],
        written: &[(0, 8), (7, 1)],
        outcome: Outcome::Normal,
        turns: 1,
    },
    Seen {
        exposed: &[7],
        written: &[(0, 9), (8, 1)],
        outcome: Outcome::Normal,
        turns: 1,
    },
    Seen {
        exposed: &[8],
        written: &[(0, 10), (9, 1)],
        outcome: Outcome::Normal,
        turns: 1,
    },
];

/// D has cell 0, I 1, A 2 to 10. The last trip divides by what the first one sets.
const DIVIDED: &[Seen] = &[
    Seen {
        exposed: &[],
        written: &[(1, 2), (0, 2)],
        outcome: Outcome::Normal,
        turns: 4,
    },
    Seen {
        exposed: &[],
        written: &[(1, 3)],
        outcome: Outcome::Normal,
        turns: 3,
    },
    Seen {
        exposed: &[],
        written: &[(1, 4)],
        outcome: Outcome::Normal,
        turns: 3,
    },
    Seen {
        exposed: &[],
        written: &[(1, 5)],
        outcome: Outcome::Normal,
        turns: 3,
    },
    Seen {
        exposed: &[],
        written: &[(1, 6)],
        outcome: Outcome::Normal,
        turns: 3,
    },
    Seen {
        exposed: &[],
        written: &[(1, 7)],
        outcome: Outcome::Normal,
        turns: 3,
    },
    Seen {
        exposed: &[],
        written: &[(1, 8)],
        outcome: Outcome::Normal,
        turns: 3,
    },
    Seen {
        exposed: &[],
        written: &[(1, 9)],
        outcome: Outcome::Normal,
        turns: 3,
    },
    Seen {
        exposed: &[0],
        written: &[(1, 9)],
        outcome: Outcome::Fault(Fault {
            kind: FaultKind::F1,
            line: 4,
        }),
        turns: 3,
    },
];

/// Z has cell 0, I 1. Trips 3 and 6 fault.
const TWO_FAULTS: &[Seen] = &[
    Seen {
        exposed: &[],
        written: &[(1, 3)],
        outcome: Outcome::Normal,
        turns: 6,
    },
    Seen {
        exposed: &[0],
        written: &[(1, 3)],
        outcome: Outcome::Fault(Fault {
            kind: FaultKind::F1,
            line: 3,
        }),
        turns: 2,
    },
    Seen {
        exposed: &[0],
        written: &[(1, 6)],
        outcome: Outcome::Fault(Fault {
            kind: FaultKind::F1,
            line: 4,
        }),
        turns: 6,
    },
    Seen {
        exposed: &[],
        written: &[(1, 9)],
        outcome: Outcome::Normal,
        turns: 6,
    },
];

/// I has cell 0, K 1 to 100. Each block looks complete by itself.
const LIMITED: &[Seen] = &[
    Seen {
        exposed: &[],
        written: &[
            (0, 8),
            (1, 1),
            (2, 2),
            (3, 3),
            (4, 4),
            (5, 5),
            (6, 6),
            (7, 7),
        ],
        outcome: Outcome::Normal,
        turns: 7,
    },
    Seen {
        exposed: &[],
        written: &[
            (0, 15),
            (8, 8),
            (9, 9),
            (10, 10),
            (11, 11),
            (12, 12),
            (13, 13),
            (14, 14),
        ],
        outcome: Outcome::Normal,
        turns: 7,
    },
    Seen {
        exposed: &[],
        written: &[
            (0, 22),
            (15, 15),
            (16, 16),
            (17, 17),
            (18, 18),
            (19, 19),
            (20, 20),
            (21, 21),
        ],
        outcome: Outcome::Normal,
        turns: 7,
    },
    Seen {
        exposed: &[],
        written: &[
            (0, 29),
            (22, 22),
            (23, 23),
            (24, 24),
            (25, 25),
            (26, 26),
            (27, 27),
            (28, 28),
        ],
        outcome: Outcome::Normal,
        turns: 7,
    },
    Seen {
        exposed: &[],
        written: &[
            (0, 36),
            (29, 29),
            (30, 30),
            (31, 31),
            (32, 32),
            (33, 33),
            (34, 34),
            (35, 35),
        ],
        outcome: Outcome::Normal,
        turns: 7,
    },
    Seen {
        exposed: &[],
        written: &[
            (0, 43),
            (36, 36),
            (37, 37),
            (38, 38),
            (39, 39),
            (40, 40),
            (41, 41),
            (42, 42),
        ],
        outcome: Outcome::Normal,
        turns: 7,
    },
    Seen {
        exposed: &[],
        written: &[
            (0, 50),
            (43, 43),
            (44, 44),
            (45, 45),
            (46, 46),
            (47, 47),
            (48, 48),
            (49, 49),
        ],
        outcome: Outcome::Normal,
        turns: 7,
    },
    Seen {
        exposed: &[],
        written: &[
            (0, 57),
            (50, 50),
            (51, 51),
            (52, 52),
            (53, 53),
            (54, 54),
            (55, 55),
            (56, 56),
        ],
        outcome: Outcome::Normal,
        turns: 7,
    },
];

/// I has cell 0, J 1. The addition behind the second trip leaves INTEGER, and the variable stays.
const LAST_ADDITION: &[Seen] = &[Seen {
    exposed: &[1],
    written: &[(0, 2_147_483_647), (1, 2)],
    outcome: Outcome::Fault(Fault {
        kind: FaultKind::F2,
        line: 1,
    }),
    turns: 2,
}];

/// I has cell 0, A 1 to 16, B 17 to 32. Trip 5 leaves the loop for label 20.
const LEFT: &[Seen] = &[
    Seen {
        exposed: &[1, 2],
        written: &[(0, 3), (17, 1), (18, 1)],
        outcome: Outcome::Normal,
        turns: 4,
    },
    Seen {
        exposed: &[3, 4],
        written: &[(0, 5), (19, 1), (20, 1)],
        outcome: Outcome::Normal,
        turns: 4,
    },
    Seen {
        exposed: &[5],
        written: &[(0, 5)],
        outcome: Outcome::Left(20),
        turns: 2,
    },
    Seen {
        exposed: &[7, 8],
        written: &[(0, 9), (23, 1), (24, 1)],
        outcome: Outcome::Normal,
        turns: 4,
    },
    Seen {
        exposed: &[9, 10],
        written: &[(0, 11), (25, 1), (26, 1)],
        outcome: Outcome::Normal,
        turns: 4,
    },
    Seen {
        exposed: &[11, 12],
        written: &[(0, 13), (27, 1), (28, 1)],
        outcome: Outcome::Normal,
        turns: 4,
    },
    Seen {
        exposed: &[13, 14],
        written: &[(0, 15), (29, 1), (30, 1)],
        outcome: Outcome::Normal,
        turns: 4,
    },
    Seen {
        exposed: &[15, 16],
        written: &[(0, 17), (31, 1), (32, 1)],
        outcome: Outcome::Normal,
        turns: 4,
    },
];

/// I has cell 0, J 1, K 2. A block sets the inner variable before it reads it.
const NESTED: &[Seen] = &[
    Seen {
        exposed: &[2],
        written: &[(0, 2), (1, 3), (2, 3)],
        outcome: Outcome::Normal,
        turns: 3,
    },
    Seen {
        exposed: &[2],
        written: &[(0, 3), (1, 3), (2, 6)],
        outcome: Outcome::Normal,
        turns: 3,
    },
];

/// I has cell 0, J 1, K 2. K is read where the condition is true alone, and STOP ends the last
/// block.
const ONE_ARM: &[Seen] = &[
    Seen {
        exposed: &[],
        written: &[(0, 2)],
        outcome: Outcome::Normal,
        turns: 2,
    },
    Seen {
        exposed: &[2],
        written: &[(0, 3), (1, 0)],
        outcome: Outcome::Normal,
        turns: 3,
    },
    Seen {
        exposed: &[],
        written: &[(0, 3)],
        outcome: Outcome::Stopped(3),
        turns: 3,
    },
];

const ROWS: &[Row] = &[
    Row {
        source: "      INTEGER A(8),K(8)\n      DATA K/3,1,4,8,5,2,7,6/\n      DO 10 I=1,8\n   10 A(K(I))=I\n      WRITE (6,20) A\n   20 FORMAT (8I3)\n      END\n",
        turns: 1_000_000_000,
        block: 2,
        window: 8,
        blocks: PERMUTED,
        cut: 4,
        records: "  2  6  1  3  5  8  7  4\n",
        ending: None,
    },
    Row {
        source: "      INTEGER A(9)\n      DO 10 I=2,9\n   10 A(I)=A(I-1)+1\n      WRITE (6,20) A(9)\n   20 FORMAT (I3)\n      END\n",
        turns: 1_000_000_000,
        block: 1,
        window: 8,
        blocks: RECURRENCE,
        cut: 1,
        records: "  8\n",
        ending: None,
    },
    Row {
        source: "      INTEGER D,A(9)\n      DO 10 I=1,9\n      IF (I.EQ.1) D=2\n      IF (I.EQ.9) A(9)=8/D\n   10 CONTINUE\n      WRITE (6,20) A(9),D\n   20 FORMAT (2I3)\n      END\n",
        turns: 1_000_000_000,
        block: 1,
        window: 16,
        blocks: DIVIDED,
        cut: 8,
        records: "  4  2\n",
        ending: None,
    },
    Row {
        source: "      INTEGER Z\n      DO 10 I=1,8\n      IF (I.EQ.3) J=1/Z\n      IF (I.EQ.6) K=1/Z\n   10 CONTINUE\n      END\n",
        turns: 1_000_000_000,
        block: 2,
        window: 8,
        blocks: TWO_FAULTS,
        cut: 2,
        records: "",
        ending: Some(Fault {
            kind: FaultKind::F1,
            line: 3,
        }),
    },
    Row {
        source: "      INTEGER K(100)\n      DO 10 I=1,100\n   10 K(I)=I\n      END\n",
        turns: 50,
        block: 7,
        window: 8,
        blocks: LIMITED,
        cut: 7,
        records: "",
        ending: Some(Fault {
            kind: FaultKind::F4,
            line: 3,
        }),
    },
    Row {
        source: "      DO 10 I=2147483646,2147483647\n   10 J=J+1\n      END\n",
        turns: 1_000_000_000,
        block: 64,
        window: 8,
        blocks: LAST_ADDITION,
        cut: 1,
        records: "",
        ending: Some(Fault {
            kind: FaultKind::F2,
            line: 1,
        }),
    },
    Row {
        source: "      INTEGER A(16),B(16)\n      DATA A/4*1,0,11*1/\n      DO 10 I=1,16\n      IF (A(I).EQ.0) GO TO 20\n   10 B(I)=1\n   20 WRITE (6,30) I,B(4),B(5),B(6),B(16)\n   30 FORMAT (5I4)\n      END\n",
        turns: 1_000_000_000,
        block: 2,
        window: 8,
        blocks: LEFT,
        cut: 3,
        records: "   5   1   0   0   0\n",
        ending: None,
    },
    Row {
        source: "      DO 10 I=1,2\n      DO 10 J=1,2\n   10 K=K+I*J\n      WRITE (6,20) I,J,K\n   20 FORMAT (3I4)\n      END\n",
        turns: 1_000_000_000,
        block: 1,
        window: 8,
        blocks: NESTED,
        cut: 1,
        records: "   3   3   9\n",
        ending: None,
    },
];

#[test]
fn blocks_and_cuts(rt: HostRuntime) {
    for row in ROWS {
        check_row(&rt, rt.alloc(), row);
    }
}

/// `IF (I.EQ.2) J=K` reads K in the second trip alone, and the third one stops.
const STOPPED: Row = Row {
    source: "      DO 10 I=1,3\n      IF (I.EQ.2) J=K\n   10 IF (I.EQ.3) STOP\n      END\n",
    turns: 1000,
    block: 1,
    window: 8,
    blocks: ONE_ARM,
    cut: 3,
    records: "",
    ending: None,
};

#[test]
fn stopped(rt: HostRuntime) {
    let ending = run_row(&rt, rt.alloc(), &STOPPED);
    assert!(rt; matches!(&ending, Ending::Stopped(_)), "{ending:?}");
}
