//! Single blocks that fault or meet the turn limit, and where their first stages are cut. The
//! figures are worked by hand.

use crate::staged::row::{Row, check_row};
use crate::staged::seen::Seen;
use meaning::ending::{Fault, FaultKind, Outcome};

// Faults, each with the line of its statement.
const ZERO_DIVISOR_3: Fault = Fault {
    kind: FaultKind::F1,
    line: 3,
};

const ZERO_DIVISOR_4: Fault = Fault {
    kind: FaultKind::F1,
    line: 4,
};

const OUTSIDE_INTEGER_2: Fault = Fault {
    kind: FaultKind::F2,
    line: 2,
};

const OUTSIDE_BOUNDS_3: Fault = Fault {
    kind: FaultKind::F3,
    line: 3,
};

const NO_TURN_3: Fault = Fault {
    kind: FaultKind::F4,
    line: 3,
};

const NO_TURN_4: Fault = Fault {
    kind: FaultKind::F4,
    line: 4,
};

const NO_TURN_5: Fault = Fault {
    kind: FaultKind::F4,
    line: 5,
};

/// I has cell 0, A 1 to 3. The first trip misses A by its I, which is 0, and ends its block; trips
/// 3 and 4 set A(2) and A(3).
const FIRST_TRIP: &[Seen] = &[
    Seen {
        exposed: &[],
        written: &[(0, 0)],
        outcome: Outcome::Fault(OUTSIDE_BOUNDS_3),
        turns: 1,
    },
    Seen {
        exposed: &[],
        written: &[(0, 4), (2, 2), (3, 3)],
        outcome: Outcome::Normal,
        turns: 2,
    },
];

/// Z has cell 0, I 1, A 2 to 5, B 6 to 9. Each block faults in its first trip, with B(I) and Z
/// read, and A(I) not written.
const BOTH_FIRST_TRIPS: &[Seen] = &[
    Seen {
        exposed: &[0, 6],
        written: &[(1, 1)],
        outcome: Outcome::Fault(ZERO_DIVISOR_3),
        turns: 1,
    },
    Seen {
        exposed: &[0, 8],
        written: &[(1, 3)],
        outcome: Outcome::Fault(ZERO_DIVISOR_3),
        turns: 1,
    },
];

/// I has cell 0, A 1 to 4, B 5 to 8. Trip 4 divides by B(4), which is 0; what trip 3 wrote stays.
const LAST_TRIP: &[Seen] = &[
    Seen {
        exposed: &[5, 6],
        written: &[(0, 3), (1, 12), (2, 6)],
        outcome: Outcome::Normal,
        turns: 2,
    },
    Seen {
        exposed: &[7, 8],
        written: &[(0, 4), (3, 4)],
        outcome: Outcome::Fault(ZERO_DIVISOR_4),
        turns: 2,
    },
];

/// I has cell 0, A 1 to 3. The trips have I = -2147483646, -2147483647 and -2147483648, so the
/// addition behind the third, which is the last block's only one, leaves INTEGER, and I stays.
const LAST_ADDITION: &[Seen] = &[
    Seen {
        exposed: &[],
        written: &[(0, -2_147_483_648), (1, 1), (2, 1)],
        outcome: Outcome::Normal,
        turns: 2,
    },
    Seen {
        exposed: &[],
        written: &[(0, -2_147_483_648), (3, 1)],
        outcome: Outcome::Fault(OUTSIDE_INTEGER_2),
        turns: 1,
    },
];

/// I has cell 0, K 1 to 100. The DO statement takes one of 6 turns, so each block has 5 for 7
/// trips: five of these are whole, and the sixth has its I and no turn.
const FIVE_OF_SEVEN: &[Seen] = &[
    Seen {
        exposed: &[],
        written: &[(0, 6), (1, 1), (2, 2), (3, 3), (4, 4), (5, 5)],
        outcome: Outcome::Fault(NO_TURN_3),
        turns: 5,
    },
    Seen {
        exposed: &[],
        written: &[(0, 13), (8, 8), (9, 9), (10, 10), (11, 11), (12, 12)],
        outcome: Outcome::Fault(NO_TURN_3),
        turns: 5,
    },
    Seen {
        exposed: &[],
        written: &[(0, 20), (15, 15), (16, 16), (17, 17), (18, 18), (19, 19)],
        outcome: Outcome::Fault(NO_TURN_3),
        turns: 5,
    },
];

/// I has cell 0, K 1 to 100. The DO statement takes the only turn.
const ONLY_TURN: &[Seen] = &[
    Seen {
        exposed: &[],
        written: &[(0, 1)],
        outcome: Outcome::Fault(NO_TURN_3),
        turns: 0,
    },
    Seen {
        exposed: &[],
        written: &[(0, 3)],
        outcome: Outcome::Fault(NO_TURN_3),
        turns: 0,
    },
];

/// I has cell 0, J 1, K 2 to 5. Trip I takes a turn for the inner DO statement, I turns for its
/// range and one for CONTINUE, so 3, 4, 5 and 6, and each block has 5: they are just enough for the
/// third trip, and the fourth misses the last of its own.
const UNEVEN: &[Seen] = &[
    Seen {
        exposed: &[],
        written: &[(0, 2), (1, 2), (2, 1)],
        outcome: Outcome::Normal,
        turns: 3,
    },
    Seen {
        exposed: &[],
        written: &[(0, 3), (1, 3), (3, 2)],
        outcome: Outcome::Normal,
        turns: 4,
    },
    Seen {
        exposed: &[],
        written: &[(0, 4), (1, 4), (4, 3)],
        outcome: Outcome::Normal,
        turns: 5,
    },
    Seen {
        exposed: &[],
        written: &[(0, 4), (1, 5), (5, 4)],
        outcome: Outcome::Fault(NO_TURN_5),
        turns: 5,
    },
];

const FAULTS: &[Row] = &[
    Row {
        source: "      INTEGER A(3)\n      DO 10 I=0,3\n   10 A(I)=I\n      END\n",
        turns: 1000,
        block: 2,
        window: 8,
        blocks: FIRST_TRIP,
        cut: 1,
        records: "",
        ending: Some(OUTSIDE_BOUNDS_3),
    },
    Row {
        source: "      INTEGER A(4),B(4),Z\n      DO 10 I=1,4\n   10 A(I)=B(I)/Z\n      END\n",
        turns: 1000,
        block: 2,
        window: 8,
        blocks: BOTH_FIRST_TRIPS,
        cut: 1,
        records: "",
        ending: Some(ZERO_DIVISOR_3),
    },
    Row {
        source: "      INTEGER A(4),B(4)\n      DATA B/1,2,3,0/\n      DO 10 I=1,4\n   10 A(I)=12/B(I)\n      END\n",
        turns: 1000,
        block: 2,
        window: 8,
        blocks: LAST_TRIP,
        cut: 2,
        records: "",
        ending: Some(ZERO_DIVISOR_4),
    },
    Row {
        source: "      INTEGER A(3)\n      DO 10 I=-2147483646,-2147483647-1,-1\n   10 A(-2147483645-I)=1\n      END\n",
        turns: 1000,
        block: 2,
        window: 8,
        blocks: LAST_ADDITION,
        cut: 2,
        records: "",
        ending: Some(OUTSIDE_INTEGER_2),
    },
];

#[test]
fn faults_in_blocks(rt: HostRuntime) {
    for row in FAULTS {
        check_row(&rt, rt.alloc(), row);
    }
}

const LIMITS: &[Row] = &[
    Row {
        source: "      INTEGER K(100)\n      DO 10 I=1,100\n   10 K(I)=I\n      END\n",
        turns: 6,
        block: 7,
        window: 3,
        blocks: FIVE_OF_SEVEN,
        cut: 1,
        records: "",
        ending: Some(NO_TURN_3),
    },
    Row {
        source: "      INTEGER K(100)\n      DO 10 I=1,100\n   10 K(I)=I\n      END\n",
        turns: 1,
        block: 2,
        window: 2,
        blocks: ONLY_TURN,
        cut: 1,
        records: "",
        ending: Some(NO_TURN_3),
    },
    Row {
        source: "      INTEGER K(4)\n      DO 20 I=1,4\n      DO 10 J=1,I\n   10 K(I)=J\n   20 CONTINUE\n      END\n",
        turns: 6,
        block: 1,
        window: 8,
        blocks: UNEVEN,
        cut: 1,
        records: "",
        ending: Some(NO_TURN_4),
    },
];

#[test]
fn turn_limits_in_blocks(rt: HostRuntime) {
    for row in LIMITS {
        check_row(&rt, rt.alloc(), row);
    }
}
