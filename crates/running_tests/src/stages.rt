//! Loops by stages over gates: how many blocks enter, and two of them at once.

use crate::outcomes::MANY;
use executor::run::run;
use executor::{Gate, Out};
use meaning::ending::Ending;
use meaning::plan::Plan;
use std::sync::atomic::{AtomicU64, Ordering};

/// Elements through an array of subscripts: no block needs what another one did.
const PERMUTED: &str =
    "      INTEGER A(8),K(8)\n      DATA K/3,1,4,8,5,2,7,6/\n      DO 10 I=1,8\n   10 A(K(I))=I\n      WRITE (6,20) A\n   20 FORMAT (8I3)\n      END\n";

/// Each element from the one before: each stage commits one block of one trip.
const RECURRENCE: &str =
    "      INTEGER A(9)\n      DO 10 I=2,9\n   10 A(I)=A(I-1)+1\n      WRITE (6,20) A(9)\n   20 FORMAT (I3)\n      END\n";

/// Each element from one four before: each stage commits two blocks of two trips.
const FOUR_BEFORE: &str =
    "      INTEGER A(20)\n      DO 10 I=5,20\n   10 A(I)=A(I-4)+1\n      WRITE (6,20) A(20)\n   20 FORMAT (I3)\n      END\n";

/// Counts the blocks that enter.
#[derive(Drop)]
pub struct Counting {
    entries: AtomicU64,
}

impl Counting {
    /// No block has entered.
    pub fn new() -> Counting {
        Counting {
            entries: AtomicU64::new(0),
        }
    }

    /// How many blocks have entered.
    pub fn entered(self) -> u64 {
        self.entries.into_inner()
    }
}

impl Gate for Counting {
    fn enter(&self, _block: u32) {
        let _ = self.entries.fetch_add(1, Ordering::SeqCst);
    }
}

/// Block 0 waits until block 1 has entered, for so many looks at most.
#[derive(Drop)]
struct Meeting {
    begun: AtomicU64,
    met: AtomicU64,
}

const LOOKS: u32 = 100_000_000;

impl Meeting {
    fn wait(&self) -> u64 {
        for _ in 0..LOOKS {
            if self.begun.load(Ordering::SeqCst) == 1 {
                return 1;
            }
        }
        0
    }
}

impl Gate for Meeting {
    fn enter(&self, block: u32) {
        if block == 1 {
            self.begun.store(1, Ordering::SeqCst);
        }
        if block == 0 {
            let met = self.wait();
            self.met.store(met, Ordering::SeqCst);
        }
    }
}

/// A program, how many trips its blocks have, what it writes, its turns, and how many blocks enter
/// the gate.
struct Entered {
    source: &'static str,
    block: u64,
    records: &'static str,
    turns: u64,
    blocks: u64,
}

/// Each DO statement takes a turn, each of its trips one, and the WRITE statement one.
const ENTERED: &[Entered] = &[
    // One stage of four blocks.
    Entered {
        source: PERMUTED,
        block: 2,
        records: "  2  6  1  3  5  8  7  4\n",
        turns: 10,
        blocks: 4,
    },
    // Stages of 8, 7, 6, 5, 4, 3, 2 and 1 blocks.
    Entered {
        source: RECURRENCE,
        block: 1,
        records: "  8\n",
        turns: 10,
        blocks: 36,
    },
    // Stages of 8, 6, 4 and 2 blocks.
    Entered {
        source: FOUR_BEFORE,
        block: 2,
        records: "  4\n",
        turns: 18,
        blocks: 20,
    },
];

#[test]
fn entries(rt: HostRuntime) {
    for row in ENTERED {
        let gate = Counting::new();
        let plan = Plan::new(4, row.block, 8, MANY).expect(&rt, "a plan");
        let mut sink = Out::new(Vec::new(rt.alloc()));
        let source = row.source.as_bytes();
        let report = run(&rt, rt.alloc(), source, &plan, &mut sink, &gate);
        let records = sink.into_inner();
        let entered = gate.entered();
        assert!(rt; report.ending == Ending::Ended && report.turns == Some(row.turns));
        assert!(rt; records.as_slice() == row.records.as_bytes());
        assert!(rt; entered == row.blocks, "{entered}");
    }
}

#[test]
fn two_blocks_at_once(rt: HostRuntime) {
    let gate = Meeting {
        begun: AtomicU64::new(0),
        met: AtomicU64::new(0),
    };
    let plan = Plan::new(4, 2, 8, MANY).expect(&rt, "a plan");
    let mut sink = Out::new(Vec::new(rt.alloc()));
    let report = run(
        &rt,
        rt.alloc(),
        PERMUTED.as_bytes(),
        &plan,
        &mut sink,
        &gate,
    );
    let records = sink.into_inner();
    assert!(rt; report.ending == Ending::Ended && gate.met.into_inner() == 1);
    assert!(rt; records.as_slice() == b"  2  6  1  3  5  8  7  4\n".as_slice());
}
