//! Sets of cells.

use marks::Marks;
use meaning::cell::Cell;
use std::alloc::{AllocError, Global};
use std::process::Abort;
use std::test::*;

/// The set of these cells.
fn set_of(alloc: Global, numbers: &[usize]) -> Result<Marks, AllocError> {
    let mut marks = Marks::new(alloc);
    for &number in numbers {
        marks.set(Cell(number))?;
    }
    Ok(marks)
}

/// The last cell of 16,777,216, beside those at the borders of words of 64.
const BORDERS: &[usize] = &[0, 63, 64, 16_777_215];

/// Cells that aren't among them.
const BESIDE: &[usize] = &[1, 62, 65, 127, 128, 16_777_151, 16_777_214, 16_777_216];

/// That a set has each of these cells, or none of them.
fn check_has(rt: &impl Abort, marks: &Marks, numbers: &[usize], want: bool) {
    for &number in numbers {
        assert!(rt; marks.has(Cell(number)) == want, "{number}");
    }
}

#[test]
fn has(rt: HostRuntime) -> Result<(), Fail> {
    let empty = set_of(rt.alloc(), &[])?;
    check_has(&rt, &empty, BORDERS, false);
    drop(empty);
    let marks = set_of(rt.alloc(), BORDERS)?;
    check_has(&rt, &marks, BORDERS, true);
    check_has(&rt, &marks, BESIDE, false);
    Ok(())
}

/// Two sets, and whether a cell is in both.
const PAIRS: &[(&[usize], &[usize], bool)] = &[
    (&[], &[], false),
    (&[0], &[], false),
    (&[0], &[0], true),
    (&[0], &[64], false),
    (&[63], &[64], false),
    (&[0, 63, 16_777_215], &[64, 16_777_214], false),
    (&[16_777_215, 5, 9], &[64, 16_777_215, 8], true),
    (&[16_777_215], &[16_777_215], true),
    (&[16_777_215], &[16_777_214], false),
    (&[1_048_575], &[1_048_575], true),
    (&[511], &[511, 512], true),
    (&[], &[0, 63, 64, 511, 512, 1_048_575], false),
    (&[7, 7, 7], &[1, 2, 3, 7], true),
    (&[1, 3, 5, 7, 9, 11], &[0, 2, 4, 6, 8, 10, 12], false),
    (&[1, 3, 5, 7, 9, 11], &[0, 2, 4, 6, 8, 9, 12], true),
];

/// Whether the set of some cells meets that of others.
fn do_meet(alloc: Global, one: &[usize], other: &[usize]) -> Result<bool, AllocError> {
    let one_set = set_of(alloc, one)?;
    let other_set = set_of(alloc, other)?;
    Ok(one_set.meets(&other_set))
}

#[test]
fn meets(rt: HostRuntime) -> Result<(), Fail> {
    for &(one, other, want) in PAIRS {
        assert!(rt;
            do_meet(rt.alloc(), one, other)? == want,
            "{one:?} {other:?}"
        );
        assert!(rt;
            do_meet(rt.alloc(), other, one)? == want,
            "{other:?} {one:?}"
        );
    }
    Ok(())
}

/// Bit b of word k is cell 64*k+b; there are as many words as the greatest cell needs.
#[test]
fn words(rt: HostRuntime) -> Result<(), Fail> {
    let marks = set_of(rt.alloc(), BORDERS)?;
    let words = marks.words();
    assert!(rt; words.len() == 262_144);
    assert!(rt; words.first() == Some(&0x8000_0000_0000_0001));
    assert!(rt; words.get(1) == Some(&1));
    assert!(rt; words.get(2) == Some(&0));
    assert!(rt; words.last() == Some(&0x8000_0000_0000_0000));
    let empty = set_of(rt.alloc(), &[])?;
    assert!(rt; empty.words().is_empty());
    Ok(())
}

/// The last cell of the first eight words, the first one behind them, and the last of 16,777,216.
const GROUPS: &[usize] = &[511, 512, 16_777_215];

// A set that was cleared has no cell and meets none, its words stay and are 0, and cells can be set
// again.
#[test]
fn clear(rt: HostRuntime) -> Result<(), Fail> {
    let mut marks = set_of(rt.alloc(), GROUPS)?;
    let others = set_of(rt.alloc(), GROUPS)?;
    assert!(rt; marks.meets(&others));
    marks.clear();
    check_has(&rt, &marks, GROUPS, false);
    assert!(rt; !marks.meets(&others));
    assert!(rt; marks.words().len() == 262_144);
    assert!(rt; marks.words().iter().all(|word| *word == 0));
    marks.set(Cell(512))?;
    check_has(&rt, &marks, &[512], true);
    check_has(&rt, &marks, &[511, 513, 16_777_215], false);
    assert!(rt; marks.meets(&others));
    marks.clear();
    marks.clear();
    check_has(&rt, &marks, GROUPS, false);
    Ok(())
}

/// Cells of the groups of 512 from 1 on up to 3, and others of the set.
const IN_GROUPS: &[usize] = &[3, 512, 700, 1_535, 5_000];

/// Cells next to them.
const OFF_GROUPS: &[usize] = &[4, 511, 1_536, 2_560, 4_999, 5_001];

// The cells of whole groups are added to others, and taken out with them.
#[test]
fn groups(rt: HostRuntime) -> Result<(), Fail> {
    let mut marks = set_of(rt.alloc(), &[3, 5_000])?;
    marks.set_groups(1, 3)?;
    marks.set_groups(5, 5)?;
    check_has(&rt, &marks, IN_GROUPS, true);
    check_has(&rt, &marks, OFF_GROUPS, false);
    let others = set_of(rt.alloc(), &[1_535])?;
    assert!(rt; marks.meets(&others));
    marks.clear();
    check_has(&rt, &marks, IN_GROUPS, false);
    assert!(rt; !marks.meets(&others));
    Ok(())
}

/// So many cells that words have to grow several times.
const MANY: usize = 200;

/// That a set has so many first cells, and none of those behind.
fn check_first(rt: &impl Abort, marks: &Marks, count: usize) {
    for number in 0..MANY {
        assert!(rt;
            marks.has(Cell(number)) == (number < count),
            "{number} of {count}"
        );
    }
}

/// Sets the next cell of a set, which stays as it was where an allocation is refused; then the cell
/// can be set.
fn set_next(rt: &impl Abort, marks: &mut Marks, number: usize) {
    if marks.set(Cell(number)).is_err() {
        check_first(rt, marks, number);
        assert!(rt; marks.set(Cell(number)).is_ok(), "{number}");
    }
    assert!(rt; marks.has(Cell(number)), "{number}");
}

// Where an allocation is refused, the set stays as it was, and the cell can be set later.
#[test]
fn refused(rt: HostRuntime) {
    let mut marks = Marks::new(rt.alloc());
    for number in 0..MANY {
        set_next(&rt, &mut marks, number);
    }
}

/// Cells that are to be set where words for the first 704 are there, and whether that takes no
/// memory.
const AT_HAND: &[(usize, bool)] = &[
    (63, true),
    (511, true),
    (512, true),
    (700, true),
    (703, true),
    (704, false),
    (16_777_215, false),
];

#[test]
fn at_hand(rt: HostRuntime) -> Result<(), Fail> {
    let mut marks = set_of(rt.alloc(), &[0, 700])?;
    for &(number, want) in AT_HAND {
        let was_set = marks.set_at_hand(Cell(number));
        assert!(rt;
            was_set == want && marks.has(Cell(number)) == want,
            "{number}"
        );
    }
    check_has(&rt, &marks, &[1, 62, 64, 510, 513, 699, 702], false);
    Ok(())
}
