//! Numbers of digits, and the lesser of two rules that are broken.

use meaning::laws::{
    cells_are_own, elements_have_places, execution_is_its_pass, lines_are_grouped,
    more_turns_change_nothing, trips_split, turns_used_are_given,
};
use meaning::number::number;
use meaning::refusal::{Broken, Rule, lesser};
use nesting_laws::{nests_exactly, one_nesting, refuses_exactly, rule_told};

const NUMBERS: &[(&[u8], u64)] = &[
    (b"", 0),
    (b"0", 0),
    (b"0042", 42),
    (b"4294967295", 4_294_967_295),
    (b"4294967296", 4_294_967_296),
    (b"99999999999999999999999999", 4_294_967_296),
];

#[test]
fn numbers(rt: HostRuntime) {
    for &(digits, value) in NUMBERS {
        assert!(rt; number(digits) == value, "{digits:?}");
    }
}

const LATE: Broken = Broken {
    line: 7,
    rule: Rule::C1,
};

const EARLY: Broken = Broken {
    line: 2,
    rule: Rule::C6,
};

/// At the line of `EARLY`, with a lesser rule.
const LABEL: Broken = Broken {
    line: 2,
    rule: Rule::C2,
};

/// Two rules that are broken or none, and the lesser of them.
const PAIRS: &[(Option<Broken>, Option<Broken>, Option<Broken>)] = &[
    (Some(LATE), Some(EARLY), Some(EARLY)),
    (Some(EARLY), Some(LABEL), Some(LABEL)),
    (Some(LABEL), Some(EARLY), Some(LABEL)),
    (None, Some(LATE), Some(LATE)),
    (Some(LATE), None, Some(LATE)),
    (None, None, None),
];

#[test]
fn lesser_pairs(rt: HostRuntime) {
    for &(one, other, want) in PAIRS {
        assert!(rt; lesser(one, other) == want, "{one:?} and {other:?}");
    }
}

/// The laws that stand on functions hold wherever they are called.
#[test]
fn laws_can_be_called() {
    lines_are_grouped();
    execution_is_its_pass();
    turns_used_are_given();
    more_turns_change_nothing();
    trips_split();
    elements_have_places();
    cells_are_own();
    one_nesting();
    nests_exactly();
    refuses_exactly();
    rule_told();
}
