//! Dimensions, and the cells that places lead to.

use expressions::{Dimension, ElementAddress};
use meaning::cell::Cell;

const BOUNDS: &[Dimension] = &[
    Dimension { lower: 2, upper: 4 },
    Dimension { lower: 0, upper: 1 },
];

#[test]
fn places(rt: HostRuntime) {
    assert!(rt; ElementAddress::new(1, &[]).cell() == Some(Cell(1)));
    assert!(rt; ElementAddress::new(2, BOUNDS).cell() == None);
    assert!(rt; ElementAddress::new(2, BOUNDS).size() == 6);
    assert!(rt; ElementAddress::nowhere().cell() == None);
}

/// Bounds, a subscript, the extent and how far the subscript stands above the lower bound.
const SUBSCRIPTS: &[(i32, i32, i32, u64, Option<u64>)] = &[
    (2, 4, 1, 3, None),
    (2, 4, 2, 3, Some(0)),
    (2, 4, 4, 3, Some(2)),
    (2, 4, 5, 3, None),
    (-2, 1, -3, 4, None),
    (-2, 1, 1, 4, Some(3)),
    (3, 3, 3, 1, Some(0)),
    (1, 0, 1, 0, None),
    (2_147_483_647, -2_147_483_648, 0, 0, None),
    (
        -2_147_483_648,
        2_147_483_647,
        -2_147_483_648,
        4_294_967_296,
        Some(0),
    ),
    (
        -2_147_483_648,
        2_147_483_647,
        2_147_483_647,
        4_294_967_296,
        Some(4_294_967_295),
    ),
    (2_147_483_647, 2_147_483_647, -2_147_483_648, 1, None),
];

#[test]
fn dimensions(rt: HostRuntime) {
    for &(lower, upper, subscript, extent, above) in SUBSCRIPTS {
        let dimension = Dimension { lower, upper };
        assert!(rt; dimension.extent() == extent, "{lower}:{upper}");
        assert!(rt;
            dimension.above(subscript) == above,
            "{subscript} in {lower}:{upper}"
        );
    }
}
