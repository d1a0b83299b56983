//! Places: what a name and the subscripts that are known lead to (ANSI X3.9-1978, 5.4).

ghost use Rattle.std.specs.Prelude.{◌≡◌, ◌+◌, ◌<◌, ◌≤◌, IfSome, ℤ, List, [], None, map, option_map};
ghost use Rattle.meaning.specs.Arrays.{place as place_in, size};
ghost use Rattle.expressions.specs.Dimensions.{dimension};
ghost use Rattle.expressions.specs.Places.{capped, left, behind, limit};

use crate::Dimension;
use meaning::cell::Cell;

/// What a name and the subscripts that are known lead to: the cells by the subscripts that are
/// left.
#[derive(Clone, Copy)]
pub struct ElementAddress<'a> {
    cell: Option<usize>,
    stride: usize,
    left: &'a [Dimension],
}

impl<'a> ElementAddress<'a> {
    /// The place of a variable, or of an array of which no subscript is known yet: its first cell,
    /// and its dimensions.
    pub fn new(first: usize, dimensions: &'a [Dimension]) -> ElementAddress<'a>
        ensures left { left result ≡ map dimension dimensions.now }
        ensures behind { (ss : List ℤ) → behind result ss
            ≡ option_map (λ i. first + i) (place_in (map dimension dimensions.now) ss) }
        ensures limited { limit result ≤ first + size (map dimension dimensions.now) }
    {
        ElementAddress {
            cell: Some(first),
            stride: 1,
            left: dimensions,
        }
    }

    /// The place of what has no cells.
    pub fn nowhere() -> ElementAddress<'a>
        ensures left { left result ≡ [] }
        ensures behind { (ss : List ℤ) → behind result ss ≡ None }
        ensures limited { limit result ≡ 0 }
    {
        ElementAddress {
            cell: None,
            stride: 1,
            left: &[],
        }
    }

    /// The cell of its first element; `None` where it has no cells.
    pub fn first(self) -> Option<usize>
        ensures { result ≡ self.entry.cell }
    {
        self.cell
    }

    /// How many cells the next value of the first subscript that is left is further.
    pub fn stride(self) -> usize
        ensures { result ≡ self.entry.stride }
    {
        self.stride
    }

    /// The dimensions of the subscripts that are left.
    pub fn dimensions(self) -> &'a [Dimension]
        ensures { map dimension result.now ≡ left self.entry }
    {
        self.left
    }

    /// How many elements it has by the subscripts that are left, or 2^64-1 where there are more.
    pub fn size(self) -> usize
        ensures { result ≡ capped (size (left self.entry)) }
    {
        let mut found: usize = 1;
        for one in self.left {
            found = found.saturating_mul(one.extent() as usize);
        }
        found
    }

    /// The cell that it leads to without further subscripts.
    pub fn cell(self) -> Option<Cell>
        ensures cell { option_map (λ c. c.0) result ≡ behind self.entry [] }
        ensures small { IfSome result (λ c. c.0 < limit self.entry) }
    {
        if self.left.is_empty() {
            self.cell.map(Cell)
        } else {
            None
        }
    }
}
