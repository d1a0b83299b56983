//! The array elements in the lists of DATA statements (ANSI X3.9-1978, 5.4 and 9.1).

ghost use Rattle.std.specs.Prelude.{◌≡◌, ◌+◌, ◌*◌, ℕ, option_map};
ghost use Rattle.expressions.specs.Places.{capped};
ghost use Rattle.data_rules.specs.DataPlaces.{place_by, value_in};

use declarations::{Scope, is_no_constant, value_of};
use expressions::{Dimension, as_integer};
use meaning::syntax::{Expr, Exprs};

/// The value of an expression of constants and of the variables of implied DOs around it, if it is
/// one and has one.
pub fn known_value(scope: &Scope, expression: &Expr) -> Option<i32>
    ensures { result ≡ value_in scope.now expression.now }
{
    if is_no_constant(scope, expression) {
        return None;
    }
    match value_of(scope, expression) {
        Some(value) => Some(as_integer(value)),
        None => None,
    }
}

/// A place in the first dimension, and one in the others, or 2^64-1 where it is more.
fn combined(above: u64, extent: u64, place: u64) -> u64
    ensures { (i : ℕ) → place ≡ capped i → result ≡ capped (above + extent * i) }
{
    above.saturating_add(extent.saturating_mul(place))
}

/// The place of the element with these subscripts, or 2^64-1 where it is more, if they are known
/// and within their bounds.
pub fn place_in(scope: &Scope, dimensions: &[Dimension], subscripts: &Exprs) -> Option<u64>
    ensures { result ≡ option_map capped (place_by scope.now dimensions.now subscripts.now) }
{
    match subscripts {
        Exprs::Empty => match dimensions.split_first() {
            None => Some(0),
            Some(_) => None,
        },
        Exprs::More(first, rest) => {
            let (dimension, more) = dimensions.split_first()?;
            let subscript = known_value(scope, first)?;
            let above = dimension.above(subscript)?;
            let place = place_in(scope, more, rest)?;
            Some(combined(above, dimension.extent(), place))
        }
    }
}
