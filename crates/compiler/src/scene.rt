//! Where an expression stands.

use meaning::syntax::Exprs;

/// Where an expression stands: in a statement, or in the expression of a statement function (ANSI
/// X3.9-1978, 15.4).
#[derive(Clone, Copy)]
pub struct Scene<'a> {
    /// The dummies of its statement function; none in a statement.
    pub dummies: &'a Exprs,
    /// How many statement functions may be called, the first ones.
    pub callable: usize,
    /// How many cells there are.
    pub cells: usize,
}
