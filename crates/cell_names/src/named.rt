//! Variables and arrays with their cells.

ghost use Rattle.std.specs.Prelude.{◌≡◌, map};
ghost use Rattle.expressions.specs.Dimensions.{dimension};
ghost use Rattle.meaning.specs.Arrays.{size};

use expressions::Dimensions;

/// A variable or an array.
#[derive(Drop)]
pub struct Named {
    /// Its name.
    pub name: Vec<u8>,
    /// Its dimensions, none for a variable.
    pub dimensions: Dimensions,
    /// How many cells it has.
    pub cells: usize,
    ghost counted: { cells ≡ size (map dimension dimensions.items) },
}
