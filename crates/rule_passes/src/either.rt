//! Two rules under one name.

ghost use Rattle.std.specs.Prelude.{◌||◌};

use crate::pass::Behind;
use meaning::syntax::Item;
use std::alloc::AllocError;

/// The rule that a statement breaks where it breaks one of two.
#[derive(Drop)]
pub struct Either<A: Drop, B: Drop> {
    /// The one.
    pub first: A,
    /// The other.
    pub second: B,
}

impl<A: Behind + Drop, B: Behind + Drop> Behind for Either<A, B> {
    ghost breaks = { λ s before x. A.breaks s.first before x || B.breaks s.second before x };

    ghost knows = { λ s before. A.knows s.first before × B.knows s.second before };

    fn is_broken(&self, item: &Item) -> Result<bool, AllocError> {
        let first = self.first.is_broken(item)?;
        let second = self.second.is_broken(item)?;
        Ok(first || second)
    }

    fn pass(&mut self, item: &Item) -> Result<(), AllocError> {
        self.first.pass(item)?;
        self.second.pass(item)?;
        Ok(())
    }
}
