//! Why an expression has no code.

ghost use Rattle.std.specs.Prelude.{◌≡◌};
ghost use Rattle.code_laws.specs.declared.no_code.NoCode.TheVariants.{Memory};

use std::alloc::{AllocError, AllocFailed};

/// Why an expression has no code.
#[derive(Clone, Copy, Debug, PartialEq, Eq)]
pub enum NoCode {
    /// A growth was refused.
    Memory,
    /// It breaks a rule: an element has another number of subscripts than its array has dimensions,
    /// or its array has no cells, or what stands with arguments is no function that may be called
    /// there, or a function has another number of arguments than it takes, or a constant leaves the
    /// range of INTEGER. Or it is too large: it needs room for more than 1,024 numbers, or the
    /// cells' numbers leave the range of INTEGER. What keeps the rules and is small is never
    /// refused so, which those who make codes promise.
    Unruly,
}

impl From<AllocError> for NoCode {
    ghost from_gives = { λ _ e. e ≡ Memory };

    fn from(_error: AllocError) -> NoCode {
        NoCode::Memory
    }
}

impl<T: Drop> From<AllocFailed<T>> for NoCode {
    ghost from_gives = { λ _ e. e ≡ Memory };

    fn from(_error: AllocFailed<T>) -> NoCode {
        NoCode::Memory
    }
}
