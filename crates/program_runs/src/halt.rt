//! Why a run stops short of its end.

ghost use Rattle.std.specs.Prelude.{◌≡◌};
ghost use Rattle.program_runs.specs.declared.halt.Halt.TheVariants.{Memory};
ghost use Rattle.program_runs.specs.declared.halt.Halt.TheVariants.{WriteRefused as Refusal};

use record_sinks::Refused;
use std::alloc::{AllocError, AllocFailed};

/// Why a run stops short of its end.
#[derive(Clone, Copy, Debug, PartialEq, Eq)]
pub enum Halt {
    /// A growth was refused.
    Memory,
    /// The sink refused a write.
    WriteRefused,
}

impl From<AllocError> for Halt {
    ghost from_gives = { λ _ e. e ≡ Memory };

    fn from(_error: AllocError) -> Halt {
        Halt::Memory
    }
}

impl<T: Drop> From<AllocFailed<T>> for Halt {
    ghost from_gives = { λ _ e. e ≡ Memory };

    fn from(_error: AllocFailed<T>) -> Halt {
        Halt::Memory
    }
}

impl From<Refused> for Halt {
    ghost from_gives = { λ _ e. e ≡ Refusal };

    fn from(_refused: Refused) -> Halt {
        Halt::WriteRefused
    }
}
