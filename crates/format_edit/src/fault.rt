//! Why a text is no format, and why values can't be edited.

ghost use Rattle.std.specs.Prelude.{◌≡◌};
ghost use Rattle.format_edit.specs.declared.fault.FormatFault.TheVariants as formats;
ghost use Rattle.format_edit.specs.declared.fault.EditFault.TheVariants as edits;

use std::alloc::{AllocError, AllocFailed};

/// Why a text is no format.
#[derive(Clone, Copy, Debug, PartialEq, Eq)]
pub enum FormatFault {
    /// It isn't spelled as one, or a pass of it is too long.
    Broken,
    /// A growth was refused.
    Memory,
}

/// Why values can't be edited.
#[derive(Clone, Copy, Debug, PartialEq, Eq)]
pub enum EditFault {
    /// A value meets a descriptor of another type, or no descriptor comes for it.
    F7,
    /// The bytes would pass 1,048,576.
    F8,
    /// A growth was refused.
    Memory,
}

impl From<AllocError> for FormatFault {
    ghost from_gives = { λ _ e. e ≡ formats.Memory };

    fn from(_error: AllocError) -> FormatFault {
        FormatFault::Memory
    }
}

impl<T: Drop> From<AllocFailed<T>> for FormatFault {
    ghost from_gives = { λ _ e. e ≡ formats.Memory };

    fn from(_error: AllocFailed<T>) -> FormatFault {
        FormatFault::Memory
    }
}

impl From<AllocError> for EditFault {
    ghost from_gives = { λ _ e. e ≡ edits.Memory };

    fn from(_error: AllocError) -> EditFault {
        EditFault::Memory
    }
}

impl<T: Drop> From<AllocFailed<T>> for EditFault {
    ghost from_gives = { λ _ e. e ≡ edits.Memory };

    fn from(_error: AllocFailed<T>) -> EditFault {
        EditFault::Memory
    }
}
