//! Runs of numbered blocks.

/// A run of one block of a stage.
pub trait Numbered {
    ghost use Rattle.std.specs.Prelude.{ℕ};

    /// Which block the run is of.
    ghost number: { Self → ℕ };

    /// How many blocks the stage has.
    ghost blocks: { ℕ };
}
