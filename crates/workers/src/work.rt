//! What workers do.

ghost use Rattle.std.specs.Prelude.{◌≡◌, ◌<◌, IfSome};

use schedules::Numbered;

/// How a block is run. What an S is kept in may serve a block, and come back by its run.
pub trait Work<T: Numbered, S> {
    /// The run of a block, kept in what is handed out for it, if anything is; `None` where it is
    /// lost.
    fn run(&self, block: u32, spare: Option<S>) -> Option<T>
        requires { block < T.blocks }
        ensures { IfSome result (λ r. T.number r ≡ block) };
}
