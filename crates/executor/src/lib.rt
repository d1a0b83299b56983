//! The run of a source: from its bytes to the records that it writes into a sink (ANSI X3.9-1978,
//! chapters 10 to 12).
#![tactic(auto)]

mod briefs;
pub mod run;
mod staged;

pub use program_runs::{InOrder, QuietLoops};
pub use record_sinks::{Out, Refused, Sink, put_all};
pub use stage_loop::{Cause, Dependence, Gate, Observer, Open, StageStats, Unwatched};
pub use staged::{Staged, Watched};
