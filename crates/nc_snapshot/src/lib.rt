//! What a run has found, without traces: snapshots that share what stands.
#![tactic(auto)]

mod entry;
mod found;
mod lead;
mod outcome;
mod snapshot;
mod trace;

pub use entry::{Entry, Syzygy};
pub use lead::Lead;
pub use outcome::{Listed, Outcome};
pub use snapshot::Snapshot;
pub use trace::{Start, Step, StepList, Trace};
