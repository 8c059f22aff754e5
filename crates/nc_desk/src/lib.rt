//! The desk that runs a problem: what becomes of each signature.
#![tactic(auto)]

mod desk;
mod finished;
mod handling;
mod multiple;
mod step;

pub use desk::{Counts, Desk};
pub use finished::{End, Finished};
pub use handling::handle;
