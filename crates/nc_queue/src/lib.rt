//! Signatures that wait, the least one first.
#![tactic(auto)]

mod sets;
mod waiting;

pub use waiting::Waiting;
