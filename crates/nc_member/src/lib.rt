//! Membership: whether a claim has a representation within the bound of a problem, and its proof.
#![tactic(auto)]

mod lines;
mod membership;
mod proof;
mod rest;

pub use membership::{Membership, member};
pub use proof::prove;
