//! The check of certificates of ideal membership.
#![tactic(auto)]

mod charge;
mod checking;
mod taking;
mod value;

pub use checking::{MAX_CHARGE, Verdict, check, limit_law};
