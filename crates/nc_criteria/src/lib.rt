//! Criteria: what settles a signature before anything is reduced.
#![tactic(auto)]

mod multiple;
mod syzygy;
mod trivial;

pub use multiple::{Multiple, best_multiple, best_multiple_law};
pub use syzygy::{syzygy_divides, syzygy_divides_after};
