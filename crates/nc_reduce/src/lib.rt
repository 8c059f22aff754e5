//! Reduction of a polynomial by the entries of a snapshot.
#![tactic(auto)]

mod limit;
mod reduction;
mod start;
mod step;
mod touch;
mod turn;

pub use reduction::{Reduced, Rest, reduce, reduce_within};
pub use touch::touches;
