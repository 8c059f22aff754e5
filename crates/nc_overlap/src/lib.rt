//! Ambiguities of a new entry, by their signatures.
#![tactic(auto)]

mod found;
mod meeting;
mod side;

pub use found::signatures;
