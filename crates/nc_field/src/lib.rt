//! Arithmetic modulo the primes that the program works with.
#![tactic(auto)]

mod digits;
mod prime;

pub use crate::prime::{Prime, Residue, listed_primes};
