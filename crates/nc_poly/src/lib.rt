//! Polynomials in letters that do not commute, over a small prime field.
#![tactic(auto)]

mod accumulator;
mod collect;
mod heap;
mod multiple;
mod poly;
mod sum;
mod term;

pub use accumulator::Accumulator;
pub use heap::Heap;
pub use poly::Poly;
pub use sum::Sum;
pub use term::Term;
