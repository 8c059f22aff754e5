//! What becomes of a signature.

use crate::trace::Trace;
use nc_poly::Poly;

/// What becomes of a signature.
#[derive(Drop)]
pub enum Outcome {
    /// A syzygy signature divides it.
    Covered,
    /// The entry with this number gives the best multiple, and nothing reduces its leading word.
    Settled { number: u32 },
    /// It is listed with this polynomial, which is not zero.
    Entry { poly: Poly, trace: Trace },
    /// It is listed as a syzygy.
    Syzygy { trace: Trace },
}

/// What may have a label: an entry or a syzygy by its number, counted from 1, or a claim.
#[derive(Clone, Copy, Debug, PartialEq, Eq)]
pub enum Listed {
    Entry(u32),
    Syzygy(u32),
    Claim,
}
