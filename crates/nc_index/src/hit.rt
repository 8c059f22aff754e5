//! What a search finds.

/// A pair, and a place of its word.
#[derive(Clone, Copy, Debug, PartialEq, Eq)]
pub struct Hit {
    /// The pair's number, counted from 1.
    pub number: u32,
    /// How many letters stand before its word.
    pub place: usize,
}
