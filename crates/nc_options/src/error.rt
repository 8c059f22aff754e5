//! Why there are no options.

use std::alloc::AllocError;
use thiserror::Error;

/// Why there are no options.
#[derive(Debug, Drop, Error)]
pub enum OptionsError {
    /// The words are no command with its options.
    #[error("usage")]
    Usage,
    /// There was not enough memory to tell.
    #[error(transparent)]
    Memory(AllocError),
}
