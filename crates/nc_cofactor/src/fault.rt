//! Why a label was not given.

ghost use Rattle.nc_cofactor.specs.declared.fault.CofactorFault.TheVariants.{OutOfMemory};
ghost use Rattle.std.specs.Prelude.{◌≡◌};

use nc_snapshot::Listed;
use std::alloc::{AllocError, AllocFailed};
use thiserror::Error;

/// Why a label was not given.
#[derive(Debug, Drop, Error)]
pub enum CofactorFault {
    /// There was not enough memory. This says nothing about the label.
    #[error("out of memory")]
    OutOfMemory,
    /// The label of this item has so many terms, more than the limit.
    #[error("{listed:?} has {terms} terms")]
    TooMany { listed: Listed, terms: u64 },
}

impl From<AllocError> for CofactorFault {
    ghost from_gives = { λ _ e. e ≡ OutOfMemory };

    fn from(_e: AllocError) -> CofactorFault {
        CofactorFault::OutOfMemory
    }
}

impl<T: Drop> From<AllocFailed<T>> for CofactorFault {
    ghost from_gives = { λ _ e. e ≡ OutOfMemory };

    fn from(_e: AllocFailed<T>) -> CofactorFault {
        CofactorFault::OutOfMemory
    }
}
