//! The bound of a problem, as a search for divisors takes it.

ghost use Rattle.nc_reduce.specs.Limits.{IsLimitOf};
ghost use Rattle.std.specs.Prelude.{IfOk};

use nc_module::Bound;
use nc_sig::Sig;
use nc_snapshot::Snapshot;
use std::alloc::{AllocError, Global};

/// A monomial below which exactly those of the problem's bound lie.
pub(crate) fn limit_of(alloc: Global, snapshot: &Snapshot) -> Result<Sig, AllocError>
    ensures { IfOk result (IsLimitOf snapshot.now.problem.problem) }
{
    let problem = snapshot.problem();
    match problem.bound() {
        Bound::Degree(d) => Ok(Sig::above(alloc, *d)),
        Bound::Below(beta) => beta.copy(),
    }
}
