//! What a reduction begins with.

ghost use Rattle.nc_reduce.specs.Starts.{IsReadable, start_polynomial};
ghost use Rattle.nc_snapshot.specs.Traces.{start_of};
ghost use Rattle.std.specs.Prelude.{IfOk, ◌≡◌};

use nc_poly::Poly;
use nc_snapshot::{Snapshot, Start};
use std::alloc::{AllocError, Global};

/// The polynomial that the start names.
pub(crate) fn start_poly(
    alloc: Global,
    snapshot: &Snapshot,
    start: &Start,
) -> Result<Poly, AllocError>
    requires { IsReadable snapshot.now.problem.problem.setting snapshot.now.state.entries
        (start_of start.now) }
    ensures { IfOk result (λ f. f ≡ start_polynomial snapshot.now.problem.problem.setting
        snapshot.now.state.entries (start_of start.now)) }
{
    match start {
        Start::Generator(number) => snapshot.problem().setting().generator(*number).copy(),
        Start::Multiple {
            left,
            number,
            right,
        } => {
            let f = snapshot.entry(*number).poly();
            f.shifted(alloc, left.letters(), right.letters())
        }
    }
}
