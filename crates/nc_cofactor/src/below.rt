//! The entries with lesser signatures.

ghost use Rattle.nc_algebra.specs.Elements.{HasDegree};
ghost use Rattle.nc_algebra.specs.Monomials.{monomial_of};
ghost use Rattle.nc_cofactor.specs.Rebuilding.{AreLesser};

use nc_sig::Sig;
use nc_snapshot::Snapshot;

/// How many entries have a signature below this one; these are the first ones, since signatures ascend.
pub(crate) fn entries_below(snapshot: &Snapshot, sig: &Sig) -> u32
    requires { HasDegree snapshot.now.problem.problem.setting sig.now }
    ensures { AreLesser snapshot.now.problem.problem.setting snapshot.now.state.entries
        (monomial_of sig.now) result }
{
    snapshot.recall_rule();
    let mut low = 0;
    let mut high = snapshot.entries();
    'halves: while low < high {
        let middle = low + (high - low) / 2;
        let entry: &Sig = snapshot.entry(middle + 1).sig();
        if entry.cmp(sig).is_lt() {
            low = middle + 1;
        } else {
            high = middle;
        }
    }
    low
}
