//! The items of a run, whose letters have names.

ghost use Rattle.nc_algebra.specs.Monomials.{monomial_of};
ghost use Rattle.nc_report.specs.Letters.{IsMonomialNamed};
ghost use Rattle.nc_snapshot.specs.Snapshots.{entry_of, syzygy_of};
ghost use Rattle.std.specs.Prelude.{All, Some, length, slice_get, ◌-◌, ◌<◌, ◌≡◌, ◌≤◌};

use nc_module::Name;
use nc_snapshot::{Entry, Snapshot, Syzygy};

/// The names of the letters.
pub fn names_of(snapshot: &Snapshot) -> &[Name]
    ensures { result.now ≡ snapshot.now.problem.alphabet.names }
{
    snapshot.problem().setting().names()
}

/// The entry with this number, whose letters have names.
pub(crate) fn entry_at(snapshot: &Snapshot, n: u32) -> &Entry
    requires some { 1 ≤ n }
    requires within { n ≤ length snapshot.now.state.entries }
    ensures entry { slice_get snapshot.now.state.entries (n - 1) ≡ Some (entry_of result.now) }
    ensures signature { IsMonomialNamed (length snapshot.now.problem.alphabet.names)
        (monomial_of result.now.sig) }
    ensures words { All (λ t. All (λ x. x.index < length snapshot.now.problem.alphabet.names)
        t.key)
        result.now.polynomial }
{
    snapshot.recall_rule();
    snapshot.entry(n)
}

/// The syzygy with this number, whose letters have names.
pub(crate) fn syzygy_at(snapshot: &Snapshot, n: u32) -> &Syzygy
    requires some { 1 ≤ n }
    requires within { n ≤ length snapshot.now.state.syzygies }
    ensures syzygy { slice_get snapshot.now.state.syzygies (n - 1) ≡ Some (syzygy_of result.now) }
    ensures named { IsMonomialNamed (length snapshot.now.problem.alphabet.names)
        (monomial_of result.now) }
{
    snapshot.recall_rule();
    snapshot.syzygy(n)
}
