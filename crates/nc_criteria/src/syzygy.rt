//! Syzygy signatures that divide a signature.

ghost use Rattle.nc_algebra.specs.Monomials.{monomial_of};
ghost use Rattle.nc_criteria.specs.Pairs.{IsListedBelow, IsTrivialBelow, IsTrivialFrom, first_other};
ghost use Rattle.nc_theory.specs.Newer.{IsNewlyCovered};
ghost use Rattle.nc_theory.specs.Syzygies.{Covered};
ghost use Rattle.std.specs.Prelude.{IsTrue, length, ◌-◌, ◌≡◌, ◌↔◌, ◌≤◌};

use crate::trivial::is_trivial;
use nc_sig::Sig;
use nc_snapshot::Snapshot;

/// Whether the signature of a listed syzygy behind the first `after` divides this one.
fn is_listed(snapshot: &Snapshot, sig: &Sig, after: u32) -> bool
    ensures { IsTrue result ↔ IsListedBelow snapshot.now.state.syzygies (monomial_of sig.now)
        after }
{
    for index in after..snapshot.syzygies() {
        if sig.divide(snapshot.syzygy(index + 1).sig()).is_some() {
            return true;
        }
    }
    false
}

/// Whether a trivial syzygy divides the signature whose greater side has the signature of the entry with this number. The
/// other entry is one behind the first `from`.
fn is_trivial_at(snapshot: &Snapshot, sig: &Sig, number: u32, from: u32) -> bool
    requires some { 1 ≤ number }
    requires within { number ≤ length snapshot.now.state.entries }
    ensures { IsTrue result ↔ IsTrivialFrom snapshot.now.problem.problem.setting
        snapshot.now.state.entries (monomial_of sig.now) from (number - 1) }
{
    let own = snapshot.lead(number);
    let Some((before, behind)) = sig.divide(own.sig) else {
        return false;
    };
    for index in from..snapshot.entries() {
        if is_trivial(&own, &snapshot.lead(index + 1), before, behind) {
            return true;
        }
    }
    false
}

/// From which entry on others are tried beside this one, so that one of the two is behind the first `after`.
fn first_other(index: u32, after: u32) -> u32
    ensures { result ≡ first_other after index }
{
    if index < after { after } else { 0 }
}

/// Whether a trivial syzygy of two entries, one of them behind the first `after`, divides the signature.
fn is_trivial_below(snapshot: &Snapshot, sig: &Sig, after: u32) -> bool
    ensures { IsTrue result ↔ IsTrivialBelow snapshot.now.problem.problem.setting
        snapshot.now.state.entries (monomial_of sig.now) after }
{
    for index in 0..snapshot.entries() {
        if is_trivial_at(snapshot, sig, index + 1, first_other(index, after)) {
            return true;
        }
    }
    false
}

/// Whether a syzygy signature divides the signature that the snapshot did not have when it had so many entries and so many
/// syzygies: that of a newer listed syzygy, or a trivial one that needs a newer entry. No memory is taken.
pub fn syzygy_divides_after(snapshot: &Snapshot, entries: u32, syzygies: u32, sig: &Sig) -> bool
    ensures { IsTrue result ↔ IsNewlyCovered snapshot.now.problem.problem.setting
        snapshot.now.state entries syzygies (monomial_of sig.now) }
{
    is_listed(snapshot, sig, syzygies) || is_trivial_below(snapshot, sig, entries)
}

/// Whether a syzygy signature of the snapshot divides the signature: that of a listed syzygy, or a trivial one. No memory is
/// taken.
pub fn syzygy_divides(snapshot: &Snapshot, sig: &Sig) -> bool
    ensures { IsTrue result ↔ Covered snapshot.now.problem.problem.setting snapshot.now.state
        (monomial_of sig.now) }
{
    syzygy_divides_after(snapshot, 0, 0, sig)
}
