//! One turn of a reduction.

ghost use Rattle.nc_algebra.specs.Polynomials.{IsNormal, Polynomial};
ghost use Rattle.nc_reduce.specs.Leads.{LeadsOf};
ghost use Rattle.nc_reduce.specs.Turns.{IsTurn};
ghost use Rattle.nc_theory.specs.Usable.{HasSmallWords};
ghost use Rattle.nc_snapshot.specs.Snapshots.{IsSnapshot};
ghost use Rattle.std.specs.Prelude.{IfOk, [], ◌∷◌, ◌≡◌, ◌≢◌};

use crate::step::{step_at, subtract};
use nc_field::Prime;
use nc_index::{Leads, leads_law};
use nc_poly::{Heap, Term};
use nc_sig::Sig;
use nc_snapshot::{Snapshot, Step};
use std::alloc::{AllocError, Global};

/// What was done with the greatest word.
#[derive(Drop)]
pub(crate) enum Turn {
    Kept(Term),
    Subtracted(Step),
}

/// The prime of the snapshot's problem.
pub(crate) fn prime_of(snapshot: &Snapshot) -> Prime
    ensures prime { result ≡ snapshot.now.problem.problem.setting.prime }
    ensures snapshot { IsSnapshot snapshot.now }
{
    snapshot.problem().setting().prime()
}

/// Takes the leading term out.
fn take_lead(rest: &mut Heap) -> Term
    requires { rest.old ≢ [] }
    ensures { rest.old ≡ result ∷ rest.new }
{
    match rest.take_greatest() {
        Some(term) => term,
        None => unreachable!(),
    }
}

/// Keeps the greatest word, or subtracts the multiple of the divisor that the leads give. The multiples have signatures below
/// the bound, which is any monomial with any degree beside it.
pub(crate) fn take_turn(
    alloc: Global,
    snapshot: &Snapshot,
    leads: &Leads,
    bound: &Sig,
    rest: &mut Heap,
) -> Result<Turn, AllocError>
    requires leads { LeadsOf snapshot.now leads.now }
    requires normal { IsNormal snapshot.now.problem.problem.setting.prime rest.old }
    requires some { rest.old ≢ [] }
    requires small { HasSmallWords snapshot.now.problem.problem.setting rest.old }
    ensures turn { IfOk result (IsTurn snapshot.now.problem.problem.setting
        snapshot.now.state.entries bound.now rest.old rest.new) }
{
    leads_law();
    let p = prime_of(snapshot);
    let Some((word, c)) = rest.greatest() else {
        unreachable!()
    };
    let Some(hit) = leads.first_regular(word.letters(), bound) else {
        return Ok(Turn::Kept(take_lead(rest)));
    };
    let divisor = snapshot.entry(hit.number);
    let step = step_at(alloc, p, *c, word, divisor, hit)?;
    subtract(alloc, p, &step, divisor.poly(), rest)?;
    Ok(Turn::Subtracted(step))
}
