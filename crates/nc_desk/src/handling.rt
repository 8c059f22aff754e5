//! What becomes of a signature.

ghost use Rattle.nc_algebra.specs.Elements.{HasDegree, IsGenerator};
ghost use Rattle.nc_algebra.specs.Monomials.{monomial_of, unit_monomial};
ghost use Rattle.nc_criteria.specs.Multiples.{IsBestWithin};
ghost use Rattle.nc_reduce.specs.Leads.{LeadsOf};
ghost use Rattle.nc_theory.specs.Outcomes.{outcome_after};
ghost use Rattle.nc_theory.specs.Usable.{IsUsableSignature};
ghost use Rattle.nc_snapshot.specs.Outcomes.{outcome_of};
ghost use Rattle.nc_theory.specs.Runs.{Handles, IsCandidate};
ghost use Rattle.nc_theory.specs.Syzygies.{Covered};
ghost use Rattle.std.specs.Prelude.{IfOk, Some, length, ◌≡◌, ◌≢◌};

use crate::multiple::{best_at, is_reducible, leading_word};
use nc_criteria::{Multiple, best_multiple_law, syzygy_divides};
use nc_index::Leads;
use nc_reduce::{Reduced, reduce};
use nc_sig::Sig;
use nc_snapshot::{Outcome, Snapshot, Start};
use std::alloc::{AllocError, Global};

/// The outcome that a reduction makes: a syzygy where nothing is left.
fn outcome_from(reduced: Reduced) -> Outcome
    ensures { outcome_of result ≡ outcome_after reduced.trace.start reduced.poly reduced.trace.steps }
{
    let Reduced { poly, trace } = reduced;
    if poly.is_zero() {
        Outcome::Syzygy { trace }
    } else {
        Outcome::Entry { poly, trace }
    }
}

/// What becomes of the signature of a generator that nothing covers.
fn from_generator(
    alloc: Global,
    snapshot: &Snapshot,
    leads: &Leads,
    sig: &Sig,
) -> Result<Outcome, AllocError>
    requires leads { LeadsOf snapshot.now leads.now }
    requires degree { HasDegree snapshot.now.problem.problem.setting sig.now }
    requires usable { IsUsableSignature snapshot.now.problem.problem.setting (monomial_of sig.now) }
    requires generator { IsGenerator snapshot.now.problem.problem.setting sig.now.generator }
    requires unit { monomial_of sig.now ≡ unit_monomial sig.now.generator }
    requires uncovered { ¬ Covered snapshot.now.problem.problem.setting snapshot.now.state
        (monomial_of sig.now) }
    ensures { IfOk result (λ o. Handles snapshot.now.problem.problem.setting snapshot.now.state
        (monomial_of sig.now) (outcome_of o)) }
{
    let start = Start::Generator(sig.generator);
    let reduced = reduce(alloc, snapshot, leads, start, sig)?;
    Ok(outcome_from(reduced))
}

/// What becomes of another signature that nothing covers and that has this best multiple.
fn from_multiple(
    alloc: Global,
    snapshot: &Snapshot,
    leads: &Leads,
    sig: &Sig,
    best: Multiple,
) -> Result<Outcome, AllocError>
    requires leads { LeadsOf snapshot.now leads.now }
    requires degree { HasDegree snapshot.now.problem.problem.setting sig.now }
    requires usable { IsUsableSignature snapshot.now.problem.problem.setting (monomial_of sig.now) }
    requires other { monomial_of sig.now ≢ unit_monomial sig.now.generator }
    requires uncovered { ¬ Covered snapshot.now.problem.problem.setting snapshot.now.state
        (monomial_of sig.now) }
    requires best { IsBestWithin snapshot.now.problem.problem.setting snapshot.now.state.entries
        (monomial_of sig.now) 0 (length snapshot.now.state.entries) (Some best) }
    ensures { IfOk result (λ o. Handles snapshot.now.problem.problem.setting snapshot.now.state
        (monomial_of sig.now) (outcome_of o)) }
{
    best_multiple_law();
    snapshot.recall_rule();
    let word = leading_word(alloc, snapshot, sig, &best)?;
    if !is_reducible(snapshot, leads, sig, &word) {
        return Ok(Outcome::Settled {
            number: best.number,
        });
    }
    let start = best.start(alloc, sig)?;
    let reduced = reduce(alloc, snapshot, leads, start, sig)?;
    Ok(outcome_from(reduced))
}

/// What becomes of a signature that is a candidate of the snapshot: covered where a syzygy signature divides it; else a
/// generator is reduced at its own signature, and at another one the best multiple, unless nothing reduces that one's
/// leading word: then its entry settles the signature. What a reduction leaves is an entry, and a syzygy where that is zero.
///
/// The leads are those of the snapshot's entries. Memory is taken for the words of the best multiple and for a reduction.
pub fn handle(
    alloc: Global,
    snapshot: &Snapshot,
    leads: &Leads,
    sig: &Sig,
) -> Result<Outcome, AllocError>
    requires leads { LeadsOf snapshot.now leads.now }
    requires degree { HasDegree snapshot.now.problem.problem.setting sig.now }
    requires candidate { IsCandidate snapshot.now.problem.problem snapshot.now.state
        (monomial_of sig.now) }
    ensures { IfOk result (λ o. Handles snapshot.now.problem.problem.setting snapshot.now.state
        (monomial_of sig.now) (outcome_of o)) }
{
    snapshot.recall_rule();
    if syzygy_divides(snapshot, sig) {
        return Ok(Outcome::Covered);
    }
    if sig.is_unit() {
        return from_generator(alloc, snapshot, leads, sig);
    }
    let best = best_at(snapshot, sig);
    from_multiple(alloc, snapshot, leads, sig, best)
}
