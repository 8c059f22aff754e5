//! Traces, made again from a signature and the entries with lesser ones.

ghost use Rattle.nc_algebra.specs.Elements.{HasDegree, IsGenerator};
ghost use Rattle.nc_algebra.specs.Monomials.{monomial_of, unit_monomial};
ghost use Rattle.nc_algebra.specs.Polynomials.{Polynomial};
ghost use Rattle.nc_cofactor.specs.Rebuilding.{AreLesser, HasStart, IsStartOver};
ghost use Rattle.nc_cofactor.specs.Traces.{IsListedSignature};
ghost use Rattle.nc_criteria.specs.Multiples.{IsBestWithin};
ghost use Rattle.nc_reduce.specs.Leads.{LeadsOf};
ghost use Rattle.nc_snapshot.specs.Traces.{start_of};
ghost use Rattle.nc_theory.specs.Rebuilding.{Rebuilds};
ghost use Rattle.std.specs.Prelude.{IfOk, Some, length, ◌≢◌, ◌≤◌};

use nc_criteria::{Multiple, best_multiple};
use nc_index::Leads;
use nc_reduce::{Reduced, reduce};
use nc_sig::Sig;
use nc_snapshot::{Snapshot, Start, Trace};
use std::alloc::{AllocError, Global};

/// The best multiple of the first entries.
fn best_of_first(snapshot: &Snapshot, sig: &Sig, entries: u32) -> Multiple
    requires few { entries ≤ length snapshot.now.state.entries }
    requires start { HasStart snapshot.now.problem.problem.setting snapshot.now.state.entries
        (monomial_of sig.now) entries }
    requires other { monomial_of sig.now ≢ unit_monomial sig.now.generator }
    ensures { IsBestWithin snapshot.now.problem.problem.setting snapshot.now.state.entries
        (monomial_of sig.now) 0 entries (Some result) }
{
    match best_multiple(snapshot, sig, 0, entries) {
        Some(best) => best,
        None => unreachable!(),
    }
}

/// What is reduced at the signature over the first entries.
fn start_over(
    alloc: Global,
    snapshot: &Snapshot,
    sig: &Sig,
    entries: u32,
) -> Result<Start, AllocError>
    requires few { entries ≤ length snapshot.now.state.entries }
    requires start { HasStart snapshot.now.problem.problem.setting snapshot.now.state.entries
        (monomial_of sig.now) entries }
    requires generator { IsGenerator snapshot.now.problem.problem.setting sig.now.generator }
    ensures { IfOk result (λ a. IsStartOver snapshot.now.problem.problem.setting
        snapshot.now.state.entries (monomial_of sig.now) entries (start_of a)) }
{
    if sig.is_unit() {
        return Ok(Start::Generator(sig.generator));
    }
    let best = best_of_first(snapshot, sig, entries);
    best.start(alloc, sig)
}

/// The trace that handling the signature over the first entries gives, where these are the ones with lesser signatures.
///
/// The leads are those of all entries: one whose signature is not lesser reduces nothing at this one.
pub fn rebuild(
    alloc: Global,
    snapshot: &Snapshot,
    leads: &Leads,
    sig: &Sig,
    entries: u32,
) -> Result<Trace, AllocError>
    requires leads { LeadsOf snapshot.now leads.now }
    requires degree { HasDegree snapshot.now.problem.problem.setting sig.now }
    requires listed { IsListedSignature snapshot.now.state (monomial_of sig.now) }
    requires lesser { AreLesser snapshot.now.problem.problem.setting snapshot.now.state.entries
        (monomial_of sig.now) entries }
    ensures { IfOk result (λ t. (f : Polynomial)
        × Rebuilds snapshot.now.problem.problem.setting snapshot.now.state.entries
        (monomial_of sig.now) t f) }
{
    snapshot.recall_rule();
    let start = start_over(alloc, snapshot, sig, entries)?;
    let Reduced { poly: _, trace } = reduce(alloc, snapshot, leads, start, sig)?;
    Ok(trace)
}
