//! Whole reductions.

ghost use Rattle.nc_algebra.specs.Elements.{HasDegree};
ghost use Rattle.nc_algebra.specs.Monomials.{monomial_of};
ghost use Rattle.nc_algebra.specs.Polynomials.{IsNormal};
ghost use Rattle.nc_algebra.specs.Problems.{IsWithin};
ghost use Rattle.nc_index.specs.Chosen.{IsBelowSig};
ghost use Rattle.nc_reduce.specs.Leads.{LeadsOf};
ghost use Rattle.nc_reduce.specs.Starts.{IsStartAt, start_polynomial};
ghost use Rattle.nc_theory.specs.Usable.{HasSmallWords, IsUsableSignature};
ghost use Rattle.nc_snapshot.specs.Traces.{start_of};
ghost use Rattle.nc_theory.specs.Reductions.{Reduction, ReductionAt};
ghost use Rattle.std.specs.Prelude.{IfOk, ◌≡◌};

use crate::limit::limit_of;
use crate::start::start_poly;
use crate::turn::{Turn, prime_of, take_turn};
use nc_index::Leads;
use nc_poly::{Heap, Poly};
use nc_sig::Sig;
use nc_snapshot::{Snapshot, Start, StepList, Trace};
use std::alloc::{AllocError, Global};

/// What a reduction leaves, in normal form, and how.
#[derive(Drop)]
pub struct Reduced {
    pub poly: Poly,
    pub trace: Trace,
}

/// What is left of a claim, in normal form, and what was subtracted from it.
#[derive(Drop)]
pub struct Rest {
    pub poly: Poly,
    pub steps: StepList,
}

/// Reduces the polynomial by the multiples of the snapshot's entries that have signatures below the bound.
fn reduce_all(
    alloc: Global,
    snapshot: &Snapshot,
    leads: &Leads,
    f: Poly,
    bound: &Sig,
) -> Result<(Poly, StepList), AllocError>
    requires leads { LeadsOf snapshot.now leads.now }
    requires normal { IsNormal snapshot.now.problem.problem.setting.prime f }
    requires small { HasSmallWords snapshot.now.problem.problem.setting f }
    ensures { IfOk result (λ r. Reduction snapshot.now.problem.problem.setting
        snapshot.now.state.entries (IsBelowSig snapshot.now.problem.problem.setting bound.now) f
        r.0 r.1) }
{
    let p = prime_of(snapshot);
    let mut kept = Vec::new(alloc);
    let mut steps = Vec::new(alloc);
    let mut rest = Heap::of(alloc, f)?;
    'turns: while !rest.is_zero() {
        match take_turn(alloc, snapshot, leads, bound, &mut rest)? {
            Turn::Kept(term) => kept.push(term)?,
            Turn::Subtracted(step) => steps.push(step)?,
        }
    }
    let poly = Poly::of_terms(p, kept);
    let steps = StepList::of(steps);
    Ok((poly, steps))
}

/// Reduces the start's polynomial at the signature by the entries of the snapshot: all of its words, the greatest first,
/// each by the earliest entry and at the leftmost place. What is left is not made monic.
///
/// The leads are those of the snapshot's entries. The polynomial stands in a tree, so that a step costs a search in it for
/// each term of the entry.
pub fn reduce(
    alloc: Global,
    snapshot: &Snapshot,
    leads: &Leads,
    start: Start,
    sig: &Sig,
) -> Result<Reduced, AllocError>
    requires leads { LeadsOf snapshot.now leads.now }
    requires degree { HasDegree snapshot.now.problem.problem.setting sig.now }
    requires usable { IsUsableSignature snapshot.now.problem.problem.setting (monomial_of sig.now) }
    requires start { IsStartAt snapshot.now.problem.problem.setting snapshot.now.state.entries
        (monomial_of sig.now) (start_of start) }
    ensures start { IfOk result (λ r. r.trace.start ≡ start_of start) }
    ensures reduction { IfOk result
        (λ r. ReductionAt snapshot.now.problem.problem.setting snapshot.now.state.entries
        (monomial_of sig.now) (start_polynomial snapshot.now.problem.problem.setting
        snapshot.now.state.entries (start_of start)) r.poly r.trace.steps) }
{
    snapshot.recall_rule();
    let f = start_poly(alloc, snapshot, &start)?;
    let (poly, steps) = reduce_all(alloc, snapshot, leads, f, sig)?;
    let trace = Trace { start, steps };
    Ok(Reduced { poly, trace })
}

/// Reduces a claim by the multiples of the snapshot's entries that lie within the problem's bound: all of its words, the
/// greatest first, each by the earliest entry and at the leftmost place.
///
/// A signature does not limit these multiples, as it does those of `reduce`: what is subtracted has a representation within
/// the bound.
pub fn reduce_within(
    alloc: Global,
    snapshot: &Snapshot,
    leads: &Leads,
    claim: &Poly,
) -> Result<Rest, AllocError>
    requires leads { LeadsOf snapshot.now leads.now }
    requires normal { IsNormal snapshot.now.problem.problem.setting.prime claim.now }
    requires small { HasSmallWords snapshot.now.problem.problem.setting claim.now }
    ensures { IfOk result (λ r. Reduction snapshot.now.problem.problem.setting
        snapshot.now.state.entries (IsWithin snapshot.now.problem.problem) claim.now r.poly
        r.steps) }
{
    snapshot.recall_rule();
    let limit = limit_of(alloc, snapshot)?;
    let (poly, steps) = reduce_all(alloc, snapshot, leads, claim.copy()?, &limit)?;
    Ok(Rest { poly, steps })
}
