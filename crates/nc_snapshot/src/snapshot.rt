//! Snapshots.

ghost use Rattle.nc_algebra.specs.Elements.{HasDegree, IsLess};
ghost use Rattle.nc_algebra.specs.Limits.{max_steps};
ghost use Rattle.nc_algebra.specs.Monomials.{Monomial, monomial_of};
ghost use Rattle.nc_algebra.specs.Problems.{IsProblem};
ghost use Rattle.nc_theory.specs.EndBases.{AreCanonical};
ghost use Rattle.nc_theory.specs.Untraced.{IsNextOfRun, untraced};
ghost use Rattle.nc_snapshot.specs.Leads.{IsLeadAt};
ghost use Rattle.nc_snapshot.specs.Outcomes.{outcome_of};
ghost use Rattle.nc_snapshot.specs.Snapshots.{IsSnapshot, entry_of, syzygy_of};
ghost use Rattle.nc_theory.specs.Runs.{BringsAmbiguity, Handles, opening, state_after};
ghost use Rattle.std.specs.Prelude.{IfErr, IfOk, OnErr, OnOk, Some, length, slice_get, ◌+◌, ◌-◌, ◌<◌, ◌≡◌, ◌≤◌};

use crate::entry::{Entry, Syzygy};
use crate::found::Found;
use crate::lead::Lead;
use crate::outcome::Outcome;
use nc_module::Problem;
use nc_sig::Sig;
use std::alloc::{AllocError, AllocFailed, Global};
use std::marker::Model;
use std::sync::Arc;

/// How many items there are, where a run has at most as many as steps.
fn count_of(items: usize) -> u32
    requires { items ≤ max_steps }
    ensures count { result ≡ items }
    ensures few { result ≤ max_steps }
{
    items as u32
}

/// What the sequential run of a problem has found after so many handled signatures: its entries and its syzygies in
/// their order, each without its trace, and how many signatures were covered or settled.
///
/// Entries and syzygies stand in chunks that snapshots share, so a snapshot is shared without copying what it holds.
#[derive(Drop)]
pub struct Snapshot {
    problem: Arc<Problem>,
    handled: u64,
    found: Found,
}

impl Model for Snapshot {
    ghost use Rattle.nc_snapshot.specs.Snapshots.{HasDegrees, IsSnapshot, Snapshot, state_of};

    ghost Value = { Snapshot };

    ghost view = { λ s. record {
      problem = s.problem.value;
      handled = s.handled;
      state = state_of s.found;
    } };

    ghost invariant = { λ s. IsSnapshot (record {
      problem = s.problem.value;
      handled = s.handled;
      state = state_of s.found;
    })
        × HasDegrees s.problem.value.problem.setting s.found };
}

impl Snapshot {
    /// The snapshot of a problem of which nothing is handled. No memory is taken.
    pub fn empty(alloc: Global, problem: Arc<Problem>) -> Snapshot
        ensures { result ≡ record { problem = problem.value; handled = 0; state = opening } }
    {
        problem.recall_rule();
        Snapshot {
            problem,
            handled: 0,
            found: Found::empty(alloc),
        }
    }

    /// Makes known to the prover what always holds of a snapshot. It does nothing else.
    pub fn recall_rule(&self)
        ensures snapshot { IsSnapshot self.now }
    {
        let _ = &self.problem;
    }

    /// The problem.
    pub fn problem(&self) -> &Arc<Problem>
        ensures problem { result.now.value ≡ self.now.problem }
        ensures snapshot { IsSnapshot self.now }
    {
        &self.problem
    }

    /// How many signatures were handled.
    pub fn handled(&self) -> u64
        ensures { result ≡ self.now.handled }
    {
        self.handled
    }

    /// How many signatures were covered.
    pub fn covered(&self) -> u64
        ensures { result ≡ self.now.state.covered }
    {
        self.found.covered()
    }

    /// How many signatures were settled.
    pub fn settled(&self) -> u64
        ensures { result ≡ self.now.state.settled }
    {
        self.found.settled()
    }

    /// The number of entries.
    pub fn entries(&self) -> u32
        ensures count { result ≡ length self.now.state.entries }
        ensures few { result ≤ max_steps }
    {
        count_of(self.found.entries())
    }

    /// The number of syzygies.
    pub fn syzygies(&self) -> u32
        ensures count { result ≡ length self.now.state.syzygies }
        ensures few { result ≤ max_steps }
    {
        count_of(self.found.syzygies())
    }

    /// The entry with this number; they are counted from 1.
    pub fn entry(&self, n: u32) -> &Entry
        requires some { 1 ≤ n }
        requires within { n ≤ length self.now.state.entries }
        ensures entry { slice_get self.now.state.entries (n - 1) ≡ Some (entry_of result.now) }
        ensures degree { HasDegree self.now.problem.problem.setting result.now.sig }
    {
        self.found.entry(n as usize - 1)
    }

    /// The leading word of the entry with this number, and its signature.
    pub fn lead(&self, n: u32) -> Lead<'_>
        requires some { 1 ≤ n }
        requires within { n ≤ length self.now.state.entries }
        ensures { IsLeadAt self.now.problem.problem.setting self.now.state.entries (n - 1) result }
    {
        self.recall_rule();
        let entry = self.entry(n);
        Lead {
            word: entry.lead(),
            sig: entry.sig(),
        }
    }

    /// The syzygy with this number; they are counted from 1.
    pub fn syzygy(&self, n: u32) -> &Syzygy
        requires some { 1 ≤ n }
        requires within { n ≤ length self.now.state.syzygies }
        ensures syzygy { slice_get self.now.state.syzygies (n - 1) ≡ Some (syzygy_of result.now) }
        ensures degree { HasDegree self.now.problem.problem.setting result.now }
    {
        self.found.syzygy(n as usize - 1)
    }

    /// An equal snapshot. No entry and no syzygy is copied, only the list of their chunks.
    pub fn share(&self) -> Result<Snapshot, AllocError>
        ensures { IfOk result (λ s. s ≡ self.now) }
    {
        let problem = Arc::try_clone(&self.problem)?;
        let found = self.found.share()?;
        Ok(Snapshot {
            problem,
            handled: self.handled,
            found,
        })
    }

    /// Takes what became of the next signature: its trace is given up, a new entry or syzygy is listed, and the
    /// signature is counted. After want of memory the snapshot is as it was, and the outcome comes back.
    pub fn append(&mut self, sig: Arc<Sig>, outcome: Outcome) -> Result<(), AllocFailed<Outcome>>
        requires degree { HasDegree self.old.problem.problem.setting sig.value }
        requires next { IsNextOfRun self.old.problem.problem self.old.handled self.old.state
            (monomial_of sig.value) }
        requires steps { self.old.handled < self.old.problem.problem.steps }
        requires outcome { Handles self.old.problem.problem.setting self.old.state
            (monomial_of sig.value) (outcome_of outcome) }
        ensures problem { self.new.problem ≡ self.old.problem }
        ensures handled { OnOk result (self.new.handled ≡ self.old.handled + 1) }
        ensures state { OnOk result (self.new.state ≡ untraced
            (state_after self.old.state (monomial_of sig.value) (outcome_of outcome))) }
        ensures canonical { OnOk result
            (AreCanonical self.new.problem.problem.setting self.new.state) }
        ensures ascent { OnOk result ((ρ : Monomial)
            → BringsAmbiguity self.old.problem.problem.setting self.old.state
            (monomial_of sig.value) (outcome_of outcome) ρ
            → IsLess self.old.problem.problem.setting (monomial_of sig.value) ρ) }
        ensures unchanged { OnErr result (self.new ≡ self.old) }
        ensures returned { IfErr result (λ e. outcome_of e.value ≡ outcome_of outcome) }
    {
        self.found.add(sig, outcome)?;
        self.handled += 1;
        Ok(())
    }
}
