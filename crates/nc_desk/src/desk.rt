//! The desk on one thread.

ghost use Rattle.nc_desk.specs.Desks.{IsLater, MayStep, Waits};
ghost use Rattle.nc_desk.specs.Ends.{IsEndAt, IsEndIfAny};
ghost use Rattle.nc_desk.specs.Steps.{IsStep};
ghost use Rattle.nc_reduce.specs.Leads.{LeadsOf};
ghost use Rattle.nc_theory.specs.EndBases.{AreCanonical, HasBasesAt};
ghost use Rattle.nc_theory.specs.Runs.{opening};
ghost use Rattle.std.specs.Prelude.{IfErr, IfOk, IsTrue, OnErr, OnOk, ◌+◌, ◌<◌, ◌↔◌, ◌≡◌, ◌≤◌};

use crate::finished::{End, Finished};
use crate::step::advance;
use nc_index::Leads;
use nc_module::Problem;
use nc_queue::Waiting;
use nc_snapshot::Snapshot;
use std::alloc::{AllocError, Global};
use std::marker::Model;
use std::sync::Arc;

/// What the desk has counted since it was opened.
///
/// Nothing is claimed yet where each signature is handled by itself.
#[derive(Clone, Copy, Debug, PartialEq, Eq)]
pub struct Counts {
    /// Signatures that were claimed.
    pub claimed: u64,
    /// Claims that were settled as they came back.
    pub settled: u64,
    /// Claims that were dropped.
    pub dropped: u64,
    /// Claims that were abandoned.
    pub abandoned: u64,
    /// Claims that are held.
    pub held: u64,
    /// Signatures that were handled alone.
    pub alone: u64,
}

/// A run of a problem on one thread, between two signatures: what was found, the pairs that its searches read, and the
/// signatures that wait.
#[derive(Drop)]
pub struct Desk {
    alloc: Global,
    snapshot: Snapshot,
    leads: Leads,
    waiting: Waiting,
    window: u32,
}

impl Model for Desk {
    ghost use Rattle.nc_desk.specs.Desks.{DeskValue, IsDesk};

    ghost Value = { DeskValue };

    ghost view = { λ d. record { snapshot = d.snapshot; window = d.window } };

    ghost invariant = { λ d. IsDesk d.snapshot d.leads d.waiting d.window };
}

impl Desk {
    /// The desk at which nothing is handled yet. Of the signatures, those of the generators wait.
    pub fn open(alloc: Global, problem: Arc<Problem>, window: u32) -> Result<Desk, AllocError>
        requires some { 1 ≤ window }
        requires few { window ≤ 4096 }
        ensures snapshot { IfOk result
            (λ d. d.snapshot ≡ record { problem = problem.value; handled = 0; state = opening }) }
        ensures window { IfOk result (λ d. d.window ≡ window) }
    {
        let waiting = Waiting::of(alloc, &problem)?;
        Ok(Desk {
            alloc,
            snapshot: Snapshot::empty(alloc, problem),
            leads: Leads::empty(alloc),
            waiting,
            window,
        })
    }

    /// What was found.
    pub fn snapshot(&self) -> &Snapshot
        ensures { result.now ≡ self.now.snapshot }
    {
        &self.snapshot
    }

    /// The pairs that the searches read.
    pub fn leads(&self) -> &Leads
        ensures { LeadsOf self.now.snapshot result.now }
    {
        &self.leads
    }

    /// Handles the least of the waiting signatures. After `Err` the desk is what it was.
    fn step(&mut self) -> Result<(), AllocError>
        requires waits { Waits self.old.snapshot }
        requires steps { self.old.snapshot.handled < self.old.snapshot.problem.problem.steps }
        ensures step { OnOk result (IsStep self.old.snapshot self.new.snapshot) }
        ensures window { self.new.window ≡ self.old.window }
        ensures unchanged { OnErr result (self.new ≡ self.old) }
    {
        self.snapshot.recall_rule();
        let Some(least) = self.waiting.least() else {
            unreachable!()
        };
        let sig = Arc::try_clone(least)?;
        let (snapshot, leads) = advance(
            self.alloc,
            &self.snapshot,
            &self.leads,
            &mut self.waiting,
            &sig,
        )?;
        self.snapshot = snapshot;
        self.leads = leads;
        self.waiting.take_least();
        Ok(())
    }

    /// Whether some signature waits.
    fn waits(&self) -> bool
        ensures { IsTrue result ↔ Waits self.now.snapshot }
    {
        self.snapshot.recall_rule();
        match self.waiting.least() {
            Some(_) => true,
            None => false,
        }
    }

    /// Whether some signature waits and may be handled.
    fn may_step(&self) -> bool
        ensures { IsTrue result ↔ MayStep self.now.snapshot }
    {
        let problem = self.snapshot.problem();
        if problem.steps() <= self.snapshot.handled() {
            return false;
        }
        self.waits()
    }

    /// The run at its end, where so many signatures were handled before the last ones.
    fn finish(self, begun: u64) -> Finished
        requires ended { ¬ MayStep self.snapshot }
        requires begun { begun ≤ self.snapshot.handled }
        ensures snapshot { result.snapshot ≡ self.snapshot }
        ensures driven { result.driven + begun ≡ self.snapshot.handled }
        ensures bases { HasBasesAt result.snapshot.problem.problem result.snapshot.state
            result.ending }
        ensures canonical { AreCanonical result.snapshot.problem.problem.setting
            result.snapshot.state }
        ensures ended { IsEndAt result.snapshot result.ending }
    {
        self.snapshot.recall_rule();
        self.waiting.recall_rule();
        let Desk {
            alloc: _,
            snapshot,
            leads,
            mut waiting,
            window: _,
        } = self;
        let driven = snapshot.handled() - begun;
        match waiting.take_least() {
            Some(sig) => Finished::of(snapshot, leads, End::Budget(sig), driven),
            None => Finished::of(snapshot, leads, End::Complete, driven),
        }
    }

    /// Handles the waiting signatures, the least one first, until none waits or the steps are used up. After `Err` the
    /// desk comes back with what was handled before memory ran out, and can be driven on.
    pub fn drive(self) -> Result<Finished, (Desk, AllocError)>
        ensures problem { IfOk result (λ f. f.snapshot.problem ≡ self.snapshot.problem) }
        ensures driven { IfOk result (λ f. f.driven + self.snapshot.handled ≡ f.snapshot.handled) }
        ensures bases { IfOk result (λ f. HasBasesAt f.snapshot.problem.problem f.snapshot.state
            f.ending) }
        ensures canonical { IfOk result
            (λ f. AreCanonical f.snapshot.problem.problem.setting f.snapshot.state) }
        ensures ended { IfOk result (λ f. IsEndAt f.snapshot f.ending) }
        ensures later { IfErr result (λ e. IsLater self e.0) }
    {
        let begun = self.snapshot.handled();
        let mut desk = self;
        'steps: while desk.may_step() {
            if let Err(error) = desk.step() {
                return Err((desk, error));
            }
        }
        Ok(desk.finish(begun))
    }

    /// How the run ended, if it has come to its end. Memory is asked for only where the steps are used up and a signature
    /// waits, to share that one.
    pub fn end(&self) -> Result<Option<End>, AllocError>
        ensures ended { IfOk result (IsEndIfAny self.now.snapshot) }
        ensures waits { OnErr result (Waits self.now.snapshot) }
        ensures used { OnErr result (self.now.snapshot.handled
            ≡ self.now.snapshot.problem.problem.steps) }
    {
        let problem = self.snapshot.problem();
        let Some(least) = self.waiting.least() else {
            return Ok(Some(End::Complete));
        };
        if self.snapshot.handled() < problem.steps() {
            return Ok(None);
        }
        let sig = Arc::try_clone(least)?;
        Ok(Some(End::Budget(sig)))
    }

    /// What was counted.
    pub fn counts(&self) -> Counts
        ensures { result ≡ record {
          claimed = 0;
          settled = 0;
          dropped = 0;
          abandoned = 0;
          held = 0;
          alone = self.now.snapshot.handled;
        } }
    {
        Counts {
            claimed: 0,
            settled: 0,
            dropped: 0,
            abandoned: 0,
            held: 0,
            alone: self.snapshot.handled(),
        }
    }
}
