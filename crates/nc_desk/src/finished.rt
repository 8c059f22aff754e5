//! The end of a run.

ghost use Rattle.nc_desk.specs.Ends.{HasEndDegree, IsEndAt, IsFinishedRun, end_of};
ghost use Rattle.nc_reduce.specs.Leads.{LeadsOf};
ghost use Rattle.std.specs.Prelude.{◌≡◌};

use nc_index::Leads;
use nc_sig::Sig;
use nc_snapshot::Snapshot;
use std::marker::Model;
use std::sync::Arc;

/// How a run ends.
#[derive(Drop)]
pub enum End {
    /// No signature waits.
    Complete,
    /// The steps are used up, and this signature is the next one.
    Budget(Arc<Sig>),
}

/// A run of a problem on one thread that came to its end.
#[derive(Drop)]
pub struct Finished {
    snapshot: Snapshot,
    leads: Leads,
    end: End,
    driven: u64,
}

impl Model for Finished {
    ghost use Rattle.nc_desk.specs.Ends.{Finished, IsFinishedRun, end_of};

    ghost Value = { Finished };

    ghost view = { λ f. record { snapshot = f.snapshot; ending = end_of f.end; driven = f.driven } };

    ghost invariant = { λ f. IsFinishedRun f.snapshot f.leads f.end };
}

impl Finished {
    /// The run that ends so, after so many signatures of which the last ones were driven.
    pub(crate) fn of(snapshot: Snapshot, leads: Leads, end: End, driven: u64) -> Finished
        requires { IsFinishedRun snapshot leads end }
        ensures { result ≡ record { snapshot = snapshot; ending = end_of end; driven = driven } }
    {
        Finished {
            snapshot,
            leads,
            end,
            driven,
        }
    }

    /// Makes known to the prover what always holds of a finished run. It does nothing else.
    pub fn recall_rule(&self)
        ensures ended { IsEndAt self.now.snapshot self.now.ending }
    {
        let _ = &self.snapshot;
    }

    /// What was found.
    pub fn snapshot(&self) -> &Snapshot
        ensures snapshot { result.now ≡ self.now.snapshot }
        ensures ended { IsEndAt self.now.snapshot self.now.ending }
    {
        &self.snapshot
    }

    /// The pairs that searches among its entries read.
    pub fn leads(&self) -> &Leads
        ensures { LeadsOf self.now.snapshot result.now }
    {
        &self.leads
    }

    /// How it ended.
    pub fn end(&self) -> &End
        ensures end { end_of result.now ≡ self.now.ending }
        ensures degree { HasEndDegree self.now.snapshot.problem.problem.setting result.now }
    {
        &self.end
    }

    /// How many signatures were handled by the call that gave this.
    pub fn driven(&self) -> u64
        ensures { result ≡ self.now.driven }
    {
        self.driven
    }
}
