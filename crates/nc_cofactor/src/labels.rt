//! The labels of entries, each made once.

ghost use Rattle.nc_cofactor.specs.Expanding.{AreNamedLabels, FailsToLabel, FailsToLabelSyzygies, FailsToSum};
ghost use Rattle.nc_cofactor.specs.Labels.{AreLabels, AreSyzygyLabels, HasLabel};
ghost use Rattle.nc_reduce.specs.Leads.{LeadsOf};
ghost use Rattle.nc_snapshot.specs.declared.outcome.Listed.TheVariants.{Entry as EntryOf, Syzygy as SyzygyOf};
ghost use Rattle.std.specs.Prelude.{All, IfErr, IfOk, Some, length, slice_get, ◌+◌, ◌-◌, ◌≡◌, ◌≤◌};

use crate::fault::CofactorFault;
use crate::label::trace_sum;
use crate::trace::trace_of;
use nc_index::Leads;
use nc_module::Module;
use nc_snapshot::{Listed, Snapshot, Trace};
use std::alloc::Global;
use std::marker::Model;

/// The label of an item by its trace. It is looked at when it is done: a sum on the way may have more terms.
pub(crate) fn item_label(
    alloc: Global,
    snapshot: &Snapshot,
    labels: &[Module],
    listed: Listed,
    trace: &Trace,
    limit: u64,
) -> Result<Module, CofactorFault>
    requires { AreNamedLabels snapshot.now.problem.problem snapshot.now.handled listed trace.now
        labels.now }
    ensures label { IfOk result (HasLabel snapshot.now.problem.problem snapshot.now.handled listed) }
    ensures few { IfOk result (λ m. length m ≤ limit) }
    ensures fault { IfErr result (FailsToSum snapshot.now.problem.problem snapshot.now.handled
        listed limit) }
{
    let problem = snapshot.problem();
    let label = trace_sum(alloc, problem.setting(), labels, trace)?;
    let terms = label.terms().len() as u64;
    if terms > limit {
        return Err(CofactorFault::TooMany { listed, terms });
    }
    Ok(label)
}

/// The label of an entry, where those before it stand in their places.
fn entry_label(
    alloc: Global,
    snapshot: &Snapshot,
    leads: &Leads,
    labels: &[Module],
    number: u32,
    limit: u64,
) -> Result<Module, CofactorFault>
    requires leads { LeadsOf snapshot.now leads.now }
    requires within { number ≤ length snapshot.now.state.entries }
    requires labels { AreLabels snapshot.now.problem.problem snapshot.now.handled labels.now }
    requires next { number ≡ length labels.now + 1 }
    ensures label { IfOk result (HasLabel snapshot.now.problem.problem snapshot.now.handled
        (EntryOf number)) }
    ensures few { IfOk result (λ m. length m ≤ limit) }
    ensures fault { IfErr result (FailsToSum snapshot.now.problem.problem snapshot.now.handled
        (EntryOf number) limit) }
{
    snapshot.recall_rule();
    let listed = Listed::Entry(number);
    let trace = trace_of(alloc, snapshot, leads, listed)?;
    item_label(alloc, snapshot, labels, listed, &trace, limit)
}

/// The labels of the entries of a snapshot, that of entry 1 first. Each is a module element, and is made once.
#[derive(Drop)]
pub struct Labels {
    kept: Vec<Module>,
}

impl Model for Labels {
    ghost use Rattle.nc_algebra.specs.Monomials.{Sig};
    ghost use Rattle.nc_algebra.specs.Sums.{Term};
    ghost use Rattle.std.specs.Prelude.{List};

    ghost Value = { List (List (Term Sig)) };

    ghost view = { λ l. l.kept.items };
}

impl Labels {
    /// The labels of all entries. Where one has more than `limit` terms, `TooMany` names the least such entry.
    ///
    /// The traces are made again one after the other, so only the labels take memory for long.
    pub fn of(
        alloc: Global,
        snapshot: &Snapshot,
        leads: &Leads,
        limit: u64,
    ) -> Result<Labels, CofactorFault>
        requires leads { LeadsOf snapshot.now leads.now }
        ensures labels { IfOk result (AreLabels snapshot.now.problem.problem snapshot.now.handled) }
        ensures all { IfOk result (λ l. length l ≡ length snapshot.now.state.entries) }
        ensures few { IfOk result (All (λ m. length m ≤ limit)) }
        ensures fault { IfErr result (FailsToLabel snapshot.now.problem.problem snapshot.now.handled
            limit) }
    {
        snapshot.recall_rule();
        let mut kept = Vec::new(alloc);
        for i in 0..snapshot.entries() {
            match entry_label(alloc, snapshot, leads, kept.as_slice(), i + 1, limit) {
                Ok(label) => kept.push(label)?,
                Err(fault) => return Err(fault),
            }
        }
        Ok(Labels { kept })
    }

    /// The label of the entry with this number; they are counted from 1.
    pub fn entry(&self, number: u32) -> &Module
        requires some { 1 ≤ number }
        requires within { number ≤ length self.now }
        ensures { slice_get self.now (number - 1) ≡ Some result.now }
    {
        &self.kept[number as usize - 1]
    }

    /// The labels of all syzygies, that of syzygy 1 first. Where one has more than `limit` terms, `TooMany` names the least
    /// such syzygy.
    pub fn syzygies(
        &self,
        alloc: Global,
        snapshot: &Snapshot,
        leads: &Leads,
        limit: u64,
    ) -> Result<Vec<Module>, CofactorFault>
        requires leads { LeadsOf snapshot.now leads.now }
        requires labels { AreLabels snapshot.now.problem.problem snapshot.now.handled self.now }
        requires all { length self.now ≡ length snapshot.now.state.entries }
        ensures labels { IfOk result (λ l. AreSyzygyLabels snapshot.now.problem.problem
            snapshot.now.handled l.items) }
        ensures all { IfOk result (λ l. length l.items ≡ length snapshot.now.state.syzygies) }
        ensures few { IfOk result (λ l. All (λ m. length m ≤ limit) l.items) }
        ensures fault { IfErr result (FailsToLabelSyzygies snapshot.now.problem.problem
            snapshot.now.handled limit) }
    {
        snapshot.recall_rule();
        let mut kept = Vec::new(alloc);
        for i in 0..snapshot.syzygies() {
            match self.syzygy(alloc, snapshot, leads, i + 1, limit) {
                Ok(label) => kept.push(label)?,
                Err(fault) => return Err(fault),
            }
        }
        Ok(kept)
    }

    /// The label of the syzygy with this number, and `TooMany` where it has more than `limit` terms.
    fn syzygy(
        &self,
        alloc: Global,
        snapshot: &Snapshot,
        leads: &Leads,
        number: u32,
        limit: u64,
    ) -> Result<Module, CofactorFault>
        requires leads { LeadsOf snapshot.now leads.now }
        requires some { 1 ≤ number }
        requires within { number ≤ length snapshot.now.state.syzygies }
        requires labels { AreLabels snapshot.now.problem.problem snapshot.now.handled self.now }
        requires all { length self.now ≡ length snapshot.now.state.entries }
        ensures label { IfOk result (HasLabel snapshot.now.problem.problem snapshot.now.handled
            (SyzygyOf number)) }
        ensures few { IfOk result (λ m. length m ≤ limit) }
        ensures fault { IfErr result (FailsToSum snapshot.now.problem.problem snapshot.now.handled
            (SyzygyOf number) limit) }
    {
        snapshot.recall_rule();
        let listed = Listed::Syzygy(number);
        let trace = trace_of(alloc, snapshot, leads, listed)?;
        item_label(alloc, snapshot, self.kept.as_slice(), listed, &trace, limit)
    }
}
