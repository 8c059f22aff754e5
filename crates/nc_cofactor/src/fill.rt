//! The labels of the entries that are reached from marks, each made once.

ghost use Rattle.nc_algebra.specs.Limits.{max_steps};
ghost use Rattle.nc_cofactor.specs.Expanding.{AreNamedLabels, FailsToSum};
ghost use Rattle.nc_cofactor.specs.Needed.{AreFilled, FailsToFill, IsNewLabel};
ghost use Rattle.nc_reduce.specs.Leads.{LeadsOf};
ghost use Rattle.nc_snapshot.specs.declared.outcome.Listed.TheVariants.{Entry as EntryOf};
ghost use Rattle.nc_theory.specs.States.{Trace as TraceValue};
ghost use Rattle.std.specs.Prelude.{IfErr, IfOk, Some, length, ◌+◌, ◌≡◌, ◌≤◌, ◌⊎◌};

use crate::fault::CofactorFault;
use crate::labels::item_label;
use crate::sweep::traces_from;
use nc_index::Leads;
use nc_module::Module;
use nc_snapshot::{Listed, Snapshot, Trace};
use std::alloc::Global;

/// The label of the next entry by its trace, and zero in the place of an entry that is not reached.
fn next_label(
    alloc: Global,
    snapshot: &Snapshot,
    labels: &[Module],
    slot: Option<Trace>,
    limit: u64,
) -> Result<Module, CofactorFault>
    requires few { length labels.now ≤ max_steps }
    requires named { (t : TraceValue) → slot ≡ Some t
        → AreNamedLabels snapshot.now.problem.problem snapshot.now.handled
        (EntryOf (length labels.now + 1)) t labels.now }
    ensures label { IfOk result (IsNewLabel snapshot.now.problem.problem snapshot.now.handled limit
        (length labels.now + 1) slot) }
    ensures fault { IfErr result (λ e. (e ≡ CofactorFault.OutOfMemory)
        ⊎ ((t : TraceValue) × (slot ≡ Some t)
        × FailsToSum snapshot.now.problem.problem snapshot.now.handled
        (EntryOf (length labels.now + 1)) limit e)) }
{
    let Some(trace) = slot else {
        return Ok(Module::zero(alloc));
    };
    let listed = Listed::Entry(labels.len() as u32 + 1);
    item_label(alloc, snapshot, labels, listed, &trace, limit)
}

/// The labels of the entries that are reached from the marks, in their places and made in that order. What stands in the other
/// places does not matter.
///
/// `TooMany` names the least of these entries whose label has more than `limit` terms.
pub(crate) fn labels_from(
    alloc: Global,
    snapshot: &Snapshot,
    leads: &Leads,
    marks: &mut [bool],
    limit: u64,
) -> Result<Vec<Module>, CofactorFault>
    requires leads { LeadsOf snapshot.now leads.now }
    requires size { length marks.old ≡ length snapshot.now.state.entries }
    ensures labels { IfOk result (λ l. AreFilled snapshot.now.problem.problem snapshot.now.handled
        marks.old limit l.items) }
    ensures fault { IfErr result (FailsToFill snapshot.now.problem.problem snapshot.now.handled
        marks.old limit) }
{
    snapshot.recall_rule();
    let mut stack = traces_from(alloc, snapshot, leads, marks)?;
    let mut labels = Vec::new(alloc);
    while let Some(slot) = stack.pop() {
        match next_label(alloc, snapshot, labels.as_slice(), slot, limit) {
            Ok(label) => labels.push(label)?,
            Err(fault) => return Err(fault),
        }
    }
    Ok(labels)
}
