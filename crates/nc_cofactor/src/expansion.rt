//! The label of one item, from those that it needs.

ghost use Rattle.nc_cofactor.specs.Expanding.{FailsToExpand, IsExpanded};
ghost use Rattle.nc_cofactor.specs.Traces.{IsListed};
ghost use Rattle.nc_reduce.specs.Leads.{LeadsOf};
ghost use Rattle.std.specs.Prelude.{IfErr, IfOk, ◌≡◌};

use crate::fault::CofactorFault;
use crate::fill::labels_from;
use crate::labels::item_label;
use crate::sweep::{mark, no_marks};
use crate::trace::trace_of;
use nc_index::Leads;
use nc_module::Module;
use nc_snapshot::{Listed, Snapshot};
use std::alloc::Global;

/// The label of an item, where no label that counts for it has more than `limit` terms. Only the entries that it needs
/// get labels, each once and in their order.
///
/// `TooMany` names the least of these entries whose label has more terms, and where there is none the item itself. Each
/// label is looked at when it is done.
pub fn expand(
    alloc: Global,
    snapshot: &Snapshot,
    leads: &Leads,
    listed: Listed,
    limit: u64,
) -> Result<Module, CofactorFault>
    requires leads { LeadsOf snapshot.now leads.now }
    requires listed { IsListed snapshot.now.state listed }
    ensures label { IfOk result (IsExpanded snapshot.now.problem.problem snapshot.now.handled listed
        limit) }
    ensures fault { IfErr result (FailsToExpand snapshot.now.problem.problem snapshot.now.handled
        listed limit) }
{
    snapshot.recall_rule();
    let trace = trace_of(alloc, snapshot, leads, listed)?;
    let mut kept = no_marks(alloc, snapshot.entries())?;
    let marks = kept.as_mut_slice();
    mark(marks, &trace);
    let labels = labels_from(alloc, snapshot, leads, marks, limit)?;
    item_label(alloc, snapshot, labels.as_slice(), listed, &trace, limit)
}
