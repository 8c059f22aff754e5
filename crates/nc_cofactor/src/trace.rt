//! Traces of listed items.

ghost use Rattle.nc_cofactor.specs.Traces.{HasTrace, IsListed};
ghost use Rattle.nc_reduce.specs.Leads.{LeadsOf};
ghost use Rattle.std.specs.Prelude.{IfOk, length, ◌≡◌, ◌≤◌};

use crate::below::entries_below;
use crate::rebuilds::rebuild;
use nc_index::Leads;
use nc_snapshot::{Listed, Snapshot, Trace};
use std::alloc::{AllocError, Global};

/// The trace of the entry with this number, made again from the entries before it.
fn entry_trace(
    alloc: Global,
    snapshot: &Snapshot,
    leads: &Leads,
    number: u32,
) -> Result<Trace, AllocError>
    requires leads { LeadsOf snapshot.now leads.now }
    requires some { 1 ≤ number }
    requires within { number ≤ length snapshot.now.state.entries }
    ensures { IfOk result (HasTrace snapshot.now.problem.problem snapshot.now.handled
        (Listed.Entry number)) }
{
    snapshot.recall_rule();
    rebuild(
        alloc,
        snapshot,
        leads,
        snapshot.entry(number).sig(),
        number - 1,
    )
}

/// The trace of the syzygy with this number, made again from the entries with lesser signatures.
fn syzygy_trace(
    alloc: Global,
    snapshot: &Snapshot,
    leads: &Leads,
    number: u32,
) -> Result<Trace, AllocError>
    requires leads { LeadsOf snapshot.now leads.now }
    requires some { 1 ≤ number }
    requires within { number ≤ length snapshot.now.state.syzygies }
    ensures { IfOk result (HasTrace snapshot.now.problem.problem snapshot.now.handled
        (Listed.Syzygy number)) }
{
    snapshot.recall_rule();
    let sig = snapshot.syzygy(number).sig();
    rebuild(alloc, snapshot, leads, sig, entries_below(snapshot, sig))
}

/// The trace of a listed entry or syzygy, made again from the entries with lesser signatures. The leads are those of the
/// snapshot's entries.
pub fn trace_of(
    alloc: Global,
    snapshot: &Snapshot,
    leads: &Leads,
    listed: Listed,
) -> Result<Trace, AllocError>
    requires leads { LeadsOf snapshot.now leads.now }
    requires listed { IsListed snapshot.now.state listed }
    ensures { IfOk result (HasTrace snapshot.now.problem.problem snapshot.now.handled listed) }
{
    match listed {
        Listed::Entry(number) => entry_trace(alloc, snapshot, leads, number),
        Listed::Syzygy(number) => syzygy_trace(alloc, snapshot, leads, number),
        Listed::Claim => unreachable!(),
    }
}
