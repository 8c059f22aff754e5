//! What a step of the desk adds to a snapshot and to what is kept beside it.

ghost use Rattle.nc_algebra.specs.Elements.{HasDegree};
ghost use Rattle.nc_algebra.specs.Monomials.{monomial_of};
ghost use Rattle.nc_desk.specs.Desks.{IsNextAt};
ghost use Rattle.nc_desk.specs.Steps.{AreNews, IsAdvance, IsStep};
ghost use Rattle.nc_reduce.specs.Leads.{LeadsOf};
ghost use Rattle.std.specs.Arc.{arc_value};
ghost use Rattle.std.specs.Prelude.{IfOk, OnErr, map, ◌<◌, ◌≡◌};

use crate::handling::handle;
use nc_index::Leads;
use nc_overlap::signatures;
use nc_queue::Waiting;
use nc_sig::Sig;
use nc_snapshot::Snapshot;
use std::alloc::{AllocError, Global};
use std::sync::Arc;

/// The leads of the later snapshot, and the signatures of the ambiguities that its step brings: those of its new entry, if
/// it has one.
fn news(
    alloc: Global,
    snapshot: &Snapshot,
    leads: &Leads,
    later: &Snapshot,
) -> Result<(Leads, Vec<Arc<Sig>>), AllocError>
    requires leads { LeadsOf snapshot.now leads.now }
    requires step { IsStep snapshot.now later.now }
    ensures { IfOk result (λ r. AreNews snapshot.now later.now r.0 (map arc_value r.1.items)) }
{
    snapshot.recall_rule();
    later.recall_rule();
    let mut more = leads.share()?;
    let number = later.entries();
    if number <= snapshot.entries() {
        return Ok((more, Vec::new(alloc)));
    }
    let new = later.entry(number);
    let (word, sig) = (new.lead(), new.sig());
    more.add(word, sig)?;
    let found = signatures(alloc, snapshot, word, sig)?;
    Ok((more, found))
}

/// Handles the next signature: gives the snapshot and the leads after it, and adds the signatures that it brings to those
/// that wait. After `Err` these are what they were.
pub(crate) fn advance(
    alloc: Global,
    snapshot: &Snapshot,
    leads: &Leads,
    waiting: &mut Waiting,
    sig: &Arc<Sig>,
) -> Result<(Snapshot, Leads), AllocError>
    requires leads { LeadsOf snapshot.now leads.now }
    requires degree { HasDegree snapshot.now.problem.problem.setting sig.now.value }
    requires next { IsNextAt snapshot.now (monomial_of sig.now.value) }
    requires steps { snapshot.now.handled < snapshot.now.problem.problem.steps }
    ensures advance { IfOk result (λ r. IsAdvance snapshot.now (monomial_of sig.now.value) r.0 r.1
        waiting.old waiting.new) }
    ensures unchanged { OnErr result (waiting.new ≡ waiting.old) }
{
    snapshot.recall_rule();
    let outcome = handle(alloc, snapshot, leads, sig)?;
    let mut later = snapshot.share()?;
    later.append(Arc::try_clone(sig)?, outcome)?;
    let (more, found) = news(alloc, snapshot, leads, &later)?;
    waiting.insert_all(found)?;
    Ok((later, more))
}
