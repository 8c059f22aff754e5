//! What sums of multiples of entries need, and the representations that they are.

ghost use Rattle.nc_algebra.specs.Limits.{max_steps};
ghost use Rattle.nc_cofactor.specs.Claims.{AreNeededFor, AreNeededTraces, AreSubtracted, FailsToRepresent, IsRepresentation};
ghost use Rattle.nc_cofactor.specs.Needed.{AreNumbered};
ghost use Rattle.nc_reduce.specs.Leads.{LeadsOf};
ghost use Rattle.std.specs.Prelude.{All, IfErr, IfOk, length, ◌≡◌, ◌≤◌};

use crate::fault::CofactorFault;
use crate::fill::labels_from;
use crate::label::steps_sum;
use crate::sweep::{mark_numbers, mark_steps, no_marks, traces_from};
use nc_index::Leads;
use nc_module::Module;
use nc_snapshot::{Listed, Snapshot, Step, Trace};
use std::alloc::{AllocError, Global};

/// The traces that are there, each with its number: that of entry 1 is the last one of the stack.
fn numbered(alloc: Global, stack: Vec<Option<Trace>>) -> Result<Vec<(u32, Trace)>, AllocError>
    requires { length stack.items ≤ max_steps }
    ensures { IfOk result (λ l. AreNumbered stack.items l.items) }
{
    let mut left = stack;
    let mut number = 0;
    let mut kept = Vec::new(alloc);
    while let Some(slot) = left.pop() {
        number += 1;
        if let Some(trace) = slot {
            kept.push((number, trace))?;
        }
    }
    Ok(kept)
}

/// The entries that these need and these themselves, with their traces, ascending and each once. An entry needs those that
/// its trace names, and what these need.
pub fn needed_traces(
    alloc: Global,
    snapshot: &Snapshot,
    leads: &Leads,
    numbers: &[u32],
) -> Result<Vec<(u32, Trace)>, AllocError>
    requires leads { LeadsOf snapshot.now leads.now }
    requires listed { All (λ j. (1 ≤ j) × (j ≤ length snapshot.now.state.entries)) numbers.now }
    ensures { IfOk result (λ l. AreNeededTraces snapshot.now.problem.problem snapshot.now.handled
        numbers.now l.items) }
{
    snapshot.recall_rule();
    let mut kept = no_marks(alloc, snapshot.entries())?;
    let marks = kept.as_mut_slice();
    mark_numbers(marks, numbers);
    let stack = traces_from(alloc, snapshot, leads, marks)?;
    numbered(alloc, stack)
}

/// The entries that these need and these themselves, ascending and each once. An entry needs those that its trace names, and
/// what these need.
#[tactic(auto, using(crate::proofs::Numbered::needed_alone))]
pub fn needed(
    alloc: Global,
    snapshot: &Snapshot,
    leads: &Leads,
    numbers: &[u32],
) -> Result<Vec<u32>, AllocError>
    requires leads { LeadsOf snapshot.now leads.now }
    requires listed { All (λ j. (1 ≤ j) × (j ≤ length snapshot.now.state.entries)) numbers.now }
    ensures { IfOk result (λ l. AreNeededFor snapshot.now.problem.problem snapshot.now.handled
        numbers.now l.items) }
{
    let traces = needed_traces(alloc, snapshot, leads, numbers)?;
    traces.iter().map(|(number, _)| *number).collect(alloc)
}

/// The sum of the labels of these multiples, which were subtracted from a claim within the bound: where nothing of the claim
/// is left it is a representation of it.
///
/// `TooMany` names the least entry that the multiples need whose label has more than `limit` terms, and where there is none the
/// claim, whose representation has more. Each label is looked at when it is done: a sum on the way may have more terms.
pub fn represent(
    alloc: Global,
    snapshot: &Snapshot,
    leads: &Leads,
    steps: &[Step],
    limit: u64,
) -> Result<Module, CofactorFault>
    requires leads { LeadsOf snapshot.now leads.now }
    requires steps { AreSubtracted snapshot.now.problem.problem snapshot.now.state.entries steps.now }
    ensures label { IfOk result (IsRepresentation snapshot.now.problem.problem snapshot.now.handled
        steps.now limit) }
    ensures fault { IfErr result (FailsToRepresent snapshot.now.problem.problem snapshot.now.handled
        steps.now limit) }
{
    let problem = snapshot.problem();
    let mut kept = no_marks(alloc, snapshot.entries())?;
    let marks = kept.as_mut_slice();
    mark_steps(marks, steps);
    let labels = labels_from(alloc, snapshot, leads, marks, limit)?;
    let sum = steps_sum(alloc, problem.setting(), labels.as_slice(), steps)?;
    let terms = sum.terms().len() as u64;
    if terms > limit {
        let listed = Listed::Claim;
        return Err(CofactorFault::TooMany { listed, terms });
    }
    Ok(sum)
}
