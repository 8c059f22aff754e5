//! The traces of the entries that are reached from marks.

ghost use Rattle.nc_cofactor.specs.Needed.{AreFound, IsMarked, IsSlot, MarksMore, StepsName};
ghost use Rattle.nc_cofactor.specs.Terms.{Names, StartNames};
ghost use Rattle.nc_reduce.specs.Leads.{LeadsOf};
ghost use Rattle.nc_snapshot.specs.Traces.{start_of};
ghost use Rattle.std.specs.Prelude.{All, Contains, IfOk, IsTrue, false, length, ℕ, ◌≡◌, ◌≤◌, ◌↔◌};

use crate::trace::trace_of;
use nc_index::Leads;
use nc_snapshot::{Listed, Snapshot, Start, Step, Trace};
use std::alloc::{AllocError, Global};

/// Whether an entry is marked.
fn is_marked(marks: &[bool], number: u32) -> bool
    requires some { 1 ≤ number }
    requires within { number ≤ length marks.now }
    ensures { IsTrue result ↔ IsMarked marks.now number }
{
    marks[number as usize - 1]
}

/// Marks an entry.
fn set_mark(marks: &mut [bool], number: u32)
    requires some { 1 ≤ number }
    requires within { number ≤ length marks.old }
    ensures { MarksMore marks.old marks.new (λ j. number ≡ j) }
{
    marks[number as usize - 1] = true;
}

/// Marks the entry that the start names, if it names one.
fn mark_start(marks: &mut [bool], start: &Start)
    requires { (j : ℕ) → StartNames (start_of start.now) j → (1 ≤ j) × (j ≤ length marks.old) }
    ensures { MarksMore marks.old marks.new (StartNames (start_of start.now)) }
{
    if let Start::Multiple { number, .. } = start {
        set_mark(marks, *number);
    }
}

/// Marks the entries that the steps name.
pub(crate) fn mark_steps(marks: &mut [bool], steps: &[Step])
    requires some { All (λ step. 1 ≤ step.number) steps.now }
    requires within { All (λ step. step.number ≤ length marks.old) steps.now }
    ensures { MarksMore marks.old marks.new (StepsName steps.now) }
{
    for step in steps {
        set_mark(marks, step.number);
    }
}

/// Marks the entries with these numbers.
pub(crate) fn mark_numbers(marks: &mut [bool], numbers: &[u32])
    requires { All (λ j. (1 ≤ j) × (j ≤ length marks.old)) numbers.now }
    ensures { MarksMore marks.old marks.new (Contains numbers.now) }
{
    for number in numbers {
        set_mark(marks, *number);
    }
}

/// Marks the entries that the trace names.
pub(crate) fn mark(marks: &mut [bool], trace: &Trace)
    requires { (j : ℕ) → Names trace.now j → (1 ≤ j) × (j ≤ length marks.old) }
    ensures { MarksMore marks.old marks.new (Names trace.now) }
{
    mark_start(marks, &trace.start);
    mark_steps(marks, trace.steps.items());
}

/// The trace of an entry that is marked. What it names is marked then.
fn slot_at(
    alloc: Global,
    snapshot: &Snapshot,
    leads: &Leads,
    marks: &mut [bool],
    number: u32,
) -> Result<Option<Trace>, AllocError>
    requires leads { LeadsOf snapshot.now leads.now }
    requires some { 1 ≤ number }
    requires within { number ≤ length snapshot.now.state.entries }
    requires size { length marks.old ≡ length snapshot.now.state.entries }
    ensures { IfOk result (IsSlot snapshot.now.problem.problem snapshot.now.handled marks.old
        marks.new number) }
{
    snapshot.recall_rule();
    if !is_marked(marks, number) {
        return Ok(None);
    }
    let trace = trace_of(alloc, snapshot, leads, Listed::Entry(number))?;
    mark(marks, &trace);
    Ok(Some(trace))
}

/// The trace of each entry that is reached from the marks, from the last entry to the first. A trace names earlier entries
/// alone, so one pass finds all.
pub(crate) fn traces_from(
    alloc: Global,
    snapshot: &Snapshot,
    leads: &Leads,
    marks: &mut [bool],
) -> Result<Vec<Option<Trace>>, AllocError>
    requires leads { LeadsOf snapshot.now leads.now }
    requires size { length marks.old ≡ length snapshot.now.state.entries }
    ensures { IfOk result (λ stack. AreFound snapshot.now.problem.problem snapshot.now.handled
        marks.old stack.items) }
{
    snapshot.recall_rule();
    let mut stack = Vec::new(alloc);
    let mut left = snapshot.entries();
    while left > 0 {
        let slot = slot_at(alloc, snapshot, leads, marks, left)?;
        stack.push(slot)?;
        left -= 1;
    }
    Ok(stack)
}

/// So many marks, none of them set.
pub(crate) fn no_marks(alloc: Global, count: u32) -> Result<Vec<bool>, AllocError>
    ensures size { IfOk result (λ marks. length marks.items ≡ count) }
    ensures unmarked { IfOk result (λ marks. All (λ mark. mark ≡ false) marks.items) }
{
    let mut marks = Vec::new(alloc);
    for _ in 0..count {
        marks.push(false)?;
    }
    Ok(marks)
}
