//! The lines that prove a claim.

ghost use Rattle.nc_algebra.specs.Limits.{max_steps};
ghost use Rattle.nc_cofactor.specs.Claims.{AreSubtracted, numbers_of};
ghost use Rattle.nc_member.specs.Found.{AreProofLines, AreUsable, HasResidues, entries_of, trace_lines};
ghost use Rattle.nc_member.specs.Lines.{line_of_claim, line_of, start_part, step_part, trace_line};
ghost use Rattle.nc_reduce.specs.Leads.{LeadsOf};
ghost use Rattle.nc_snapshot.specs.Traces.{start_of};
ghost use Rattle.std.specs.List.Sorted.{IsStrictlyIncreasing};
ghost use Rattle.std.specs.Prelude.{All, IfOk, OnOk, length, ◌++◌, ◌+◌, ◌<◌, ◌≡◌, ◌≤◌};

use nc_cofactor::needed_traces;
use nc_field::{Prime, Residue};
use nc_index::Leads;
use nc_module::{Line, Lines, Of, Part};
use nc_snapshot::{Snapshot, Start, Step, Trace};
use nc_words::Word;
use std::alloc::{AllocError, Global};

/// The line of an entry, where these are needed, in ascending order.
fn line_number(entries: &[u32], number: u32) -> u32
    requires ascending { IsStrictlyIncreasing entries.now }
    requires few { length entries.now ≤ max_steps }
    ensures { result ≡ line_of entries.now number }
{
    entries.partition_point(|k| *k <= number) as u32
}

/// The multiple of a step, with this coefficient.
fn multiple_part(entries: &[u32], coefficient: Residue, step: &Step) -> Result<Part, AllocError>
    requires ascending { IsStrictlyIncreasing entries.now }
    requires few { length entries.now ≤ max_steps }
    ensures { IfOk result (λ part. part ≡ step_part entries.now coefficient step.now) }
{
    let left = step.left.copy()?;
    let right = step.right.copy()?;
    Ok(Part {
        coefficient,
        left,
        of: Of::Line(line_number(entries, step.number)),
        right,
    })
}

/// What a trace begins with.
fn first_part(alloc: Global, entries: &[u32], start: &Start) -> Result<Part, AllocError>
    requires ascending { IsStrictlyIncreasing entries.now }
    requires few { length entries.now ≤ max_steps }
    ensures { IfOk result (λ part. part ≡ start_part entries.now (start_of start.now)) }
{
    match start {
        Start::Generator(i) => Ok(Part {
            coefficient: 1,
            left: Word::empty(alloc),
            of: Of::Generator(*i),
            right: Word::empty(alloc),
        }),
        Start::Multiple {
            left,
            number,
            right,
        } => {
            let left = left.copy()?;
            let right = right.copy()?;
            Ok(Part {
                coefficient: 1,
                left,
                of: Of::Line(line_number(entries, *number)),
                right,
            })
        }
    }
}

/// The line of an entry, by its trace: what it begins with, less its steps.
fn entry_line(alloc: Global, p: Prime, entries: &[u32], trace: &Trace) -> Result<Line, AllocError>
    requires residues { HasResidues p trace.now }
    requires ascending { IsStrictlyIncreasing entries.now }
    requires few { length entries.now ≤ max_steps }
    ensures { IfOk result (λ line. line ≡ trace_line p entries.now trace.now) }
{
    let mut line = Line::empty(alloc);
    line.push(first_part(alloc, entries, &trace.start)?)?;
    for step in trace.steps.items() {
        let coefficient = p.neg(step.coefficient);
        line.push(multiple_part(entries, coefficient, step)?)?;
    }
    Ok(line)
}

/// The claim's line: what was subtracted.
fn last_line(alloc: Global, entries: &[u32], steps: &[Step]) -> Result<Line, AllocError>
    requires ascending { IsStrictlyIncreasing entries.now }
    requires few { length entries.now ≤ max_steps }
    ensures { IfOk result (λ line. line ≡ line_of_claim entries.now steps.now) }
{
    let mut line = Line::empty(alloc);
    for step in steps {
        line.push(multiple_part(entries, step.coefficient, step)?)?;
    }
    Ok(line)
}

/// Appends the line of each entry.
fn push_entries(
    alloc: Global,
    p: Prime,
    entries: &[u32],
    needed: &[(u32, Trace)],
    lines: &mut Lines,
) -> Result<(), AllocError>
    requires residues { All (λ x. HasResidues p x.1) needed.now }
    requires ascending { IsStrictlyIncreasing entries.now }
    requires few { length entries.now ≤ max_steps }
    requires room { length lines.old + length needed.now ≤ 2000000000 }
    ensures { OnOk result (lines.new ≡ lines.old ++ trace_lines p entries.now needed.now) }
{
    for (_, trace) in needed {
        lines.push(entry_line(alloc, p, entries, trace)?)?;
    }
    Ok(())
}

/// The numbers of the entries that the steps name.
fn named_by(alloc: Global, steps: &[Step]) -> Result<Vec<u32>, AllocError>
    ensures { IfOk result (λ l. l.items ≡ numbers_of steps.now) }
{
    steps.iter().map(|step| step.number).collect(alloc)
}

/// The numbers of the needed entries.
fn entries_in(alloc: Global, needed: &[(u32, Trace)]) -> Result<Vec<u32>, AllocError>
    ensures { IfOk result (λ l. l.items ≡ entries_of needed.now) }
{
    let mut entries = Vec::new(alloc);
    for (number, _) in needed {
        entries.push(*number)?;
    }
    Ok(entries)
}

/// The prime of the problem.
fn prime_of(snapshot: &Snapshot) -> Prime
    ensures { result ≡ snapshot.now.problem.problem.setting.prime }
{
    snapshot.problem().setting().prime()
}

/// The entries that these multiples need, with their traces.
fn needed_by(
    alloc: Global,
    snapshot: &Snapshot,
    leads: &Leads,
    steps: &[Step],
) -> Result<Vec<(u32, Trace)>, AllocError>
    requires leads { LeadsOf snapshot.now leads.now }
    requires steps { AreSubtracted snapshot.now.problem.problem snapshot.now.state.entries
        steps.now }
    ensures { IfOk result (λ l. AreUsable snapshot.now.problem.problem snapshot.now.handled
        (numbers_of steps.now) l.items) }
{
    snapshot.recall_rule();
    let numbers = named_by(alloc, steps)?;
    needed_traces(alloc, snapshot, leads, numbers.as_slice())
}

/// The lines of a claim from which these multiples were subtracted within the bound: one for each entry that they need, in
/// ascending order, and one for the claim. There is none where nothing was subtracted.
pub(crate) fn lines_of(
    alloc: Global,
    snapshot: &Snapshot,
    leads: &Leads,
    steps: &[Step],
) -> Result<Lines, AllocError>
    requires leads { LeadsOf snapshot.now leads.now }
    requires steps { AreSubtracted snapshot.now.problem.problem snapshot.now.state.entries
        steps.now }
    ensures { IfOk result (AreProofLines snapshot.now.problem.problem snapshot.now.handled
        steps.now) }
{
    snapshot.recall_rule();
    let mut lines = Lines::empty(alloc);
    if steps.is_empty() {
        return Ok(lines);
    }
    let p = prime_of(snapshot);
    let needed = needed_by(alloc, snapshot, leads, steps)?;
    let entries = entries_in(alloc, needed.as_slice())?;
    push_entries(alloc, p, entries.as_slice(), needed.as_slice(), &mut lines)?;
    lines.push(last_line(alloc, entries.as_slice(), steps)?)?;
    Ok(lines)
}
