//! The search for the ambiguities of a new entry.

ghost use Rattle.nc_algebra.specs.Elements.{HasDegree};
ghost use Rattle.nc_algebra.specs.Monomials.{compare_sigs, monomial_of};
ghost use Rattle.nc_algebra.specs.Problems.{IsWithin};
ghost use Rattle.nc_overlap.specs.Overlaps.{AddsAmbiguities, AddsMeetings, AreNewSignatures, IsEnough, IsLedBy, IsSignatureOver, MeetsEither};
ghost use Rattle.nc_overlap.specs.Sides.{side_sig};
ghost use Rattle.nc_theory.specs.Meetings.{MeetAt};
ghost use Rattle.nc_theory.specs.States.{Entry};
ghost use Rattle.std.specs.Arc.{arc_value};
ghost use Rattle.std.specs.List.Sorted.{IsStrictlySortedBy};
ghost use Rattle.std.specs.Prelude.{All, IfOk, OnOk, length, map, ◌<◌, ◌≡◌, ◌≤◌};

use crate::meeting::greater_side;
use crate::side::Side;
use nc_module::{Bound, Problem};
use nc_sig::Sig;
use nc_snapshot::{Lead, Snapshot};
use nc_words::Word;
use std::alloc::{AllocError, Global};
use std::sync::Arc;

/// Adds what the side stands for, if it lies within the bound.
fn add_side(
    alloc: Global,
    problem: &Problem,
    found: &mut Vec<Arc<Sig>>,
    side: &Side,
) -> Result<(), AllocError>
    requires over { IsSignatureOver problem.now.problem.setting side.now.sig.now }
    ensures { OnOk result (AddsAmbiguities problem.now.problem
        (λ ρ. ρ ≡ monomial_of (side_sig side.now)) (map arc_value found.old.items)
        (map arc_value found.new.items)) }
{
    if side.is_within(problem) {
        let sig = side.make(alloc, problem)?;
        found.push(Arc::new(alloc, sig)?)?;
    }
    Ok(())
}

/// Adds the signature where the second leading word begins so many letters behind the beginning of the first one.
fn add_at(
    alloc: Global,
    problem: &Problem,
    found: &mut Vec<Arc<Sig>>,
    first: &Lead,
    second: &Lead,
    at: usize,
) -> Result<(), AllocError>
    requires first { IsSignatureOver problem.now.problem.setting first.now.sig.now }
    requires second { IsSignatureOver problem.now.problem.setting second.now.sig.now }
    requires within { at < length first.now.word.now }
    ensures { OnOk result ((e f : Entry) → IsLedBy problem.now.problem.setting first.now e
        → IsLedBy problem.now.problem.setting second.now f
        → AddsAmbiguities problem.now.problem (MeetAt problem.now.problem.setting e f at)
        (map arc_value found.old.items) (map arc_value found.new.items)) }
{
    match greater_side(first, second, at) {
        Some(side) => add_side(alloc, problem, found, &side),
        None => Ok(()),
    }
}

/// How many places in the first leading word may count: behind them the multiple of the second one's entry has a degree past
/// the bound's.
fn places(problem: &Problem, first: &Lead, second: &Lead) -> usize
    ensures few { result ≤ length first.now.word.now }
    ensures enough { IsEnough problem.now.problem (length first.now.word.now)
        second.now.sig.now.degree result }
{
    let limit = match problem.bound() {
        Bound::Degree(d) => *d,
        Bound::Below(beta) => beta.degree,
    };
    let sig = second.sig;
    if limit < sig.degree {
        return 0;
    }
    let room = (limit - sig.degree) as usize + 1;
    first.word.letters().len().min(room)
}

/// Adds the signatures where the second leading word begins within the first one.
fn add_pair(
    alloc: Global,
    problem: &Problem,
    found: &mut Vec<Arc<Sig>>,
    first: &Lead,
    second: &Lead,
) -> Result<(), AllocError>
    requires first { IsSignatureOver problem.now.problem.setting first.now.sig.now }
    requires second { IsSignatureOver problem.now.problem.setting second.now.sig.now }
    ensures { OnOk result (AddsMeetings problem.now.problem first.now second.now
        (map arc_value found.old.items) (map arc_value found.new.items)) }
{
    for at in 0..places(problem, first, second) {
        add_at(alloc, problem, found, first, second, at)?;
    }
    Ok(())
}

/// Adds the signatures where an entry's leading word begins within the new one, or the new one within that.
fn add_entries(
    alloc: Global,
    snapshot: &Snapshot,
    found: &mut Vec<Arc<Sig>>,
    new: &Lead,
) -> Result<(), AllocError>
    requires { IsSignatureOver snapshot.now.problem.problem.setting new.now.sig.now }
    ensures { OnOk result ((e : Entry) → IsLedBy snapshot.now.problem.problem.setting new.now e
        → AddsAmbiguities snapshot.now.problem.problem
        (MeetsEither snapshot.now.problem.problem.setting snapshot.now.state.entries e)
        (map arc_value found.old.items) (map arc_value found.new.items)) }
{
    let problem: &Problem = snapshot.problem();
    for index in 0..snapshot.entries() {
        let entry = snapshot.lead(index + 1);
        add_pair(alloc, problem, found, &entry, new)?;
        add_pair(alloc, problem, found, new, &entry)?;
    }
    Ok(())
}

/// The signatures within the bound of all ambiguities of a new entry with this leading word and this signature: with
/// each entry of the snapshot, and with itself. Ascending, each once.
pub fn signatures(
    alloc: Global,
    snapshot: &Snapshot,
    lead: &Word,
    sig: &Arc<Sig>,
) -> Result<Vec<Arc<Sig>>, AllocError>
    requires within { IsWithin snapshot.now.problem.problem (monomial_of sig.now.value) }
    requires degree { HasDegree snapshot.now.problem.problem.setting sig.now.value }
    ensures ascending { IfOk result (λ l. IsStrictlySortedBy compare_sigs (map arc_value l.items)) }
    ensures degrees { IfOk result (λ l. All (HasDegree snapshot.now.problem.problem.setting)
        (map arc_value l.items)) }
    ensures exact { IfOk result (λ l. AreNewSignatures snapshot.now.problem.problem
        snapshot.now.state.entries lead.now (monomial_of sig.now.value) (map arc_value l.items)) }
{
    let new = Lead { word: lead, sig };
    let mut found = Vec::new(alloc);
    add_pair(alloc, snapshot.problem(), &mut found, &new, &new)?;
    add_entries(alloc, snapshot, &mut found, &new)?;
    found.sort_unstable();
    found.dedup();
    Ok(found)
}
