//! The best multiple at a signature, and its leading word.

ghost use Rattle.nc_algebra.specs.Elements.{HasDegree};
ghost use Rattle.nc_algebra.specs.Monomials.{monomial_of};
ghost use Rattle.nc_algebra.specs.Polynomials.{leading};
ghost use Rattle.nc_algebra.specs.Words.{Word as WordValue};
ghost use Rattle.nc_criteria.specs.Multiples.{IsBestWithin};
ghost use Rattle.nc_reduce.specs.Leads.{LeadsOf};
ghost use Rattle.nc_reduce.specs.Starts.{IsReadable, polynomial_of};
ghost use Rattle.nc_theory.specs.Divisors.{Multiple as MultipleAt, RegularDivisor};
ghost use Rattle.nc_theory.specs.States.{Start as Beginning};
ghost use Rattle.std.specs.Prelude.{IfOk, IsTrue, Some, drop, length, take, ◌++◌, ◌≡◌, ◌≤◌, ◌↔◌};

use nc_criteria::{Multiple, best_multiple, best_multiple_law};
use nc_index::{Leads, leads_law};
use nc_sig::Sig;
use nc_snapshot::Snapshot;
use nc_words::Word;
use std::alloc::{AllocError, Global};

/// The best multiple at a signature that has one.
pub(crate) fn best_at(snapshot: &Snapshot, sig: &Sig) -> Multiple
    requires { (w : WordValue) × MultipleAt snapshot.now.problem.problem.setting
        snapshot.now.state.entries (monomial_of sig.now) w }
    ensures { IsBestWithin snapshot.now.problem.problem.setting snapshot.now.state.entries
        (monomial_of sig.now) 0 (length snapshot.now.state.entries) (Some result) }
{
    best_multiple_law();
    match best_multiple(snapshot, sig, 0, snapshot.entries()) {
        Some(best) => best,
        None => unreachable!(),
    }
}

/// The leading word of the best multiple.
pub(crate) fn leading_word(
    alloc: Global,
    snapshot: &Snapshot,
    sig: &Sig,
    best: &Multiple,
) -> Result<Word, AllocError>
    requires left { best.now.left ≤ length sig.now.left }
    requires right { best.now.right ≤ length sig.now.right }
    requires readable { IsReadable snapshot.now.problem.problem.setting snapshot.now.state.entries
        (Beginning.a_multiple (take best.now.left sig.now.left) best.now.number
        (drop best.now.right sig.now.right)) }
    ensures { IfOk result (λ w. w ≡ take best.now.left sig.now.left
        ++ (leading snapshot.now.problem.problem.setting.prime
        (polynomial_of snapshot.now.state.entries best.now.number)
        ++ drop best.now.right sig.now.right)) }
{
    snapshot.recall_rule();
    let (left, right) = best.around(sig);
    let lead = snapshot.entry(best.number).lead();
    Word::join(alloc, left, lead.letters(), right)
}

/// Whether a multiple of an entry with a signature below this one has the word as its leading word.
pub(crate) fn is_reducible(snapshot: &Snapshot, leads: &Leads, sig: &Sig, word: &Word) -> bool
    requires leads { LeadsOf snapshot.now leads.now }
    requires degree { HasDegree snapshot.now.problem.problem.setting sig.now }
    ensures { IsTrue result ↔ RegularDivisor snapshot.now.problem.problem.setting
        snapshot.now.state.entries (monomial_of sig.now) word.now }
{
    leads_law();
    leads.first_regular(word.letters(), sig).is_some()
}
