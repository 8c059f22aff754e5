//! The best multiple at a signature.

ghost use Rattle.nc_algebra.specs.Limits.{max_letters};
ghost use Rattle.nc_algebra.specs.Monomials.{monomial_of};
ghost use Rattle.nc_criteria.specs.Multiples.{BestMultipleLaw, IsBestWithin};
ghost use Rattle.nc_criteria.specs.Searches.{IsBestBetween, found_of};
ghost use Rattle.nc_snapshot.specs.Traces.{start_of};
ghost use Rattle.nc_theory.specs.Best.{IsMultipleAt, best_of};
ghost use Rattle.nc_theory.specs.States.{Start as Beginning};
ghost use Rattle.std.specs.Prelude.{IfOk, drop, length, option_map, take, ◌-◌, ◌<◌, ◌≡◌, ◌≤◌};

use nc_sig::Sig;
use nc_snapshot::{Snapshot, Start};
use nc_words::{Joined, Letter, Word};
use std::alloc::{AllocError, Global};

/// A multiple of an entry: the entry's number, and what stands around it in the signature: u is the first `left` letters of
/// the signature's left word, v its right word from place `right` on.
#[derive(Clone, Copy, Debug, PartialEq, Eq)]
pub struct Multiple {
    pub number: u32,
    pub left: usize,
    pub right: usize,
}

impl Multiple {
    /// What stands before and behind the entry in the signature.
    pub fn around<'a>(&self, sig: &'a Sig) -> (&'a [Letter], &'a [Letter])
        requires left { self.now.left ≤ length sig.now.left }
        requires right { self.now.right ≤ length sig.now.right }
        ensures left { result.0.now ≡ take self.now.left sig.now.left }
        ensures right { result.1.now ≡ drop self.now.right sig.now.right }
        ensures few_left { length result.0.now ≤ max_letters }
        ensures few_right { length result.1.now ≤ max_letters }
    {
        let left = sig.left.letters();
        let right = sig.right.letters();
        (&left[..self.left], &right[self.right..])
    }

    /// The start of a reduction at this multiple.
    pub fn start(&self, alloc: Global, sig: &Sig) -> Result<Start, AllocError>
        requires left { self.now.left ≤ length sig.now.left }
        requires right { self.now.right ≤ length sig.now.right }
        ensures { IfOk result (λ s. start_of s ≡ Beginning.a_multiple
            (take self.now.left sig.now.left) self.now.number
            (drop self.now.right sig.now.right)) }
    {
        let (left, right) = self.around(sig);
        let left = Word::join(alloc, left, &[], &[])?;
        let right = Word::join(alloc, right, &[], &[])?;
        Ok(Start::Multiple {
            left,
            number: self.number,
            right,
        })
    }
}

/// A multiple of the entry with this number, and its leading word, which is not made: the entry's, with what stands before
/// and behind it.
#[derive(Clone, Copy)]
struct Found<'a> {
    number: u32,
    word: Joined<'a>,
}

/// The multiple of the entry with this number, if one has the signature.
fn multiple_of<'a>(snapshot: &'a Snapshot, sig: &'a Sig, number: u32) -> Option<Found<'a>>
    requires some { 1 ≤ number }
    requires within { number ≤ length snapshot.now.state.entries }
    ensures { IsMultipleAt snapshot.now.problem.problem.setting snapshot.now.state.entries
        (monomial_of sig.now) (number - 1) (option_map found_of result) }
{
    let lead = snapshot.lead(number);
    let (first, third) = sig.divide(lead.sig)?;
    let second = lead.word.letters();
    let word = Joined {
        first,
        second,
        third,
    };
    Some(Found { number, word })
}

/// The better one of the best so far and one of a later entry.
fn better<'a>(best: Option<Found<'a>>, next: Option<Found<'a>>) -> Option<Found<'a>>
    ensures { option_map found_of result ≡ best_of (option_map found_of best.entry)
        (option_map found_of next.entry) }
{
    match (best, next) {
        (Some(a), Some(b)) => {
            if b.word.compare(&a.word).is_lt() {
                Some(b)
            } else {
                Some(a)
            }
        }
        (None, next) => next,
        (best, None) => best,
    }
}

/// The best multiple of these entries.
fn best_between<'a>(
    snapshot: &'a Snapshot,
    sig: &'a Sig,
    after: u32,
    until: u32,
) -> Option<Found<'a>>
    requires some { after < until }
    requires within { until ≤ length snapshot.now.state.entries }
    ensures { IsBestBetween snapshot.now.problem.problem.setting snapshot.now.state.entries
        (monomial_of sig.now) after until (option_map found_of result) }
{
    let mut best = None;
    for index in after..until {
        best = better(best, multiple_of(snapshot, sig, index + 1));
    }
    best
}

/// The best multiple at the signature among the entries numbered above `after` and at most `until`: the one with the least
/// leading word, and of those the earliest entry's; None exactly where none of their signatures divides it. No memory is
/// taken.
pub fn best_multiple(snapshot: &Snapshot, sig: &Sig, after: u32, until: u32) -> Option<Multiple>
    ensures { IsBestWithin snapshot.now.problem.problem.setting snapshot.now.state.entries
        (monomial_of sig.now) after until result }
{
    let last = until.min(snapshot.entries());
    if last <= after {
        return None;
    }
    let found = best_between(snapshot, sig, after, last)?;
    Some(Multiple {
        number: found.number,
        left: found.word.first.len(),
        right: sig.right.letters().len() - found.word.third.len(),
    })
}

/// Among all entries the best multiple is that of the definitions.
pub fn best_multiple_law()
    ensures { BestMultipleLaw }
{}
