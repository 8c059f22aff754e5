//! Sides of an ambiguity.

ghost use Rattle.nc_algebra.specs.Elements.{HasDegree, IsGenerator, Setting};
ghost use Rattle.nc_algebra.specs.Monomials.{compare_sigs, monomial_of};
ghost use Rattle.nc_algebra.specs.Problems.{IsWithin};
ghost use Rattle.nc_overlap.specs.Sides.{side_sig};
ghost use Rattle.nc_theory.specs.Meetings.{IsGreaterOf, IsOnly};
ghost use Rattle.std.specs.Prelude.{IfOk, IfSome, IsTrue, option_map, ◌↔◌, ◌≡◌, ◌⊎◌};

use nc_module::{Bound, Problem};
use nc_sig::Sig;
use nc_words::{Joined, Letter, weight_of};
use std::alloc::{AllocError, Global};
use std::cmp::Ordering;

/// The multiple `left sig right` of a signature, which is not made.
#[derive(Clone, Copy)]
pub(crate) struct Side<'a> {
    pub left: &'a [Letter],
    pub sig: &'a Sig,
    pub right: &'a [Letter],
}

impl<'a> Side<'a> {
    /// The degree of the multiple.
    fn degree(&self) -> u128
        ensures { result ≡ (side_sig self.now).degree }
    {
        let sig = self.sig;
        weight_of(self.left) + u128::from(sig.degree) + weight_of(self.right)
    }

    /// The order of signatures, without memory: most sides differ in their degrees.
    fn compare(&self, other: &Side<'a>) -> Ordering
        ensures { result ≡ compare_sigs (side_sig self.now) (side_sig other.now) }
    {
        let (a, b) = (self.sig, other.sig);
        self.degree()
            .cmp(&other.degree())
            .then_with(|| a.generator.cmp(&b.generator))
            .then_with(|| {
                Joined::of_two(self.left, a.left.letters()).compare(&Joined::of_two(
                    other.left,
                    b.left.letters(),
                ))
            })
            .then_with(|| {
                Joined::of_two(a.right.letters(), self.right).compare(&Joined::of_two(
                    b.right.letters(),
                    other.right,
                ))
            })
    }

    /// The greater one, where they differ.
    pub(crate) fn greater(&self, other: &Side<'a>) -> Option<Side<'a>>
        ensures greater { (s : Setting) → HasDegree s (side_sig self.now)
            → HasDegree s (side_sig other.now)
            → IsOnly (IsGreaterOf s (monomial_of (side_sig self.now))
            (monomial_of (side_sig other.now)))
            (option_map (λ x. monomial_of (side_sig x)) result) }
        ensures sig { IfSome result (λ x. (x.sig.now ≡ self.now.sig.now)
            ⊎ (x.sig.now ≡ other.now.sig.now)) }
    {
        match self.compare(other) {
            Ordering::Less => Some(*other),
            Ordering::Equal => None,
            Ordering::Greater => Some(*self),
        }
    }

    /// Whether the multiple lies within the bound, without memory.
    pub(crate) fn is_within(&self, problem: &Problem) -> bool
        requires generator { IsGenerator problem.now.problem.setting self.now.sig.now.generator }
        requires degree { HasDegree problem.now.problem.setting self.now.sig.now }
        ensures { IsTrue result ↔ IsWithin problem.now.problem (monomial_of (side_sig self.now)) }
    {
        match problem.bound() {
            Bound::Degree(d) => self.degree() <= u128::from(*d),
            Bound::Below(beta) => self.sig.compare_times(self.left, self.right, beta).is_lt(),
        }
    }

    /// The multiple.
    pub(crate) fn make(&self, alloc: Global, problem: &Problem) -> Result<Sig, AllocError>
        requires degree { HasDegree problem.now.problem.setting self.now.sig.now }
        requires within { IsWithin problem.now.problem (monomial_of (side_sig self.now)) }
        ensures { IfOk result (λ s. s ≡ side_sig self.now) }
    {
        problem.recall_rule();
        self.sig.times(alloc, self.left, self.right)
    }
}
