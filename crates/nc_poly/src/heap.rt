//! Polynomials from which many multiples are subtracted.

ghost use Rattle.nc_algebra.specs.Limits.{max_letters};
ghost use Rattle.nc_algebra.specs.Polynomials.{AreResidues, IsDescending, Polynomial, normal_form, polynomial_times};
ghost use Rattle.nc_algebra.specs.Sums.{minus};
ghost use Rattle.std.specs.Prelude.{All, IfOk, IfSome, IsNone, IsTrue, OnErr, OnOk, [], length, ◌+◌, ◌<◌, ◌∷◌, ◌≡◌, ◌≤◌, ◌↔◌};

use crate::multiple::push_pairs;
use crate::poly::Poly;
use crate::sum::Sum;
use crate::term::Term;
use nc_field::{Prime, Residue};
use nc_words::{Letter, Word};
use std::alloc::{AllocError, Global};
use std::marker::Model;

/// Moves the terms into the sum, the least first.
fn fill(sum: &mut Sum<Word>, terms: Vec<Term>) -> Result<(), AllocError>
    requires descending { IsDescending terms.items }
    requires zero { sum.old ≡ [] }
    ensures { OnOk result (sum.new ≡ terms.items) }
{
    let mut left = terms;
    while let Some(term) = left.pop() {
        let (word, c) = term.into_pair();
        sum.push_greatest(word, c)?;
    }
    Ok(())
}

/// A polynomial whose terms stand in a tree: subtracting a multiple of k terms from n costs k log n, where a `Poly` is
/// built anew. Contracts see the polynomial as they see a `Poly`: its terms, the greatest word first.
#[derive(Drop)]
pub struct Heap {
    sum: Sum<Word>,
}

impl Model for Heap {
    ghost use Rattle.nc_algebra.specs.Polynomials.{IsDescending, Polynomial};

    ghost Value = { Polynomial };

    ghost view = { λ h. h.sum };

    ghost invariant = { λ h. IsDescending h.sum };
}

impl Heap {
    /// The polynomial f, which is used up also where memory runs out.
    pub fn of(alloc: Global, f: Poly) -> Result<Heap, AllocError>
        ensures { IfOk result (λ h. h ≡ f) }
    {
        let mut sum = Sum::new(alloc);
        fill(&mut sum, f.into_terms())?;
        Ok(Heap { sum })
    }

    /// Whether it is the polynomial 0.
    pub fn is_zero(&self) -> bool
        ensures { IsTrue result ↔ (self.now ≡ []) }
    {
        self.sum.greatest().is_none()
    }

    /// The greatest word and its coefficient. No memory is taken.
    pub fn greatest(&self) -> Option<(&Word, &Residue)>
        ensures none { IsNone result ↔ (self.now ≡ []) }
        ensures some { IfSome result (λ t. (others : Polynomial)
            × (self.now ≡ record { coefficient = t.1.now; key = t.0.now } ∷ others)) }
    {
        self.sum.greatest()
    }

    /// Takes the term with the greatest word out. No memory is taken.
    pub fn take_greatest(&mut self) -> Option<Term>
        ensures none { IsNone result ↔ (self.old ≡ []) }
        ensures unchanged { IsNone result → self.new ≡ self.old }
        ensures some { IfSome result (λ t. self.old ≡ t ∷ self.new) }
    {
        match self.sum.take_greatest() {
            Some((word, c)) => Some(Term::of(c, word)),
            None => None,
        }
    }

    /// Subtracts c u g v. After `Err` the polynomial is as it was.
    pub fn sub_multiple(
        &mut self,
        alloc: Global,
        p: Prime,
        c: Residue,
        u: &[Letter],
        g: &Poly,
        v: &[Letter],
    ) -> Result<(), AllocError>
        requires factor { c < p }
        requires residues { AreResidues p self.old }
        requires other_residues { AreResidues p g.now }
        requires few { All (λ t. length u.now + length t.key + length v.now ≤ max_letters) g.now }
        ensures difference { OnOk result
            (self.new ≡ normal_form p (minus p self.old c (polynomial_times u.now g.now v.now))) }
        ensures residues { AreResidues p self.new }
        ensures err { OnErr result (self.new ≡ self.old) }
    {
        let mut product = Vec::with_capacity(alloc, g.terms().len())?;
        push_pairs(alloc, &mut product, p, p.neg(c), u, g.terms(), v)?;
        self.sum.add_all(p, product)
    }
}
