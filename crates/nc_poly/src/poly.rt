//! Polynomials.

ghost use Rattle.nc_algebra.specs.Limits.{max_letters};
ghost use Rattle.nc_algebra.specs.Polynomials.{AreResidues, IsDescending, Polynomial, coefficient, normal_form, polynomial_times};
ghost use Rattle.nc_algebra.specs.Sums.{minus, scale};
ghost use Rattle.std.specs.Prelude.{All, IfOk, IfSome, IsNone, IsTrue, OnErr, OnOk, [], length, take, vec_len, ◌+◌, ◌++◌, ◌<◌, ◌∷◌, ◌≡◌, ◌≤◌, ◌↔◌};

use crate::collect::collect;
use crate::multiple::{push_multiple, push_shifted};
use crate::term::Term;
use nc_field::{Prime, Residue};
use nc_words::{Letter, Word};
use std::alloc::{AllocError, Global};
use std::marker::Model;

/// Appends copies of the terms.
fn push_copies(out: &mut Vec<Term>, terms: &[Term]) -> Result<(), AllocError>
    ensures { OnOk result (out.new.items ≡ out.old.items ++ terms.now) }
{
    for t in terms {
        out.push(t.copy()?)?;
    }
    Ok(())
}

/// A polynomial: its terms, each word once and the greatest first, with no coefficient 0.
#[derive(Drop)]
pub struct Poly {
    kept: Vec<Term>,
}

impl Model for Poly {
    ghost use Rattle.nc_algebra.specs.Polynomials.{IsDescending, Polynomial};

    ghost Value = { Polynomial };

    ghost view = { λ f. f.kept.items };

    ghost invariant = { λ f. IsDescending f.kept.items };
}

impl Poly {
    /// The polynomial 0.
    pub fn zero(alloc: Global) -> Poly
        ensures { result ≡ [] }
    {
        Poly {
            kept: Vec::new(alloc),
        }
    }

    /// The sum of the terms, which may stand in any order, with words that stand several times. No memory is taken.
    pub fn of_terms(p: Prime, terms: Vec<Term>) -> Poly
        requires { AreResidues p terms.items }
        ensures { result ≡ normal_form p terms.items }
    {
        let mut kept = terms;
        collect(p, &mut kept);
        Poly { kept }
    }

    /// The terms, the one with the greatest word first.
    pub fn terms(&self) -> &[Term]
        ensures terms { result.now ≡ self.now }
        ensures descending { IsDescending self.now }
    {
        self.kept.as_slice()
    }

    /// The term with the greatest word.
    pub fn lead(&self) -> Option<&Term>
        ensures none { IsNone result ↔ (self.now ≡ []) }
        ensures some { IfSome result (λ t. (others : Polynomial) × (self.now ≡ t.now ∷ others)) }
    {
        self.kept.as_slice().first()
    }

    /// Whether it is the polynomial 0.
    pub fn is_zero(&self) -> bool
        ensures { IsTrue result ↔ (self.now ≡ []) }
    {
        self.kept.is_empty()
    }

    /// Whether it is the other polynomial.
    pub fn same(&self, other: &Poly) -> bool
        ensures { IsTrue result ↔ (self.now ≡ other.now) }
    {
        self.terms() == other.terms()
    }

    /// The coefficient beside the word, or 0 where the word is not listed. No memory is taken.
    pub fn coefficient(&self, word: &[Letter]) -> Residue
        ensures { result ≡ coefficient self.now word.now }
    {
        let terms = self.kept.as_slice();
        match terms.binary_search_by(|t| Word::compare(word, t.letters())) {
            Ok(at) => {
                let term = &terms[at];
                term.coefficient
            }
            Err(_) => 0,
        }
    }

    /// The terms as a list.
    pub(crate) fn into_terms(self) -> Vec<Term>
        ensures terms { result.items ≡ self }
        ensures descending { IsDescending self }
    {
        let Poly { kept } = self;
        kept
    }

    /// An equal polynomial.
    pub fn copy(&self) -> Result<Poly, AllocError>
        ensures { IfOk result (λ f. f ≡ self.now) }
    {
        let mut kept = Vec::with_capacity(*self.kept.allocator(), self.kept.len())?;
        push_copies(&mut kept, self.kept.as_slice())?;
        Ok(Poly { kept })
    }

    /// The multiple u f v of this polynomial f. The order of words goes with multiplication, so no word is compared.
    pub fn shifted(&self, alloc: Global, u: &[Letter], v: &[Letter]) -> Result<Poly, AllocError>
        requires few { All (λ t. length u.now + length t.key + length v.now ≤ max_letters) self.now }
        ensures { IfOk result (λ g. g ≡ polynomial_times u.now self.now v.now) }
    {
        let mut kept = Vec::with_capacity(alloc, self.kept.len())?;
        push_shifted(alloc, &mut kept, u, self.kept.as_slice(), v)?;
        Ok(Poly { kept })
    }

    /// Adds g. After `Err` the polynomial is as it was.
    pub fn add(&mut self, p: Prime, g: &Poly) -> Result<(), AllocError>
        requires residues { AreResidues p self.old }
        requires other_residues { AreResidues p g.now }
        ensures sum { OnOk result (self.new ≡ normal_form p (self.old ++ g.now)) }
        ensures residues { AreResidues p self.new }
        ensures err { OnErr result (self.new ≡ self.old) }
    {
        let mut copies = Vec::with_capacity(*self.kept.allocator(), g.terms().len())?;
        push_copies(&mut copies, g.terms())?;
        self.kept.append(&mut copies)?;
        collect(p, &mut self.kept);
        Ok(())
    }

    /// Subtracts c u g v. After `Err` the polynomial is as it was.
    pub fn sub_multiple(
        &mut self,
        alloc: Global,
        p: Prime,
        c: Residue,
        u: &[Letter],
        g: &Poly,
        v: &[Letter],
    ) -> Result<(), AllocError>
        requires factor { c < p }
        requires residues { AreResidues p self.old }
        requires other_residues { AreResidues p g.now }
        requires few { All (λ t. length u.now + length t.key + length v.now ≤ max_letters) g.now }
        ensures difference { OnOk result
            (self.new ≡ normal_form p (minus p self.old c (polynomial_times u.now g.now v.now))) }
        ensures residues { AreResidues p self.new }
        ensures err { OnErr result (self.new ≡ self.old) }
    {
        let mut product = Vec::with_capacity(alloc, g.terms().len())?;
        push_multiple(alloc, &mut product, p, p.neg(c), u, g.terms(), v)?;
        self.kept.append(&mut product)?;
        collect(p, &mut self.kept);
        Ok(())
    }
}
