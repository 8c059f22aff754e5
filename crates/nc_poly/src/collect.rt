//! Collecting terms with one word.
//!
//! The terms are sorted in place, so that terms with one word stand together; then each coefficient is carried on to
//! the next term with the same word, and the terms without a coefficient are left out. No memory is taken.

ghost use Rattle.nc_algebra.specs.Polynomials.{AreResidues, Polynomial, normal_form};
ghost use Rattle.nc_algebra.specs.Sums.{Term as Value};
ghost use Rattle.nc_algebra.specs.Words.{Word};
ghost use Rattle.nc_poly.specs.Collecting.{IsFalling, carried, gained, has_coefficient, left_of};
ghost use Rattle.std.specs.Prelude.{IsPermutation, filter, length, vec_len, ◌+◌, ◌++◌, ◌<◌, ◌∷◌, ◌≡◌};

use crate::term::Term;
use nc_field::Prime;

/// Sorts by the words, the greatest first.
fn sort_by_word(terms: &mut Vec<Term>)
    ensures permutation { IsPermutation terms.old.items terms.new.items }
    ensures falling { IsFalling terms.new.items }
{
    terms.sort_unstable_by(|a, b| b.order(a));
}

/// Carries the coefficient before `at` on to the term at it, where the two have one word.
fn carry_pair(p: Prime, terms: &mut Vec<Term>, at: usize)
    requires residues { AreResidues p terms.old.items }
    requires some { 0 < at }
    requires within { at < vec_len terms.old }
    ensures residues { AreResidues p terms.new.items }
    ensures long { vec_len terms.new ≡ vec_len terms.old }
    ensures pair { (front rest : Polynomial) (t u : Value Word)
        → terms.old.items ≡ front ++ t ∷ (u ∷ rest) → length front + 1 ≡ at
        → terms.new.items ≡ front ++ left_of t u ∷ (gained p t u ∷ rest) }
{
    if terms[at - 1].has_word_of(&terms[at]) {
        let c = terms[at - 1].take_coefficient();
        terms[at].gain(p, c);
    }
}

/// Carries each coefficient on to the next term with the same word.
fn carry(p: Prime, terms: &mut Vec<Term>)
    requires { AreResidues p terms.old.items }
    ensures residues { AreResidues p terms.new.items }
    ensures carried { terms.new.items ≡ carried p terms.old.items }
{
    for at in 1..terms.len() {
        carry_pair(p, terms, at);
    }
}

/// Leaves out the terms without a coefficient.
fn drop_zeros(terms: &mut Vec<Term>)
    ensures { terms.new.items ≡ filter has_coefficient terms.old.items }
{
    terms.retain(|t| !t.is_zero());
}

/// Brings a list of terms into normal form.
pub fn collect(p: Prime, terms: &mut Vec<Term>)
    requires { AreResidues p terms.old.items }
    ensures normal { terms.new.items ≡ normal_form p terms.old.items }
    ensures residues { AreResidues p terms.new.items }
{
    sort_by_word(terms);
    carry(p, terms);
    drop_zeros(terms);
}
