//! Terms.

ghost use Rattle.nc_algebra.specs.Limits.{max_letters};
ghost use Rattle.nc_algebra.specs.Words.{compare_words, same_word};
ghost use Rattle.nc_poly.specs.Multiples.{shifted_of};
ghost use Rattle.std.specs.Prelude.{IfOk, length, nat_eq, ◌%◌, ◌*◌, ◌+◌, ◌++◌, ◌<◌, ◌≡◌, ◌≤◌};

use nc_field::{Prime, Residue};
use nc_words::{Letter, Word};
use std::alloc::{AllocError, Global};
use std::cmp::Ordering;
use std::marker::Model;

/// A coefficient and its word.
#[derive(Drop, PartialEq, Eq)]
pub struct Term {
    pub coefficient: Residue,
    pub word: Word,
}

impl Model for Term {
    ghost use Rattle.nc_algebra.specs.Sums.{Term};
    ghost use Rattle.nc_algebra.specs.Words.{Word};

    ghost Value = { Term Word };

    ghost view = { λ t. record { coefficient = t.coefficient; key = t.word } };

    ghost inverse = { λ t. record { coefficient = t.coefficient; word = t.key } };
}

impl Term {
    /// The term c w.
    pub fn of(c: Residue, word: Word) -> Term
        ensures { result ≡ record { coefficient = c; key = word } }
    {
        Term {
            coefficient: c,
            word,
        }
    }

    /// An equal term.
    pub fn copy(&self) -> Result<Term, AllocError>
        ensures { IfOk result (λ t. t ≡ self.now) }
    {
        let word = self.word.copy()?;
        Ok(Term::of(self.coefficient, word))
    }

    /// The word and its coefficient.
    pub(crate) fn into_pair(self) -> (Word, Residue)
        ensures word { result.0 ≡ self.key }
        ensures coefficient { result.1 ≡ self.coefficient }
    {
        let Term { coefficient, word } = self;
        (word, coefficient)
    }

    /// The letters of the word.
    pub fn letters(&self) -> &[Letter]
        ensures letters { result.now ≡ self.now.key }
        ensures few { length self.now.key ≤ max_letters }
    {
        self.word.letters()
    }

    /// Compares the words.
    pub fn order(&self, other: &Term) -> Ordering
        ensures { result ≡ compare_words self.now.key other.now.key }
    {
        self.word.cmp(&other.word)
    }

    /// Whether the two have one word.
    pub fn has_word_of(&self, other: &Term) -> bool
        ensures { result ≡ same_word self.now.key other.now.key }
    {
        self.order(other).is_eq()
    }

    /// Whether the coefficient is 0.
    pub fn is_zero(&self) -> bool
        ensures { result ≡ nat_eq self.now.coefficient 0 }
    {
        self.coefficient == 0
    }

    /// Takes the coefficient out, and leaves 0.
    pub(crate) fn take_coefficient(&mut self) -> Residue
        ensures value { result ≡ self.old.coefficient }
        ensures after { self.new ≡ record { coefficient = 0; key = self.old.key } }
    {
        let c = self.coefficient;
        self.coefficient = 0;
        c
    }

    /// Adds to the coefficient.
    pub(crate) fn gain(&mut self, p: Prime, c: Residue)
        requires first { self.old.coefficient < p }
        requires second { c < p }
        ensures { self.new ≡ record {
          coefficient = (c + self.old.coefficient) % p;
          key = self.old.key;
        } }
    {
        self.coefficient = p.add(c, self.coefficient);
    }

    /// The multiple c u t v of this term t.
    pub fn multiple(
        &self,
        alloc: Global,
        p: Prime,
        c: Residue,
        u: &[Letter],
        v: &[Letter],
    ) -> Result<Term, AllocError>
        requires factor { c < p }
        requires residue { self.now.coefficient < p }
        requires few { length u.now + length self.now.key + length v.now ≤ max_letters }
        ensures { IfOk result (λ t. t ≡ record {
          coefficient = (c * self.now.coefficient) % p;
          key = u.now ++ (self.now.key ++ v.now);
        }) }
    {
        let word = Word::join(alloc, u, self.word.letters(), v)?;
        Ok(Term::of(p.mul(c, self.coefficient), word))
    }

    /// The multiple u t v of this term t.
    pub fn shifted(&self, alloc: Global, u: &[Letter], v: &[Letter]) -> Result<Term, AllocError>
        requires few { length u.now + length self.now.key + length v.now ≤ max_letters }
        ensures { IfOk result (λ t. t ≡ shifted_of u.now v.now self.now) }
    {
        let word = Word::join(alloc, u, self.letters(), v)?;
        Ok(Term::of(self.coefficient, word))
    }
}
