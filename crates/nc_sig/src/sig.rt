//! Signatures.

ghost use Rattle.nc_algebra.specs.Limits.{max_letters};
ghost use Rattle.nc_algebra.specs.Monomials.{above_degree, compare_sigs, monomial_of, sig_times, unit_monomial};
ghost use Rattle.nc_algebra.specs.Words.{word_weight};
ghost use Rattle.nc_sig.specs.Orders.{sigs_order};
ghost use Rattle.nc_sig.specs.Sigs.{IsBoundBy, IsQuotient};
ghost use Rattle.std.specs.Cmp.{eq_by_cmp_equiv, partial_equiv_from_equiv, partial_order_from_total};
ghost use Rattle.std.specs.Ordering.{is_eq};
ghost use Rattle.std.specs.Prelude.{IfOk, IsTrue, Some, length, refl, ◌+◌, ◌<◌, ◌≡◌, ◌≤◌, ◌↔◌};

use nc_words::{Joined, Letter, Word, weight_of};
use std::alloc::{AllocError, Global};
use std::cmp::Ordering;
use std::marker::Model;

/// The module monomial `left [generator] right`, with its degree. Generators are counted from 1.
#[derive(Drop)]
pub struct Sig {
    /// What the two words and the generator weigh together; so it is at least what the words weigh.
    pub degree: u32,
    pub generator: u32,
    pub left: Word,
    pub right: Word,
}

impl Model for Sig {
    ghost use Rattle.nc_algebra.specs.Monomials.{Sig};
    ghost use Rattle.nc_algebra.specs.Words.{word_weight};
    ghost use Rattle.std.specs.Prelude.{◌+◌, ◌≤◌};

    ghost Value = { Sig };

    ghost view = { λ s. record {
      degree = s.degree;
      generator = s.generator;
      left = s.left;
      right = s.right;
    } };

    ghost invariant = { λ s. word_weight s.left + word_weight s.right ≤ s.degree };

    ghost inverse = { λ s. record {
      degree = s.degree;
      generator = s.generator;
      left = s.left;
      right = s.right;
    } };
}

impl Sig {
    /// The monomial `left [generator] right`, where the generator has this weight. No memory is taken.
    pub fn of(weight: u32, generator: u32, left: Word, right: Word) -> Sig
        requires { word_weight left + weight + word_weight right ≤ 300000 }
        ensures { result ≡ record {
          degree = word_weight left + weight + word_weight right;
          generator = generator;
          left = left;
          right = right;
        } }
    {
        let degree = left.weight() + weight + right.weight();
        Sig {
            degree,
            generator,
            left,
            right,
        }
    }

    /// Above each monomial of at most this degree and below all others: generator 0 stands for none. No memory is taken.
    pub fn above(alloc: Global, degree: u32) -> Sig
        requires { degree < 4294967295 }
        ensures value { result ≡ above_degree degree }
        ensures bound { IsBoundBy result degree }
    {
        Sig {
            degree: degree + 1,
            generator: 0,
            left: Word::empty(alloc),
            right: Word::empty(alloc),
        }
    }

    /// Whether it is its generator by itself: no word stands before or behind it.
    pub fn is_unit(&self) -> bool
        ensures { IsTrue result ↔ (monomial_of self.now ≡ unit_monomial self.now.generator) }
    {
        self.left.letters().is_empty() && self.right.letters().is_empty()
    }

    /// An equal one.
    pub fn copy(&self) -> Result<Sig, AllocError>
        ensures { IfOk result (λ s. s ≡ self.now) }
    {
        let left = self.left.copy()?;
        let right = self.right.copy()?;
        Ok(Sig {
            degree: self.degree,
            generator: self.generator,
            left,
            right,
        })
    }

    /// The multiple `u self v`.
    pub fn times(&self, alloc: Global, u: &[Letter], v: &[Letter]) -> Result<Sig, AllocError>
        requires degree { word_weight u.now + self.now.degree + word_weight v.now ≤ 300000 }
        requires left { length u.now + length self.now.left ≤ max_letters }
        requires right { length self.now.right + length v.now ≤ max_letters }
        ensures { IfOk result (λ s. s ≡ sig_times u.now self.now v.now) }
    {
        let left = Word::join(alloc, u, self.left.letters(), &[])?;
        let right = Word::join(alloc, self.right.letters(), v, &[])?;
        let degree = weight_of(u) + u128::from(self.degree) + weight_of(v);
        Ok(Sig {
            degree: degree as u32,
            generator: self.generator,
            left,
            right,
        })
    }

    /// What stands before and behind the other one in this one, where the other one divides it.
    pub fn divide(&self, by: &Sig) -> Option<(&[Letter], &[Letter])>
        ensures { IsQuotient (monomial_of by.now) (monomial_of self.now) result }
    {
        if self.generator != by.generator
            || self.left.weight() < by.left.weight()
            || self.right.weight() < by.right.weight()
        {
            return None;
        }
        let Some(before) = self.left.letters().strip_suffix(by.left.letters()) else {
            return None;
        };
        let Some(behind) = self.right.letters().strip_prefix(by.right.letters()) else {
            return None;
        };
        Some((before, behind))
    }

    /// Compares the multiple `u self v` with the other one, without making it.
    pub fn compare_times(&self, u: &[Letter], v: &[Letter], other: &Sig) -> Ordering
        ensures { result ≡ compare_sigs (sig_times u.now self.now v.now) other.now }
    {
        (weight_of(u) + u128::from(self.degree) + weight_of(v))
            .cmp(&u128::from(other.degree))
            .then_with(|| self.generator.cmp(&other.generator))
            .then_with(|| {
                Joined::of_two(u, self.left.letters()).compare(&Joined::of_word(
                    other.left.letters(),
                ))
            })
            .then_with(|| {
                Joined::of_two(self.right.letters(), v).compare(&Joined::of_word(
                    other.right.letters(),
                ))
            })
    }
}

impl PartialEq for Sig {
    ghost eq = { λ s t. is_eq (compare_sigs s t) };

    ghost laws = { partial_equiv_from_equiv (eq_by_cmp_equiv sigs_order) };

    fn eq(&self, other: &Sig) -> bool {
        self.cmp(other).is_eq()
    }
}

impl Eq for Sig {
    ghost laws = { eq_by_cmp_equiv sigs_order };
}

impl PartialOrd for Sig {
    ghost partial_cmp = { λ s t. Some (compare_sigs s t) };

    ghost laws = { partial_order_from_total sigs_order };

    fn partial_cmp(&self, other: &Sig) -> Option<Ordering> {
        Some(self.cmp(other))
    }
}

/// By degree, then generator, then the left word, then the right one.
impl Ord for Sig {
    ghost cmp = { compare_sigs };

    ghost total = { sigs_order };

    ghost matches_partial_cmp = { λ s t. refl };

    ghost matches_eq = { λ s t. refl };

    fn cmp(&self, other: &Sig) -> Ordering {
        self.degree
            .cmp(&other.degree)
            .then_with(|| self.generator.cmp(&other.generator))
            .then_with(|| self.left.cmp(&other.left))
            .then_with(|| self.right.cmp(&other.right))
    }
}
