//! Sums of many multiples.

ghost use Rattle.nc_algebra.specs.Limits.{max_letters};
ghost use Rattle.nc_algebra.specs.Polynomials.{AreResidues, normal_form, polynomial_times};
ghost use Rattle.nc_algebra.specs.Sums.{SameSum, minus};
ghost use Rattle.nc_algebra.specs.Words.{same_word};
ghost use Rattle.nc_poly.specs.Multiples.{multiples_of};
ghost use Rattle.std.specs.Prelude.{All, OnErr, OnOk, length, ◌+◌, ◌++◌, ◌<◌, ◌≡◌, ◌≤◌};

use crate::collect::collect;
use crate::multiple::push_multiple;
use crate::poly::Poly;
use crate::term::Term;
use nc_field::{Prime, Residue};
use nc_words::Letter;
use std::alloc::{AllocError, Global};
use std::marker::Model;

/// Makes room for more terms: where they don't fit, terms with one word are added up first, and only then, where the
/// list stays more than half full, it grows to twice its length. So each term is sorted about as often as the list
/// doubles, and the memory is that of the sum and of one more piece as long.
fn make_room(p: Prime, kept: &mut Vec<Term>, more: usize) -> Result<(), AllocError>
    requires { AreResidues p kept.old.items }
    ensures same { SameSum same_word p kept.new.items kept.old.items }
    ensures residues { AreResidues p kept.new.items }
{
    if kept.capacity() - kept.len() < more {
        collect(p, kept);
        let room = kept.len().max(more);
        kept.reserve(room)?;
    }
    Ok(())
}

/// A sum from which many multiples are subtracted. Contracts see a list of terms whose sum it is; only its coefficients
/// count.
///
/// The terms are appended as they come, and those with one word are added up when the list is full: so the work grows as
/// n log n with the number n of terms that were appended.
#[derive(Drop)]
pub struct Accumulator {
    kept: Vec<Term>,
}

impl Model for Accumulator {
    ghost use Rattle.nc_algebra.specs.Polynomials.{Polynomial};

    ghost Value = { Polynomial };

    ghost view = { λ s. s.kept.items };
}

impl Accumulator {
    /// The sum that is this polynomial. No memory is taken.
    pub fn of(f: Poly) -> Accumulator
        ensures { result ≡ f }
    {
        Accumulator {
            kept: f.into_terms(),
        }
    }

    /// Subtracts c u g v. After `Err` the sum is what it was.
    pub fn sub_multiple(
        &mut self,
        alloc: Global,
        p: Prime,
        c: Residue,
        u: &[Letter],
        g: &Poly,
        v: &[Letter],
    ) -> Result<(), AllocError>
        requires factor { c < p }
        requires residues { AreResidues p self.old }
        requires other_residues { AreResidues p g.now }
        requires few { All (λ t. length u.now + length t.key + length v.now ≤ max_letters) g.now }
        ensures difference { OnOk result
            (SameSum same_word p self.new (minus p self.old c
            (polynomial_times u.now g.now v.now))) }
        ensures residues { AreResidues p self.new }
        ensures err { OnErr result (SameSum same_word p self.new self.old) }
    {
        make_room(p, &mut self.kept, g.terms().len())?;
        let len = self.kept.len();
        match push_multiple(alloc, &mut self.kept, p, p.neg(c), u, g.terms(), v) {
            Ok(()) => Ok(()),
            Err(error) => {
                self.kept.truncate(len);
                Err(error)
            }
        }
    }

    /// The polynomial that the sum is. No memory is taken.
    pub fn finish(self, p: Prime) -> Poly
        requires { AreResidues p self }
        ensures { result ≡ normal_form p self }
    {
        let Accumulator { kept } = self;
        Poly::of_terms(p, kept)
    }
}
