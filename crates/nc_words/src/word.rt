//! Words.

ghost use Rattle.nc_algebra.proofs.Words.{words_order};
ghost use Rattle.nc_algebra.specs.Limits.{max_letters};
ghost use Rattle.nc_algebra.specs.Words.{compare_words, same_word, word_weight};
ghost use Rattle.std.specs.Cmp.{eq_by_cmp_equiv, partial_equiv_from_equiv, partial_order_from_total};
ghost use Rattle.std.specs.Prelude.{IfOk, IsOk, Some, [], length, refl, ◌*◌, ◌+◌, ◌++◌, ◌≡◌, ◌≤◌};

use crate::letter::Letter;
use smallvec::SmallVec;
use std::alloc::{AllocError, Global};
use std::cmp::Ordering;
use std::marker::Model;

/// The most letters of a word.
pub const MAX_LETTERS: usize = 200_000;

/// What the letters weigh together.
pub fn weight_of(letters: &[Letter]) -> u128
    ensures weight { result ≡ word_weight letters.now }
    ensures few { result ≤ 100 * length letters.now }
{
    let mut sum = 0;
    for letter in letters {
        sum += u128::from(letter.weight());
    }
    sum
}

/// A word, as the list of its letters. The first 24 letters need no allocation.
#[derive(Drop)]
pub struct Word {
    kept: SmallVec<Letter, 24>,
    /// What the letters weigh together, so that words of different weight compare at once.
    weight: u32,
}

impl Model for Word {
    ghost use Rattle.nc_algebra.specs.Limits.{max_letters};
    ghost use Rattle.nc_algebra.specs.Words.{Word, word_weight};
    ghost use Rattle.std.specs.Prelude.{length, ◌*◌, ◌≡◌, ◌≤◌};

    ghost Value = { Word };

    ghost view = { λ w. w.kept.items };

    ghost invariant = { λ w. (length w.kept.items ≤ max_letters)
        × (w.weight ≡ word_weight w.kept.items) × (w.weight ≤ 100 * length w.kept.items) };
}

impl Word {
    /// The empty word.
    pub fn empty(alloc: Global) -> Word
        ensures { result ≡ [] }
    {
        Word {
            kept: SmallVec::new(alloc),
            weight: 0,
        }
    }

    /// The three in a row.
    pub fn join(alloc: Global, a: &[Letter], b: &[Letter], c: &[Letter]) -> Result<Word, AllocError>
        requires { length a.now + length b.now + length c.now ≤ max_letters }
        ensures letters { IfOk result (λ w. w ≡ a.now ++ (b.now ++ c.now)) }
        ensures succeeds { length a.now + length b.now + length c.now ≤ 24 → IsOk result }
    {
        let mut kept = SmallVec::new(alloc);
        kept.reserve(a.len() + b.len() + c.len())?;
        kept.extend_from_slice(a)?;
        kept.extend_from_slice(b)?;
        kept.extend_from_slice(c)?;
        let weight = (weight_of(a) + weight_of(b) + weight_of(c)) as u32;
        Ok(Word { kept, weight })
    }

    /// The letters, the first one first.
    pub fn letters(&self) -> &[Letter]
        ensures letters { result.now ≡ self.now }
        ensures few { length self.now ≤ max_letters }
    {
        self.kept.as_slice()
    }

    /// What the letters weigh together.
    pub fn weight(&self) -> u32
        ensures weight { result ≡ word_weight self.now }
        ensures few { result ≤ 20000000 }
    {
        self.weight
    }

    /// An equal word.
    pub fn copy(&self) -> Result<Word, AllocError>
        ensures letters { IfOk result (λ w. w ≡ self.now) }
        ensures succeeds { length self.now ≤ 24 → IsOk result }
    {
        let kept = SmallVec::from_slice(*self.kept.allocator(), self.kept.as_slice())?;
        Ok(Word {
            kept,
            weight: self.weight,
        })
    }

    /// The order of words as lists of letters: the lighter one is less, and of two with one weight the one with
    /// the lesser letter at the first place where they differ.
    pub fn compare(a: &[Letter], b: &[Letter]) -> Ordering
        ensures { result ≡ compare_words a.now b.now }
    {
        weight_of(a).cmp(&weight_of(b)).then(a.cmp(b))
    }
}

impl PartialEq for Word {
    ghost eq = { same_word };

    ghost laws = { partial_equiv_from_equiv (eq_by_cmp_equiv words_order) };

    fn eq(&self, other: &Word) -> bool {
        self.letters() == other.letters()
    }
}

impl Eq for Word {
    ghost laws = { eq_by_cmp_equiv words_order };
}

impl PartialOrd for Word {
    ghost partial_cmp = { λ u v. Some (compare_words u v) };

    ghost laws = { partial_order_from_total words_order };

    fn partial_cmp(&self, other: &Word) -> Option<Ordering> {
        Some(self.cmp(other))
    }
}

/// The order that `Word::compare` gives, on words whose weights are known.
impl Ord for Word {
    ghost cmp = { compare_words };

    ghost total = { words_order };

    ghost matches_partial_cmp = { λ u v. refl };

    ghost matches_eq = { λ u v. refl };

    fn cmp(&self, other: &Word) -> Ordering {
        self.weight
            .cmp(&other.weight)
            .then(self.letters().cmp(other.letters()))
    }
}
