//! One pair of the search.

ghost use Rattle.nc_algebra.specs.Words.{OccursAt, word_weight};
ghost use Rattle.nc_index.specs.Pairs.{IsFirstPlace, RegularPlace};
ghost use Rattle.std.specs.Arc.{arc_value};
ghost use Rattle.std.specs.Ordering.{nat_cmp};
ghost use Rattle.std.specs.Prelude.{IfOk, IsTrue, length, ◌*◌, ◌+◌, ◌^◌, ◌↔◌, ◌≡◌, ◌≤◌};

use nc_sig::Sig;
use nc_words::{Letter, Word};
use std::alloc::{AllocError, Global};
use std::cmp::Ordering;
use std::marker::Model;
use std::sync::Arc;

/// A leading word, and the signature of its entry.
#[derive(Drop)]
pub(crate) struct Lead {
    word: Word,
    signature: Arc<Sig, Global>,
    /// The signature's, kept here since it settles most searches.
    degree: u32,
}

impl Model for Lead {
    ghost use Rattle.nc_index.specs.Pairs.{Lead};
    ghost use Rattle.std.specs.Arc.{arc_value};
    ghost use Rattle.std.specs.Prelude.{◌≡◌};

    ghost Value = { Lead };

    ghost view = { λ l. record { word = l.word; signature = arc_value l.signature } };

    ghost invariant = { λ l. l.degree ≡ (arc_value l.signature).degree };
}

impl Lead {
    /// The pair of a copy of the word and of the signature, which is shared.
    pub(crate) fn of(word: &Word, signature: &Arc<Sig, Global>) -> Result<Lead, AllocError>
        ensures { IfOk result (λ l. l ≡ record {
          word = word.now;
          signature = arc_value signature.now;
        }) }
    {
        Ok(Lead {
            word: word.copy()?,
            signature: Arc::try_clone(signature)?,
            degree: signature.degree,
        })
    }

    /// The letters of the word.
    fn letters(&self) -> &[Letter]
        ensures { result.now ≡ self.now.word }
    {
        self.word.letters()
    }

    /// The leftmost place in the word, which weighs this, where the multiple has a signature below the bound.
    ///
    /// All places give one degree, so that most pairs are settled by it.
    pub(crate) fn first_place(&self, word: &[Letter], weight: u128, bound: &Sig) -> Option<usize>
        requires weight { weight ≡ word_weight word.now }
        requires few { weight ≤ 100 * length word.now }
        ensures { IsFirstPlace self.now word.now bound.now result }
    {
        match self.compare_degree(weight, bound) {
            Ordering::Less => Word::place_of(word, self.letters(), 0),
            Ordering::Equal => self.first_below(word, bound),
            Ordering::Greater => None,
        }
    }

    /// Compares the degree of a multiple with a leading word of this weight with that of the bound.
    fn compare_degree(&self, weight: u128, bound: &Sig) -> Ordering
        requires { weight ≤ 100 * 2 ^ 64 }
        ensures { result ≡ nat_cmp (weight + self.now.signature.degree)
            (bound.now.degree + word_weight self.now.word) }
    {
        let multiple = weight + u128::from(self.degree);
        let limit = u128::from(bound.degree) + u128::from(self.word.weight());
        multiple.cmp(&limit)
    }

    /// The same where the degrees are equal: of two places the left one has the lesser signature.
    fn first_below(&self, word: &[Letter], bound: &Sig) -> Option<usize>
        ensures { IsFirstPlace self.now word.now bound.now result }
    {
        let place = Word::place_of(word, self.letters(), 0)?;
        if self.is_regular(word, place, bound) {
            Some(place)
        } else {
            None
        }
    }

    /// Whether the multiple at this place has a signature below the bound.
    fn is_regular(&self, word: &[Letter], place: usize, bound: &Sig) -> bool
        requires { OccursAt self.now.word word.now place }
        ensures { IsTrue result ↔ RegularPlace self.now word.now bound.now place }
    {
        let (left, rest) = word.split_at(place);
        let right = &rest[self.letters().len()..];
        self.signature.compare_times(left, right, bound).is_lt()
    }
}
