//! The pairs of a search.

ghost use Rattle.nc_algebra.specs.Limits.{max_leads};
ghost use Rattle.nc_index.specs.Pairs.{HasRegularAfter, IsFirstRegular};
ghost use Rattle.std.specs.Arc.{arc_value};
ghost use Rattle.std.specs.Prelude.{IfOk, IsTrue, OnErr, OnOk, [], length, slice_get, ◌++◌, ◌<◌, ◌∷◌, ◌≡◌, ◌↔◌};

use crate::hit::Hit;
use crate::lead::Lead;
use nc_chunks::Chunks;
use nc_sig::Sig;
use nc_words::{Letter, Word, weight_of};
use std::alloc::{AllocError, Global};
use std::marker::Model;
use std::sync::Arc;

/// The most pairs.
pub const MAX_LEADS: u32 = 4_000_000_000;

/// Pairs of a leading word and a signature, in the order in which they were added.
#[derive(Drop)]
pub struct Leads {
    pairs: Chunks<Lead>,
}

impl Model for Leads {
    ghost use Rattle.nc_algebra.specs.Limits.{max_leads};
    ghost use Rattle.nc_index.specs.Pairs.{Lead};
    ghost use Rattle.std.specs.Prelude.{List, length, ◌≤◌};

    ghost Value = { List Lead };

    ghost view = { λ l. l.pairs };

    ghost invariant = { λ l. length l.pairs ≤ max_leads };
}

impl Leads {
    /// No pairs. No memory is taken.
    pub fn empty(alloc: Global) -> Leads
        ensures { result ≡ [] }
    {
        Leads {
            pairs: Chunks::empty(alloc),
        }
    }

    /// The number of pairs.
    pub fn len(&self) -> u32
        ensures { result ≡ length self.now }
    {
        self.pairs.len() as u32
    }

    /// The same pairs, shared.
    pub fn share(&self) -> Result<Leads, AllocError>
        ensures { IfOk result (λ l. l ≡ self.now) }
    {
        Ok(Leads {
            pairs: self.pairs.share()?,
        })
    }

    /// Adds a pair: a copy of the word, and the signature, which is shared.
    pub fn add(&mut self, word: &Word, signature: &Arc<Sig, Global>) -> Result<(), AllocError>
        requires { length self.old < max_leads }
        ensures added { OnOk result (self.new ≡ self.old
            ++ (record { word = word.now; signature = arc_value signature.now }) ∷ []) }
        ensures kept { OnErr result (self.new ≡ self.old) }
    {
        self.pairs.push(Lead::of(word, signature)?)?;
        Ok(())
    }

    /// The pair with this index, counted from 0.
    fn pair(&self, index: u32) -> &Lead
        requires { index < length self.now }
        ensures { slice_get self.now index ≡ Some result.now }
    {
        self.pairs.get(index as usize)
    }

    /// The first pair whose word stands in this word where the multiple has a signature below the bound, and the
    /// leftmost such place. No memory is taken.
    pub fn first_regular(&self, word: &[Letter], bound: &Sig) -> Option<Hit>
        ensures { IsFirstRegular self.now word.now bound.now result }
    {
        let weight = weight_of(word);
        for index in 0..self.len() {
            if let Some(place) = self.pair(index).first_place(word, weight, bound) {
                let number = index + 1;
                return Some(Hit { number, place });
            }
        }
        None
    }

    /// Whether some pair behind the first `after` has its word in this word where the multiple has a signature below the
    /// bound. No memory is taken.
    pub fn regular_after(&self, word: &[Letter], bound: &Sig, after: u32) -> bool
        ensures { IsTrue result ↔ HasRegularAfter self.now after word.now bound.now }
    {
        let weight = weight_of(word);
        for index in after..self.len() {
            if let Some(_) = self.pair(index).first_place(word, weight, bound) {
                return true;
            }
        }
        false
    }
}
