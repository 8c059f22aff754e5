//! Alphabets.

ghost use Rattle.nc_algebra.specs.Alphabets.{IsAlphabet, IsLetterIn, IsTextGenerator, IsTextWord, is_name, letter_at};
ghost use Rattle.nc_algebra.specs.Lists.{IsDistinct};
ghost use Rattle.std.specs.List.{list_any};
ghost use Rattle.std.specs.Prelude.{All, IsTrue, length, ◌<◌, ◌↔◌, ◌≡◌};
ghost use Rattle.std.specs.Str.{bytes_eq};

use crate::name::{Name, is_name};
use nc_field::Prime;
use nc_poly::Poly;
use nc_words::Letter;
use std::marker::Model;

/// The names and the weights of the letters of a text: what stands at place i belongs to letter i.
#[derive(Drop)]
pub struct Alphabet {
    names: Vec<Name>,
    weights: Vec<u8>,
}

impl Model for Alphabet {
    ghost use Rattle.nc_algebra.specs.Alphabets.{Alphabet, IsAlphabet};

    ghost Value = { Alphabet };

    ghost view = { λ a. record { names = a.names.items; weights = a.weights.items } };

    ghost invariant = { λ a.
        IsAlphabet (record { names = a.names.items; weights = a.weights.items }) };
}

/// Whether a name is one of these.
pub fn has_name(names: &[Name], name: &[u8]) -> bool
    ensures { result ≡ list_any (λ n. bytes_eq n name.now) names.now }
{
    names.iter().any(|n| n.bytes() == name)
}

/// Whether they are names.
fn are_names(names: &[Name]) -> bool
    ensures { IsTrue result ↔ All (λ n. IsTrue (is_name n)) names.now }
{
    names.iter().all(|n| is_name(n.bytes()))
}

/// Whether no name stands twice.
fn are_distinct(names: &[Name]) -> bool
    ensures { IsTrue result ↔ IsDistinct names.now }
{
    match names {
        [] => true,
        [first, rest @ ..] => !has_name(rest, first.bytes()) && are_distinct(rest),
    }
}

/// Whether they are the same names, in the same order.
fn same_names(a: &[Name], b: &[Name]) -> bool
    ensures { IsTrue result ↔ (a.now ≡ b.now) }
{
    match (a, b) {
        ([], []) => true,
        ([first, a @ ..], [second, b @ ..]) => first.same(second) && same_names(a, b),
        _ => false,
    }
}

impl Alphabet {
    /// The alphabet with these names, of which there are 1 to 64, all different, and these weights, one from 1 to 100
    /// for each name.
    pub fn of(names: Vec<Name>, weights: Vec<u8>) -> Alphabet
        requires { IsAlphabet (record { names = names.items; weights = weights.items }) }
        ensures { result ≡ record { names = names.items; weights = weights.items } }
    {
        Alphabet { names, weights }
    }

    /// Whether `of` takes these.
    pub fn takes(names: &[Name], weights: &[u8]) -> bool
        ensures { IsTrue result ↔ IsAlphabet
            (record { names = names.now; weights = weights.now }) }
    {
        let few = !names.is_empty() && names.len() <= 64 && weights.len() == names.len();
        few && are_names(names)
            && are_distinct(names)
            && weights.iter().all(|w| 1 <= *w && *w <= 100)
    }

    /// Whether it is the other alphabet.
    pub fn same(&self, other: &Alphabet) -> bool
        ensures { IsTrue result ↔ (self.now ≡ other.now) }
    {
        same_names(self.names(), other.names()) && self.weights() == other.weights()
    }

    /// Makes known to the prover what always holds of an alphabet. It does nothing else.
    pub fn recall_rule(&self)
        ensures alphabet { IsAlphabet self.now }
    {
        let _ = &self.names;
    }

    /// The names, that of letter 0 first.
    pub fn names(&self) -> &[Name]
        ensures names { result.now ≡ self.now.names }
        ensures alphabet { IsAlphabet self.now }
    {
        self.names.as_slice()
    }

    /// The weights, that of letter 0 first.
    pub fn weights(&self) -> &[u8]
        ensures { result.now ≡ self.now.weights }
    {
        self.weights.as_slice()
    }

    /// The letter with this number.
    pub fn letter(&self, index: usize) -> Letter
        requires { index < length self.now.names }
        ensures { result ≡ letter_at self.now index }
    {
        let weight = self.weights[index];
        match Letter::of(index as u8, weight) {
            Some(letter) => letter,
            None => unreachable!(),
        }
    }

    /// Whether the letter is one of the alphabet's.
    pub fn has(&self, letter: Letter) -> bool
        ensures { IsTrue result ↔ IsLetterIn self.now letter }
    {
        let index = usize::from(letter.index());
        index < self.names().len() && self.letter(index) == letter
    }

    /// Whether the letters are a word that may stand in a text: of at most 255 of the alphabet's letters.
    pub fn is_text_word(&self, letters: &[Letter]) -> bool
        ensures { IsTrue result ↔ IsTextWord self.now letters.now }
    {
        letters.len() <= 255 && letters.iter().all(|letter| self.has(*letter))
    }

    /// Whether the polynomial may be a generator over the alphabet: it is not zero, its coefficients lie below the
    /// prime, and its words may stand in a text.
    pub fn is_generator(&self, prime: Prime, f: &Poly) -> bool
        ensures { IsTrue result ↔ IsTextGenerator self.now prime f.now }
    {
        let terms = f.terms();
        !f.is_zero()
            && terms.iter().all(|t| t.coefficient < prime.number())
            && terms.iter().all(|t| self.is_text_word(t.letters()))
    }
}
