//! Settings.

ghost use Rattle.nc_algebra.specs.Alphabets.{IsTextGenerator};
ghost use Rattle.nc_algebra.specs.Elements.{IsGenerator, generator, generator_weight};
ghost use Rattle.nc_algebra.specs.Settings.{IsSetting, NamedSetting};
ghost use Rattle.std.specs.Prelude.{IsTrue, ◌↔◌, ◌≡◌, ◌≤◌};

use crate::alphabet::Alphabet;
use crate::name::Name;
use nc_field::Prime;
use nc_poly::Poly;
use std::marker::Model;

/// A prime, an alphabet, and the generators.
#[derive(Drop)]
pub struct Setting {
    prime: Prime,
    alphabet: Alphabet,
    generators: Vec<Poly>,
}

impl Model for Setting {
    ghost use Rattle.nc_algebra.specs.Settings.{IsSetting, NamedSetting};

    ghost Value = { NamedSetting };

    ghost view = { λ s. record {
      alphabet = s.alphabet;
      setting = record { prime = s.prime; generators = s.generators.items };
    } };

    ghost invariant = { λ s. IsSetting (record {
      alphabet = s.alphabet;
      setting = record { prime = s.prime; generators = s.generators.items };
    }) };
}

/// Whether they are the same polynomials, in the same order.
fn same_polynomials(a: &[Poly], b: &[Poly]) -> bool
    ensures { IsTrue result ↔ (a.now ≡ b.now) }
{
    match (a, b) {
        ([], []) => true,
        ([first, a @ ..], [second, b @ ..]) => first.same(second) && same_polynomials(a, b),
        _ => false,
    }
}

impl Setting {
    /// The setting with this prime, this alphabet, and these generators, at most 1,000, none of them zero, whose words
    /// are over the alphabet and have at most 255 letters.
    pub fn of(prime: Prime, alphabet: Alphabet, generators: Vec<Poly>) -> Setting
        requires { IsSetting (record {
          alphabet = alphabet;
          setting = record { prime = prime; generators = generators.items };
        }) }
        ensures { result ≡ record {
          alphabet = alphabet;
          setting = record { prime = prime; generators = generators.items };
        } }
    {
        Setting {
            prime,
            alphabet,
            generators,
        }
    }

    /// Whether `of` takes these.
    pub fn takes(prime: Prime, alphabet: &Alphabet, generators: &[Poly]) -> bool
        ensures { IsTrue result ↔ IsSetting
            (record {
              alphabet = alphabet.now;
              setting = record { prime = prime; generators = generators.now };
            }) }
    {
        alphabet.recall_rule();
        generators.len() <= 1000 && generators.iter().all(|f| alphabet.is_generator(prime, f))
    }

    /// Whether it is the other setting.
    pub fn same(&self, other: &Setting) -> bool
        ensures { IsTrue result ↔ (self.now ≡ other.now) }
    {
        self.prime.number() == other.prime.number()
            && self.alphabet.same(&other.alphabet)
            && same_polynomials(self.generators(), other.generators())
    }

    /// Makes known to the prover what always holds of a setting. It does nothing else.
    pub fn recall_rule(&self)
        ensures setting { IsSetting self.now }
    {
        let _ = &self.prime;
    }

    /// The prime.
    pub fn prime(&self) -> Prime
        ensures prime { result ≡ self.now.setting.prime }
        ensures setting { IsSetting self.now }
    {
        self.prime
    }

    /// The alphabet.
    pub fn alphabet(&self) -> &Alphabet
        ensures alphabet { result.now ≡ self.now.alphabet }
        ensures setting { IsSetting self.now }
    {
        &self.alphabet
    }

    /// The names of the letters, that of letter 0 first.
    pub fn names(&self) -> &[Name]
        ensures names { result.now ≡ self.now.alphabet.names }
        ensures setting { IsSetting self.now }
    {
        self.alphabet.names()
    }

    /// The weights of the letters, that of letter 0 first.
    pub fn weights(&self) -> &[u8]
        ensures { result.now ≡ self.now.alphabet.weights }
    {
        self.alphabet.weights()
    }

    /// The generators, the one with number 1 first.
    pub fn generators(&self) -> &[Poly]
        ensures generators { result.now ≡ self.now.setting.generators }
        ensures setting { IsSetting self.now }
    {
        self.generators.as_slice()
    }

    /// The generator with this number; they are counted from 1.
    pub fn generator(&self, i: u32) -> &Poly
        requires { IsGenerator self.now.setting i }
        ensures generator { result.now ≡ generator self.now.setting i }
        ensures text { IsTextGenerator self.now.alphabet self.now.setting.prime result.now }
        ensures setting { IsSetting self.now }
    {
        &self.generators[i as usize - 1]
    }

    /// What the leading word of the generator with this number weighs.
    pub fn weight(&self, i: u32) -> u32
        requires { IsGenerator self.now.setting i }
        ensures weight { result ≡ generator_weight self.now.setting i }
        ensures few { result ≤ 25500 }
    {
        match self.generator(i).lead() {
            Some(term) => term.word.weight(),
            None => unreachable!(),
        }
    }
}
