//! The primes, and arithmetic on the numbers below one of them.

ghost use Rattle.std.specs.Prelude.{ℕ, ◌≡◌, ◌+◌, ◌-◌, ◌*◌, ◌%◌, ◌<◌, ◌↔◌, IfSome, IsSome, IsTrue};
ghost use Rattle.std.specs.Str.Parse.{digits_value};
ghost use Rattle.nc_algebra.specs.Primes.{IsPrime, is_listed_prime};
ghost use Rattle.nc_field.specs.Literals.{IsLiteral};

use crate::digits;
use std::marker::Model;

/// A number below the prime that it belongs to. It does not say which prime that is: one problem has one prime.
pub type Residue = u32;

/// A prime of the list 2, 3, 5, 7, 101, 251, 32003, 65521.
#[derive(Clone, Copy, Debug, PartialEq, Eq)]
pub struct Prime {
    number: u32,
}

impl Model for Prime {
    ghost use Rattle.std.specs.Prelude.{ℕ, IsTrue};
    ghost use Rattle.nc_algebra.specs.Primes.{is_listed_prime};

    ghost Value = { ℕ };

    ghost view = { λ p. p.number };

    ghost invariant = { λ p. IsTrue (is_listed_prime p.number) };

    ghost inverse = { λ n. record { number = n } };
}

/// Whether the number is in the list.
fn is_listed(n: u32) -> bool
    ensures { result ≡ is_listed_prime n }
{
    matches!(n, 2 | 3 | 5 | 7 | 101 | 251 | 32003 | 65521)
}

/// Each number of the list is a prime.
pub fn listed_primes()
    ensures { (p : ℕ) → IsTrue (is_listed_prime p) → IsPrime p }
{}

impl Prime {
    /// The prime with this number.
    pub fn of(n: u32) -> Option<Prime>
        ensures listed { IsSome result ↔ IsTrue (is_listed_prime n) }
        ensures value { IfSome result (λ p. p ≡ n) }
    {
        if is_listed(n) {
            Some(Prime { number: n })
        } else {
            None
        }
    }

    /// Makes known to the prover what always holds of a prime. It does nothing else.
    pub fn recall_rule(&self)
        ensures prime { IsPrime self.now }
        ensures listed { IsTrue (is_listed_prime self.now) }
        ensures small { self.now < 65536 }
    {
        let _ = &self.number;
    }

    /// The prime as a number.
    pub fn number(&self) -> u32
        ensures value { result ≡ self.now }
        ensures prime { IsPrime self.now }
        ensures listed { IsTrue (is_listed_prime self.now) }
        ensures small { self.now < 65536 }
    {
        self.number
    }

    /// The sum of the two.
    pub fn add(&self, a: Residue, b: Residue) -> Residue
        requires first { a < self.now }
        requires second { b < self.now }
        ensures value { result ≡ (a + b) % self.now }
        ensures below { result < self.now }
    {
        let p = self.number();
        let sum = a + b;
        if sum < p { sum } else { sum - p }
    }

    /// What added to the second gives the first.
    pub fn sub(&self, a: Residue, b: Residue) -> Residue
        requires first { a < self.now }
        requires second { b < self.now }
        ensures value { result ≡ (a + (self.now - b)) % self.now }
        ensures below { result < self.now }
    {
        if a < b {
            a + (self.number() - b)
        } else {
            a - b
        }
    }

    /// The product of the two.
    #[tactic(auto, using(crate::proofs::Residues::product_fits))]
    pub fn mul(&self, a: Residue, b: Residue) -> Residue
        requires first { a < self.now }
        requires second { b < self.now }
        ensures value { result ≡ (a * b) % self.now }
        ensures below { result < self.now }
    {
        let p = self.number();
        (a * b) % p
    }

    /// What added to the residue gives zero.
    pub fn neg(&self, a: Residue) -> Residue
        requires { a < self.now }
        ensures value { result ≡ (self.now - a) % self.now }
        ensures below { result < self.now }
    {
        if a == 0 { 0 } else { self.number() - a }
    }

    /// What multiplied with the residue gives one. The extended algorithm of Euclid: each of its remainders has a
    /// factor that takes `a` to it modulo the prime.
    pub fn inverse(&self, a: Residue) -> Residue
        requires some { 0 < a }
        requires below { a < self.now }
        ensures below { result < self.now }
        ensures inverse { (a * result) % self.now ≡ 1 }
    {
        let mut dividend = self.number();
        let mut dividend_factor = 0;
        let mut divisor = a;
        let mut divisor_factor = 1;
        while divisor != 1 {
            let rest = dividend % divisor;
            let multiple = self.mul(dividend / divisor, divisor_factor);
            let rest_factor = self.sub(dividend_factor, multiple);
            dividend = divisor;
            dividend_factor = divisor_factor;
            divisor = rest;
            divisor_factor = rest_factor;
        }
        divisor_factor
    }

    /// The number that the decimal digits write, modulo the prime. Zeros may stand first.
    pub fn of_digits(&self, digits: &[u8]) -> Option<Residue>
        ensures when { IsSome result ↔ IsLiteral digits.now }
        ensures value { IfSome result (λ r. r ≡ digits_value 10 digits.now % self.now) }
        ensures below { IfSome result (λ r. r < self.now) }
    {
        let value = digits::value_of(digits)?;
        Some((value % u64::from(self.number())) as u32)
    }
}
