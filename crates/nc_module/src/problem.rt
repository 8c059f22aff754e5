//! Problems.

ghost use Rattle.nc_algebra.specs.Elements.{HasDegree, IsGenerator};
ghost use Rattle.nc_algebra.specs.Monomials.{monomial_of};
ghost use Rattle.nc_algebra.specs.Problems.{IsProblem, IsWithin};
ghost use Rattle.nc_module.specs.Problems.{HasBoundDegree, bound_of};
ghost use Rattle.std.specs.Prelude.{IsTrue, ◌↔◌, ◌≡◌};

use crate::setting::Setting;
use nc_sig::Sig;
use std::marker::Model;

/// Which module monomials belong to a problem.
#[derive(Drop)]
pub enum Bound {
    /// Those to this degree.
    Degree(u32),
    /// Those that are less than this monomial.
    Below(Sig),
}

/// A setting, a bound, and how many signatures may be handled.
#[derive(Drop)]
pub struct Problem {
    setting: Setting,
    bound: Bound,
    steps: u64,
}

impl Model for Problem {
    ghost use Rattle.nc_algebra.specs.Problems.{IsProblem, NamedProblem};
    ghost use Rattle.nc_module.specs.Problems.{HasBoundDegree, bound_of};

    ghost Value = { NamedProblem };

    ghost view = { λ p. record {
      problem = record {
        setting = p.setting.setting;
        bound = bound_of p.bound;
        steps = p.steps;
      };
      alphabet = p.setting.alphabet;
    } };

    ghost invariant = { λ p. IsProblem (record {
      problem = record {
        setting = p.setting.setting;
        bound = bound_of p.bound;
        steps = p.steps;
      };
      alphabet = p.setting.alphabet;
    })
        × HasBoundDegree p.setting.setting p.bound };
}

/// Whether they are the same monomial, with the same degree.
fn same_sig(a: &Sig, b: &Sig) -> bool
    ensures { IsTrue result ↔ (a.now ≡ b.now) }
{
    a == b
}

impl Bound {
    /// Whether it is the other bound.
    fn same(&self, other: &Bound) -> bool
        ensures { IsTrue result ↔ (self.now ≡ other.now) }
    {
        match (self, other) {
            (Bound::Degree(a), Bound::Degree(b)) => a == b,
            (Bound::Below(a), Bound::Below(b)) => same_sig(a, b),
            _ => false,
        }
    }
}

impl Problem {
    /// The problem with this setting, this bound and so many steps, at most 1,000,000,000. The bound has a degree of at
    /// most 80,000; if it has a monomial, that is one over the setting, with its degree beside it.
    pub fn of(setting: Setting, bound: Bound, steps: u64) -> Problem
        requires problem { IsProblem (record {
          problem = record {
            setting = setting.setting;
            bound = bound_of bound;
            steps = steps;
          };
          alphabet = setting.alphabet;
        }) }
        requires degree { HasBoundDegree setting.setting bound }
        ensures { result ≡ record {
          problem = record {
            setting = setting.setting;
            bound = bound_of bound;
            steps = steps;
          };
          alphabet = setting.alphabet;
        } }
    {
        Problem {
            setting,
            bound,
            steps,
        }
    }

    /// Makes known to the prover what always holds of a problem. It does nothing else.
    pub fn recall_rule(&self)
        ensures problem { IsProblem self.now }
    {
        let _ = &self.setting;
    }

    /// The setting.
    pub fn setting(&self) -> &Setting
        ensures setting { result.now ≡ record {
          alphabet = self.now.alphabet;
          setting = self.now.problem.setting;
        } }
        ensures problem { IsProblem self.now }
    {
        &self.setting
    }

    /// The bound.
    pub fn bound(&self) -> &Bound
        ensures bound { bound_of result.now ≡ self.now.problem.bound }
        ensures degree { HasBoundDegree self.now.problem.setting result.now }
    {
        &self.bound
    }

    /// Whether the monomial lies within the bound. Its generator is one of the setting's, and its degree stands beside it.
    pub fn within(&self, sig: &Sig) -> bool
        requires generator { IsGenerator self.now.problem.setting sig.now.generator }
        requires degree { HasDegree self.now.problem.setting sig.now }
        ensures { IsTrue result ↔ IsWithin self.now.problem (monomial_of sig.now) }
    {
        match &self.bound {
            Bound::Degree(d) => sig.degree <= *d,
            Bound::Below(beta) => sig.cmp(beta).is_lt(),
        }
    }

    /// Whether it is the other problem.
    pub fn same(&self, other: &Problem) -> bool
        ensures { IsTrue result ↔ (self.now ≡ other.now) }
    {
        if self.steps != other.steps || !self.bound.same(&other.bound) {
            return false;
        }
        self.setting.same(&other.setting)
    }

    /// How many signatures may be handled.
    pub fn steps(&self) -> u64
        ensures { result ≡ self.now.problem.steps }
    {
        self.steps
    }
}
