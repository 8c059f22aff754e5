//! Module elements.

ghost use Rattle.nc_algebra.specs.Elements.{HasDegree, IsGenerator, evaluation, generator};
ghost use Rattle.nc_algebra.specs.Limits.{max_degree, max_letters};
ghost use Rattle.nc_algebra.specs.Monomials.{Sig as Key, compare_sigs, sig_times};
ghost use Rattle.nc_algebra.specs.Polynomials.{AreResidues, normal_form, polynomial_times};
ghost use Rattle.nc_algebra.specs.Sums.{SameSum, Term, map_keys, minus, scale};
ghost use Rattle.nc_algebra.specs.Words.{same_word, word_weight};
ghost use Rattle.nc_module.specs.Modules.{element_of, module_multiples, same_sig};
ghost use Rattle.nc_poly.specs.Ordered.{AreResiduesBy, Descends, listed};
ghost use Rattle.std.specs.Prelude.{All, IfOk, List, OnErr, OnOk, [], length, take, vec_len, ◌%◌, ◌*◌, ◌+◌, ◌++◌, ◌<◌, ◌≡◌, ◌≤◌};

use crate::setting::Setting;
use nc_field::{Prime, Residue};
use nc_poly::{Accumulator, Poly, Sum};
use nc_sig::Sig;
use nc_words::Letter;
use std::alloc::{AllocError, Global};
use std::marker::Model;

/// A coefficient and its module monomial.
#[derive(Drop)]
pub struct ModuleTerm {
    pub coefficient: Residue,
    pub at: Sig,
}

impl Model for ModuleTerm {
    ghost use Rattle.nc_algebra.specs.Monomials.{Sig};
    ghost use Rattle.nc_algebra.specs.Sums.{Term};

    ghost Value = { Term Sig };

    ghost view = { λ t. record { coefficient = t.coefficient; key = t.at } };

    ghost inverse = { λ t. record { coefficient = t.coefficient; at = t.key } };
}

impl ModuleTerm {
    /// The term with this coefficient and this monomial.
    pub fn of(c: Residue, at: Sig) -> ModuleTerm
        ensures { result ≡ record { coefficient = c; key = at } }
    {
        ModuleTerm { coefficient: c, at }
    }

    /// The monomial and its coefficient.
    fn into_pair(self) -> (Sig, Residue)
        ensures at { result.0 ≡ self.key }
        ensures coefficient { result.1 ≡ self.coefficient }
    {
        let ModuleTerm { coefficient, at } = self;
        (at, coefficient)
    }

    /// An equal pair of the monomial and its coefficient.
    fn pair(&self) -> Result<(Sig, Residue), AllocError>
        ensures at { IfOk result (λ e. e.0 ≡ self.now.key) }
        ensures coefficient { IfOk result (λ e. e.1 ≡ self.now.coefficient) }
    {
        Ok((self.at.copy()?, self.coefficient))
    }

    /// The multiple c u t v of this term t, as a pair.
    fn multiple(
        &self,
        alloc: Global,
        p: Prime,
        c: Residue,
        u: &[Letter],
        v: &[Letter],
    ) -> Result<(Sig, Residue), AllocError>
        requires factor { c < p }
        requires residue { self.now.coefficient < p }
        requires degree { word_weight u.now + self.now.key.degree + word_weight v.now ≤ 300000 }
        requires left { length u.now + length self.now.key.left ≤ max_letters }
        requires right { length self.now.key.right + length v.now ≤ max_letters }
        ensures at { IfOk result (λ e. e.0 ≡ sig_times u.now self.now.key v.now) }
        ensures coefficient { IfOk result (λ e. e.1 ≡ (c * self.now.coefficient) % p) }
    {
        let at = self.at.times(alloc, u, v)?;
        Ok((at, p.mul(c, self.coefficient)))
    }
}

/// The pairs of the terms.
fn into_pairs(alloc: Global, terms: Vec<ModuleTerm>) -> Result<Vec<(Sig, Residue)>, AllocError>
    ensures { IfOk result (λ pairs. listed pairs.items ≡ terms.items) }
{
    let mut pairs = Vec::with_capacity(alloc, terms.len())?;
    for term in terms {
        pairs.push(term.into_pair())?;
    }
    Ok(pairs)
}

/// Appends equal pairs.
fn push_copies(out: &mut Vec<(Sig, Residue)>, terms: &[ModuleTerm]) -> Result<(), AllocError>
    ensures { OnOk result (listed out.new.items ≡ listed out.old.items ++ terms.now) }
{
    for t in terms {
        out.push(t.pair()?)?;
    }
    Ok(())
}

/// Appends c u m v, term by term.
fn push_multiples(
    alloc: Global,
    out: &mut Vec<(Sig, Residue)>,
    p: Prime,
    c: Residue,
    u: &[Letter],
    m: &[ModuleTerm],
    v: &[Letter],
) -> Result<(), AllocError>
    requires factor { c < p }
    requires residues { AreResiduesBy p m.now }
    requires degrees { All (λ t. word_weight u.now + t.key.degree + word_weight v.now ≤ 300000)
        m.now }
    requires left { All (λ t. length u.now + length t.key.left ≤ max_letters) m.now }
    requires right { All (λ t. length t.key.right + length v.now ≤ max_letters) m.now }
    ensures { OnOk result (listed out.new.items ≡ listed out.old.items ++ module_multiples p c u.now
        m.now v.now) }
{
    for t in m {
        out.push(t.multiple(alloc, p, c, u, v)?)?;
    }
    Ok(())
}

/// The terms of a sum, the greatest first.
fn terms_of(alloc: Global, sum: Sum<Sig>) -> Result<Vec<ModuleTerm>, AllocError>
    ensures { IfOk result (λ terms. terms.items ≡ sum) }
{
    let mut sum = sum;
    let mut terms = Vec::new(alloc);
    while let Some((at, c)) = sum.take_greatest() {
        terms.push(ModuleTerm::of(c, at))?;
    }
    Ok(terms)
}

/// The sum of the pairs, each monomial once and the greatest first.
fn collect(
    alloc: Global,
    p: Prime,
    pairs: Vec<(Sig, Residue)>,
) -> Result<Vec<ModuleTerm>, AllocError>
    requires { AreResiduesBy p (listed pairs.items) }
    ensures sum { IfOk result (λ terms. SameSum same_sig p terms.items (listed pairs.items)) }
    ensures residues { IfOk result (λ terms. AreResiduesBy p terms.items) }
    ensures descending { IfOk result (λ terms. Descends compare_sigs terms.items) }
{
    let mut sum = Sum::new(alloc);
    sum.add_all(p, pairs)?;
    terms_of(alloc, sum)
}

/// Adds c a f b to a sum, where t is c a [i] b and f the generator with number i.
fn add_value(
    alloc: Global,
    sum: &mut Accumulator,
    setting: &Setting,
    t: &ModuleTerm,
) -> Result<(), AllocError>
    requires generator { IsGenerator setting.now.setting t.now.key.generator }
    requires degree { HasDegree setting.now.setting t.now.key }
    requires few { t.now.key.degree ≤ max_degree }
    requires residue { t.now.coefficient < setting.now.setting.prime }
    requires before { AreResidues setting.now.setting.prime sum.old }
    ensures sum { OnOk result (SameSum same_word setting.now.setting.prime sum.new
        (sum.old ++ scale t.now.coefficient
        (polynomial_times t.now.key.left (generator setting.now.setting t.now.key.generator)
        t.now.key.right))) }
    ensures residues { AreResidues setting.now.setting.prime sum.new }
{
    let p = setting.prime();
    let f = setting.generator(t.at.generator);
    let left = t.at.left.letters();
    let right = t.at.right.letters();
    sum.sub_multiple(alloc, p, p.neg(t.coefficient), left, f, right)
}

/// An element of the free module on the generators: its terms, each monomial once and the greatest first, with no
/// coefficient 0.
#[derive(Drop)]
pub struct Module {
    kept: Vec<ModuleTerm>,
}

impl Model for Module {
    ghost use Rattle.nc_algebra.specs.Monomials.{Sig, compare_sigs};
    ghost use Rattle.nc_algebra.specs.Sums.{Term};
    ghost use Rattle.nc_poly.specs.Ordered.{Descends};
    ghost use Rattle.std.specs.Prelude.{List};

    ghost Value = { List (Term Sig) };

    ghost view = { λ m. m.kept.items };

    ghost invariant = { λ m. Descends compare_sigs m.kept.items };
}

impl Module {
    /// The element 0. No memory is taken.
    pub fn zero(alloc: Global) -> Module
        ensures { result ≡ [] }
    {
        Module {
            kept: Vec::new(alloc),
        }
    }

    /// Makes known to the prover what always holds of a module element. It does nothing else.
    pub fn recall_rule(&self)
        ensures descending { Descends compare_sigs self.now }
    {
        let _ = &self.kept;
    }

    /// The terms, the one with the greatest monomial first.
    pub fn terms(&self) -> &[ModuleTerm]
        ensures terms { result.now ≡ self.now }
        ensures descending { Descends compare_sigs self.now }
    {
        self.kept.as_slice()
    }

    /// The sum of the terms, which may stand in any order, with monomials that stand several times.
    pub fn of_terms(alloc: Global, p: Prime, terms: Vec<ModuleTerm>) -> Result<Module, AllocError>
        requires { AreResiduesBy p terms.items }
        ensures sum { IfOk result (λ m. SameSum same_sig p m terms.items) }
        ensures residues { IfOk result (AreResiduesBy p) }
    {
        let pairs = into_pairs(alloc, terms)?;
        let kept = collect(alloc, p, pairs)?;
        Ok(Module { kept })
    }

    /// Subtracts c u m v. After `Err` the element is as it was.
    pub fn sub_multiple(
        &mut self,
        alloc: Global,
        p: Prime,
        c: Residue,
        u: &[Letter],
        m: &Module,
        v: &[Letter],
    ) -> Result<(), AllocError>
        requires factor { c < p }
        requires residues { AreResiduesBy p self.old }
        requires other_residues { AreResiduesBy p m.now }
        requires degrees { All (λ t. word_weight u.now + t.key.degree + word_weight v.now ≤ 300000)
            m.now }
        requires left { All (λ t. length u.now + length t.key.left ≤ max_letters) m.now }
        requires right { All (λ t. length t.key.right + length v.now ≤ max_letters) m.now }
        ensures difference { OnOk result
            (SameSum same_sig p self.new (minus p self.old c
            (map_keys (λ σ. sig_times u.now σ v.now) m.now))) }
        ensures residues { AreResiduesBy p self.new }
        ensures err { OnErr result (self.new ≡ self.old) }
    {
        let mut pairs = Vec::new(alloc);
        push_copies(&mut pairs, self.terms())?;
        push_multiples(alloc, &mut pairs, p, p.neg(c), u, m.terms(), v)?;
        self.kept = collect(alloc, p, pairs)?;
        Ok(())
    }

    /// What the element evaluates to: the sum of c a f b over its terms c a [i] b, where f is the generator with number i.
    pub fn eval(&self, setting: &Setting) -> Result<Poly, AllocError>
        requires generators { All (λ t. IsGenerator setting.now.setting t.key.generator) self.now }
        requires degrees { All (λ t. HasDegree setting.now.setting t.key) self.now }
        requires few { All (λ t. t.key.degree ≤ max_degree) self.now }
        requires residues { AreResiduesBy setting.now.setting.prime self.now }
        ensures { IfOk result (λ f. f ≡ normal_form setting.now.setting.prime
            (evaluation setting.now.setting (element_of self.now))) }
    {
        let alloc = *self.kept.allocator();
        let mut sum = Accumulator::of(Poly::zero(alloc));
        for t in self.terms() {
            add_value(alloc, &mut sum, setting, t)?;
        }
        Ok(sum.finish(setting.prime()))
    }
}
