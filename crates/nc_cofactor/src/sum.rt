//! Sums of multiples of module elements, merged as they come.

ghost use Rattle.nc_algebra.specs.Limits.{max_letters};
ghost use Rattle.nc_algebra.specs.Monomials.{compare_sigs};
ghost use Rattle.nc_algebra.specs.Words.{word_weight};
ghost use Rattle.nc_cofactor.specs.Sums.{IsAddable};
ghost use Rattle.nc_module.specs.Modules.{module_multiples, same_sig};
ghost use Rattle.nc_poly.specs.Ordered.{AreResiduesBy, Descends, listed};
ghost use Rattle.nc_algebra.specs.Sums.{SameSum};
ghost use Rattle.std.specs.Prelude.{All, IfOk, OnOk, [], length, ◌%◌, ◌*◌, ◌+◌, ◌++◌, ◌<◌, ◌∷◌, ◌≡◌, ◌≤◌};

use nc_field::{Prime, Residue};
use nc_module::{Module, ModuleTerm, Setting};
use nc_poly::Sum;
use nc_sig::Sig;
use nc_words::{Letter, Word};
use std::alloc::{AllocError, Global};

/// The terms of c u m v, each with its monomial first.
fn multiples(
    alloc: Global,
    p: Prime,
    c: Residue,
    u: &[Letter],
    m: &[ModuleTerm],
    v: &[Letter],
) -> Result<Vec<(Sig, Residue)>, AllocError>
    requires factor { c < p }
    requires residues { AreResiduesBy p m.now }
    requires degrees { All (λ t. word_weight u.now + t.key.degree + word_weight v.now ≤ 300000)
        m.now }
    requires left { All (λ t. length u.now + length t.key.left ≤ max_letters) m.now }
    requires right { All (λ t. length t.key.right + length v.now ≤ max_letters) m.now }
    ensures { IfOk result (λ pairs. listed pairs.items ≡ module_multiples p c u.now m.now v.now) }
{
    let mut pairs = Vec::with_capacity(alloc, m.len())?;
    for t in m {
        let at = t.at.times(alloc, u, v)?;
        pairs.push((at, p.mul(c, t.coefficient)))?;
    }
    Ok(pairs)
}

/// Adds c u m v.
pub(crate) fn add_multiple(
    alloc: Global,
    sum: &mut Sum<Sig>,
    setting: &Setting,
    c: Residue,
    u: &[Letter],
    m: &Module,
    v: &[Letter],
) -> Result<(), AllocError>
    requires factor { c < setting.now.setting.prime }
    requires residues { AreResiduesBy setting.now.setting.prime sum.old }
    requires addable { IsAddable setting.now.setting u.now m.now v.now }
    ensures sum { OnOk result (SameSum same_sig setting.now.setting.prime sum.new
        (module_multiples setting.now.setting.prime c u.now m.now v.now ++ sum.old)) }
    ensures residues { AreResiduesBy setting.now.setting.prime sum.new }
    ensures descends { OnOk result (Descends compare_sigs sum.new) }
{
    let p = setting.prime();
    let pairs = multiples(alloc, p, c, u, m.terms(), v)?;
    sum.add_all(p, pairs)
}

/// The terms as a module element.
pub(crate) fn finish(alloc: Global, setting: &Setting, sum: Sum<Sig>) -> Result<Module, AllocError>
    requires { AreResiduesBy setting.now.setting.prime sum }
    ensures sum { IfOk result (λ m. SameSum same_sig setting.now.setting.prime m sum) }
    ensures residues { IfOk result (λ m. AreResiduesBy setting.now.setting.prime m) }
    ensures descends { IfOk result (λ m. Descends compare_sigs m) }
{
    let mut sum = sum;
    let mut terms = Vec::new(alloc);
    while let Some((at, c)) = sum.take_greatest() {
        terms.push(ModuleTerm::of(c, at))?;
    }
    let m = Module::of_terms(alloc, setting.prime(), terms)?;
    m.recall_rule();
    Ok(m)
}
