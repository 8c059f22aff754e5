//! Multiples of polynomials, term by term.

ghost use Rattle.nc_algebra.specs.Limits.{max_letters};
ghost use Rattle.nc_algebra.specs.Polynomials.{AreResidues};
ghost use Rattle.nc_poly.specs.Ordered.{listed};
ghost use Rattle.nc_poly.specs.Multiples.{multiples_of, shifted_of};
ghost use Rattle.std.specs.Prelude.{All, OnOk, length, map, take, vec_len, ◌+◌, ◌++◌, ◌<◌, ◌≡◌, ◌≤◌};

use crate::term::Term;
use nc_field::{Prime, Residue};
use nc_words::{Letter, Word};
use std::alloc::{AllocError, Global};

/// Appends c u g v, term by term.
pub fn push_multiple(
    alloc: Global,
    out: &mut Vec<Term>,
    p: Prime,
    c: Residue,
    u: &[Letter],
    g: &[Term],
    v: &[Letter],
) -> Result<(), AllocError>
    requires factor { c < p }
    requires residues { AreResidues p g.now }
    requires few { All (λ t. length u.now + length t.key + length v.now ≤ max_letters) g.now }
    ensures appended { OnOk result
        (out.new.items ≡ out.old.items ++ multiples_of p c u.now g.now v.now) }
    ensures front { take (length out.old.items) out.new.items ≡ out.old.items }
{
    for t in g {
        let term = t.multiple(alloc, p, c, u, v)?;
        out.push(term)?;
    }
    Ok(())
}

/// Appends u g v, term by term.
pub fn push_shifted(
    alloc: Global,
    out: &mut Vec<Term>,
    u: &[Letter],
    g: &[Term],
    v: &[Letter],
) -> Result<(), AllocError>
    requires few { All (λ t. length u.now + length t.key + length v.now ≤ max_letters) g.now }
    ensures appended { OnOk result
        (out.new.items ≡ out.old.items ++ map (shifted_of u.now v.now) g.now) }
{
    for t in g {
        let term = t.shifted(alloc, u, v)?;
        out.push(term)?;
    }
    Ok(())
}

/// Appends c u g v, term by term, as pairs of a word and its coefficient.
pub fn push_pairs(
    alloc: Global,
    out: &mut Vec<(Word, Residue)>,
    p: Prime,
    c: Residue,
    u: &[Letter],
    g: &[Term],
    v: &[Letter],
) -> Result<(), AllocError>
    requires factor { c < p }
    requires residues { AreResidues p g.now }
    requires few { All (λ t. length u.now + length t.key + length v.now ≤ max_letters) g.now }
    ensures appended { OnOk result
        (listed out.new.items ≡ listed out.old.items ++ multiples_of p c u.now g.now v.now) }
{
    for t in g {
        let term = t.multiple(alloc, p, c, u, v)?;
        out.push(term.into_pair())?;
    }
    Ok(())
}
