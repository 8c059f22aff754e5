//! Printed claims with the terms of a module element.

ghost use Rattle.nc_algebra.specs.Monomials.{monomial_of};
ghost use Rattle.nc_module.specs.Modules.{element_of};
ghost use Rattle.nc_print.specs.Begins.{BeginsWith};
ghost use Rattle.nc_print.specs.Printing.{ended, term_line, terms_text};
ghost use Rattle.std.specs.Prelude.{All, OnErr, OnOk, [], length, map, ◌++◌, ◌<◌, ◌∷◌, ◌≡◌};

use crate::monomial::append_sig;
use crate::polynomial::push_number;
use crate::setting::{append_poly_line, append_setting};
use crate::whole::whole_or_nothing;
use nc_module::{Module, ModuleTerm, Name, Setting};
use nc_poly::Poly;
use std::alloc::AllocError;

/// Appends a line `term`.
fn append_term(out: &mut Vec<u8>, names: &[Name], t: &ModuleTerm) -> Result<(), AllocError>
    requires left { All (λ x. x.index < length names.now) t.now.key.left }
    requires right { All (λ x. x.index < length names.now) t.now.key.right }
    ensures text { OnOk result (out.new.items ≡ out.old.items
        ++ (term_line names.now (record {
          coefficient = t.now.coefficient;
          key = monomial_of t.now.key;
        }) ++ 10 ∷ [])) }
    ensures kept { BeginsWith out.new.items out.old.items }
{
    out.extend_from_slice(b"term ")?;
    push_number(out, t.coefficient)?;
    out.push(b' ')?;
    append_sig(out, names, &t.at)?;
    out.extend_from_slice(b"\n")
}

/// Appends the lines `term`.
fn append_each(out: &mut Vec<u8>, names: &[Name], terms: &[ModuleTerm]) -> Result<(), AllocError>
    requires left { All (λ t. All (λ x. x.index < length names.now) t.key.left) terms.now }
    requires right { All (λ t. All (λ x. x.index < length names.now) t.key.right) terms.now }
    ensures text { OnOk result (out.new.items ≡ out.old.items
        ++ ended (map (term_line names.now) (element_of terms.now))) }
    ensures kept { BeginsWith out.new.items out.old.items }
{
    for t in terms {
        append_term(out, names, t)?;
    }
    Ok(())
}

/// Appends a claim and its terms. After `Err` the text in `out` may be part of it.
fn append_terms(
    out: &mut Vec<u8>,
    setting: &Setting,
    claim: &Poly,
    m: &Module,
) -> Result<(), AllocError>
    requires claim { All (λ t. All (λ x. x.index < length setting.now.alphabet.names) t.key)
        claim.now }
    requires left { All (λ t. All (λ x. x.index < length setting.now.alphabet.names) t.key.left)
        m.now }
    requires right { All (λ t. All (λ x. x.index < length setting.now.alphabet.names) t.key.right)
        m.now }
    ensures text { OnOk result (out.new.items ≡ out.old.items ++ terms_text setting.now claim.now
        (element_of m.now)) }
    ensures kept { BeginsWith out.new.items out.old.items }
{
    let names = setting.names();
    out.extend_from_slice(b"certificate 1\n")?;
    append_setting(out, setting)?;
    append_poly_line(out, b"claim ", names, claim)?;
    append_each(out, names, m.terms())?;
    out.extend_from_slice(b"end\n")
}

/// Appends a claim and the terms of a module element as the text of a certificate in form 1. Each letter needs a name.
#[tactic(auto, using(crate::proofs::Begins::whole, crate::proofs::Begins::nothing))]
pub fn write_terms(
    out: &mut Vec<u8>,
    setting: &Setting,
    claim: &Poly,
    m: &Module,
) -> Result<(), AllocError>
    requires claim { All (λ t. All (λ x. x.index < length setting.now.alphabet.names) t.key)
        claim.now }
    requires left { All (λ t. All (λ x. x.index < length setting.now.alphabet.names) t.key.left)
        m.now }
    requires right { All (λ t. All (λ x. x.index < length setting.now.alphabet.names) t.key.right)
        m.now }
    ensures text { OnOk result (out.new.items ≡ out.old.items ++ terms_text setting.now claim.now
        (element_of m.now)) }
    ensures unchanged { OnErr result (out.new.items ≡ out.old.items) }
{
    let before = out.len();
    let appended = append_terms(out, setting, claim, m);
    whole_or_nothing(out, before, appended)
}
