//! Printed module elements.

ghost use Rattle.nc_algebra.specs.Monomials.{monomial_of};
ghost use Rattle.nc_module.specs.Modules.{element_of};
ghost use Rattle.nc_print.specs.Begins.{BeginsWith};
ghost use Rattle.nc_print.specs.Printing.{module_term_text, module_text};
ghost use Rattle.std.specs.Prelude.{All, OnErr, OnOk, codes, flat_map, length, map, ◌++◌, ◌<◌, ◌≡◌};

use crate::monomial::append_sig;
use crate::polynomial::push_number;
use crate::whole::whole_or_nothing;
use nc_module::{Module, ModuleTerm, Name};
use std::alloc::AllocError;

/// Appends a term.
fn append_term(out: &mut Vec<u8>, names: &[Name], t: &ModuleTerm) -> Result<(), AllocError>
    requires left { All (λ x. x.index < length names.now) t.now.key.left }
    requires right { All (λ x. x.index < length names.now) t.now.key.right }
    ensures text { OnOk result (out.new.items ≡ out.old.items ++ module_term_text names.now
        (record { coefficient = t.now.coefficient; key = monomial_of t.now.key })) }
    ensures kept { BeginsWith out.new.items out.old.items }
{
    let coefficient = t.coefficient;
    if coefficient != 1 {
        push_number(out, coefficient)?;
        out.push(b'*')?;
    }
    append_sig(out, names, &t.at)
}

/// Appends terms, with ` + ` before each.
fn append_others(out: &mut Vec<u8>, names: &[Name], terms: &[ModuleTerm]) -> Result<(), AllocError>
    requires left { All (λ t. All (λ x. x.index < length names.now) t.key.left) terms.now }
    requires right { All (λ t. All (λ x. x.index < length names.now) t.key.right) terms.now }
    ensures text { OnOk result (out.new.items ≡ out.old.items ++ flat_map (λ y. codes " + " ++ y)
        (map (module_term_text names.now) (element_of terms.now))) }
    ensures kept { BeginsWith out.new.items out.old.items }
{
    for t in terms {
        out.extend_from_slice(b" + ")?;
        append_term(out, names, t)?;
    }
    Ok(())
}

/// Appends a module element. After `Err` the text in `out` may be part of it.
fn append_module(out: &mut Vec<u8>, names: &[Name], m: &Module) -> Result<(), AllocError>
    requires left { All (λ t. All (λ x. x.index < length names.now) t.key.left) m.now }
    requires right { All (λ t. All (λ x. x.index < length names.now) t.key.right) m.now }
    ensures text { OnOk result (out.new.items ≡ out.old.items ++ module_text names.now
        (element_of m.now)) }
    ensures kept { BeginsWith out.new.items out.old.items }
{
    match m.terms().split_first() {
        None => out.extend_from_slice(b"0"),
        Some((first, others)) => {
            append_term(out, names, first)?;
            append_others(out, names, others)
        }
    }
}

/// Appends a module element, which needs a name for each of its letters.
#[tactic(auto, using(crate::proofs::Begins::whole, crate::proofs::Begins::nothing))]
pub fn write_module(out: &mut Vec<u8>, names: &[Name], m: &Module) -> Result<(), AllocError>
    requires left { All (λ t. All (λ x. x.index < length names.now) t.key.left) m.now }
    requires right { All (λ t. All (λ x. x.index < length names.now) t.key.right) m.now }
    ensures text { OnOk result (out.new.items ≡ out.old.items ++ module_text names.now
        (element_of m.now)) }
    ensures unchanged { OnErr result (out.new.items ≡ out.old.items) }
{
    let before = out.len();
    let appended = append_module(out, names, m);
    whole_or_nothing(out, before, appended)
}
