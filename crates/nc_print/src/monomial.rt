//! Printed monomials.

ghost use Rattle.nc_algebra.specs.Monomials.{monomial_of};
ghost use Rattle.nc_print.specs.Begins.{BeginsWith};
ghost use Rattle.nc_print.specs.Printing.{sig_text};
ghost use Rattle.std.specs.Prelude.{All, OnErr, OnOk, length, ◌++◌, ◌<◌, ◌≡◌};

use crate::polynomial::{append_word, push_number};
use crate::whole::whole_or_nothing;
use nc_module::Name;
use nc_sig::Sig;
use std::alloc::AllocError;

/// Appends a monomial. After `Err` the text in `out` may be part of it.
pub(crate) fn append_sig(out: &mut Vec<u8>, names: &[Name], s: &Sig) -> Result<(), AllocError>
    requires left { All (λ x. x.index < length names.now) s.now.left }
    requires right { All (λ x. x.index < length names.now) s.now.right }
    ensures text { OnOk result (out.new.items ≡ out.old.items
        ++ sig_text names.now (monomial_of s.now)) }
    ensures kept { BeginsWith out.new.items out.old.items }
{
    append_word(out, names, s.left.letters())?;
    out.extend_from_slice(b" [")?;
    push_number(out, s.generator)?;
    out.extend_from_slice(b"] ")?;
    append_word(out, names, s.right.letters())
}

/// Appends a monomial, which needs a name for each of its letters; its degree is not printed.
#[tactic(auto, using(crate::proofs::Begins::whole, crate::proofs::Begins::nothing))]
pub fn write_sig(out: &mut Vec<u8>, names: &[Name], s: &Sig) -> Result<(), AllocError>
    requires left { All (λ x. x.index < length names.now) s.now.left }
    requires right { All (λ x. x.index < length names.now) s.now.right }
    ensures text { OnOk result (out.new.items ≡ out.old.items
        ++ sig_text names.now (monomial_of s.now)) }
    ensures unchanged { OnErr result (out.new.items ≡ out.old.items) }
{
    let before = out.len();
    let appended = append_sig(out, names, s);
    whole_or_nothing(out, before, appended)
}
