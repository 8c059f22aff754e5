//! The lines of entries and syzygies.

ghost use Rattle.nc_algebra.specs.Monomials.{monomial_of};
ghost use Rattle.nc_print.specs.Printing.{sig_text};
ghost use Rattle.nc_report.specs.Letters.{IsMonomialNamed};
ghost use Rattle.nc_report.specs.Reports.{entry_line, syzygy_line};
ghost use Rattle.nc_snapshot.specs.Snapshots.{entry_of, syzygy_of};
ghost use Rattle.std.specs.Prelude.{All, OnOk, [], codes, decimal, length, ◌++◌, ◌<◌, ◌∷◌, ◌≡◌};

use nc_module::Name;
use nc_print::{push_number, write_poly, write_sig};
use nc_sig::Sig;
use nc_snapshot::{Entry, Syzygy};
use std::alloc::AllocError;

/// Appends what begins the line of an item: what it is, its number, and its signature.
fn write_heading(
    out: &mut Vec<u8>,
    names: &[Name],
    what: &[u8],
    number: u32,
    signature: &Sig,
) -> Result<(), AllocError>
    requires { IsMonomialNamed (length names.now) (monomial_of signature.now) }
    ensures { OnOk result (out.new.items ≡ out.old.items
        ++ (what.now ++ (decimal number ++ (codes ": "
        ++ sig_text names.now (monomial_of signature.now))))) }
{
    out.extend_from_slice(what)?;
    push_number(out, number)?;
    out.extend_from_slice(b": ")?;
    write_sig(out, names, signature)
}

/// Appends the line of an entry behind its number. Each letter needs a name. After `Err` the text in `out` may be part of
/// it.
pub(crate) fn write_entry(
    out: &mut Vec<u8>,
    names: &[Name],
    number: u32,
    entry: &Entry,
) -> Result<(), AllocError>
    requires signature { IsMonomialNamed (length names.now) (monomial_of entry.now.sig) }
    requires words { All (λ t. All (λ x. x.index < length names.now) t.key) entry.now.polynomial }
    ensures { OnOk result (out.new.items ≡ out.old.items
        ++ (entry_line names.now number (entry_of entry.now) ++ 10 ∷ [])) }
{
    write_heading(out, names, b"entry ", number, entry.sig())?;
    out.extend_from_slice(b" : ")?;
    write_poly(out, names, entry.poly())?;
    out.extend_from_slice(b"\n")
}

/// Appends the line of a syzygy behind its number. Each letter needs a name. After `Err` the text in `out` may be part of
/// it.
pub(crate) fn write_syzygy(
    out: &mut Vec<u8>,
    names: &[Name],
    number: u32,
    syzygy: &Syzygy,
) -> Result<(), AllocError>
    requires { IsMonomialNamed (length names.now) (monomial_of syzygy.now) }
    ensures { OnOk result (out.new.items ≡ out.old.items
        ++ (syzygy_line names.now number (syzygy_of syzygy.now) ++ 10 ∷ [])) }
{
    write_heading(out, names, b"syzygy ", number, syzygy.sig())?;
    out.extend_from_slice(b"\n")
}
