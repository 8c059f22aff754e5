//! The lines that sum up a run.

ghost use Rattle.nc_algebra.specs.Monomials.{monomial_of};
ghost use Rattle.nc_report.specs.Letters.{IsMonomialNamed};
ghost use Rattle.nc_report.specs.Reports.{counts_line, ending_line};
ghost use Rattle.nc_theory.specs.Runs.{End};
ghost use Rattle.std.specs.Prelude.{List, OnOk, [], decimal, length, ℕ, ◌++◌, ◌∷◌, ◌≡◌};

use itoa::Buffer;
use nc_module::Name;
use nc_print::write_sig;
use nc_sig::Sig;
use nc_snapshot::Snapshot;
use std::alloc::AllocError;

/// Appends a number in decimal behind what it counts.
fn push_count(out: &mut Vec<u8>, what: &[u8], number: u64) -> Result<(), AllocError>
    ensures { OnOk result (out.new.items ≡ out.old.items ++ (what.now ++ decimal number)) }
{
    let mut buffer = Buffer::new();
    out.extend_from_slice(what)?;
    out.extend_from_slice(buffer.format(number).as_bytes())
}

/// Appends the end line of a run that is complete.
pub(crate) fn write_complete(out: &mut Vec<u8>) -> Result<(), AllocError>
    ensures { OnOk result ((names : List (List ℕ))
        → out.new.items ≡ out.old.items ++ (ending_line names End.complete ++ 10 ∷ [])) }
{
    out.extend_from_slice(b"end complete\n")
}

/// Appends the end line of a run whose steps were used up before this signature, which needs a name for each of its
/// letters. After `Err` the text in `out` may be part of it.
pub(crate) fn write_budget(out: &mut Vec<u8>, names: &[Name], next: &Sig) -> Result<(), AllocError>
    requires { IsMonomialNamed (length names.now) (monomial_of next.now) }
    ensures { OnOk result (out.new.items ≡ out.old.items
        ++ (ending_line names.now (End.budget (monomial_of next.now)) ++ 10 ∷ [])) }
{
    out.extend_from_slice(b"end budget ")?;
    write_sig(out, names, next)?;
    out.extend_from_slice(b"\n")
}

/// Appends the counts line of a snapshot. After `Err` the text in `out` may be part of it.
pub(crate) fn write_counts(out: &mut Vec<u8>, snapshot: &Snapshot) -> Result<(), AllocError>
    ensures { OnOk result (out.new.items ≡ out.old.items
        ++ (counts_line snapshot.now.handled snapshot.now.state ++ 10 ∷ [])) }
{
    push_count(out, b"handled ", snapshot.handled())?;
    push_count(out, b" entries ", u64::from(snapshot.entries()))?;
    push_count(out, b" syzygies ", u64::from(snapshot.syzygies()))?;
    push_count(out, b" covered ", snapshot.covered())?;
    push_count(out, b" settled ", snapshot.settled())?;
    out.extend_from_slice(b"\n")
}
