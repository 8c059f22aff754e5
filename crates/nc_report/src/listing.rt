//! The report on a run.

ghost use Rattle.nc_print.specs.Printing.{ended};
ghost use Rattle.nc_report.specs.Listings.{AddsNext, IsListing, all_lines, count_of};
ghost use Rattle.nc_report.specs.Reports.{basis_report, ending_line};
ghost use Rattle.nc_report.specs.Shown.{IsRunAt, IsShownOf, kind_of, labels_in};
ghost use Rattle.nc_theory.specs.States.{State};
ghost use Rattle.std.specs.Prelude.{IfOk, OnOk, [], ◌++◌, ◌∷◌, ◌≡◌, ◌≤◌};

use crate::item::{write_entry, write_syzygy};
use crate::named::{entry_at, names_of, syzygy_at};
use crate::shown::{Listing, Shown, write_shown};
use crate::summary::{write_budget, write_complete, write_counts};
use nc_desk::{End, Finished};
use nc_snapshot::{Listed, Snapshot};
use std::alloc::{AllocError, Global};

/// The entries of a run, or its syzygies.
#[derive(Clone, Copy)]
enum Items {
    Entries,
    Syzygies,
}

/// How many items of this kind there are.
fn count(items: Items, snapshot: &Snapshot) -> u32
    ensures { result ≡ count_of items snapshot.now.state }
{
    match items {
        Items::Entries => snapshot.entries(),
        Items::Syzygies => snapshot.syzygies(),
    }
}

/// Appends the lines of the item of this kind with this number, behind those of the items before it.
fn write_next(
    alloc: Global,
    out: &mut Vec<u8>,
    listing: &Listing<'_>,
    items: Items,
    n: u32,
) -> Result<(), AllocError>
    requires listing { IsListing listing.now }
    requires some { 1 ≤ n }
    requires within { n ≤ count_of items listing.now.snapshot.now.state }
    ensures { OnOk result ((run : State) → IsRunAt listing.now.snapshot.now run
        → AddsNext listing.now run items n out.old.items out.new.items) }
{
    let snapshot = listing.snapshot;
    snapshot.recall_rule();
    let names = names_of(snapshot);
    match items {
        Items::Entries => {
            write_entry(out, names, n, entry_at(snapshot, n))?;
            write_shown(alloc, out, listing, Listed::Entry(n))
        }
        Items::Syzygies => {
            write_syzygy(out, names, n, syzygy_at(snapshot, n))?;
            write_shown(alloc, out, listing, Listed::Syzygy(n))
        }
    }
}

/// Appends the lines of the items of this kind.
fn write_items(
    alloc: Global,
    out: &mut Vec<u8>,
    listing: &Listing<'_>,
    items: Items,
) -> Result<(), AllocError>
    requires { IsListing listing.now }
    ensures { OnOk result ((run : State) → IsRunAt listing.now.snapshot.now run
        → out.new.items ≡ out.old.items ++ ended (all_lines listing.now run items)) }
{
    listing.snapshot.recall_rule();
    for index in 0..count(items, listing.snapshot) {
        write_next(alloc, out, listing, items, index + 1)?;
    }
    Ok(())
}

/// Appends the end line.
fn write_end(out: &mut Vec<u8>, finished: &Finished) -> Result<(), AllocError>
    ensures { OnOk result (out.new.items ≡ out.old.items
        ++ (ending_line finished.now.snapshot.problem.alphabet.names finished.now.ending ++ 10
        ∷ [])) }
{
    let snapshot = finished.snapshot();
    snapshot.recall_rule();
    match finished.end() {
        End::Complete => write_complete(out),
        End::Budget(next) => write_budget(out, names_of(snapshot), next),
    }
}

/// The report on a run that came to its end.
pub fn report_on(alloc: Global, finished: &Finished, shown: &Shown) -> Result<Vec<u8>, AllocError>
    requires shown { IsShownOf finished.now.snapshot shown.now }
    ensures { IfOk result (λ report. (run : State) → IsRunAt finished.now.snapshot run
        → report.items ≡ basis_report (kind_of shown.now)
        finished.now.snapshot.problem.alphabet.names (labels_in shown.now)
        finished.now.snapshot.handled run finished.now.ending) }
{
    let snapshot = finished.snapshot();
    let leads = finished.leads();
    snapshot.recall_rule();
    let mut out = Vec::new(alloc);
    write_end(&mut out, finished)?;
    write_counts(&mut out, snapshot)?;
    let listing = Listing {
        snapshot,
        leads,
        shown,
    };
    write_items(alloc, &mut out, &listing, Items::Entries)?;
    write_items(alloc, &mut out, &listing, Items::Syzygies)?;
    Ok(out)
}
