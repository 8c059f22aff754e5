//! What is shown behind the items of a run.

ghost use Rattle.nc_algebra.specs.Elements.{Element};
ghost use Rattle.nc_cofactor.specs.Traces.{IsListed, IsTraceIn};
ghost use Rattle.nc_module.specs.Modules.{element_of};
ghost use Rattle.nc_options.specs.declared.options.Cofactors.TheVariants.{Full, Trace as TraceOf};
ghost use Rattle.nc_print.specs.Printing.{ended};
ghost use Rattle.nc_theory.specs.States.{State, Trace as Proof};
ghost use Rattle.nc_report.specs.Letters.{AreTermsNamed};
ghost use Rattle.nc_report.specs.Listings.{IsListing, lines_behind, names_in};
ghost use Rattle.nc_report.specs.Reports.{cofactor_lines};
ghost use Rattle.nc_report.specs.Shown.{AreAllLabels, IsRunAt, IsTraceNamed, label_among};
ghost use Rattle.std.specs.Prelude.{IfOk, OnOk, length, ◌++◌, ◌≡◌};

use crate::named::names_of;
use crate::trace::write_trace;
use nc_cofactor::{Labels, trace_of};
use nc_index::Leads;
use nc_module::{Module, Name};
use nc_print::write_module;
use nc_snapshot::{Listed, Snapshot, Trace};
use std::alloc::{AllocError, Global};

/// What is shown behind each entry and each syzygy.
#[derive(Drop)]
pub enum Shown {
    /// Nothing.
    Nothing,
    /// Their traces, each made again where it is written.
    Traces,
    /// Their labels, those of the entries and those of the syzygies.
    Labelled {
        entries: Labels,
        syzygies: Vec<Module>,
    },
}

/// A run, the leading words of its entries, and what is shown behind its items.
#[derive(Drop)]
pub(crate) struct Listing<'a> {
    pub(crate) snapshot: &'a Snapshot,
    pub(crate) leads: &'a Leads,
    pub(crate) shown: &'a Shown,
}

/// The trace of an item, whose letters have names.
fn named_trace(alloc: Global, listing: &Listing<'_>, listed: Listed) -> Result<Trace, AllocError>
    requires listing { IsListing listing.now }
    requires listed { IsListed listing.now.snapshot.now.state listed }
    ensures trace { IfOk result (λ t. (run : State) → IsRunAt listing.now.snapshot.now run
        → IsTraceIn run listed t) }
    ensures named { IfOk result (IsTraceNamed (length (names_in listing.now))) }
{
    listing.snapshot.recall_rule();
    trace_of(alloc, listing.snapshot, listing.leads, listed)
}

/// Appends the line of a trace.
fn write_trace_line(out: &mut Vec<u8>, names: &[Name], trace: &Trace) -> Result<(), AllocError>
    requires { IsTraceNamed (length names.now) trace.now }
    ensures { OnOk result ((label : Element)
        → out.new.items ≡ out.old.items
        ++ ended (cofactor_lines TraceOf names.now trace.now label)) }
{
    out.extend_from_slice(b"trace ")?;
    write_trace(out, names, trace)?;
    out.extend_from_slice(b"\n")
}

/// Appends the line of a label.
fn write_label_line(out: &mut Vec<u8>, names: &[Name], label: &Module) -> Result<(), AllocError>
    requires { AreTermsNamed (length names.now) label.now }
    ensures { OnOk result ((t : Proof)
        → out.new.items ≡ out.old.items
        ++ ended (cofactor_lines Full names.now t (element_of label.now))) }
{
    out.extend_from_slice(b"label ")?;
    write_module(out, names, label)?;
    out.extend_from_slice(b"\n")
}

/// The label of an item, whose letters have names.
fn label_in<'a>(
    snapshot: &Snapshot,
    entries: &'a Labels,
    syzygies: &'a [Module],
    listed: Listed,
) -> &'a Module
    requires labels { AreAllLabels snapshot.now entries.now syzygies.now }
    requires listed { IsListed snapshot.now.state listed }
    ensures label { element_of result.now ≡ label_among entries.now syzygies.now listed }
    ensures named { AreTermsNamed (length snapshot.now.problem.alphabet.names) result.now }
{
    snapshot.recall_rule();
    match listed {
        Listed::Entry(k) => entries.entry(k),
        Listed::Syzygy(k) => &syzygies[k as usize - 1],
        Listed::Claim => unreachable!(),
    }
}

/// Appends what is shown behind an item.
pub(crate) fn write_shown(
    alloc: Global,
    out: &mut Vec<u8>,
    listing: &Listing<'_>,
    listed: Listed,
) -> Result<(), AllocError>
    requires listing { IsListing listing.now }
    requires listed { IsListed listing.now.snapshot.now.state listed }
    ensures { OnOk result ((run : State) (t : Proof) → IsRunAt listing.now.snapshot.now run
        → IsTraceIn run listed t
        → out.new.items ≡ out.old.items ++ ended (lines_behind listing.now t listed)) }
{
    match listing.shown {
        Shown::Nothing => Ok(()),
        Shown::Traces => {
            let trace = named_trace(alloc, listing, listed)?;
            write_trace_line(out, names_of(listing.snapshot), &trace)
        }
        Shown::Labelled { entries, syzygies } => {
            let label = label_in(listing.snapshot, entries, syzygies, listed);
            write_label_line(out, names_of(listing.snapshot), label)
        }
    }
}
