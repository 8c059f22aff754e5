//! What a run has found.

ghost use Rattle.nc_snapshot.specs.Outcomes.{HasTerms, found_after, outcome_of};
ghost use Rattle.nc_snapshot.specs.declared.outcome.Outcome.TheVariants.{Entry as NewEntry, Syzygy as NewSyzygy};
ghost use Rattle.std.specs.Prelude.{IfErr, IfOk, OnErr, OnOk, [], get_or, length, ◌+◌, ◌<◌, ◌≡◌, ◌≢◌};

use crate::entry::{Entry, Syzygy};
use crate::outcome::Outcome;
use crate::trace::Trace;
use nc_chunks::Chunks;
use nc_poly::Poly;
use nc_sig::Sig;
use std::alloc::{AllocError, AllocFailed, Global};
use std::marker::Model;
use std::sync::Arc;

/// Entries and syzygies in their order, each without its trace, and how many signatures were covered or settled.
#[derive(Drop)]
pub(crate) struct Found {
    covered: u64,
    settled: u64,
    entries: Chunks<Entry>,
    syzygies: Chunks<Syzygy>,
}

impl Model for Found {
    ghost use Rattle.nc_snapshot.specs.Snapshots.{Found};

    ghost Value = { Found };

    ghost view = { λ f. record {
      entries = f.entries;
      syzygies = f.syzygies;
      covered = f.covered;
      settled = f.settled;
    } };
}

impl Found {
    /// Nothing.
    pub(crate) fn empty(alloc: Global) -> Found
        ensures { result ≡ record { entries = []; syzygies = []; covered = 0; settled = 0 } }
    {
        Found {
            covered: 0,
            settled: 0,
            entries: Chunks::empty(alloc),
            syzygies: Chunks::empty(alloc),
        }
    }

    pub(crate) fn covered(&self) -> u64
        ensures { result ≡ self.now.covered }
    {
        self.covered
    }

    pub(crate) fn settled(&self) -> u64
        ensures { result ≡ self.now.settled }
    {
        self.settled
    }

    /// The number of entries.
    pub(crate) fn entries(&self) -> usize
        ensures { result ≡ length self.now.entries }
    {
        self.entries.len()
    }

    /// The number of syzygies.
    pub(crate) fn syzygies(&self) -> usize
        ensures { result ≡ length self.now.syzygies }
    {
        self.syzygies.len()
    }

    /// The entry at this place, counted from 0.
    pub(crate) fn entry(&self, index: usize) -> &Entry
        requires { index < length self.now.entries }
        ensures { result.now ≡ get_or self.now.entries index result.now }
    {
        self.entries.get(index)
    }

    /// The syzygy at this place, counted from 0.
    pub(crate) fn syzygy(&self, index: usize) -> &Syzygy
        requires { index < length self.now.syzygies }
        ensures { result.now ≡ get_or self.now.syzygies index result.now }
    {
        self.syzygies.get(index)
    }

    /// The same, with the chunks shared.
    pub(crate) fn share(&self) -> Result<Found, AllocError>
        ensures { IfOk result (λ f. f ≡ self.now) }
    {
        let entries = self.entries.share()?;
        let syzygies = self.syzygies.share()?;
        Ok(Found {
            covered: self.covered,
            settled: self.settled,
            entries,
            syzygies,
        })
    }

    /// Lists a syzygy. After want of memory the outcome that it is of comes back.
    fn add_syzygy(&mut self, sig: Arc<Sig>, trace: Trace) -> Result<(), AllocFailed<Outcome>>
        ensures added { OnOk result (self.new ≡ found_after self.old sig.value (NewSyzygy trace)) }
        ensures unchanged { OnErr result (self.new ≡ self.old) }
        ensures returned { IfErr result (λ e. outcome_of e.value ≡ outcome_of (NewSyzygy trace)) }
    {
        if self.syzygies.push(Syzygy::of(sig)).is_err() {
            let value = Outcome::Syzygy { trace };
            return Err(AllocFailed { value });
        }
        Ok(())
    }

    /// Lists an entry. After want of memory the outcome that it is of comes back.
    fn add_entry(
        &mut self,
        sig: Arc<Sig>,
        poly: Poly,
        trace: Trace,
    ) -> Result<(), AllocFailed<Outcome>>
        requires some { poly ≢ [] }
        ensures added { OnOk result (self.new ≡ found_after self.old sig.value
            (NewEntry poly trace)) }
        ensures unchanged { OnErr result (self.new ≡ self.old) }
        ensures returned { IfErr result
            (λ e. outcome_of e.value ≡ outcome_of (NewEntry poly trace)) }
    {
        if let Err(failed) = self.entries.push(Entry::of(sig, poly)) {
            let poly = failed.value.into_poly();
            let value = Outcome::Entry { poly, trace };
            return Err(AllocFailed { value });
        }
        Ok(())
    }

    /// Takes what became of a signature. After want of memory nothing is changed, and the outcome comes back.
    pub(crate) fn add(
        &mut self,
        sig: Arc<Sig>,
        outcome: Outcome,
    ) -> Result<(), AllocFailed<Outcome>>
        requires covered { self.old.covered < 18446744073709551615 }
        requires settled { self.old.settled < 18446744073709551615 }
        requires some { HasTerms (outcome_of outcome) }
        ensures added { OnOk result (self.new ≡ found_after self.old sig.value outcome) }
        ensures unchanged { OnErr result (self.new ≡ self.old) }
        ensures returned { IfErr result (λ e. outcome_of e.value ≡ outcome_of outcome) }
    {
        match outcome {
            Outcome::Covered => self.covered += 1,
            Outcome::Settled { number: _ } => self.settled += 1,
            Outcome::Syzygy { trace } => self.add_syzygy(sig, trace)?,
            Outcome::Entry { poly, trace } => self.add_entry(sig, poly, trace)?,
        }
        Ok(())
    }
}
