//! Entries and syzygies, without their traces.

ghost use Rattle.nc_algebra.specs.Polynomials.{Polynomial};
ghost use Rattle.nc_snapshot.specs.Leads.{IsLeadCoefficientOf, IsLeadOf};
ghost use Rattle.std.specs.Prelude.{[], ◌<◌, ◌∷◌, ◌≡◌, ◌≢◌};

use nc_field::Residue;
use nc_poly::{Poly, Term};
use nc_sig::Sig;
use nc_words::Word;
use std::marker::Model;
use std::sync::Arc;

/// A signature with its polynomial, which is not zero.
#[derive(Drop)]
pub struct Entry {
    sig: Arc<Sig>,
    poly: Poly,
}

impl Model for Entry {
    ghost use Rattle.nc_snapshot.specs.Snapshots.{Signed};
    ghost use Rattle.std.specs.Prelude.{[], ◌≢◌};

    ghost Value = { Signed };

    ghost view = { λ e. record { sig = e.sig.value; polynomial = e.poly } };

    ghost invariant = { λ e. e.poly ≢ [] };
}

impl Entry {
    /// The signature with this polynomial.
    pub(crate) fn of(sig: Arc<Sig>, poly: Poly) -> Entry
        requires { poly ≢ [] }
        ensures { result ≡ record { sig = sig.value; polynomial = poly } }
    {
        Entry { sig, poly }
    }

    /// The signature.
    pub fn sig(&self) -> &Arc<Sig>
        ensures { result.now.value ≡ self.now.sig }
    {
        &self.sig
    }

    /// The polynomial.
    pub fn poly(&self) -> &Poly
        ensures { result.now ≡ self.now.polynomial }
    {
        &self.poly
    }

    /// The leading term.
    fn lead_term(&self) -> &Term
        ensures first { (others : Polynomial) × (self.now.polynomial ≡ result.now ∷ others) }
        ensures some { 0 < result.now.coefficient }
    {
        let terms = self.poly.terms();
        &terms[0]
    }

    /// The leading word.
    pub fn lead(&self) -> &Word
        ensures { IsLeadOf self.now.polynomial result.now }
    {
        let term = self.lead_term();
        &term.word
    }

    /// The coefficient of the leading word.
    pub fn lead_coefficient(&self) -> Residue
        ensures { IsLeadCoefficientOf self.now.polynomial result }
    {
        let term = self.lead_term();
        term.coefficient
    }

    /// The polynomial by itself.
    pub(crate) fn into_poly(self) -> Poly
        ensures { result ≡ self.polynomial }
    {
        let Entry { sig: _, poly } = self;
        poly
    }
}

/// A signature whose polynomial was reduced to zero.
#[derive(Drop)]
pub struct Syzygy {
    sig: Arc<Sig>,
}

impl Model for Syzygy {
    ghost use Rattle.nc_algebra.specs.Monomials.{Sig};

    ghost Value = { Sig };

    ghost view = { λ h. h.sig.value };
}

impl Syzygy {
    /// The syzygy with this signature.
    pub(crate) fn of(sig: Arc<Sig>) -> Syzygy
        ensures { result ≡ sig.value }
    {
        Syzygy { sig }
    }

    /// The signature.
    pub fn sig(&self) -> &Arc<Sig>
        ensures { result.now.value ≡ self.now }
    {
        &self.sig
    }
}
