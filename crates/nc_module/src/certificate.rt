//! Certificates.

use crate::line::Lines;
use crate::setting::Setting;
use nc_poly::Poly;
use std::marker::Model;

/// A setting, a claim, and lines of which the last one is to have the claim's value; where there is no line the claim is
/// to be zero. Each line names generators of the setting and lines before it, and no word that its value can have is
/// longer than 100,000 letters.
#[derive(Drop)]
pub struct Certificate {
    pub setting: Setting,
    pub claim: Poly,
    pub lines: Lines,
}

impl Model for Certificate {
    ghost use Rattle.nc_algebra.specs.Certificates.{Certificate, IsCertificate};

    ghost Value = { Certificate };

    ghost view = { λ c. record { setting = c.setting; claim = c.claim; lines = c.lines } };

    ghost invariant = { λ c.
        IsCertificate (record { setting = c.setting; claim = c.claim; lines = c.lines }) };
}
