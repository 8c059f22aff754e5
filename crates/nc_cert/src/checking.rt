//! The check of a certificate.

ghost use Rattle.nc_algebra.specs.Certificates.{AreLines};
ghost use Rattle.nc_algebra.specs.Limits.{max_lines};
ghost use Rattle.nc_algebra.specs.Polynomials.{IsNormal};
ghost use Rattle.nc_algebra.specs.Settings.{IsSetting};
ghost use Rattle.nc_cert.specs.Charges.{Charge, LimitLaw};
ghost use Rattle.nc_cert.specs.Checking.{IsRest, IsVerdict, IsVerdictWithin};
ghost use Rattle.std.specs.Prelude.{IfOk, List, [], length, ℕ, ◌≤◌};

use crate::charge::{Spending, all_letters, spend};
use crate::taking::{Taken, take_lines};
use crate::value::minus_line;
use nc_module::{Certificate, Line, Setting};
use nc_poly::Poly;
use std::alloc::{AllocError, Global};

/// The most that the parts of a certificate may be charged with together.
pub const MAX_CHARGE: u64 = 100_000_000;

/// What a check says of a certificate.
#[derive(Drop)]
pub enum Verdict {
    /// The last line's value is the claim; where there is no line the claim is zero.
    Valid,
    /// It is not; the claim minus the value of the last line.
    Invalid(Poly),
    /// The first part up to which the parts are charged with more than `MAX_CHARGE` stands in this line, counted from 1;
    /// what they are charged with, its own charge included.
    TooMuch { line: u32, charge: u128 },
}

/// What is left of the claim.
#[derive(Drop)]
enum Rest {
    /// The claim minus the value of the last line.
    Of(Poly),
    /// The first part that passes the limit stands in this line; the charge up to it.
    TooMuch { line: u32, charge: u128 },
}

/// The claim minus the value of the last line, unless a part passes the limit.
fn rest_within(
    alloc: Global,
    limit: u64,
    setting: &Setting,
    claim: &Poly,
    lines: &[Line],
) -> Result<Rest, AllocError>
    requires setting { IsSetting setting.now }
    requires claim { IsNormal setting.now.setting.prime claim.now }
    requires lines { AreLines setting.now [] lines.now }
    requires few { length lines.now ≤ max_lines }
    ensures { IfOk result (IsRest limit setting.now.setting claim.now lines.now) }
{
    let (last, before) = match lines.split_last() {
        None => return Ok(Rest::Of(claim.copy()?)),
        Some(parts) => parts,
    };
    let generators = all_letters(alloc, setting.generators())?;
    let kept = match take_lines(alloc, setting, &generators, limit, before)? {
        Taken::All(kept) => kept,
        Taken::TooMuch { line, charge } => return Ok(Rest::TooMuch { line, charge }),
    };
    match spend(
        setting,
        &kept.values,
        &generators,
        &kept.letters,
        limit,
        kept.spent,
        last,
    ) {
        Spending::Beyond(charge) => Ok(Rest::TooMuch {
            line: lines.len() as u32,
            charge,
        }),
        Spending::Within(_) => {
            let copy = claim.copy()?;
            let rest = minus_line(alloc, copy, 1, setting, &kept.values, last)?;
            Ok(Rest::Of(rest))
        }
    }
}

/// `check` with this limit.
pub(crate) fn check_within(
    alloc: Global,
    certificate: &Certificate,
    limit: u64,
) -> Result<Verdict, AllocError>
    ensures { IfOk result (IsVerdictWithin limit certificate.now) }
{
    let rest = rest_within(
        alloc,
        limit,
        &certificate.setting,
        &certificate.claim,
        certificate.lines.lines(),
    )?;
    match rest {
        Rest::TooMuch { line, charge } => Ok(Verdict::TooMuch { line, charge }),
        Rest::Of(rest) => {
            if rest.is_zero() {
                Ok(Verdict::Valid)
            } else {
                Ok(Verdict::Invalid(rest))
            }
        }
    }
}

/// Computes the value of each line once, as a polynomial in normal form, and compares the last one with the claim.
///
/// The charge of a part `c a f b` is the sum, over the words w of f, of one more than the letters of `a w b`, also where c
/// is 0. It is known before the part is multiplied out, from the number of the words of f and of their letters, and no
/// part of a line in which `MAX_CHARGE` is passed is multiplied out. So the products that are formed have, with their
/// letters, at most that size: the time grows as n log n with the charge n of all parts, and the memory as n, beside one
/// step for each part and each line.
pub fn check(alloc: Global, certificate: &Certificate) -> Result<Verdict, AllocError>
    ensures { IfOk result (IsVerdict certificate.now) }
{
    check_within(alloc, certificate, MAX_CHARGE)
}

/// Charges are within a limit, or pass it at one place, which is the first.
pub fn limit_law()
    ensures { (limit : ℕ) (charges : List Charge) → LimitLaw limit charges }
{}
