//! The answer of `check`.

ghost use Rattle.nc_algebra.specs.Certificates.{rest_of};
ghost use Rattle.nc_algebra.specs.Limits.{max_bytes};
ghost use Rattle.nc_text.specs.Certificates.{reads_certificate};
ghost use Rattle.nc_top.specs.Check.{IsCheckAnswer};
ghost use Rattle.nc_top.specs.Reports.{invalid_report, too_much_report};
ghost use Rattle.std.specs.Prelude.{IfOk, Ok, length, ◌≡◌, ◌≤◌};

use crate::input::answer_unread;
use crate::status::{Answer, Status};
use itoa::Buffer;
use nc_cert::{Verdict, check};
use nc_module::Certificate;
use nc_poly::Poly;
use nc_text::{read_certificate, write_poly};
use std::alloc::{AllocError, Global};

/// The report on a certificate that is not valid.
fn invalid_report(
    alloc: Global,
    certificate: &Certificate,
    rest: &Poly,
) -> Result<Vec<u8>, AllocError>
    requires { rest.now ≡ rest_of certificate.now.setting.setting certificate.now.claim
        certificate.now.lines }
    ensures { IfOk result (λ report. report.items ≡ invalid_report
        certificate.now.setting.alphabet.names rest.now) }
{
    let mut report = Vec::from_slice(alloc, b"invalid\nrest ")?;
    write_poly(&mut report, certificate.setting.names(), rest)?;
    report.extend_from_slice(b"\n")?;
    Ok(report)
}

/// The report on a certificate that asks for too much work.
fn too_much_report(alloc: Global, line: u32, charge: u128) -> Result<Vec<u8>, AllocError>
    ensures { IfOk result (λ report. report.items ≡ too_much_report line charge) }
{
    let mut numbers = Buffer::new();
    let mut report = Vec::from_slice(alloc, b"too much work: line ")?;
    report.extend_from_slice(numbers.format(line).as_bytes())?;
    report.extend_from_slice(b" needs ")?;
    report.extend_from_slice(numbers.format(charge).as_bytes())?;
    report.extend_from_slice(b"\n")?;
    Ok(report)
}

/// Status and report for a text of a certificate.
fn answer_certificate(
    alloc: Global,
    bytes: &[u8],
    certificate: &Certificate,
) -> Result<Answer, AllocError>
    requires small { length bytes.now ≤ max_bytes }
    requires certificate { reads_certificate bytes.now ≡ Ok certificate.now }
    ensures { IfOk result (λ r. IsCheckAnswer bytes.now r.0 r.1.items) }
{
    match check(alloc, certificate)? {
        Verdict::Valid => Ok((Status::Done, Vec::from_slice(alloc, b"valid\n")?)),
        Verdict::Invalid(rest) => Ok((Status::Invalid, invalid_report(alloc, certificate, &rest)?)),
        Verdict::TooMuch { line, charge } => Ok((
            Status::TooMuch { line, charge },
            too_much_report(alloc, line, charge)?,
        )),
    }
}

/// Status and report for the bytes of an input that are not too many.
pub(crate) fn answer_check(alloc: Global, bytes: &[u8]) -> Result<Answer, AllocError>
    requires { length bytes.now ≤ max_bytes }
    ensures { IfOk result (λ r. IsCheckAnswer bytes.now r.0 r.1.items) }
{
    match read_certificate(alloc, bytes) {
        Ok(certificate) => answer_certificate(alloc, bytes, &certificate),
        Err(fault) => answer_unread(alloc, fault),
    }
}
