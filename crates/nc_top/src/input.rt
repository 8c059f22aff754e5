//! Inputs that are not what a command reads.

ghost use Rattle.nc_top.specs.Inputs.{IsUnread};
ghost use Rattle.nc_top.specs.Reports.{bad_text_report};
ghost use Rattle.std.specs.Prelude.{IfOk, ◌≡◌};

use crate::status::{Answer, Status};
use itoa::Buffer;
use nc_text::ReadFault;
use std::alloc::{AllocError, Global};

/// The report on a text that is not what the command reads.
fn bad_text_report(alloc: Global, line: u64, kind: u8) -> Result<Vec<u8>, AllocError>
    ensures { IfOk result (λ report. report.items ≡ bad_text_report line kind) }
{
    let mut numbers = Buffer::new();
    let mut report = Vec::from_slice(alloc, b"bad text line ")?;
    report.extend_from_slice(numbers.format(line).as_bytes())?;
    report.extend_from_slice(b" kind ")?;
    report.extend_from_slice(numbers.format(kind).as_bytes())?;
    report.extend_from_slice(b"\n")?;
    Ok(report)
}

/// Status and report where a text was not read.
pub(crate) fn answer_unread(alloc: Global, fault: ReadFault) -> Result<Answer, AllocError>
    ensures { IfOk result (λ r. IsUnread fault r.0 r.1.items) }
{
    match fault {
        ReadFault::Text(fault) => {
            let (line, kind) = (fault.line, fault.kind.number());
            let report = bad_text_report(alloc, line, kind)?;
            Ok((Status::BadText { line, kind }, report))
        }
        ReadFault::OutOfMemory => Err(AllocError),
    }
}
