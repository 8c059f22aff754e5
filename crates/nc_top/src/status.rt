//! How a run ends.

ghost use Rattle.nc_top.specs.Statuses.{code_of};
ghost use Rattle.std.specs.Prelude.{◌≡◌};

use nc_snapshot::Listed;

/// How a run ended.
#[derive(Clone, Copy, Debug, PartialEq, Eq)]
pub enum Status {
    /// `basis`: the run is complete; the report lists what it found. `member`: the claim has a representation within the
    /// bound; the report is a certificate of it. `check`: the certificate is valid.
    Done,
    /// The certificate is not valid; the report has the rest of the claim.
    Invalid,
    /// `member`: the claim has no representation within the bound; the report has what is left of it.
    NotBelow,
    /// The steps of the problem were used up before its run was complete. `basis`: the report names the next signature and
    /// lists what was found. `member`: something is left of the claim; the report names the next signature and has what is
    /// left.
    Budget,
    /// `basis --cofactors full`: the label of this entry or syzygy has so many terms, more than the limit; no other is told.
    /// `member --form 1`: the label of this entry that the representation of the claim needs has, or the representation
    /// itself.
    TooMany { listed: Listed, terms: u64 },
    /// Checking the certificate asks for more work than the limit: the line of the first part that passes it, and the
    /// charge up to that part.
    TooMuch { line: u32, charge: u128 },
    /// The words are no command that runs; nothing was read.
    Usage,
    /// The bytes are no text of what the command reads: the line of the first fault, and the number of its kind.
    BadText { line: u64, kind: u8 },
    /// The source has more bytes than a text may have.
    TooLarge,
    /// The source failed; nothing was written.
    ReadFault,
    /// The sink failed; a front of the report was written.
    WriteFault,
    /// No memory was left; nothing was written.
    OutOfMemory,
}

/// The code with which the program ends.
pub fn code_of(status: Status) -> u8
    ensures { result ≡ code_of status }
{
    match status {
        Status::Done => 0,
        Status::Invalid | Status::NotBelow => 1,
        Status::Usage => 2,
        Status::BadText { .. } | Status::TooLarge => 3,
        Status::Budget | Status::TooMany { .. } | Status::TooMuch { .. } => 4,
        Status::ReadFault => 5,
        Status::WriteFault => 6,
        Status::OutOfMemory => 7,
    }
}

/// What a command answers: its status and its report.
pub(crate) type Answer = (Status, Vec<u8>);
