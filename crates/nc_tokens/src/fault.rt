//! Why a text could not be read.

ghost use Rattle.nc_tokens.specs.Gives.{IsAt};
ghost use Rattle.nc_tokens.specs.Kinds.{kind_number};
ghost use Rattle.nc_tokens.specs.declared.fault.LineError.TheVariants.{Memory};
ghost use Rattle.nc_tokens.specs.declared.fault.ReadFault.TheVariants.{OutOfMemory};
ghost use Rattle.std.specs.Prelude.{◌≡◌};

use std::alloc::{AllocError, AllocFailed};
use thiserror::Error;

/// What is wrong with a line. Of the faults that could be told at one token, the first of this order is told:
/// `LongLiteral`, `Syntax`, `BadPrime`, `UnknownName`, `LongWord`, `OutOfRange`; in a `letters` line
/// `BadName`, `TooManyNames`, `DoubleName`.
#[derive(Clone, Copy, Debug, PartialEq, Eq)]
pub enum Kind {
    /// Outside its comment the line has a byte that is no tab and no printable ASCII.
    BadByte,
    /// The line does not begin with a keyword that may stand at its place.
    WrongLine,
    /// The text ends where another line must come; the fault's line is the number of lines plus 1.
    Missing,
    /// A token, or the end of the line, stands where the grammar wants something else.
    Syntax,
    /// A literal has more than 18 digits.
    LongLiteral,
    /// The number behind `field` is not a prime of the list.
    BadPrime,
    /// A token behind `letters` is not a name of at most 16 characters.
    BadName,
    /// A name stands twice behind `letters`.
    DoubleName,
    /// There is a 65th name behind `letters`.
    TooManyNames,
    /// A name in a word is not one of the letters.
    UnknownName,
    /// A word has more than 255 letters; told at the factor that passes 255.
    LongWord,
    /// The polynomial of a `generator` line is zero; told after all other faults of its line.
    ZeroGenerator,
    /// A number is greater than its limit, a weight is not 1 to 100, a number in brackets is no generator's, a number
    /// in braces is no earlier line's, or a form of certificates is neither 1 nor 2.
    OutOfRange,
    /// There is a 1,001st `generator` line; told before all other faults behind its keyword.
    TooManyGenerators,
    /// A part of a certificate has a reach greater than 100,000; told at the end of its line.
    LongLine,
}

impl Kind {
    /// The number under which reports name the kind.
    pub fn number(self) -> u8
        ensures { result ≡ kind_number self }
    {
        match self {
            Kind::BadByte => 1,
            Kind::WrongLine => 2,
            Kind::Missing => 3,
            Kind::Syntax => 4,
            Kind::LongLiteral => 5,
            Kind::BadPrime => 6,
            Kind::BadName => 7,
            Kind::DoubleName => 8,
            Kind::TooManyNames => 9,
            Kind::UnknownName => 10,
            Kind::LongWord => 11,
            Kind::ZeroGenerator => 12,
            Kind::OutOfRange => 13,
            Kind::TooManyGenerators => 14,
            Kind::LongLine => 15,
        }
    }
}

/// The first fault of a text.
#[derive(Clone, Copy, Debug, PartialEq, Eq)]
pub struct TextFault {
    /// The line's number, counted from 1. Blank lines and comments count.
    pub line: u64,
    pub kind: Kind,
}

/// Why a line was not read.
#[derive(Debug, Drop)]
pub enum LineError {
    /// There was not enough memory.
    Memory,
    /// What is wrong with the line.
    Fault(Kind),
}

impl From<AllocError> for LineError {
    ghost from_gives = { λ _ e. e ≡ Memory };

    fn from(_e: AllocError) -> LineError {
        LineError::Memory
    }
}

impl<T: Drop> From<AllocFailed<T>> for LineError {
    ghost from_gives = { λ _ e. e ≡ Memory };

    fn from(_e: AllocFailed<T>) -> LineError {
        LineError::Memory
    }
}

/// Why a text was not read.
#[derive(Debug, Drop, Error)]
pub enum ReadFault {
    /// It is no such text: its first fault.
    #[error("line {}: fault {}", .0.line, .0.kind.number())]
    Text(TextFault),
    /// There was not enough memory. This says nothing about the text.
    #[error("out of memory")]
    OutOfMemory,
}

impl From<AllocError> for ReadFault {
    ghost from_gives = { λ _ e. e ≡ OutOfMemory };

    fn from(_e: AllocError) -> ReadFault {
        ReadFault::OutOfMemory
    }
}

impl<T: Drop> From<AllocFailed<T>> for ReadFault {
    ghost from_gives = { λ _ e. e ≡ OutOfMemory };

    fn from(_e: AllocFailed<T>) -> ReadFault {
        ReadFault::OutOfMemory
    }
}

/// What was read in a line, with the line's number in a fault.
pub fn at<T>(line: u64, read: Result<T, LineError>) -> Result<T, ReadFault>
    ensures { IsAt line read result }
{
    match read {
        Ok(value) => Ok(value),
        Err(LineError::Memory) => Err(ReadFault::OutOfMemory),
        Err(LineError::Fault(kind)) => Err(ReadFault::Text(TextFault { line, kind })),
    }
}
