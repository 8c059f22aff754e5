//! The values of lines, within the limit.

ghost use Rattle.nc_algebra.specs.Certificates.{AreLines};
ghost use Rattle.nc_algebra.specs.Limits.{max_lines};
ghost use Rattle.nc_cert.specs.Checking.{IsTaken};
ghost use Rattle.nc_cert.specs.Spent.{letter_count};
ghost use Rattle.std.specs.Prelude.{IfOk, [], length, map, ◌≡◌, ◌≤◌};

use crate::charge::{Spending, letter_count, spend};
use crate::value::minus_line;
use nc_module::{Line, Setting};
use nc_poly::Poly;
use std::alloc::{AllocError, Global};

/// What is kept of the lines so far.
#[derive(Drop)]
pub(crate) struct Kept {
    /// Their values in normal form.
    pub(crate) values: Vec<Poly>,
    /// The letters of all words of each value.
    pub(crate) letters: Vec<u128>,
    /// The charges of all parts.
    pub(crate) spent: u128,
}

/// What comes of lines.
#[derive(Drop)]
pub(crate) enum Taken {
    /// They stay within the limit.
    All(Kept),
    /// The first part that passes the limit stands in this line; the charge up to it.
    TooMuch { line: u32, charge: u128 },
}

/// The values of the lines, as long as they stay within the limit. No line is multiplied out before its charge is known.
pub(crate) fn take_lines(
    alloc: Global,
    setting: &Setting,
    generators: &[u128],
    limit: u64,
    lines: &[Line],
) -> Result<Taken, AllocError>
    requires lines { AreLines setting.now [] lines.now }
    requires few { length lines.now ≤ max_lines }
    requires generators { generators.now ≡ map letter_count setting.now.setting.generators }
    ensures { IfOk result (IsTaken limit setting.now.setting lines.now) }
{
    let minus_one = setting.prime().neg(1);
    let mut values = Vec::with_capacity(alloc, lines.len())?;
    let mut letters = Vec::with_capacity(alloc, lines.len())?;
    let mut spent = 0;
    for line in lines {
        match spend(setting, &values, generators, &letters, limit, spent, line) {
            Spending::Within(now) => spent = now,
            Spending::Beyond(charge) => {
                let line = values.len() as u32 + 1;
                return Ok(Taken::TooMuch { line, charge });
            }
        }
        let value = minus_line(alloc, Poly::zero(alloc), minus_one, setting, &values, line)?;
        letters.push(letter_count(&value))?;
        values.push(value)?;
    }
    Ok(Taken::All(Kept {
        values,
        letters,
        spent,
    }))
}
