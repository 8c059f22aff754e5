//! The charges of parts.

ghost use Rattle.nc_algebra.specs.Certificates.{IsFactor, factor_value};
ghost use Rattle.nc_algebra.specs.Limits.{max_letters};
ghost use Rattle.nc_cert.specs.Charges.{products_charge};
ghost use Rattle.nc_cert.specs.Ready.{IsReadyPart};
ghost use Rattle.nc_cert.specs.Spent.{IsSpending, kept_charge, letter_count};
ghost use Rattle.nc_module.specs.Factors.{factor_of};
ghost use Rattle.std.specs.Prelude.{All, IfOk, length, map, ◌+◌, ◌<◌, ◌^◌, ◌≡◌, ◌≤◌};

use crate::value::factor;
use nc_module::{Line, Of, Part, Setting};
use nc_poly::{Poly, Term};
use nc_words::Letter;
use std::alloc::{AllocError, Global};

/// The letters of all words of a polynomial.
pub(crate) fn letter_count(f: &Poly) -> u128
    ensures { result ≡ letter_count f.now }
{
    let mut letters = 0;
    for term in f.terms() {
        letters += term.letters().len() as u128;
    }
    letters
}

/// The letters of each polynomial.
pub(crate) fn all_letters(alloc: Global, list: &[Poly]) -> Result<Vec<u128>, AllocError>
    ensures { IfOk result (λ letters. letters.items ≡ map letter_count list.now) }
{
    let mut letters = Vec::with_capacity(alloc, list.len())?;
    for f in list {
        letters.push(letter_count(f))?;
    }
    Ok(letters)
}

/// The letters of what a part multiplies, from those of the generators and of the values.
fn factor_letters(
    setting: &Setting,
    values: &[Poly],
    generators: &[u128],
    lines: &[u128],
    of: Of,
) -> u128
    requires some { IsFactor setting.now.setting (length values.now) (factor_of of) }
    requires generators { generators.now ≡ map letter_count setting.now.setting.generators }
    requires lines { lines.now ≡ map letter_count values.now }
    ensures { result ≡ letter_count (factor_value setting.now.setting values.now (factor_of of)) }
{
    match of {
        Of::Generator(i) => generators[i as usize - 1],
        Of::Line(k) => lines[k as usize - 1],
    }
}

/// What the products of a, words with so many letters in all, and b cost.
fn charge_of(words: &[Term], letters: u128, a: &[Letter], b: &[Letter]) -> u128
    requires letters { letters ≡ letter_count words.now }
    requires left { length a.now ≤ max_letters }
    requires right { length b.now ≤ max_letters }
    requires short { All (λ t. length a.now + length t.key + length b.now ≤ max_letters) words.now }
    ensures value { result ≡ products_charge a.now words.now b.now }
    ensures few { result < 2 ^ 100 }
{
    let each = 1 + a.len() as u128 + b.len() as u128;
    words.len() as u128 * each + letters
}

/// What the products of a part cost: each one more than its letters.
fn part_charge(
    setting: &Setting,
    values: &[Poly],
    generators: &[u128],
    lines: &[u128],
    part: &Part,
) -> u128
    requires ready { IsReadyPart setting.now.setting values.now part.now }
    requires generators { generators.now ≡ map letter_count setting.now.setting.generators }
    requires lines { lines.now ≡ map letter_count values.now }
    ensures value { result ≡ kept_charge setting.now.setting values.now part.now }
    ensures few { result < 2 ^ 100 }
{
    let words = factor(setting, values, part.of).terms();
    let letters = factor_letters(setting, values, generators, lines, part.of);
    charge_of(words, letters, part.left.letters(), part.right.letters())
}

/// What is spent after a line, or where it passes the limit.
#[derive(Clone, Copy)]
pub(crate) enum Spending {
    /// It stays within the limit: what is spent then.
    Within(u128),
    /// A part passes the limit: the charge up to it.
    Beyond(u128),
}

/// Adds the charges of a line's parts to what is spent, and stops at the first one that passes the limit.
pub(crate) fn spend(
    setting: &Setting,
    values: &[Poly],
    generators: &[u128],
    lines: &[u128],
    limit: u64,
    spent: u128,
    line: &Line,
) -> Spending
    requires ready { All (IsReadyPart setting.now.setting values.now) line.now }
    requires generators { generators.now ≡ map letter_count setting.now.setting.generators }
    requires lines { lines.now ≡ map letter_count values.now }
    requires within { spent ≤ limit }
    ensures { IsSpending limit spent (kept_charge setting.now.setting values.now) line.now result }
{
    let mut spent = spent;
    for part in line.parts() {
        spent += part_charge(setting, values, generators, lines, part);
        if spent > limit as u128 {
            return Spending::Beyond(spent);
        }
    }
    Spending::Within(spent)
}
