//! The lines of a certificate in its second form.

ghost use Rattle.nc_algebra.specs.Certificates.{IsFactor, factor_reach, longest as longest_of, part_reach};
ghost use Rattle.nc_algebra.specs.Limits.{max_bytes, max_reach};
ghost use Rattle.nc_module.specs.Factors.{factor_of};
ghost use Rattle.nc_text.specs.Certificates.{line_lines, part_lines};
ghost use Rattle.nc_text.specs.Rows.{part_at};
ghost use Rattle.nc_tokens.specs.Gives.{Gives, GivesText};
ghost use Rattle.nc_tokens.specs.Lines.{lines_left};
ghost use Rattle.nc_tokens.specs.Unread.{left};
ghost use Rattle.std.specs.Prelude.{All, IfOk, OnOk, [], length, map, ◌+◌, ◌<◌, ◌≡◌, ◌≤◌};

use crate::sides::{multiplied, residue_of, side_of};
use nc_module::{Line, Lines, Of, Part, Setting};
use nc_poly::Poly;
use nc_tokens::{Kind, LineError, ReadFault, Text, Tokens, at};
use std::alloc::{AllocError, Global};

/// The most letters of a word that a line can reach.
const MAX_REACH: usize = 100_000;

/// The most letters of a word of the polynomial.
fn longest(f: &Poly) -> usize
    ensures { result ≡ longest_of f.now }
{
    let mut most = 0;
    'terms: for t in f.terms() {
        most = t.letters().len().max(most);
    }
    most
}

/// The same of each generator.
fn longest_of_generators(alloc: Global, setting: &Setting) -> Result<Vec<usize>, AllocError>
    ensures generators { IfOk result
        (λ ms. ms.items ≡ map longest_of setting.now.setting.generators) }
    ensures short { IfOk result (λ ms. All (λ m. m ≤ max_reach) ms.items) }
{
    let mut all = Vec::new(alloc);
    'generators: for f in setting.generators() {
        all.push(longest(f))?;
    }
    Ok(all)
}

/// How far what is multiplied reaches.
fn inside_of(setting: &Setting, longest: &[usize], reaches: &[usize], of: Of) -> usize
    requires generators { longest.now ≡ map longest_of setting.now.setting.generators }
    requires factor { IsFactor setting.now.setting (length reaches.now) (factor_of of) }
    requires short { All (λ m. m ≤ max_reach) longest.now }
    requires reached { All (λ m. m ≤ max_reach) reaches.now }
    ensures value { result ≡ factor_reach setting.now.setting reaches.now (factor_of of) }
    ensures short { result ≤ max_reach }
{
    setting.recall_rule();
    match of {
        Of::Generator(i) => longest[i as usize - 1],
        Of::Line(k) => reaches[k as usize - 1],
    }
}

/// How far a part reaches: its words and the longest word of what it multiplies.
fn reach_of(setting: &Setting, longest: &[usize], reaches: &[usize], part: &Part) -> usize
    requires generators { longest.now ≡ map longest_of setting.now.setting.generators }
    requires factor { IsFactor setting.now.setting (length reaches.now) part.now.of }
    requires short { All (λ m. m ≤ max_reach) longest.now }
    requires reached { All (λ m. m ≤ max_reach) reaches.now }
    ensures { result ≡ part_reach setting.now.setting reaches.now part.now }
{
    let inside = inside_of(setting, longest, reaches, part.of);
    part.left.letters().len() + inside + part.right.letters().len()
}

/// Reads what stands behind `part`, behind lines with these reaches; gives the part and its reach.
#[tactic(auto, unfolding(crate::specs::Rows::part_at))]
fn part_of(
    alloc: Global,
    setting: &Setting,
    longest: &[usize],
    reaches: &[usize],
    line: &mut Tokens<'_>,
) -> Result<(Part, usize), LineError>
    requires generators { longest.now ≡ map longest_of setting.now.setting.generators }
    requires short { All (λ m. m ≤ max_reach) longest.now }
    requires reached { All (λ m. m ≤ max_reach) reaches.now }
    requires few { length reaches.now ≤ max_bytes }
    ensures reads { Gives (λ r. r.0) result (part_at setting.now reaches.now line.old) }
    ensures reach { IfOk result (λ r. r.1 ≡ part_reach setting.now.setting reaches.now r.0) }
    ensures short { IfOk result (λ r. r.1 ≤ max_reach) }
{
    let number = line.literal()?;
    let left = side_of(alloc, setting.alphabet(), line)?;
    let of = multiplied(setting, reaches.len() as u32, line)?;
    let right = side_of(alloc, setting.alphabet(), line)?;
    line.end()?;
    let part = Part {
        coefficient: residue_of(setting, number),
        left,
        of,
        right,
    };
    let reach = reach_of(setting, longest, reaches, &part);
    if reach > MAX_REACH {
        return Err(LineError::Fault(Kind::LongLine));
    }
    Ok((part, reach))
}

/// Reads the lines `part` and `line` behind the first line `line`.
fn parts_of(alloc: Global, setting: &Setting, text: &mut Text<'_>) -> Result<Lines, ReadFault>
    requires { lines_left (left text.old) ≤ max_bytes }
    ensures { GivesText (λ ls. (ls, left text.new)) result
        (part_lines setting.now [] [] (left text.old)) }
{
    let longest = longest_of_generators(alloc, setting)?;
    let mut lines = Lines::empty(alloc);
    let mut reaches = Vec::new(alloc);
    let mut line = Line::empty(alloc);
    let mut reach = 0;
    'lines: loop {
        if let Some(row) = text.takes(b"part") {
            let mut row = row;
            let (part, far) = at(
                row.number,
                part_of(alloc, setting, &longest, &reaches, &mut row.tokens),
            )?;
            line.push(part)?;
            reach = far.max(reach);
        } else if let Some(row) = text.takes(b"line") {
            let mut row = row;
            at(row.number, row.tokens.end())?;
            lines.push(line)?;
            reaches.push(reach)?;
            line = Line::empty(alloc);
            reach = 0;
        } else {
            lines.push(line)?;
            return Ok(lines);
        }
    }
}

/// Reads the lines `line`, with the lines `part` behind each.
#[tactic(auto, unfolding(crate::specs::Certificates::line_lines))]
pub fn lines_of(alloc: Global, setting: &Setting, text: &mut Text<'_>) -> Result<Lines, ReadFault>
    requires { lines_left (left text.old) ≤ max_bytes }
    ensures { GivesText (λ ls. (ls, left text.new)) result (line_lines setting.now (left text.old)) }
{
    match text.takes(b"line") {
        None => Ok(Lines::empty(alloc)),
        Some(row) => {
            let mut row = row;
            at(row.number, row.tokens.end())?;
            parts_of(alloc, setting, text)
        }
    }
}
