//! Certificate texts.

ghost use Rattle.nc_algebra.specs.Limits.{max_bytes};
ghost use Rattle.nc_text.specs.Certificates.{body_lines, claim_line, end_line, form_line, reads_certificate, term_lines, terms_line};
ghost use Rattle.nc_tokens.specs.Gives.{GivesText};
ghost use Rattle.nc_tokens.specs.Lines.{lines_left};
ghost use Rattle.nc_tokens.specs.Unread.{left};
ghost use Rattle.std.specs.Prelude.{length, ◌≤◌};

use crate::lines::lines_of;
use crate::polynomial::poly_of;
use crate::rows::form_of;
use crate::setting::setting_of;
use crate::sides::term_of;
use nc_module::{Certificate, Line, Lines, Setting};
use nc_poly::Poly;
use nc_tokens::{ReadFault, Text, at};
use std::alloc::Global;

/// The most bytes of a text.
pub const MAX_BYTES: usize = 16_777_216;

/// Reads the line `certificate`, and gives the form.
#[tactic(auto, using(crate::proofs::Told::told), unfolding(crate::specs::Certificates::form_line))]
fn form_line(text: &mut Text<'_>) -> Result<u64, ReadFault>
    ensures { GivesText (λ form. (form, left text.new)) result (form_line (left text.old)) }
{
    let mut row = text.wants(b"certificate")?;
    let form = at(row.number, form_of(&mut row.tokens))?;
    Ok(form)
}

/// Reads the line `claim`.
#[tactic(auto, using(crate::proofs::Told::told), unfolding(crate::specs::Certificates::claim_line))]
pub fn claim_line(alloc: Global, setting: &Setting, text: &mut Text<'_>) -> Result<Poly, ReadFault>
    ensures { GivesText (λ f. (f, left text.new)) result
        (claim_line setting.now.setting.prime setting.now.alphabet (left text.old)) }
{
    let mut row = text.wants(b"claim")?;
    let claim = at(
        row.number,
        poly_of(alloc, setting.prime(), setting.alphabet(), &mut row.tokens),
    )?;
    Ok(claim)
}

/// Reads the lines `term`, as parts.
fn terms_of(alloc: Global, setting: &Setting, text: &mut Text<'_>) -> Result<Line, ReadFault>
    ensures { GivesText (λ parts. (parts, left text.new)) result
        (term_lines setting.now.setting.prime setting.now.alphabet
        (length setting.now.setting.generators) (left text.old)) }
{
    let mut line = Line::empty(alloc);
    'terms: while let Some(row) = text.takes(b"term") {
        let mut row = row;
        let part = at(row.number, term_of(alloc, setting, &mut row.tokens))?;
        line.push(part)?;
    }
    Ok(line)
}

/// Reads the lines `term` as one line, and as no line where there is no term.
#[tactic(auto, unfolding(crate::specs::Certificates::terms_line))]
fn terms_line(alloc: Global, setting: &Setting, text: &mut Text<'_>) -> Result<Lines, ReadFault>
    ensures { GivesText (λ ls. (ls, left text.new)) result (terms_line setting.now (left text.old)) }
{
    let line = terms_of(alloc, setting, text)?;
    let mut lines = Lines::empty(alloc);
    if line.len() > 0 {
        lines.push(line)?;
    }
    Ok(lines)
}

/// Reads the lines that give the claim, in this form.
fn body_of(
    alloc: Global,
    form: u64,
    setting: &Setting,
    text: &mut Text<'_>,
) -> Result<Lines, ReadFault>
    requires { lines_left (left text.old) ≤ max_bytes }
    ensures { GivesText (λ ls. (ls, left text.new)) result
        (body_lines form setting.now (left text.old)) }
{
    if form == 1 {
        terms_line(alloc, setting, text)
    } else {
        lines_of(alloc, setting, text)
    }
}

/// Reads the line `end`, and sees that the text ends behind it.
#[tactic(auto, using(crate::proofs::Told::told), unfolding(crate::specs::Certificates::end_line))]
fn end_line(text: &mut Text<'_>) -> Result<(), ReadFault>
    ensures { GivesText (λ _. tt) result (end_line (left text.old)) }
{
    let mut row = text.wants(b"end")?;
    at(row.number, row.tokens.end())?;
    text.ends()
}

/// The certificate that a text is, or its first fault.
///
/// The text is not copied: each byte is looked at a few times, and the terms of each polynomial are sorted once.
#[tactic(auto, unfolding(crate::specs::Certificates::certificate_at))]
pub fn read_certificate(alloc: Global, bytes: &[u8]) -> Result<Certificate, ReadFault>
    requires { length bytes.now ≤ max_bytes }
    ensures { GivesText (λ c. c) result (reads_certificate bytes.now) }
{
    let mut text = Text::of(bytes);
    let form = form_line(&mut text)?;
    let setting = setting_of(alloc, &mut text)?;
    let claim = claim_line(alloc, &setting, &mut text)?;
    let lines = body_of(alloc, form, &setting, &mut text)?;
    end_line(&mut text)?;
    Ok(Certificate {
        setting,
        claim,
        lines,
    })
}
