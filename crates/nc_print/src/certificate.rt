//! Printed certificates.

ghost use Rattle.nc_module.specs.Factors.{factor_of};
ghost use Rattle.nc_print.specs.Begins.{BeginsWith};
ghost use Rattle.nc_print.specs.Printing.{certificate_text, ended, factor_text, printed_line, part_line};
ghost use Rattle.std.specs.Prelude.{All, OnErr, OnOk, [], flat_map, length, map, ◌++◌, ◌<◌, ◌∷◌, ◌≡◌};

use crate::polynomial::{append_word, push_number};
use crate::setting::{append_poly_line, append_setting};
use crate::whole::whole_or_nothing;
use nc_module::{Certificate, Line, Lines, Name, Of, Part, Setting};
use nc_poly::Poly;
use std::alloc::AllocError;

/// Appends what a part multiplies.
fn append_factor(out: &mut Vec<u8>, of: Of) -> Result<(), AllocError>
    ensures text { OnOk result (out.new.items ≡ out.old.items ++ factor_text (factor_of of)) }
    ensures kept { BeginsWith out.new.items out.old.items }
{
    match of {
        Of::Generator(i) => {
            out.extend_from_slice(b" [")?;
            push_number(out, i)?;
            out.extend_from_slice(b"] ")
        }
        Of::Line(k) => {
            out.extend_from_slice(b" {")?;
            push_number(out, k)?;
            out.extend_from_slice(b"} ")
        }
    }
}

/// Appends a line `part`.
fn append_part(out: &mut Vec<u8>, names: &[Name], part: &Part) -> Result<(), AllocError>
    requires left { All (λ x. x.index < length names.now) part.now.left }
    requires right { All (λ x. x.index < length names.now) part.now.right }
    ensures text { OnOk result (out.new.items ≡ out.old.items
        ++ (part_line names.now part.now ++ 10 ∷ [])) }
    ensures kept { BeginsWith out.new.items out.old.items }
{
    out.extend_from_slice(b"part ")?;
    push_number(out, part.coefficient)?;
    out.push(b' ')?;
    append_word(out, names, part.left.letters())?;
    append_factor(out, part.of)?;
    append_word(out, names, part.right.letters())?;
    out.extend_from_slice(b"\n")
}

/// Appends the lines `part`.
fn append_parts(out: &mut Vec<u8>, names: &[Name], parts: &[Part]) -> Result<(), AllocError>
    requires left { All (λ part. All (λ x. x.index < length names.now) part.left) parts.now }
    requires right { All (λ part. All (λ x. x.index < length names.now) part.right) parts.now }
    ensures text { OnOk result (out.new.items ≡ out.old.items
        ++ ended (map (part_line names.now) parts.now)) }
    ensures kept { BeginsWith out.new.items out.old.items }
{
    for part in parts {
        append_part(out, names, part)?;
    }
    Ok(())
}

/// Appends the line `line` and its lines `part`.
fn append_line(out: &mut Vec<u8>, names: &[Name], line: &Line) -> Result<(), AllocError>
    requires left { All (λ part. All (λ x. x.index < length names.now) part.left) line.now }
    requires right { All (λ part. All (λ x. x.index < length names.now) part.right) line.now }
    ensures text { OnOk result (out.new.items ≡ out.old.items
        ++ ended (printed_line names.now line.now)) }
    ensures kept { BeginsWith out.new.items out.old.items }
{
    out.extend_from_slice(b"line\n")?;
    append_parts(out, names, line.parts())
}

/// Appends the lines `line` with their lines `part`.
pub fn append_lines(out: &mut Vec<u8>, names: &[Name], lines: &[Line]) -> Result<(), AllocError>
    requires left { All (λ line. All (λ part. All (λ x. x.index < length names.now) part.left)
        line)
        lines.now }
    requires right { All (λ line. All (λ part. All (λ x. x.index < length names.now) part.right)
        line) lines.now }
    ensures text { OnOk result (out.new.items ≡ out.old.items
        ++ ended (flat_map (printed_line names.now) lines.now)) }
    ensures kept { BeginsWith out.new.items out.old.items }
{
    for line in lines {
        append_line(out, names, line)?;
    }
    Ok(())
}

/// Appends a claim and its lines. After `Err` the text in `out` may be part of it.
fn append_proof(
    out: &mut Vec<u8>,
    setting: &Setting,
    claim: &Poly,
    lines: &Lines,
) -> Result<(), AllocError>
    requires claim { All (λ t. All (λ x. x.index < length setting.now.alphabet.names) t.key)
        claim.now }
    requires left { All (λ line. All
        (λ part. All (λ x. x.index < length setting.now.alphabet.names) part.left) line)
        lines.now }
    requires right { All (λ line. All
        (λ part. All (λ x. x.index < length setting.now.alphabet.names) part.right) line)
        lines.now }
    ensures text { OnOk result (out.new.items ≡ out.old.items ++ certificate_text
        (record { setting = setting.now; claim = claim.now; lines = lines.now })) }
    ensures kept { BeginsWith out.new.items out.old.items }
{
    let names = setting.names();
    out.extend_from_slice(b"certificate 2\n")?;
    append_setting(out, setting)?;
    append_poly_line(out, b"claim ", names, claim)?;
    append_lines(out, names, lines.lines())?;
    out.extend_from_slice(b"end\n")
}

/// Appends a claim and the lines that are to prove it as the text of a certificate in form 2. Each letter needs a name.
#[tactic(auto, using(crate::proofs::Begins::whole, crate::proofs::Begins::nothing))]
pub fn write_proof(
    out: &mut Vec<u8>,
    setting: &Setting,
    claim: &Poly,
    lines: &Lines,
) -> Result<(), AllocError>
    requires claim { All (λ t. All (λ x. x.index < length setting.now.alphabet.names) t.key)
        claim.now }
    requires left { All (λ line. All
        (λ part. All (λ x. x.index < length setting.now.alphabet.names) part.left) line)
        lines.now }
    requires right { All (λ line. All
        (λ part. All (λ x. x.index < length setting.now.alphabet.names) part.right) line)
        lines.now }
    ensures text { OnOk result (out.new.items ≡ out.old.items ++ certificate_text
        (record { setting = setting.now; claim = claim.now; lines = lines.now })) }
    ensures unchanged { OnErr result (out.new.items ≡ out.old.items) }
{
    let before = out.len();
    let appended = append_proof(out, setting, claim, lines);
    whole_or_nothing(out, before, appended)
}

/// Appends the text of a certificate, by lines.
pub fn write_certificate(out: &mut Vec<u8>, c: &Certificate) -> Result<(), AllocError>
    ensures text { OnOk result (out.new.items ≡ out.old.items ++ certificate_text c.now) }
    ensures unchanged { OnErr result (out.new.items ≡ out.old.items) }
{
    write_proof(out, &c.setting, &c.claim, &c.lines)
}
