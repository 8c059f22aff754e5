//! Printed words and polynomials.

ghost use Rattle.nc_print.specs.Begins.{BeginsWith};
ghost use Rattle.nc_print.specs.Printing.{name_of, poly_text, term_text, word_text};
ghost use Rattle.std.specs.Prelude.{All, OnErr, OnOk, codes, decimal, flat_map, length, map, ◌++◌, ◌<◌, ◌≡◌};

use crate::whole::whole_or_nothing;
use itoa::Buffer;
use nc_module::Name;
use nc_poly::{Poly, Term};
use nc_words::Letter;
use std::alloc::AllocError;

/// Appends a number in decimal.
pub fn push_number(out: &mut Vec<u8>, number: u32) -> Result<(), AllocError>
    ensures text { OnOk result (out.new.items ≡ out.old.items ++ decimal number) }
    ensures unchanged { OnErr result (out.new.items ≡ out.old.items) }
    ensures kept { BeginsWith out.new.items out.old.items }
{
    let mut buffer = Buffer::new();
    out.extend_from_slice(buffer.format(number).as_bytes())
}

/// Appends a letter's name.
fn append_name(out: &mut Vec<u8>, names: &[Name], letter: Letter) -> Result<(), AllocError>
    requires { letter.index < length names.now }
    ensures text { OnOk result (out.new.items ≡ out.old.items ++ name_of names.now letter) }
    ensures kept { BeginsWith out.new.items out.old.items }
{
    let name = &names[usize::from(letter.index())];
    out.extend_from_slice(name.bytes())
}

/// Appends names of letters, with a `*` before each.
fn append_factors(out: &mut Vec<u8>, names: &[Name], letters: &[Letter]) -> Result<(), AllocError>
    requires { All (λ x. x.index < length names.now) letters.now }
    ensures text { OnOk result (out.new.items ≡ out.old.items ++ flat_map (λ y. codes "*" ++ y)
        (map (name_of names.now) letters.now)) }
    ensures kept { BeginsWith out.new.items out.old.items }
{
    for letter in letters {
        out.push(b'*')?;
        append_name(out, names, *letter)?;
    }
    Ok(())
}

/// Appends a word. After `Err` the text in `out` may be part of it.
pub(crate) fn append_word(
    out: &mut Vec<u8>,
    names: &[Name],
    word: &[Letter],
) -> Result<(), AllocError>
    requires { All (λ x. x.index < length names.now) word.now }
    ensures text { OnOk result (out.new.items ≡ out.old.items ++ word_text names.now word.now) }
    ensures kept { BeginsWith out.new.items out.old.items }
{
    match word.split_first() {
        None => out.extend_from_slice(b"1"),
        Some((first, others)) => {
            append_name(out, names, *first)?;
            append_factors(out, names, others)
        }
    }
}

/// Appends a word.
#[tactic(auto, using(crate::proofs::Begins::whole, crate::proofs::Begins::nothing))]
pub fn write_word(out: &mut Vec<u8>, names: &[Name], word: &[Letter]) -> Result<(), AllocError>
    requires { All (λ x. x.index < length names.now) word.now }
    ensures text { OnOk result (out.new.items ≡ out.old.items ++ word_text names.now word.now) }
    ensures unchanged { OnErr result (out.new.items ≡ out.old.items) }
{
    let before = out.len();
    let appended = append_word(out, names, word);
    whole_or_nothing(out, before, appended)
}

/// Appends a term.
fn append_term(out: &mut Vec<u8>, names: &[Name], t: &Term) -> Result<(), AllocError>
    requires { All (λ x. x.index < length names.now) t.now.key }
    ensures text { OnOk result (out.new.items ≡ out.old.items ++ term_text names.now t.now) }
    ensures kept { BeginsWith out.new.items out.old.items }
{
    let coefficient = t.coefficient;
    let word = t.letters();
    if word.is_empty() {
        return push_number(out, coefficient);
    }
    if coefficient != 1 {
        push_number(out, coefficient)?;
        out.push(b'*')?;
    }
    append_word(out, names, word)
}

/// Appends terms, with ` + ` before each.
fn append_others(out: &mut Vec<u8>, names: &[Name], terms: &[Term]) -> Result<(), AllocError>
    requires { All (λ t. All (λ x. x.index < length names.now) t.key) terms.now }
    ensures text { OnOk result (out.new.items ≡ out.old.items ++ flat_map (λ y. codes " + " ++ y)
        (map (term_text names.now) terms.now)) }
    ensures kept { BeginsWith out.new.items out.old.items }
{
    for t in terms {
        out.extend_from_slice(b" + ")?;
        append_term(out, names, t)?;
    }
    Ok(())
}

/// Appends a polynomial. After `Err` the text in `out` may be part of it.
pub(crate) fn append_poly(out: &mut Vec<u8>, names: &[Name], f: &Poly) -> Result<(), AllocError>
    requires { All (λ t. All (λ x. x.index < length names.now) t.key) f.now }
    ensures text { OnOk result (out.new.items ≡ out.old.items ++ poly_text names.now f.now) }
    ensures kept { BeginsWith out.new.items out.old.items }
{
    match f.terms().split_first() {
        None => out.extend_from_slice(b"0"),
        Some((first, others)) => {
            append_term(out, names, first)?;
            append_others(out, names, others)
        }
    }
}

/// Appends a polynomial, which needs a name for each of its letters.
#[tactic(auto, using(crate::proofs::Begins::whole, crate::proofs::Begins::nothing))]
pub fn write_poly(out: &mut Vec<u8>, names: &[Name], f: &Poly) -> Result<(), AllocError>
    requires { All (λ t. All (λ x. x.index < length names.now) t.key) f.now }
    ensures text { OnOk result (out.new.items ≡ out.old.items ++ poly_text names.now f.now) }
    ensures unchanged { OnErr result (out.new.items ≡ out.old.items) }
{
    let before = out.len();
    let appended = append_poly(out, names, f);
    whole_or_nothing(out, before, appended)
}
