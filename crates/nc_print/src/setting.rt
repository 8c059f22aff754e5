//! Printed settings.

ghost use Rattle.nc_print.specs.Begins.{BeginsWith};
ghost use Rattle.nc_print.specs.Printing.{printed_alphabet, ended, generator_line, poly_text, printed_setting};
ghost use Rattle.std.specs.List.{list_all};
ghost use Rattle.std.specs.Prelude.{All, OnOk, [], codes, decimal, flat_map, length, map, ◌++◌, ◌<◌, ◌==◌, ◌∷◌, ◌≡◌};

use crate::polynomial::{append_poly, push_number};
use nc_module::{Alphabet, Name, Setting};
use nc_poly::Poly;
use std::alloc::AllocError;

/// Appends a line with a keyword and a polynomial.
pub fn append_poly_line(
    out: &mut Vec<u8>,
    keyword: &[u8],
    names: &[Name],
    f: &Poly,
) -> Result<(), AllocError>
    requires { All (λ t. All (λ x. x.index < length names.now) t.key) f.now }
    ensures text { OnOk result (out.new.items ≡ out.old.items
        ++ (keyword.now ++ poly_text names.now f.now ++ 10 ∷ [])) }
    ensures kept { BeginsWith out.new.items out.old.items }
{
    out.extend_from_slice(keyword)?;
    append_poly(out, names, f)?;
    out.extend_from_slice(b"\n")
}

/// Appends the names, with a space before each.
fn append_names(out: &mut Vec<u8>, names: &[Name]) -> Result<(), AllocError>
    ensures text { OnOk result (out.new.items ≡ out.old.items ++ flat_map (λ name. codes " " ++ name)
        names.now) }
    ensures kept { BeginsWith out.new.items out.old.items }
{
    for name in names {
        out.push(b' ')?;
        out.extend_from_slice(name.bytes())?;
    }
    Ok(())
}

/// Appends the lines `generator`.
fn append_generators(
    out: &mut Vec<u8>,
    names: &[Name],
    generators: &[Poly],
) -> Result<(), AllocError>
    requires { All (λ f. All (λ t. All (λ x. x.index < length names.now) t.key) f) generators.now }
    ensures text { OnOk result (out.new.items ≡ out.old.items
        ++ ended (map (generator_line names.now) generators.now)) }
    ensures kept { BeginsWith out.new.items out.old.items }
{
    for f in generators {
        append_poly_line(out, b"generator ", names, f)?;
    }
    Ok(())
}

/// Whether each letter weighs 1.
fn are_ones(weights: &[u8]) -> bool
    ensures { result ≡ list_all (λ m. m == 1) weights.now }
{
    weights.iter().all(|m| *m == 1)
}

/// Appends the weights, with a space before each.
fn append_weights(out: &mut Vec<u8>, weights: &[u8]) -> Result<(), AllocError>
    ensures text { OnOk result (out.new.items ≡ out.old.items
        ++ flat_map (λ m. codes " " ++ decimal m) weights.now) }
    ensures kept { BeginsWith out.new.items out.old.items }
{
    for m in weights {
        out.push(b' ')?;
        push_number(out, u32::from(*m))?;
    }
    Ok(())
}

/// Appends the lines `letters` and, where some letter doesn't weigh 1, `weights`.
fn append_alphabet(out: &mut Vec<u8>, alphabet: &Alphabet) -> Result<(), AllocError>
    ensures text { OnOk result (out.new.items ≡ out.old.items
        ++ ended (printed_alphabet alphabet.now)) }
    ensures kept { BeginsWith out.new.items out.old.items }
{
    out.extend_from_slice(b"letters")?;
    append_names(out, alphabet.names())?;
    out.push(b'\n')?;
    let weights = alphabet.weights();
    if !are_ones(weights) {
        out.extend_from_slice(b"weights")?;
        append_weights(out, weights)?;
        out.push(b'\n')?;
    }
    Ok(())
}

/// Appends the lines `field`, `letters`, `weights` and `generator`.
pub fn append_setting(out: &mut Vec<u8>, s: &Setting) -> Result<(), AllocError>
    ensures text { OnOk result (out.new.items ≡ out.old.items ++ ended (printed_setting s.now)) }
    ensures kept { BeginsWith out.new.items out.old.items }
{
    out.extend_from_slice(b"field ")?;
    push_number(out, s.prime().number())?;
    out.push(b'\n')?;
    append_alphabet(out, s.alphabet())?;
    append_generators(out, s.names(), s.generators())
}
