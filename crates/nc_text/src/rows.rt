//! What stands behind the keyword of each line.

ghost use Rattle.nc_algebra.specs.Primes.{is_listed_prime};
ghost use Rattle.nc_tokens.specs.Gives.{Gives};
ghost use Rattle.nc_text.specs.Rows.{field_at, form_at, further_name, generator_at, letters_at, weight_at, weights_at};
ghost use Rattle.std.specs.Prelude.{IfOk, None, OnOk, Some, length, [], if◌then◌else◌, ◌<◌, ◌≡◌, ◌≤◌};

use crate::polynomial::poly_of;
use nc_field::Prime;
use nc_module::{Alphabet, Name, has_name};
use nc_poly::Poly;
use nc_tokens::{Kind, LineError, Token, Tokens};
use std::alloc::Global;

/// The most letters that have names.
const MAX_NAMES: usize = 64;

/// Reads what stands behind `certificate`: the form of the text, which is 1 or 2.
#[tactic(auto, unfolding(crate::specs::Rows::form_at))]
pub fn form_of(line: &mut Tokens<'_>) -> Result<u64, LineError>
    ensures { Gives (λ form. form) result (form_at line.old) }
{
    let form = line.literal()?;
    if form != 1 && form != 2 {
        return Err(LineError::Fault(Kind::OutOfRange));
    }
    line.end()?;
    Ok(form)
}

/// The prime with this number.
fn prime_of(number: u64) -> Option<Prime>
    ensures { result ≡ (if is_listed_prime number then Some number else None) }
{
    if number > 65521 {
        return None;
    }
    Prime::of(number as u32)
}

/// Reads what stands behind `field`.
#[tactic(auto, unfolding(crate::specs::Rows::field_at))]
pub fn field_of(line: &mut Tokens<'_>) -> Result<Prime, LineError>
    ensures { Gives (λ p. p) result (field_at line.old) }
{
    let number = line.literal()?;
    let Some(prime) = prime_of(number) else {
        return Err(LineError::Fault(Kind::BadPrime));
    };
    line.end()?;
    Ok(prime)
}

/// The bytes as a further name.
fn further_name(names: &[Name], bytes: &[u8]) -> Result<Name, LineError>
    ensures reads { Gives (λ n. n) result (further_name names.now bytes.now) }
    ensures room { OnOk result (length names.now < 64) }
{
    let Some(name) = Name::of(bytes) else {
        return Err(LineError::Fault(Kind::BadName));
    };
    if names.len() >= MAX_NAMES {
        return Err(LineError::Fault(Kind::TooManyNames));
    }
    if has_name(names, bytes) {
        return Err(LineError::Fault(Kind::DoubleName));
    }
    Ok(name)
}

/// Reads the names of the letters.
pub fn letter_names(alloc: Global, line: &mut Tokens<'_>) -> Result<Vec<Name>, LineError>
    ensures reads { Gives (λ ns. ns.items) result (letters_at [] line.old) }
    ensures few { IfOk result (λ ns. length ns.items ≤ 64) }
{
    let mut names = Vec::new(alloc);
    'names: loop {
        match line.take() {
            Token::End => {
                if names.is_empty() {
                    return Err(LineError::Fault(Kind::Syntax));
                }
                return Ok(names);
            }
            Token::Name(bytes) => {
                let name = further_name(&names, bytes)?;
                names.push(name)?;
            }
            _ => return Err(LineError::Fault(Kind::BadName)),
        }
    }
}

/// Reads the weight of a letter.
#[tactic(auto, unfolding(crate::specs::Rows::checked))]
fn weight_of(line: &mut Tokens<'_>) -> Result<u8, LineError>
    ensures { Gives (λ m. (m, line.new)) result (weight_at line.old) }
{
    let weight = line.literal()?;
    if weight == 0 || weight > 100 {
        return Err(LineError::Fault(Kind::OutOfRange));
    }
    Ok(weight as u8)
}

/// Reads the weights of so many letters.
pub fn weights_of(
    alloc: Global,
    letters: usize,
    line: &mut Tokens<'_>,
) -> Result<Vec<u8>, LineError>
    ensures { Gives (λ ms. ms.items) result (weights_at letters line.old) }
{
    let mut weights = Vec::new(alloc);
    'weights: for _ in 0..letters {
        let weight = weight_of(line)?;
        weights.push(weight)?;
    }
    line.end()?;
    Ok(weights)
}

/// Reads a generator, which is not zero, if there is room for it.
#[tactic(auto, using(crate::proofs::Nonzero::some_terms), unfolding(crate::specs::Rows::generator_at))]
pub fn generator_of(
    alloc: Global,
    prime: Prime,
    alphabet: &Alphabet,
    room: usize,
    line: &mut Tokens<'_>,
) -> Result<Poly, LineError>
    ensures { Gives (λ f. f) result (generator_at prime alphabet.now room line.old) }
{
    if room == 0 {
        return Err(LineError::Fault(Kind::TooManyGenerators));
    }
    let poly = poly_of(alloc, prime, alphabet, line)?;
    if poly.is_zero() {
        return Err(LineError::Fault(Kind::ZeroGenerator));
    }
    Ok(poly)
}
