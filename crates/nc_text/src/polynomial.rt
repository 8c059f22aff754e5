//! Polynomials of a text.

ghost use Rattle.nc_algebra.specs.Polynomials.{AreResidues};
ghost use Rattle.nc_tokens.specs.Gives.{Gives};
ghost use Rattle.nc_text.specs.Reading.{poly_at, residue_of, sum_at, term_at, word_behind};
ghost use Rattle.std.specs.Prelude.{IfOk, length, ◌<◌, ◌≡◌, ◌≤◌};

use crate::word::word_of;
use nc_field::{Prime, Residue};
use nc_module::Alphabet;
use nc_poly::{Poly, Term};
use nc_tokens::{LineError, Token, Tokens, misplaced};
use nc_words::Word;
use std::alloc::Global;

/// A number modulo a prime, with a sign.
fn residue_of(prime: Prime, negative: bool, number: u64) -> Residue
    ensures value { result ≡ residue_of prime negative number }
    ensures below { result < prime }
{
    let residue = (number % u64::from(prime.number())) as u32;
    if negative {
        prime.neg(residue)
    } else {
        residue
    }
}

/// Reads what stands behind the literal of a term.
#[tactic(auto, unfolding(crate::specs::Reading::word_behind))]
fn word_behind(alloc: Global, alphabet: &Alphabet, line: &mut Tokens<'_>) -> Result<Word, LineError>
    ensures { Gives (λ w. (w, line.new)) result (word_behind alphabet.now line.old) }
{
    if line.takes_times() {
        return word_of(alloc, alphabet, line);
    }
    Ok(Word::empty(alloc))
}

/// Reads a term, with the sign that stood before it.
#[tactic(auto, unfolding(crate::specs::Reading::term_at))]
fn term_of(
    alloc: Global,
    prime: Prime,
    alphabet: &Alphabet,
    negative: bool,
    line: &mut Tokens<'_>,
) -> Result<Term, LineError>
    ensures reads { Gives (λ t. (t, line.new)) result
        (term_at prime alphabet.now negative line.old) }
    ensures residue { IfOk result (λ t. t.coefficient < prime) }
{
    match line.takes_literal() {
        Some(number) => {
            let word = word_behind(alloc, alphabet, line)?;
            Ok(Term::of(residue_of(prime, negative, number), word))
        }
        None => {
            let word = word_of(alloc, alphabet, line)?;
            Ok(Term::of(residue_of(prime, negative, 1), word))
        }
    }
}

/// Reads the terms of a polynomial, to the end of the line.
fn sum_of(
    alloc: Global,
    prime: Prime,
    alphabet: &Alphabet,
    line: &mut Tokens<'_>,
) -> Result<Vec<Term>, LineError>
    ensures reads { Gives (λ f. f.items) result (sum_at prime alphabet.now line.old) }
    ensures residues { IfOk result (λ f. AreResidues prime f.items) }
{
    let mut terms = Vec::new(alloc);
    let mut negative = line.takes_sign();
    'terms: loop {
        let term = term_of(alloc, prime, alphabet, negative, line)?;
        terms.push(term)?;
        match line.take() {
            Token::End => return Ok(terms),
            Token::Plus => negative = false,
            Token::Minus => negative = true,
            token => return Err(misplaced(token)),
        }
    }
}

/// Reads a polynomial, to the end of the line.
#[tactic(auto, unfolding(crate::specs::Reading::poly_at))]
pub fn poly_of(
    alloc: Global,
    prime: Prime,
    alphabet: &Alphabet,
    line: &mut Tokens<'_>,
) -> Result<Poly, LineError>
    ensures { Gives (λ f. f) result (poly_at prime alphabet.now line.old) }
{
    let terms = sum_of(alloc, prime, alphabet, line)?;
    Ok(Poly::of_terms(prime, terms))
}
