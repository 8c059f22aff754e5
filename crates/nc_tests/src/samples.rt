//! Values that several tests use.

ghost use Rattle.nc_algebra.specs.Polynomials.{AreResidues};
ghost use Rattle.nc_algebra.specs.Words.{word_weight};
ghost use Rattle.std.specs.Prelude.{IfOk, IsTrue, length, ◌≡◌, ◌≤◌};

use nc_field::{Prime, Residue};
use nc_module::Problem;
use nc_poly::{Poly, Term};
use nc_text::read_problem;
use nc_words::{Letter, Word};
use std::alloc::Global;
use std::test::Fail;

/// The prime 101.
pub(crate) fn prime() -> Result<Prime, Fail>
    ensures { IfOk result (λ p. p ≡ 101) }
{
    Ok(Prime::of(101).ok_or("listed")?)
}

/// The letters x and y, which weigh 1, and z, which weighs 3.
pub(crate) fn letter(name: u8) -> Result<Letter, Fail> {
    let letter = match name {
        b'x' => Letter::of(0, 1),
        b'y' => Letter::of(1, 1),
        b'z' => Letter::of(2, 3),
        _ => None,
    };
    Ok(letter.ok_or("no such letter")?)
}

/// The word of these letters, of which there are at most nine.
pub(crate) fn word(alloc: Global, text: &str) -> Result<Word, Fail>
    ensures { IfOk result (λ w. word_weight w ≤ 900) }
{
    let mut letters = Vec::new(alloc);
    for name in text.as_bytes() {
        letters.push(letter(*name)?)?;
    }
    if letters.len() > 9 {
        return Err("too long".into());
    }
    let word = Word::join(alloc, &letters, &[], &[])?;
    if word.weight() > 900 {
        return Err("too heavy".into());
    }
    Ok(word)
}

/// The letter's name, where it is x, y or z.
fn name(letter: Letter) -> u8 {
    match letter.index() {
        0 => b'x',
        1 => b'y',
        _ => b'z',
    }
}

/// Whether these are the letters that the text names.
pub(crate) fn spells(letters: &[Letter], text: &str) -> bool {
    let names = text.as_bytes();
    letters.len() == names.len() && letters.iter().zip(names).all(|(l, n)| name(*l) == *n)
}

/// Whether the coefficients lie below the prime.
fn are_residues(p: Prime, terms: &[Term]) -> bool
    ensures { IsTrue result → AreResidues p terms.now }
{
    terms.iter().all(|t| t.coefficient < p.number())
}

/// Appends a term with this coefficient and this word.
fn push_term(alloc: Global, terms: &mut Vec<Term>, c: Residue, text: &str) -> Result<(), Fail> {
    let word = word(alloc, text)?;
    terms.push(Term::of(c, word))?;
    Ok(())
}

/// The polynomial with these terms.
pub(crate) fn poly(alloc: Global, p: Prime, terms: &[(Residue, &str)]) -> Result<Poly, Fail>
    ensures { IfOk result (AreResidues p) }
{
    let mut list = Vec::new(alloc);
    for (c, text) in terms {
        push_term(alloc, &mut list, *c, text)?;
    }
    if !are_residues(p, &list) {
        return Err("no residues".into());
    }
    let f = Poly::of_terms(p, list);
    if !are_residues(p, f.terms()) {
        return Err("no residues".into());
    }
    Ok(f)
}

/// Whether the term has this coefficient and this word.
fn is_term(term: &Term, want: (Residue, &str)) -> bool {
    term.coefficient == want.0 && spells(term.letters(), want.1)
}

/// Whether the terms have these coefficients and words, in this order.
pub(crate) fn are_terms(terms: &[Term], want: &[(Residue, &str)]) -> bool {
    terms.len() == want.len()
        && terms
            .iter()
            .zip(want)
            .all(|(term, want)| is_term(term, *want))
}

/// The problem that a text is.
pub(crate) fn problem(alloc: Global, text: &str) -> Result<Problem, Fail> {
    Ok(read_problem(alloc, text.as_bytes(), false)?.problem)
}

/// The words of a line.
pub(crate) fn words(alloc: Global, line: &str) -> Result<Vec<String>, Fail> {
    let mut words = Vec::new(alloc);
    for word in line.split_whitespace() {
        words.push(String::from_str(alloc, word)?)?;
    }
    Ok(words)
}
