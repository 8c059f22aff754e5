//! Monomials and parts of a text: two words around what is multiplied.

ghost use Rattle.nc_algebra.specs.Alphabets.{IsTextWord};
ghost use Rattle.nc_algebra.specs.Certificates.{IsFactor};
ghost use Rattle.nc_algebra.specs.Elements.{IsGenerator};
ghost use Rattle.nc_module.specs.Factors.{factor_of};
ghost use Rattle.nc_text.specs.Rows.{counted, generator_number_at, line_number_at, mono_at, multiplied_at, side_at, term_row_at};
ghost use Rattle.nc_tokens.specs.Gives.{Gives};
ghost use Rattle.std.specs.Prelude.{IfOk, length, ◌%◌, ◌≡◌, ◌≤◌};

use crate::word::word_of;
use nc_field::Residue;
use nc_module::{Alphabet, Of, Part, Setting};
use nc_tokens::{Kind, LineError, Tokens};
use nc_words::Word;
use std::alloc::Global;
use std::marker::Model;

/// A monomial over a setting.
#[derive(Drop)]
pub struct Mono {
    pub left: Word,
    pub generator: u32,
    pub right: Word,
}

impl Model for Mono {
    ghost use Rattle.nc_algebra.specs.Monomials.{Monomial};

    ghost Value = { Monomial };

    ghost view = { λ m. record { left = m.left; generator = m.generator; right = m.right } };
}

/// Reads a side of a monomial: a word, or the literal 1 for the empty word.
#[tactic(auto, unfolding(crate::specs::Rows::side_at))]
pub fn side_of(alloc: Global, alphabet: &Alphabet, line: &mut Tokens<'_>) -> Result<Word, LineError>
    ensures reads { Gives (λ w. (w, line.new)) result (side_at alphabet.now line.old) }
    ensures text { IfOk result (λ w. IsTextWord alphabet.now w) }
{
    match line.takes_literal() {
        Some(number) => {
            if number != 1 {
                return Err(LineError::Fault(Kind::Syntax));
            }
            Ok(Word::empty(alloc))
        }
        None => word_of(alloc, alphabet, line),
    }
}

/// The number, if it is one from 1 to the most.
fn counted(most: u32, number: u64) -> Result<u32, LineError>
    ensures reads { Gives (λ n. n) result (counted most number) }
    ensures some { IfOk result (λ n. (1 ≤ n) × (n ≤ most)) }
{
    if number == 0 || number > u64::from(most) {
        return Err(LineError::Fault(Kind::OutOfRange));
    }
    Ok(number as u32)
}

/// Reads the number of a generator, in brackets.
#[tactic(auto, unfolding(crate::specs::Rows::generator_number_at))]
fn generator_number(generators: u32, line: &mut Tokens<'_>) -> Result<u32, LineError>
    ensures reads { Gives (λ i. (i, line.new)) result (generator_number_at generators line.old) }
    ensures some { IfOk result (λ i. (1 ≤ i) × (i ≤ generators)) }
{
    line.open()?;
    let number = line.literal()?;
    let number = counted(generators, number)?;
    line.close()?;
    Ok(number)
}

/// Reads the number of a line, behind its opening brace.
#[tactic(auto, unfolding(crate::specs::Rows::line_number_at))]
fn line_number(lines: u32, line: &mut Tokens<'_>) -> Result<u32, LineError>
    ensures reads { Gives (λ k. (k, line.new)) result (line_number_at lines line.old) }
    ensures some { IfOk result (λ k. (1 ≤ k) × (k ≤ lines)) }
{
    let number = line.literal()?;
    let number = counted(lines, number)?;
    line.close_brace()?;
    Ok(number)
}

/// The number of generators.
fn generators_of(setting: &Setting) -> u32
    ensures { result ≡ length setting.now.setting.generators }
{
    setting.generators().len() as u32
}

/// Reads a monomial over a setting, to the end of the line.
#[tactic(auto, unfolding(crate::specs::Rows::mono_at))]
pub fn mono_of(alloc: Global, setting: &Setting, line: &mut Tokens<'_>) -> Result<Mono, LineError>
    ensures reads { Gives (λ m. m) result
        (mono_at setting.now.alphabet (length setting.now.setting.generators) line.old) }
    ensures generator { IfOk result (λ m. IsGenerator setting.now.setting m.generator) }
    ensures left { IfOk result (λ m. IsTextWord setting.now.alphabet m.left) }
    ensures right { IfOk result (λ m. IsTextWord setting.now.alphabet m.right) }
{
    let left = side_of(alloc, setting.alphabet(), line)?;
    let generator = generator_number(generators_of(setting), line)?;
    let right = side_of(alloc, setting.alphabet(), line)?;
    line.end()?;
    Ok(Mono {
        left,
        generator,
        right,
    })
}

/// The number modulo the prime of the setting.
pub fn residue_of(setting: &Setting, number: u64) -> Residue
    ensures { result ≡ number % setting.now.setting.prime }
{
    (number % u64::from(setting.prime().number())) as u32
}

/// Reads what stands behind `term`: a literal and a monomial, as a part.
#[tactic(auto, unfolding(crate::specs::Rows::term_row_at))]
pub fn term_of(alloc: Global, setting: &Setting, line: &mut Tokens<'_>) -> Result<Part, LineError>
    ensures { Gives (λ p. p) result
        (term_row_at setting.now.setting.prime setting.now.alphabet
        (length setting.now.setting.generators) line.old) }
{
    let number = line.literal()?;
    let Mono {
        left,
        generator,
        right,
    } = mono_of(alloc, setting, line)?;
    Ok(Part {
        coefficient: residue_of(setting, number),
        left,
        of: Of::Generator(generator),
        right,
    })
}

/// Reads what a part multiplies: a generator, or one of so many lines.
#[tactic(auto, unfolding(crate::specs::Rows::multiplied_at))]
pub fn multiplied(setting: &Setting, lines: u32, line: &mut Tokens<'_>) -> Result<Of, LineError>
    ensures reads { Gives (λ f. (factor_of f, line.new)) result
        (multiplied_at (length setting.now.setting.generators) lines line.old) }
    ensures factor { IfOk result (λ f. IsFactor setting.now.setting lines (factor_of f)) }
{
    if line.takes_brace() {
        Ok(Of::Line(line_number(lines, line)?))
    } else {
        Ok(Of::Generator(generator_number(generators_of(setting), line)?))
    }
}
