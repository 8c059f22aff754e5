//! Words of a text.

ghost use Rattle.nc_algebra.specs.Alphabets.{IsTextWord};
ghost use Rattle.nc_tokens.specs.Gives.{Gives};
ghost use Rattle.nc_text.specs.Reading.{factor_at, lengthened, letter_of, word_at};
ghost use Rattle.std.specs.Prelude.{IfOk, IfSome, OnOk, length, position, ◌<◌, ◌≡◌, ◌≤◌};
ghost use Rattle.std.specs.Str.{bytes_eq};

use nc_module::{Alphabet, Name};
use nc_tokens::{Kind, LineError, Tokens};
use nc_words::{Letter, Word};
use std::alloc::Global;

/// The most letters of a word in a text.
const MAX_LETTERS: u64 = 255;

/// The place of a name.
fn place_of(names: &[Name], name: &[u8]) -> Option<usize>
    ensures place { result ≡ position (λ n. bytes_eq n name.now) names.now }
    ensures within { IfSome result (λ i. i < length names.now) }
{
    names.iter().position(|n| n.bytes() == name)
}

/// The number of the letter that has a name.
fn letter_of(names: &[Name], name: &[u8]) -> Result<usize, LineError>
    ensures reads { Gives (λ x. x) result (letter_of names.now name.now) }
    ensures within { IfOk result (λ x. x < length names.now) }
{
    match place_of(names, name) {
        Some(letter) => Ok(letter),
        None => Err(LineError::Fault(Kind::UnknownName)),
    }
}

/// Writes a letter a number of times behind a word.
fn lengthen(word: &mut Vec<Letter>, letter: Letter, times: u64) -> Result<(), LineError>
    requires { length word.old.items ≤ 255 }
    ensures reads { Gives (λ _. word.new.items) result (lengthened word.old.items letter times) }
    ensures short { OnOk result (length word.new.items ≤ 255) }
{
    if times > MAX_LETTERS - word.len() as u64 {
        return Err(LineError::Fault(Kind::LongWord));
    }
    for _ in 0..times {
        word.push(letter)?;
    }
    Ok(())
}

/// Reads a factor, and writes it behind the word.
#[tactic(auto, unfolding(crate::specs::Reading::factor_at))]
fn factor(
    word: &mut Vec<Letter>,
    alphabet: &Alphabet,
    line: &mut Tokens<'_>,
) -> Result<(), LineError>
    requires short { length word.old.items ≤ 255 }
    ensures reads { Gives (λ _. (word.new.items, line.new)) result
        (factor_at alphabet.now word.old.items line.old) }
    ensures short { OnOk result (length word.new.items ≤ 255) }
{
    let name = line.name()?;
    let letter = letter_of(alphabet.names(), name)?;
    let exponent = line.exponent()?;
    lengthen(word, alphabet.letter(letter), exponent)
}

/// Reads the letters of a word.
fn letters_of_word(
    alloc: Global,
    alphabet: &Alphabet,
    line: &mut Tokens<'_>,
) -> Result<Vec<Letter>, LineError>
    ensures reads { Gives (λ w. (w.items, line.new)) result (word_at alphabet.now line.old) }
    ensures short { IfOk result (λ w. length w.items ≤ 255) }
{
    let mut word = Vec::new(alloc);
    factor(&mut word, alphabet, line)?;
    'factors: while line.takes_times() {
        factor(&mut word, alphabet, line)?;
    }
    Ok(word)
}

/// Reads a word.
pub fn word_of(alloc: Global, alphabet: &Alphabet, line: &mut Tokens<'_>) -> Result<Word, LineError>
    ensures reads { Gives (λ w. (w, line.new)) result (word_at alphabet.now line.old) }
    ensures text { IfOk result (λ w. IsTextWord alphabet.now w) }
{
    let letters = letters_of_word(alloc, alphabet, line)?;
    let word = Word::join(alloc, &letters, &[], &[])?;
    Ok(word)
}
