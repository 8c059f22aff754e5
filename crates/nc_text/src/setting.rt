//! The lines `field`, `letters`, `weights` and `generator`, which give the setting of a text.

ghost use Rattle.nc_tokens.specs.Gives.{GivesText};
ghost use Rattle.nc_text.specs.Settings.{alphabet_lines, field_line, generator_lines, letters_line, setting_lines, weights_line};
ghost use Rattle.nc_tokens.specs.Unread.{left};
ghost use Rattle.std.specs.Prelude.{IfOk, length, ◌≤◌};

use crate::rows::{field_of, generator_of, letter_names, weights_of};
use nc_field::Prime;
use nc_module::{Alphabet, Name, Setting};
use nc_poly::Poly;
use nc_tokens::{ReadFault, Text, at};
use std::alloc::Global;

/// The most generators.
const MAX_GENERATORS: usize = 1000;

/// Reads the line `field`.
#[tactic(auto, using(crate::proofs::Told::told), unfolding(crate::specs::Settings::field_line))]
fn field_line(text: &mut Text<'_>) -> Result<Prime, ReadFault>
    ensures { GivesText (λ p. (p, left text.new)) result (field_line (left text.old)) }
{
    let mut row = text.wants(b"field")?;
    let prime = at(row.number, field_of(&mut row.tokens))?;
    Ok(prime)
}

/// Reads the line `letters`.
#[tactic(auto, using(crate::proofs::Told::told), unfolding(crate::specs::Settings::letters_line))]
fn letters_line(alloc: Global, text: &mut Text<'_>) -> Result<Vec<Name>, ReadFault>
    ensures reads { GivesText (λ ns. (ns.items, left text.new)) result
        (letters_line (left text.old)) }
    ensures few { IfOk result (λ ns. length ns.items ≤ 64) }
{
    let mut row = text.wants(b"letters")?;
    let names = at(row.number, letter_names(alloc, &mut row.tokens))?;
    Ok(names)
}

/// Reads the line `weights`, if it comes next; else each letter weighs 1.
#[tactic(auto, using(crate::proofs::Told::told), unfolding(crate::specs::Settings::weights_line))]
fn weights_line(alloc: Global, letters: usize, text: &mut Text<'_>) -> Result<Vec<u8>, ReadFault>
    ensures { GivesText (λ ms. (ms.items, left text.new)) result
        (weights_line letters (left text.old)) }
{
    match text.takes(b"weights") {
        None => Ok(vec![in alloc; 1; letters]?),
        Some(row) => {
            let mut row = row;
            let weights = at(row.number, weights_of(alloc, letters, &mut row.tokens))?;
            Ok(weights)
        }
    }
}

/// Reads the lines `letters` and `weights`.
#[tactic(auto, unfolding(crate::specs::Settings::alphabet_lines))]
fn alphabet_of(alloc: Global, text: &mut Text<'_>) -> Result<Alphabet, ReadFault>
    ensures { GivesText (λ a. (a, left text.new)) result (alphabet_lines (left text.old)) }
{
    let names = letters_line(alloc, text)?;
    let weights = weights_line(alloc, names.as_slice().len(), text)?;
    Ok(Alphabet::of(names, weights))
}

/// Reads the lines `generator`.
fn generators_of(
    alloc: Global,
    prime: Prime,
    alphabet: &Alphabet,
    text: &mut Text<'_>,
) -> Result<Vec<Poly>, ReadFault>
    ensures { GivesText (λ fs. (fs.items, left text.new)) result
        (generator_lines prime alphabet.now 1000 (left text.old)) }
{
    let mut generators = Vec::new(alloc);
    let mut room = MAX_GENERATORS;
    'generators: while let Some(row) = text.takes(b"generator") {
        let mut row = row;
        let generator = at(
            row.number,
            generator_of(alloc, prime, alphabet, room, &mut row.tokens),
        )?;
        generators.push(generator)?;
        room = room.saturating_sub(1);
    }
    Ok(generators)
}

/// Reads the lines `field`, `letters`, `weights` and `generator`.
#[tactic(auto, unfolding(crate::specs::Settings::setting_lines))]
pub fn setting_of(alloc: Global, text: &mut Text<'_>) -> Result<Setting, ReadFault>
    ensures { GivesText (λ s. (s, left text.new)) result (setting_lines (left text.old)) }
{
    let prime = field_line(text)?;
    let alphabet = alphabet_of(alloc, text)?;
    let generators = generators_of(alloc, prime, &alphabet, text)?;
    Ok(Setting::of(prime, alphabet, generators))
}
