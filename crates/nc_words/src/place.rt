//! Places where a word stands in a word.

ghost use Rattle.nc_words.specs.Places.{IsPlaceFrom};

use crate::letter::Letter;
use crate::word::Word;

impl Word {
    /// The first place at or after `from` where the factor stands in the word, by how many letters stand before it.
    /// The empty factor stands at every place, up to the one behind the last letter.
    pub fn place_of(word: &[Letter], factor: &[Letter], from: usize) -> Option<usize>
        ensures { IsPlaceFrom factor.now word.now from result }
    {
        if word.len() < factor.len() {
            return None;
        }
        for at in from..word.len() - factor.len() + 1 {
            if &word[at..at + factor.len()] == factor {
                return Some(at);
            }
        }
        None
    }
}
