//! Leading words with the signatures of their entries.

use nc_sig::Sig;
use nc_words::Word;

/// A leading word with the signature of its entry.
#[derive(Clone, Copy)]
pub struct Lead<'a> {
    pub word: &'a Word,
    pub sig: &'a Sig,
}
