//! Letters with weights, words, and the order on words.
#![tactic(auto)]

mod joined;
mod letter;
mod place;
mod word;

pub use joined::Joined;
pub use letter::Letter;
pub use word::{MAX_LETTERS, Word, weight_of};
