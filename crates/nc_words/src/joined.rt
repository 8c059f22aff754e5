//! Words in a row that are read as one, so that a product compares without being made.

ghost use Rattle.nc_algebra.specs.Words.{compare_letters, compare_words, word_weight};
ghost use Rattle.nc_words.specs.Products.{joined_word};
ghost use Rattle.std.specs.Cmp.Lexicographic.{slice_cmp};
ghost use Rattle.std.specs.Prelude.{[], drop, length, ◌++◌, ◌≡◌, ◌≤◌};

use crate::letter::Letter;
use crate::word::weight_of;
use std::cmp::Ordering;

/// Three words in a row, read as one.
#[derive(Clone, Copy)]
pub struct Joined<'a> {
    pub first: &'a [Letter],
    pub second: &'a [Letter],
    pub third: &'a [Letter],
}

impl<'a> Joined<'a> {
    /// The word itself.
    pub fn of_word(word: &'a [Letter]) -> Joined<'a>
        ensures word { joined_word result ≡ word.now }
        ensures first { result.first.now ≡ word.now }
    {
        Joined::of_two(word, &[])
    }

    /// The two words in a row.
    pub fn of_two(first: &'a [Letter], second: &'a [Letter]) -> Joined<'a>
        ensures word { joined_word result ≡ first.now ++ second.now }
        ensures first { result.first.now ≡ first.now }
    {
        Joined {
            first,
            second,
            third: &[],
        }
    }

    /// The order of words, without memory: the weights first, and then the letters up to the first that differs.
    pub fn compare(&self, other: &Joined<'a>) -> Ordering
        ensures { result ≡ compare_words (joined_word self.now) (joined_word other.now) }
    {
        match self.weight().cmp(&other.weight()) {
            Ordering::Equal => self.compare_letters(other),
            order => order,
        }
    }

    /// What the letters weigh together.
    fn weight(&self) -> u128
        ensures { result ≡ word_weight (joined_word self.now) }
    {
        weight_of(self.first) + weight_of(self.second) + weight_of(self.third)
    }

    /// Compares letter by letter.
    fn compare_letters(&self, other: &Joined<'a>) -> Ordering
        ensures { result ≡ slice_cmp compare_letters (joined_word self.now) (joined_word other.now) }
    {
        let mut a = self.moved_up();
        let mut b = other.moved_up();
        while !a.first.is_empty() && !b.first.is_empty() {
            let count = a.first.len().min(b.first.len());
            let order = a.first[..count].cmp(&b.first[..count]);
            if order.is_ne() {
                return order;
            }
            a = a.without(count).moved_up();
            b = b.without(count).moved_up();
        }
        a.first.len().cmp(&b.first.len())
    }

    /// The same word with letters in its first part, if it has any.
    fn moved_up(&self) -> Joined<'a>
        ensures same { joined_word result ≡ joined_word self.now }
        ensures first { result.first.now ≡ [] → joined_word result ≡ [] }
    {
        if !self.first.is_empty() {
            *self
        } else if !self.second.is_empty() {
            Joined::of_two(self.second, self.third)
        } else {
            Joined::of_word(self.third)
        }
    }

    /// What is left without so many letters of the first part.
    fn without(&self, count: usize) -> Joined<'a>
        requires { count ≤ length self.now.first.now }
        ensures { joined_word result ≡ drop count (joined_word self.now) }
    {
        Joined {
            first: &self.first[count..],
            second: self.second,
            third: self.third,
        }
    }
}
