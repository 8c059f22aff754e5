//! Trivial syzygies of two entries.

ghost use Rattle.nc_algebra.specs.Words.{OccursAt};
ghost use Rattle.nc_criteria.specs.Leads.{IsBefore, IsBehind, compare_heads, words_before, words_behind};
ghost use Rattle.std.specs.Prelude.{IsTrue, drop, length, ◌≡◌, ◌↔◌, ◌⊎◌};
ghost use Rattle.std.specs.declared.cmp.Ordering.TheVariants.{Equal};

use nc_snapshot::Lead;
use nc_words::{Joined, Letter, Word};
use std::cmp::Ordering;

/// Compares the degrees and the generators of the two sides of a trivial syzygy, that of the other signature with that of
/// the own one. They do not depend on the word between the two.
fn compare_heads<'a>(own: &Lead<'a>, other: &Lead<'a>) -> Ordering
    ensures { result ≡ compare_heads own.now other.now }
{
    let (own_sig, other_sig) = (own.sig, other.sig);
    let own_degree = u64::from(own_sig.degree) + u64::from(other.word.weight());
    let other_degree = u64::from(own.word.weight()) + u64::from(other_sig.degree);
    other_degree
        .cmp(&own_degree)
        .then(other_sig.generator.cmp(&own_sig.generator))
}

/// Compares the words of the two sides, that of the other signature with that of the own one, where the other leading word
/// stands this far behind the own signature.
fn compare_behind<'a>(own: &Lead<'a>, other: &Lead<'a>, between: &'a [Letter]) -> Ordering
    ensures { result ≡ words_behind own.now other.now between.now }
{
    let (own_sig, other_sig) = (own.sig, other.sig);
    let left = Joined {
        first: own.word.letters(),
        second: between,
        third: other_sig.left.letters(),
    };
    let right = Joined {
        first: own_sig.right.letters(),
        second: between,
        third: other.word.letters(),
    };
    match left.compare(&Joined::of_word(own_sig.left.letters())) {
        Ordering::Equal => Joined::of_word(other_sig.right.letters()).compare(&right),
        order => order,
    }
}

/// The same where it stands before the own signature.
fn compare_before<'a>(own: &Lead<'a>, other: &Lead<'a>, between: &'a [Letter]) -> Ordering
    ensures { result ≡ words_before own.now other.now between.now }
{
    let (own_sig, other_sig) = (own.sig, other.sig);
    let left = Joined {
        first: other.word.letters(),
        second: between,
        third: own_sig.left.letters(),
    };
    let right = Joined {
        first: other_sig.right.letters(),
        second: between,
        third: own.word.letters(),
    };
    match Joined::of_word(other_sig.left.letters()).compare(&left) {
        Ordering::Equal => right.compare(&Joined::of_word(own_sig.right.letters())),
        order => order,
    }
}

/// What stands in the word behind the factor at this place.
fn rest_behind<'a>(word: &'a [Letter], factor: &[Letter], place: usize) -> &'a [Letter]
    requires { OccursAt factor.now word.now place }
    ensures { result.now ≡ drop (length factor.now) (drop place word.now) }
{
    let (_, rest) = word.split_at(place);
    &rest[factor.len()..]
}

/// Searches the places of the other leading word behind the own signature.
fn has_place_behind<'a>(own: &Lead<'a>, other: &Lead<'a>, behind: &'a [Letter]) -> bool
    requires heads { compare_heads own.now other.now ≡ Equal }
    ensures { IsTrue result ↔ IsBehind own.now other.now behind.now }
{
    let mut from = 0;
    while let Some(at) = Word::place_of(behind, other.word.letters(), from) {
        if compare_behind(own, other, &behind[..at]).is_lt() {
            return true;
        }
        from = at + 1;
    }
    false
}

/// Searches the places of the other leading word before the own signature.
fn has_place_before<'a>(own: &Lead<'a>, other: &Lead<'a>, before: &'a [Letter]) -> bool
    requires heads { compare_heads own.now other.now ≡ Equal }
    ensures { IsTrue result ↔ IsBefore own.now other.now before.now }
{
    let mut from = 0;
    while let Some(at) = Word::place_of(before, other.word.letters(), from) {
        let between = rest_behind(before, other.word.letters(), at);
        if compare_before(own, other, between).is_lt() {
            return true;
        }
        from = at + 1;
    }
    false
}

/// Whether a trivial syzygy whose greater side is `own m word`, with the leading word of the other, divides `own behind`.
fn is_behind<'a>(own: &Lead<'a>, other: &Lead<'a>, heads: Ordering, behind: &'a [Letter]) -> bool
    requires { heads ≡ compare_heads own.now other.now }
    ensures { IsTrue result ↔ IsBehind own.now other.now behind.now }
{
    match heads {
        Ordering::Less => Word::place_of(behind, other.word.letters(), 0).is_some(),
        Ordering::Equal => has_place_behind(own, other, behind),
        Ordering::Greater => false,
    }
}

/// Whether one whose greater side is `word m own` divides `before own`.
fn is_before<'a>(own: &Lead<'a>, other: &Lead<'a>, heads: Ordering, before: &'a [Letter]) -> bool
    requires { heads ≡ compare_heads own.now other.now }
    ensures { IsTrue result ↔ IsBefore own.now other.now before.now }
{
    match heads {
        Ordering::Less => Word::place_of(before, other.word.letters(), 0).is_some(),
        Ordering::Equal => has_place_before(own, other, before),
        Ordering::Greater => false,
    }
}

/// Whether a trivial syzygy of the two, whose greater side is the one with the own signature, divides `before own behind`.
pub(crate) fn is_trivial<'a>(
    own: &Lead<'a>,
    other: &Lead<'a>,
    before: &'a [Letter],
    behind: &'a [Letter],
) -> bool
    ensures { IsTrue result ↔ (IsBehind own.now other.now behind.now
        ⊎ IsBefore own.now other.now before.now) }
{
    let heads = compare_heads(own, other);
    is_behind(own, other, heads, behind) || is_before(own, other, heads, before)
}
