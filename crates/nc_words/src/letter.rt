//! Letters.

ghost use Rattle.nc_algebra.specs.Words.{letter_weight};
ghost use Rattle.std.specs.Prelude.{IfSome, IsSome, ◌<◌, ◌≡◌, ◌≤◌, ◌↔◌};

use std::marker::Model;

/// A letter: its number in the alphabet, and its weight.
///
/// Letters compare by number, and then by weight; within one alphabet the weight never decides. The default is
/// letter 0 with weight 1.
#[derive(Clone, Copy, PartialEq, Eq, PartialOrd, Ord, Default, Debug)]
pub struct Letter {
    index: u8,
    /// What the letter weighs beyond 1.
    extra: u8,
}

impl Model for Letter {
    ghost use Rattle.nc_algebra.specs.Words.{Letter};
    ghost use Rattle.std.specs.Prelude.{◌<◌};

    ghost Value = { Letter };

    ghost view = { λ l. record { index = l.index; extra = l.extra } };

    ghost inverse = { λ l. record { index = l.index; extra = l.extra } };

    ghost invariant = { λ l. (l.index < 64) × (l.extra < 100) };
}

impl Letter {
    /// The letter with this number, at most 63, and this weight, from 1 to 100.
    pub fn of(index: u8, weight: u8) -> Option<Letter>
        ensures when { IsSome result ↔ ((index < 64) × (1 ≤ weight) × (weight ≤ 100)) }
        ensures index { IfSome result (λ l. l.index ≡ index) }
        ensures weight { IfSome result (λ l. letter_weight l ≡ weight) }
    {
        if index < 64 && 1 <= weight && weight <= 100 {
            Some(Letter {
                index,
                extra: weight - 1,
            })
        } else {
            None
        }
    }

    /// The number, counted from 0.
    pub fn index(&self) -> u8
        ensures value { result ≡ self.now.index }
        ensures few { result < 64 }
    {
        self.index
    }

    /// The weight.
    pub fn weight(&self) -> u8
        ensures value { result ≡ letter_weight self.now }
        ensures some { 1 ≤ result }
        ensures few { result ≤ 100 }
    {
        self.extra + 1
    }
}
