//! Traces: what was reduced, and what was subtracted from it.

use nc_field::Residue;
use nc_words::Word;
use std::marker::Model;

/// A multiple of an entry that was subtracted. Entries are counted from 1.
#[derive(Drop)]
pub struct Step {
    pub coefficient: Residue,
    pub left: Word,
    pub number: u32,
    pub right: Word,
}

impl Model for Step {
    ghost use Rattle.nc_theory.specs.States.{Step};

    ghost Value = { Step };

    ghost view = { λ s. record {
      coefficient = s.coefficient;
      left = s.left;
      number = s.number;
      right = s.right;
    } };

    ghost inverse = { λ s. record {
      coefficient = s.coefficient;
      left = s.left;
      number = s.number;
      right = s.right;
    } };
}

/// Steps, the first one first.
#[derive(Drop)]
pub struct StepList {
    kept: Vec<Step>,
}

impl Model for StepList {
    ghost use Rattle.nc_theory.specs.States.{Step};
    ghost use Rattle.std.specs.Prelude.{List};

    ghost Value = { List Step };

    ghost view = { λ l. l.kept.items };
}

impl StepList {
    ghost use Rattle.std.specs.Prelude.{◌≡◌};

    /// The list of these steps. No memory is taken.
    pub fn of(list: Vec<Step>) -> StepList
        ensures { result ≡ list.items }
    {
        StepList { kept: list }
    }

    /// The steps.
    pub fn items(&self) -> &[Step]
        ensures { result.now ≡ self.now }
    {
        self.kept.as_slice()
    }
}

/// What a reduction begins with.
#[derive(Drop)]
pub enum Start {
    /// The generator with this number, counted from 1.
    Generator(u32),
    /// The multiple of the entry with this number, counted from 1, by the words around it.
    Multiple {
        left: Word,
        number: u32,
        right: Word,
    },
}

/// A start and what was subtracted from it.
#[derive(Drop)]
pub struct Trace {
    pub start: Start,
    pub steps: StepList,
}

impl Model for Trace {
    ghost use Rattle.nc_snapshot.specs.Traces.{start_of};
    ghost use Rattle.nc_theory.specs.States.{Trace};

    ghost Value = { Trace };

    ghost view = { λ t. record { start = start_of t.start; steps = t.steps } };
}
