//! Waiting signatures.

ghost use Rattle.nc_algebra.specs.Elements.{IsGenerator};
ghost use Rattle.nc_algebra.specs.Monomials.{Sig as Value};
ghost use Rattle.nc_queue.specs.Queues.{IsAscending, IsDifference, IsLeastAfter, IsUnion, IsUnitWithin, IsWithUnit};
ghost use Rattle.std.specs.Arc.{arc_value};
ghost use Rattle.std.specs.Option.{option_map};
ghost use Rattle.std.specs.Prelude.{Contains, IfOk, IfSome, IsNone, List, OnErr, OnOk, [], map, option_copied, ◌↔◌, ◌∷◌, ◌≡◌};

use crate::sets::{insert_each, insert_one, least_after, remove_each};
use nc_module::Problem;
use nc_sig::Sig;
use nc_words::Word;
use std::alloc::{AllocError, Global};
use std::collections::BTreeSet;
use std::marker::Model;
use std::sync::Arc;

/// A set of signatures in ascending order.
#[derive(Drop)]
pub struct Waiting {
    kept: BTreeSet<Arc<Sig>>,
}

impl Model for Waiting {
    ghost use Rattle.nc_algebra.specs.Monomials.{Sig};
    ghost use Rattle.nc_queue.specs.Queues.{IsAscending};
    ghost use Rattle.std.specs.Arc.{arc_value};
    ghost use Rattle.std.specs.Prelude.{List, map};

    ghost Value = { List Sig };

    ghost view = { λ w. map arc_value w.kept.keys };

    ghost invariant = { λ w. IsAscending (map arc_value w.kept.keys) };
}

/// Adds `1 [number] 1`, if it lies within the problem's bound.
fn insert_unit(
    alloc: Global,
    kept: &mut BTreeSet<Arc<Sig>>,
    problem: &Problem,
    number: u32,
) -> Result<(), AllocError>
    requires generator { IsGenerator problem.now.problem.setting number }
    requires ascending { IsAscending (map arc_value kept.old.keys) }
    ensures added { OnOk result (IsWithUnit problem.now.problem number (map arc_value kept.old.keys)
        (map arc_value kept.new.keys)) }
    ensures ascending { IsAscending (map arc_value kept.new.keys) }
{
    let weight = problem.setting().weight(number);
    let sig = Sig::of(weight, number, Word::empty(alloc), Word::empty(alloc));
    if !problem.within(&sig) {
        return Ok(());
    }
    insert_one(kept, Arc::new(alloc, sig)?)
}

/// Those that are not in the set.
fn without(sigs: Vec<Arc<Sig>>, kept: &BTreeSet<Arc<Sig>>) -> Vec<Arc<Sig>>
    ensures { IsDifference (map arc_value sigs.items) (map arc_value kept.now.keys)
        (map arc_value result.items) }
{
    let mut fresh = sigs;
    fresh.retain(|sig| !kept.contains(sig));
    fresh
}

impl Waiting {
    /// Those `1 [i] 1` that lie within the problem's bound.
    pub fn of(alloc: Global, problem: &Problem) -> Result<Waiting, AllocError>
        ensures units { IfOk result (λ w. (σ : Value) → Contains w σ
            ↔ IsUnitWithin problem.now.problem σ) }
        ensures ascending { IfOk result IsAscending }
    {
        let mut kept = BTreeSet::new(alloc);
        for index in 0..problem.setting().generators().len() {
            insert_unit(alloc, &mut kept, problem, index as u32 + 1)?;
        }
        Ok(Waiting { kept })
    }

    /// Adds these, of which some may be there and some may stand twice. After `Err` the set is what it was.
    pub fn insert_all(&mut self, sigs: Vec<Arc<Sig>>) -> Result<(), AllocError>
        ensures all { OnOk result (IsUnion self.old (map arc_value sigs.items) self.new) }
        ensures ascending { IsAscending self.new }
        ensures none { OnErr result (self.new ≡ self.old) }
    {
        let fresh = without(sigs, &self.kept);
        match insert_each(&mut self.kept, fresh.as_slice()) {
            Ok(()) => Ok(()),
            Err(error) => {
                remove_each(&mut self.kept, fresh.as_slice());
                Err(error)
            }
        }
    }

    /// Makes known to the prover what always holds of waiting signatures. It does nothing else.
    pub fn recall_rule(&self)
        ensures ascending { IsAscending self.now }
    {
        let _ = &self.kept;
    }

    /// The least one.
    pub fn least(&self) -> Option<&Arc<Sig>>
        ensures none { IsNone result ↔ (self.now ≡ []) }
        ensures least { IfSome result (λ s. (others : List Value)
            × (self.now ≡ arc_value s.now ∷ others)) }
        ensures ascending { IsAscending self.now }
    {
        self.kept.first()
    }

    /// Takes the least one out.
    pub fn take_least(&mut self) -> Option<Arc<Sig>>
        ensures none { IsNone result ↔ (self.old ≡ []) }
        ensures unchanged { IsNone result → self.new ≡ self.old }
        ensures taken { IfSome result (λ s. self.old ≡ arc_value s ∷ self.new) }
        ensures ascending { IsAscending self.old }
    {
        self.kept.pop_first()
    }

    /// The least one that is greater than this.
    pub fn after(&self, sig: &Arc<Sig>) -> Option<&Arc<Sig>>
        ensures { IsLeastAfter self.now (arc_value sig.now)
            (option_map arc_value (option_copied result)) }
    {
        least_after(&self.kept, sig)
    }
}
