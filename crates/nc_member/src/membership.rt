//! Membership of a claim, with a representation as a module element.

ghost use Rattle.nc_algebra.specs.Alphabets.{IsPolynomialIn};
ghost use Rattle.nc_algebra.specs.Limits.{max_weight};
ghost use Rattle.nc_algebra.specs.Words.{word_weight};
ghost use Rattle.nc_member.specs.Members.{FailsToAnswer, IsMember};
ghost use Rattle.std.specs.Prelude.{All, IfErr, IfOk, ◌≤◌};

use crate::rest::rest_of;
use nc_cofactor::{CofactorFault, represent};
use nc_desk::{End, Finished};
use nc_module::Module;
use nc_poly::Poly;
use nc_reduce::Rest;
use std::alloc::Global;

/// Whether a claim has a representation within the bound, where `T` is what shows one.
#[derive(Drop)]
pub enum Membership<T> {
    /// It has this one.
    Below(T),
    /// It has none; this is what is left of it.
    NotBelow(Poly),
    /// The steps of the problem were used up; this is what is left of it.
    Undecided(Poly),
}

/// Reduces the claim within the problem's bound by all entries of the run.
///
/// `TooMany` comes only where nothing is left. It names the least entry that is needed whose label has more than `limit`
/// terms, and where there is none the claim, whose representation has more.
pub fn member(
    alloc: Global,
    finished: &Finished,
    claim: &Poly,
    limit: u64,
) -> Result<Membership<Module>, CofactorFault>
    requires claim { IsPolynomialIn finished.now.snapshot.problem.alphabet
        finished.now.snapshot.problem.problem.setting.prime claim.now }
    requires light { All (λ t. word_weight t.key ≤ max_weight) claim.now }
    ensures member { IfOk result (IsMember finished.now claim.now limit) }
    ensures fault { IfErr result (FailsToAnswer finished.now claim.now limit) }
{
    let snapshot = finished.snapshot();
    snapshot.recall_rule();
    let Rest { poly, steps } = rest_of(alloc, finished, claim)?;
    if poly.is_zero() {
        let module = represent(alloc, snapshot, finished.leads(), steps.items(), limit)?;
        return Ok(Membership::Below(module));
    }
    Ok(match finished.end() {
        End::Complete => Membership::NotBelow(poly),
        End::Budget(_) => Membership::Undecided(poly),
    })
}
