//! What is left of a claim.

ghost use Rattle.nc_algebra.specs.Alphabets.{IsPolynomialIn};
ghost use Rattle.nc_algebra.specs.Limits.{max_weight};
ghost use Rattle.nc_algebra.specs.Words.{word_weight};
ghost use Rattle.nc_cofactor.specs.Claims.{AreSubtracted};
ghost use Rattle.nc_member.specs.Members.{IsRestOf};
ghost use Rattle.std.specs.Prelude.{All, IfOk, ◌≤◌};

use nc_desk::Finished;
use nc_poly::Poly;
use nc_reduce::{Rest, reduce_within};
use std::alloc::{AllocError, Global};

/// Reduces the claim within the problem's bound by all entries of the run.
pub(crate) fn rest_of(alloc: Global, finished: &Finished, claim: &Poly) -> Result<Rest, AllocError>
    requires claim { IsPolynomialIn finished.now.snapshot.problem.alphabet
        finished.now.snapshot.problem.problem.setting.prime claim.now }
    requires light { All (λ t. word_weight t.key ≤ max_weight) claim.now }
    ensures rest { IfOk result (λ r. IsRestOf finished.now.snapshot.problem.problem
        finished.now.snapshot.handled claim.now r.poly r.steps) }
    ensures subtracted { IfOk result
        (λ r. AreSubtracted finished.now.snapshot.problem.problem
        finished.now.snapshot.state.entries r.steps) }
{
    let snapshot = finished.snapshot();
    snapshot.recall_rule();
    let leads = finished.leads();
    reduce_within(alloc, snapshot, leads, claim)
}
