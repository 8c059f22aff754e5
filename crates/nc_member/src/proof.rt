//! Membership with a representation as lines.

ghost use Rattle.nc_algebra.specs.Alphabets.{IsPolynomialIn};
ghost use Rattle.nc_algebra.specs.Limits.{max_weight};
ghost use Rattle.nc_algebra.specs.Words.{word_weight};
ghost use Rattle.nc_member.specs.Members.{IsProof};
ghost use Rattle.std.specs.Prelude.{All, IfOk, ◌≤◌};

use crate::lines::lines_of;
use crate::membership::Membership;
use crate::rest::rest_of;
use nc_desk::{End, Finished};
use nc_module::Lines;
use nc_poly::Poly;
use nc_reduce::Rest;
use std::alloc::{AllocError, Global};

/// Reduces the claim within the problem's bound by all entries of the run, and gives the lines of a certificate where nothing
/// is left: one for each entry that is needed, in ascending order, and one for the claim. A claim of zero has no line.
pub fn prove(
    alloc: Global,
    finished: &Finished,
    claim: &Poly,
) -> Result<Membership<Lines>, AllocError>
    requires claim { IsPolynomialIn finished.now.snapshot.problem.alphabet
        finished.now.snapshot.problem.problem.setting.prime claim.now }
    requires light { All (λ t. word_weight t.key ≤ max_weight) claim.now }
    ensures { IfOk result (IsProof finished.now claim.now) }
{
    let snapshot = finished.snapshot();
    snapshot.recall_rule();
    let Rest { poly, steps } = rest_of(alloc, finished, claim)?;
    if poly.is_zero() {
        let lines = lines_of(alloc, snapshot, finished.leads(), steps.items())?;
        return Ok(Membership::Below(lines));
    }
    Ok(match finished.end() {
        End::Complete => Membership::NotBelow(poly),
        End::Budget(_) => Membership::Undecided(poly),
    })
}
