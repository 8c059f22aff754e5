//! One step.

ghost use Rattle.nc_algebra.specs.Limits.{max_letters};
ghost use Rattle.nc_algebra.specs.Polynomials.{AreResidues, IsNormal, leading, normal_form, polynomial_times};
ghost use Rattle.nc_algebra.specs.Sums.{minus};
ghost use Rattle.nc_algebra.specs.Words.{OccursAt};
ghost use Rattle.nc_reduce.specs.Steps.{IsStepAt};
ghost use Rattle.std.specs.Prelude.{All, IfOk, OnOk, length, ◌%◌, ◌*◌, ◌+◌, ◌++◌, ◌<◌, ◌≡◌, ◌≤◌};

use nc_field::{Prime, Residue};
use nc_index::Hit;
use nc_poly::{Heap, Poly};
use nc_snapshot::{Entry, Step};
use nc_words::{Letter, Word};
use std::alloc::{AllocError, Global};

/// The residue that times the second gives the first.
fn quotient(p: Prime, a: Residue, b: Residue) -> Residue
    requires first { a < p }
    requires some { 0 < b }
    requires second { b < p }
    ensures below { result < p }
    ensures quotient { result * b % p ≡ a }
{
    p.mul(a, p.inverse(b))
}

/// What stands before and behind the place of the part.
fn around<'a>(word: &'a [Letter], part: &[Letter], place: usize) -> (&'a [Letter], &'a [Letter])
    requires { OccursAt part.now word.now place }
    ensures spells { result.0.now ++ (part.now ++ result.1.now) ≡ word.now }
    ensures place { length result.0.now ≡ place }
{
    let (front, rest) = word.split_at(place);
    (front, &rest[part.len()..])
}

/// The word of these letters.
fn word_of(alloc: Global, letters: &[Letter]) -> Result<Word, AllocError>
    requires { length letters.now ≤ max_letters }
    ensures { IfOk result (λ w. w ≡ letters.now) }
{
    Word::join(alloc, &[], &[], letters)
}

/// The step that subtracts from c times the word: the multiple of the entry whose leading word stands at the hit's place,
/// with the coefficient that takes the word off.
pub(crate) fn step_at(
    alloc: Global,
    p: Prime,
    c: Residue,
    word: &Word,
    divisor: &Entry,
    hit: Hit,
) -> Result<Step, AllocError>
    requires residue { c < p }
    requires normal { IsNormal p divisor.now.polynomial }
    requires stands { OccursAt (leading p divisor.now.polynomial) word.now hit.place }
    ensures { IfOk result (λ s. IsStepAt p (record { coefficient = c; key = word.now })
        divisor.now.polynomial hit s) }
{
    let coefficient = quotient(p, c, divisor.lead_coefficient());
    let lead = divisor.lead();
    let (front, back) = around(word.letters(), lead.letters(), hit.place);
    let left = word_of(alloc, front)?;
    let right = word_of(alloc, back)?;
    Ok(Step {
        coefficient,
        left,
        number: hit.number,
        right,
    })
}

/// Subtracts the step's multiple of the divisor.
pub(crate) fn subtract(
    alloc: Global,
    p: Prime,
    step: &Step,
    divisor: &Poly,
    rest: &mut Heap,
) -> Result<(), AllocError>
    requires factor { step.now.coefficient < p }
    requires residues { AreResidues p rest.old }
    requires other_residues { AreResidues p divisor.now }
    requires few { All (λ t. length step.now.left + length t.key + length step.now.right
        ≤ max_letters) divisor.now }
    ensures { OnOk result (rest.new ≡ normal_form p
        (minus p rest.old step.now.coefficient
        (polynomial_times step.now.left divisor.now step.now.right))) }
{
    let left = step.left.letters();
    let right = step.right.letters();
    rest.sub_multiple(alloc, p, step.coefficient, left, divisor, right)
}
