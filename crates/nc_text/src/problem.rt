//! Problem texts.

ghost use Rattle.nc_algebra.specs.Alphabets.{IsTextWord};
ghost use Rattle.nc_algebra.specs.Elements.{IsGenerator, Setting as SettingValue};
ghost use Rattle.nc_algebra.specs.Problems.{Bound as Limit};
ghost use Rattle.nc_module.specs.Problems.{HasBoundDegree, bound_of};
ghost use Rattle.nc_text.specs.Problems.{bound_line, claim_at, optional_claim, reads_problem, steps_line};
ghost use Rattle.nc_text.specs.Rows.{below_at, bound_at, degree_at, steps_at};
ghost use Rattle.nc_tokens.specs.Gives.{Gives, GivesText};
ghost use Rattle.nc_tokens.specs.Unread.{left};
ghost use Rattle.std.specs.Prelude.{IfOk, length, ◌≡◌};

use crate::certificate::claim_line;
use crate::polynomial::poly_of;
use crate::setting::setting_of;
use crate::sides::{Mono, mono_of};
use nc_module::{Bound, Problem, Setting};
use nc_poly::Poly;
use nc_sig::Sig;
use nc_tokens::{Kind, LineError, ReadFault, Text, Token, Tokens, at, misplaced};
use std::alloc::Global;
use std::marker::Model;

/// The most that a bound by degree may have.
const MAX_DEGREE: u64 = 1_000;

/// The most signatures that may be handled.
const MAX_STEPS: u64 = 1_000_000_000;

/// So many may be handled where a text does not say.
const STEPS: u64 = 1_000_000;

/// A problem, and the claim that stands in its text.
#[derive(Drop)]
pub struct ProblemText {
    pub problem: Problem,
    pub claim: Option<Poly>,
}

impl Model for ProblemText {
    ghost use Rattle.nc_text.specs.Problems.{ProblemText};

    ghost Value = { ProblemText };

    ghost view = { λ t. record { problem = t.problem; claim = t.claim } };
}

/// Reads what stands behind `degree`.
#[tactic(auto, unfolding(crate::specs::Rows::degree_at))]
fn degree_of(line: &mut Tokens<'_>) -> Result<Bound, LineError>
    ensures reads { Gives (λ b. bound_of b) result (degree_at line.old) }
    ensures degree { (setting : SettingValue) → IfOk result (λ b. HasBoundDegree setting b) }
{
    let degree = line.literal()?;
    if degree > MAX_DEGREE {
        return Err(LineError::Fault(Kind::OutOfRange));
    }
    line.end()?;
    Ok(Bound::Degree(degree as u32))
}

/// The bound below a monomial.
fn below(setting: &Setting, mono: Mono) -> Bound
    requires generator { IsGenerator setting.now.setting mono.generator }
    requires left { IsTextWord setting.now.alphabet mono.left }
    requires right { IsTextWord setting.now.alphabet mono.right }
    ensures bound { bound_of result ≡ Limit.under mono }
    ensures degree { HasBoundDegree setting.now.setting result }
{
    let Mono {
        left,
        generator,
        right,
    } = mono;
    setting.recall_rule();
    Bound::Below(Sig::of(setting.weight(generator), generator, left, right))
}

/// Reads what stands behind `below`.
#[tactic(auto, unfolding(crate::specs::Rows::below_at))]
fn below_of(alloc: Global, setting: &Setting, line: &mut Tokens<'_>) -> Result<Bound, LineError>
    ensures reads { Gives (λ b. bound_of b) result
        (below_at setting.now.alphabet (length setting.now.setting.generators) line.old) }
    ensures degree { IfOk result (λ b. HasBoundDegree setting.now.setting b) }
{
    let mono = mono_of(alloc, setting, line)?;
    Ok(below(setting, mono))
}

/// Reads what stands behind `bound`.
#[tactic(auto, unfolding(crate::specs::Rows::bound_at))]
fn bound_of(alloc: Global, setting: &Setting, line: &mut Tokens<'_>) -> Result<Bound, LineError>
    ensures reads { Gives (λ b. bound_of b) result
        (bound_at setting.now.alphabet (length setting.now.setting.generators) line.old) }
    ensures degree { IfOk result (λ b. HasBoundDegree setting.now.setting b) }
{
    match line.take() {
        Token::Name(word) => {
            if word == b"degree".as_slice() {
                return degree_of(line);
            }
            if word == b"below".as_slice() {
                return below_of(alloc, setting, line);
            }
            Err(LineError::Fault(Kind::Syntax))
        }
        token => Err(misplaced(token)),
    }
}

/// Reads what stands behind `steps`.
#[tactic(auto, unfolding(crate::specs::Rows::steps_at))]
fn steps_of(line: &mut Tokens<'_>) -> Result<u64, LineError>
    ensures { Gives (λ n. n) result (steps_at line.old) }
{
    let steps = line.literal()?;
    if steps > MAX_STEPS {
        return Err(LineError::Fault(Kind::OutOfRange));
    }
    line.end()?;
    Ok(steps)
}

/// Reads the line `bound`.
#[tactic(auto, using(crate::proofs::Told::told), unfolding(crate::specs::Problems::bound_line))]
fn bound_line(alloc: Global, setting: &Setting, text: &mut Text<'_>) -> Result<Bound, ReadFault>
    ensures reads { GivesText (λ b. (bound_of b, left text.new)) result
        (bound_line setting.now.alphabet (length setting.now.setting.generators) (left text.old)) }
    ensures degree { IfOk result (λ b. HasBoundDegree setting.now.setting b) }
{
    let mut row = text.wants(b"bound")?;
    let bound = at(row.number, bound_of(alloc, setting, &mut row.tokens))?;
    Ok(bound)
}

/// Reads the line `steps`, if it comes next.
#[tactic(auto, using(crate::proofs::Told::told), unfolding(crate::specs::Problems::steps_line))]
fn steps_line(text: &mut Text<'_>) -> Result<u64, ReadFault>
    ensures { GivesText (λ n. (n, left text.new)) result (steps_line (left text.old)) }
{
    match text.takes(b"steps") {
        None => Ok(STEPS),
        Some(row) => {
            let mut row = row;
            let steps = at(row.number, steps_of(&mut row.tokens))?;
            Ok(steps)
        }
    }
}

/// Reads the line `claim`, if it comes next.
#[tactic(auto, using(crate::proofs::Told::told), unfolding(crate::specs::Problems::optional_claim))]
fn optional_claim(
    alloc: Global,
    setting: &Setting,
    text: &mut Text<'_>,
) -> Result<Option<Poly>, ReadFault>
    ensures { GivesText (λ f. (f, left text.new)) result
        (optional_claim setting.now.setting.prime setting.now.alphabet (left text.old)) }
{
    match text.takes(b"claim") {
        None => Ok(None),
        Some(row) => {
            let mut row = row;
            let f = at(
                row.number,
                poly_of(alloc, setting.prime(), setting.alphabet(), &mut row.tokens),
            )?;
            Ok(Some(f))
        }
    }
}

/// Reads the claim, which must come next where it is wanted.
#[tactic(auto, unfolding(crate::specs::Problems::wanted_claim))]
fn claim_of(
    alloc: Global,
    setting: &Setting,
    wants_claim: bool,
    text: &mut Text<'_>,
) -> Result<Option<Poly>, ReadFault>
    ensures { GivesText (λ f. (f, left text.new)) result
        (claim_at wants_claim setting.now.setting.prime setting.now.alphabet (left text.old)) }
{
    if wants_claim {
        let claim = claim_line(alloc, setting, text)?;
        Ok(Some(claim))
    } else {
        optional_claim(alloc, setting, text)
    }
}

/// The problem that a text is, with its claim, or the text's first fault. Where a claim is wanted its line must stand
/// there; else it may.
#[tactic(auto, unfolding(crate::specs::Problems::problem_at))]
pub fn read_problem(
    alloc: Global,
    bytes: &[u8],
    wants_claim: bool,
) -> Result<ProblemText, ReadFault>
    ensures { GivesText (λ p. p) result (reads_problem wants_claim bytes.now) }
{
    let mut text = Text::of(bytes);
    let setting = setting_of(alloc, &mut text)?;
    let bound = bound_line(alloc, &setting, &mut text)?;
    let steps = steps_line(&mut text)?;
    let claim = claim_of(alloc, &setting, wants_claim, &mut text)?;
    text.ends()?;
    Ok(ProblemText {
        problem: Problem::of(setting, bound, steps),
        claim,
    })
}
