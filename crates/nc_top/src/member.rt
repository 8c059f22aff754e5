//! The answer of `member`.

ghost use Rattle.nc_algebra.specs.Limits.{max_bytes};
ghost use Rattle.nc_options.specs.declared.options.Form.TheVariants.{Lines as AsLines, Terms as AsTerms};
ghost use Rattle.nc_top.specs.Asked.{AreLinesOf, AreTermsOf, IsAsked, IsAskedAnswer, IsFoundOf, LeavesRest, StaysOpen};
ghost use Rattle.nc_top.specs.Member.{IsClaimText, IsMemberAnswer, reads_claim};
ghost use Rattle.nc_algebra.specs.Monomials.{monomial_of};
ghost use Rattle.nc_report.specs.Letters.{IsMonomialNamed};
ghost use Rattle.nc_top.specs.Reports.{not_below_report, remainder_line, undecided_report};
ghost use Rattle.std.specs.Prelude.{All, IfOk, Ok, OnOk, length, ◌++◌, ◌<◌, ◌≡◌, ◌≤◌};

use crate::basis::{run_problem, too_many_report};
use crate::input::answer_unread;
use crate::status::{Answer, Status};
use nc_cofactor::CofactorFault;
use nc_desk::{End, Finished};
use nc_member::{Membership, member, prove};
use nc_module::{Lines, Module, Name, Problem};
use nc_options::{Form, MemberOptions};
use nc_poly::Poly;
use nc_print::{write_poly, write_proof, write_sig, write_terms};
use nc_report::names_of;
use nc_sig::Sig;
use nc_text::{ProblemText, read_problem};
use std::alloc::{AllocError, Global};

/// A claim with the bytes that it was read from, and the run of its problem, which has come to its end.
#[derive(Drop)]
struct Asked<'a> {
    bytes: &'a [u8],
    finished: &'a Finished,
    claim: &'a Poly,
    options: MemberOptions,
}

/// Appends what is left of a claim.
fn write_remainder(out: &mut Vec<u8>, names: &[Name], rest: &Poly) -> Result<(), AllocError>
    requires { All (λ t. All (λ x. x.index < length names.now) t.key) rest.now }
    ensures { OnOk result (out.new.items ≡ out.old.items ++ remainder_line names.now rest.now) }
{
    out.extend_from_slice(b"remainder ")?;
    write_poly(out, names, rest)?;
    out.extend_from_slice(b"\n")
}

/// The report on a claim that has no representation within the bound.
fn not_below_report(alloc: Global, names: &[Name], rest: &Poly) -> Result<Vec<u8>, AllocError>
    requires { All (λ t. All (λ x. x.index < length names.now) t.key) rest.now }
    ensures { IfOk result (λ report. report.items ≡ not_below_report names.now rest.now) }
{
    let mut report = Vec::from_slice(alloc, b"no representation below the bound\n")?;
    write_remainder(&mut report, names, rest)?;
    Ok(report)
}

/// The report where the steps were used up and something is left of the claim.
fn undecided_report(
    alloc: Global,
    names: &[Name],
    next: &Sig,
    rest: &Poly,
) -> Result<Vec<u8>, AllocError>
    requires next { IsMonomialNamed (length names.now) (monomial_of next.now) }
    requires rest { All (λ t. All (λ x. x.index < length names.now) t.key) rest.now }
    ensures { IfOk result (λ report. report.items ≡ undecided_report names.now
        (monomial_of next.now) rest.now) }
{
    let mut report = Vec::from_slice(alloc, b"undecided\nnext ")?;
    write_sig(&mut report, names, next)?;
    report.extend_from_slice(b"\n")?;
    write_remainder(&mut report, names, rest)?;
    Ok(report)
}

/// Status and report where the run is complete and something is left of the claim.
fn answer_not_below(alloc: Global, asked: &Asked<'_>, rest: &Poly) -> Result<Answer, AllocError>
    requires asked { IsAsked asked.now }
    requires rest { LeavesRest asked.now rest.now }
    ensures { IfOk result (λ r. IsAskedAnswer asked.now r.0 r.1.items) }
{
    let snapshot = asked.finished.snapshot();
    snapshot.recall_rule();
    let report = not_below_report(alloc, names_of(snapshot), rest)?;
    Ok((Status::NotBelow, report))
}

/// Status and report where the steps were used up and something is left of the claim.
fn answer_undecided(alloc: Global, asked: &Asked<'_>, rest: &Poly) -> Result<Answer, AllocError>
    requires asked { IsAsked asked.now }
    requires rest { StaysOpen asked.now rest.now }
    ensures { IfOk result (λ r. IsAskedAnswer asked.now r.0 r.1.items) }
{
    let finished = asked.finished;
    let snapshot = finished.snapshot();
    snapshot.recall_rule();
    match finished.end() {
        End::Complete => unreachable!(),
        End::Budget(next) => {
            let report = undecided_report(alloc, names_of(snapshot), next, rest)?;
            Ok((Status::Budget, report))
        }
    }
}

/// Status and report for a representation as lines.
fn answer_lines(alloc: Global, asked: &Asked<'_>, lines: &Lines) -> Result<Answer, AllocError>
    requires asked { IsAsked asked.now }
    requires form { asked.now.options.form ≡ AsLines }
    requires lines { AreLinesOf asked.now lines.now }
    ensures { IfOk result (λ r. IsAskedAnswer asked.now r.0 r.1.items) }
{
    let problem = asked.finished.snapshot().problem();
    let mut report = Vec::new(alloc);
    write_proof(&mut report, problem.setting(), asked.claim, lines)?;
    Ok((Status::Done, report))
}

/// Status and report for a representation as a module element.
fn answer_terms(alloc: Global, asked: &Asked<'_>, m: &Module) -> Result<Answer, AllocError>
    requires asked { IsAsked asked.now }
    requires form { asked.now.options.form ≡ AsTerms }
    requires m { AreTermsOf asked.now m.now }
    ensures { IfOk result (λ r. IsAskedAnswer asked.now r.0 r.1.items) }
{
    let problem = asked.finished.snapshot().problem();
    let mut report = Vec::new(alloc);
    write_terms(&mut report, problem.setting(), asked.claim, m)?;
    Ok((Status::Done, report))
}

/// Status and report where lines are wanted.
#[tactic(auto, using(crate::proofs::Claims::claim_light))]
fn answer_by_lines(alloc: Global, asked: &Asked<'_>) -> Result<Answer, AllocError>
    requires asked { IsAsked asked.now }
    requires form { asked.now.options.form ≡ AsLines }
    ensures { IfOk result (λ r. IsAskedAnswer asked.now r.0 r.1.items) }
{
    match prove(alloc, asked.finished, asked.claim)? {
        Membership::Below(lines) => answer_lines(alloc, asked, &lines),
        Membership::NotBelow(rest) => answer_not_below(alloc, asked, &rest),
        Membership::Undecided(rest) => answer_undecided(alloc, asked, &rest),
    }
}

/// Status and report for the answer with a module element.
fn answer_found(
    alloc: Global,
    asked: &Asked<'_>,
    found: Membership<Module>,
) -> Result<Answer, AllocError>
    requires asked { IsAsked asked.now }
    requires form { asked.now.options.form ≡ AsTerms }
    requires found { IsFoundOf asked.now found }
    ensures { IfOk result (λ r. IsAskedAnswer asked.now r.0 r.1.items) }
{
    match found {
        Membership::Below(m) => answer_terms(alloc, asked, &m),
        Membership::NotBelow(rest) => answer_not_below(alloc, asked, &rest),
        Membership::Undecided(rest) => answer_undecided(alloc, asked, &rest),
    }
}

/// Status and report where terms are wanted.
#[tactic(auto, using(crate::proofs::Claims::claim_light))]
fn answer_by_terms(alloc: Global, asked: &Asked<'_>) -> Result<Answer, AllocError>
    requires asked { IsAsked asked.now }
    requires form { asked.now.options.form ≡ AsTerms }
    ensures { IfOk result (λ r. IsAskedAnswer asked.now r.0 r.1.items) }
{
    let finished = asked.finished;
    let snapshot = finished.snapshot();
    snapshot.recall_rule();
    let limit = u64::from(asked.options.limit);
    match member(alloc, finished, asked.claim, limit) {
        Ok(found) => answer_found(alloc, asked, found),
        Err(CofactorFault::TooMany { listed, terms }) => Ok((
            Status::TooMany { listed, terms },
            too_many_report(alloc, listed, terms)?,
        )),
        Err(CofactorFault::OutOfMemory) => Err(AllocError),
    }
}

/// Status and report for a problem with a claim.
fn answer_claim(
    alloc: Global,
    bytes: &[u8],
    problem: Problem,
    claim: &Poly,
    options: MemberOptions,
) -> Result<Answer, AllocError>
    requires text { IsClaimText bytes.now problem claim.now }
    requires some { 1 ≤ options.window }
    requires few { options.window ≤ 4096 }
    ensures { IfOk result (λ r. IsMemberAnswer options bytes.now r.0 r.1.items) }
{
    let finished = run_problem(alloc, problem, options.window)?;
    let asked = Asked {
        bytes,
        finished: &finished,
        claim,
        options,
    };
    match options.form {
        Form::Terms => answer_by_terms(alloc, &asked),
        Form::Lines => answer_by_lines(alloc, &asked),
    }
}

/// Status and report for a text of a problem, in which a claim stands.
fn answer_problem(
    alloc: Global,
    bytes: &[u8],
    text: ProblemText,
    options: MemberOptions,
) -> Result<Answer, AllocError>
    requires small { length bytes.now ≤ max_bytes }
    requires text { reads_claim bytes.now ≡ Ok text }
    requires some { 1 ≤ options.window }
    requires few { options.window ≤ 4096 }
    ensures { IfOk result (λ r. IsMemberAnswer options bytes.now r.0 r.1.items) }
{
    let problem = text.problem;
    match text.claim {
        Some(claim) => answer_claim(alloc, bytes, problem, &claim, options),
        None => unreachable!(),
    }
}

/// Status and report for the bytes of an input that are not too many.
pub(crate) fn answer_member(
    alloc: Global,
    bytes: &[u8],
    options: MemberOptions,
) -> Result<Answer, AllocError>
    requires small { length bytes.now ≤ max_bytes }
    requires some { 1 ≤ options.window }
    requires few { options.window ≤ 4096 }
    ensures { IfOk result (λ r. IsMemberAnswer options bytes.now r.0 r.1.items) }
{
    match read_problem(alloc, bytes, true) {
        Ok(text) => answer_problem(alloc, bytes, text, options),
        Err(fault) => answer_unread(alloc, fault),
    }
}
