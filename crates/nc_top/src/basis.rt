//! The answer of `basis`.

ghost use Rattle.nc_algebra.specs.Limits.{max_bytes};
ghost use Rattle.nc_desk.specs.Ends.{IsEndAt};
ghost use Rattle.nc_theory.specs.States.{State};
ghost use Rattle.nc_top.specs.Basis.{AreShort, IsBasisAnswer, IsProblemText, reads_relations, status_at};
ghost use Rattle.nc_cofactor.specs.Firsts.{AreWithin};
ghost use Rattle.nc_cofactor.specs.Terms.{LabelTerms};
ghost use Rattle.nc_report.specs.Reports.{basis_report};
ghost use Rattle.nc_top.specs.Reports.{too_many_report};
ghost use Rattle.nc_report.specs.Shown.{FailsToShow, IsRunAt, IsShownOf, kind_of, labels_in};
ghost use Rattle.std.specs.Prelude.{IfErr, IfOk, Ok, length, ◌≡◌, ◌≤◌};

use crate::input::answer_unread;
use crate::status::{Answer, Status};
use itoa::Buffer;
use nc_cofactor::{CofactorFault, Labels};
use nc_desk::{Desk, End, Finished};
use nc_module::Problem;
use nc_options::{BasisOptions, Cofactors};
use nc_report::{Shown, report_on};
use nc_snapshot::Listed;
use nc_text::read_problem;
use std::alloc::{AllocError, Global};
use std::sync::Arc;

/// The run of the problem at its end.
pub(crate) fn run_problem(
    alloc: Global,
    problem: Problem,
    window: u32,
) -> Result<Finished, AllocError>
    requires some { 1 ≤ window }
    requires few { window ≤ 4096 }
    ensures problem { IfOk result (λ f. f.snapshot.problem ≡ problem) }
    ensures ended { IfOk result (λ f. IsEndAt f.snapshot f.ending) }
{
    let desk = Desk::open(alloc, Arc::new(alloc, problem)?, window)?;
    match desk.drive() {
        Ok(finished) => {
            finished.recall_rule();
            Ok(finished)
        }
        Err((_, error)) => Err(error),
    }
}

/// The labels of all items, unless one has more than `limit` terms.
fn labels_of(alloc: Global, finished: &Finished, limit: u32) -> Result<Shown, CofactorFault>
    ensures shown { IfOk result (IsShownOf finished.now.snapshot) }
    ensures kind { IfOk result (λ s. kind_of s ≡ Cofactors.Full) }
    ensures short { IfOk result (λ s. (run : State) → IsRunAt finished.now.snapshot run
        → AreWithin (LabelTerms finished.now.snapshot.problem.problem.setting.prime run) limit) }
    ensures fault { IfErr result (FailsToShow finished.now.snapshot limit) }
{
    let snapshot = finished.snapshot();
    let leads = finished.leads();
    let limit = u64::from(limit);
    snapshot.recall_rule();
    let entries = match Labels::of(alloc, snapshot, leads, limit) {
        Ok(entries) => entries,
        Err(fault) => return Err(fault),
    };
    match entries.syzygies(alloc, snapshot, leads, limit) {
        Ok(syzygies) => Ok(Shown::Labelled { entries, syzygies }),
        Err(fault) => Err(fault),
    }
}

/// What is shown behind the items of a run.
fn shown_of(
    alloc: Global,
    finished: &Finished,
    options: BasisOptions,
) -> Result<Shown, CofactorFault>
    ensures shown { IfOk result (IsShownOf finished.now.snapshot) }
    ensures kind { IfOk result (λ s. kind_of s ≡ options.cofactors) }
    ensures short { IfOk result (λ s. (run : State) → IsRunAt finished.now.snapshot run
        → AreShort options finished.now.snapshot.problem.problem.setting run) }
    ensures full { IfErr result (λ e. options.cofactors ≡ Cofactors.Full) }
    ensures fault { IfErr result (FailsToShow finished.now.snapshot options.limit) }
{
    match options.cofactors {
        Cofactors::Omitted => Ok(Shown::Nothing),
        Cofactors::Trace => Ok(Shown::Traces),
        Cofactors::Full => labels_of(alloc, finished, options.limit),
    }
}

/// The report where the label of an item has too many terms.
pub(crate) fn too_many_report(
    alloc: Global,
    listed: Listed,
    terms: u64,
) -> Result<Vec<u8>, AllocError>
    ensures { IfOk result (λ report. report.items ≡ too_many_report listed terms) }
{
    let mut numbers = Buffer::new();
    let mut report = Vec::from_slice(alloc, b"too many terms: ")?;
    match listed {
        Listed::Entry(k) => {
            report.extend_from_slice(b"entry ")?;
            report.extend_from_slice(numbers.format(k).as_bytes())?;
        }
        Listed::Syzygy(k) => {
            report.extend_from_slice(b"syzygy ")?;
            report.extend_from_slice(numbers.format(k).as_bytes())?;
        }
        Listed::Claim => report.extend_from_slice(b"claim")?,
    }
    report.extend_from_slice(b" has ")?;
    report.extend_from_slice(numbers.format(terms).as_bytes())?;
    report.extend_from_slice(b"\n")?;
    Ok(report)
}

/// Status and report for a run that came to its end.
fn answer_run(alloc: Global, finished: &Finished, shown: &Shown) -> Result<Answer, AllocError>
    requires shown { IsShownOf finished.now.snapshot shown.now }
    ensures { IfOk result (λ r. (r.0 ≡ status_at finished.now.ending)
        × ((run : State) → IsRunAt finished.now.snapshot run
        → r.1.items ≡ basis_report (kind_of shown.now)
        finished.now.snapshot.problem.alphabet.names (labels_in shown.now)
        finished.now.snapshot.handled run finished.now.ending)) }
{
    let report = report_on(alloc, finished, shown)?;
    match finished.end() {
        End::Complete => Ok((Status::Done, report)),
        End::Budget(_) => Ok((Status::Budget, report)),
    }
}

/// Status and report for a text of a problem.
fn answer_problem(
    alloc: Global,
    bytes: &[u8],
    problem: Problem,
    options: BasisOptions,
) -> Result<Answer, AllocError>
    requires text { IsProblemText bytes.now problem }
    requires some { 1 ≤ options.window }
    requires few { options.window ≤ 4096 }
    ensures { IfOk result (λ r. IsBasisAnswer options bytes.now r.0 r.1.items) }
{
    problem.recall_rule();
    let finished = run_problem(alloc, problem, options.window)?;
    let snapshot = finished.snapshot();
    snapshot.recall_rule();
    match shown_of(alloc, &finished, options) {
        Ok(shown) => answer_run(alloc, &finished, &shown),
        Err(CofactorFault::TooMany { listed, terms }) => Ok((
            Status::TooMany { listed, terms },
            too_many_report(alloc, listed, terms)?,
        )),
        Err(CofactorFault::OutOfMemory) => Err(AllocError),
    }
}

/// Status and report for the bytes of an input that are not too many.
pub(crate) fn answer_basis(
    alloc: Global,
    bytes: &[u8],
    options: BasisOptions,
) -> Result<Answer, AllocError>
    requires small { length bytes.now ≤ max_bytes }
    requires some { 1 ≤ options.window }
    requires few { options.window ≤ 4096 }
    ensures { IfOk result (λ r. IsBasisAnswer options bytes.now r.0 r.1.items) }
{
    match read_problem(alloc, bytes, false) {
        Ok(text) => answer_problem(alloc, bytes, text.problem, options),
        Err(fault) => answer_unread(alloc, fault),
    }
}
