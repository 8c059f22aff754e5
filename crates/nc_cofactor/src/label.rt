//! The label that a trace gives.

ghost use Rattle.nc_algebra.specs.Elements.{Element, IsGenerator, element_times};
ghost use Rattle.nc_algebra.specs.Sums.{scale};
ghost use Rattle.nc_cofactor.specs.Sums.{AreSummable, IsPlaced, IsStartPlaced, IsSum, IsSummable, IsTraceSum, elements_of};
ghost use Rattle.nc_poly.specs.Ordered.{AreResiduesBy};
ghost use Rattle.nc_snapshot.specs.Traces.{start_of};
ghost use Rattle.nc_theory.specs.Labels.{label_at, start_label, step_multiples};
ghost use Rattle.nc_theory.specs.States.{Start as Beginning};
ghost use Rattle.std.specs.Prelude.{IfOk, OnOk, get_or, length, [], ◌++◌, ◌-◌, ◌<◌, ◌≡◌, ◌≤◌};

use crate::sum::{add_multiple, finish};
use nc_field::Residue;
use nc_module::{Module, Setting};
use nc_poly::Sum;
use nc_sig::Sig;
use nc_snapshot::{Start, Step, Trace};
use nc_words::{Letter, Word};
use std::alloc::{AllocError, Global};

/// The label of the entry with this number.
fn label_in(labels: &[Module], number: u32) -> &Module
    requires some { 1 ≤ number }
    requires within { number ≤ length labels.now }
    ensures { result.now ≡ get_or labels.now (number - 1) [] }
{
    &labels[number as usize - 1]
}

/// The generator by itself.
fn begin_with_generator(alloc: Global, setting: &Setting, i: u32) -> Result<Sum<Sig>, AllocError>
    requires { IsGenerator setting.now.setting i }
    ensures { IfOk result (λ sum. IsSum setting.now.setting
        (start_label [] (Beginning.a_generator i)) sum) }
{
    let at = Sig::of(setting.weight(i), i, Word::empty(alloc), Word::empty(alloc));
    let prime = setting.prime();
    prime.recall_rule();
    let mut sum = Sum::new(alloc);
    sum.push_greatest(at, 1)?;
    Ok(sum)
}

/// The multiple of a label.
fn begin_with_multiple(
    alloc: Global,
    setting: &Setting,
    labels: &[Module],
    left: &[Letter],
    number: u32,
    right: &[Letter],
) -> Result<Sum<Sig>, AllocError>
    requires { IsPlaced setting.now.setting labels.now left.now number right.now }
    ensures { IfOk result (λ sum. IsSum setting.now.setting
        (element_times left.now (label_at (elements_of labels.now) number) right.now) sum) }
{
    let label = label_in(labels, number);
    let prime = setting.prime();
    prime.recall_rule();
    label.recall_rule();
    let mut sum = Sum::new(alloc);
    add_multiple(alloc, &mut sum, setting, 1, left, label, right)?;
    Ok(sum)
}

/// The sum with which a trace begins.
fn begin(
    alloc: Global,
    setting: &Setting,
    labels: &[Module],
    start: &Start,
) -> Result<Sum<Sig>, AllocError>
    requires { IsStartPlaced setting.now.setting labels.now (start_of start.now) }
    ensures { IfOk result (λ sum. IsSum setting.now.setting
        (start_label (elements_of labels.now) (start_of start.now)) sum) }
{
    match start {
        Start::Generator(i) => begin_with_generator(alloc, setting, *i),
        Start::Multiple {
            left,
            number,
            right,
        } => begin_with_multiple(
            alloc,
            setting,
            labels,
            left.letters(),
            *number,
            right.letters(),
        ),
    }
}

/// Adds the multiple of a label that the step names, with coefficient c.
fn add_step(
    alloc: Global,
    sum: &mut Sum<Sig>,
    setting: &Setting,
    labels: &[Module],
    c: Residue,
    step: &Step,
) -> Result<(), AllocError>
    requires before { AreResiduesBy setting.now.setting.prime sum.old }
    requires residue { c < setting.now.setting.prime }
    requires placed { IsPlaced setting.now.setting labels.now step.now.left step.now.number
        step.now.right }
    ensures { OnOk result ((α : Element) → IsSum setting.now.setting α sum.old
        → IsSum setting.now.setting (scale c
        (element_times step.now.left (label_at (elements_of labels.now) step.now.number)
        step.now.right) ++ α) sum.new) }
{
    let label = label_in(labels, step.number);
    setting.recall_rule();
    label.recall_rule();
    add_multiple(
        alloc,
        sum,
        setting,
        c,
        step.left.letters(),
        label,
        step.right.letters(),
    )?;
    Ok(())
}

/// The sum of the multiples over the labels of the entries that they name. Each of them stands in its place; what stands in
/// the other places does not matter.
pub(crate) fn steps_sum(
    alloc: Global,
    setting: &Setting,
    labels: &[Module],
    steps: &[Step],
) -> Result<Module, AllocError>
    requires { AreSummable setting.now.setting labels.now steps.now }
    ensures { IfOk result (IsSum setting.now.setting
        (step_multiples (elements_of labels.now) steps.now)) }
{
    let mut sum = Sum::new(alloc);
    for step in steps {
        add_step(alloc, &mut sum, setting, labels, step.coefficient, step)?;
    }
    setting.recall_rule();
    let whole = finish(alloc, setting, sum)?;
    Ok(whole)
}

/// The label that the trace gives over the labels of the entries that it names. Each of them stands in its place; what
/// stands in the other places does not matter.
pub(crate) fn trace_sum(
    alloc: Global,
    setting: &Setting,
    labels: &[Module],
    trace: &Trace,
) -> Result<Module, AllocError>
    requires { IsSummable setting.now.setting labels.now trace.now }
    ensures { IfOk result (λ m. IsTraceSum setting.now.setting labels.now trace.now m) }
{
    let mut sum = begin(alloc, setting, labels, &trace.start)?;
    for step in trace.steps.items() {
        let c = setting.prime().neg(step.coefficient);
        add_step(alloc, &mut sum, setting, labels, c, step)?;
    }
    setting.recall_rule();
    let label = finish(alloc, setting, sum)?;
    Ok(label)
}
