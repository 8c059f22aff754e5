//! Printed traces.

ghost use Rattle.nc_report.specs.Traces.{StartIsNamed, multiple_text, start_text, step_text, trace_text};
ghost use Rattle.nc_snapshot.specs.Traces.{start_of};
ghost use Rattle.std.specs.Prelude.{All, OnOk, flat_map, length, ◌++◌, ◌<◌, ◌≡◌};

use nc_module::Name;
use nc_print::{push_number, write_word};
use nc_snapshot::{Start, Step, Trace};
use nc_words::Word;
use std::alloc::AllocError;

/// Appends a multiple of the entry with this number.
fn write_multiple(
    out: &mut Vec<u8>,
    names: &[Name],
    left: &Word,
    number: u32,
    right: &Word,
) -> Result<(), AllocError>
    requires left { All (λ x. x.index < length names.now) left.now }
    requires right { All (λ x. x.index < length names.now) right.now }
    ensures { OnOk result (out.new.items ≡ out.old.items ++ multiple_text names.now left.now number
        right.now) }
{
    write_word(out, names, left.letters())?;
    out.extend_from_slice(b" {")?;
    push_number(out, number)?;
    out.extend_from_slice(b"} ")?;
    write_word(out, names, right.letters())
}

/// Appends what was reduced.
fn write_start(out: &mut Vec<u8>, names: &[Name], start: &Start) -> Result<(), AllocError>
    requires named { StartIsNamed (length names.now) (start_of start.now) }
    ensures { OnOk result (out.new.items ≡ out.old.items ++ start_text names.now
        (start_of start.now)) }
{
    match start {
        Start::Generator(i) => {
            out.extend_from_slice(b"1 [")?;
            push_number(out, *i)?;
            out.extend_from_slice(b"] 1")
        }
        Start::Multiple {
            left,
            number,
            right,
        } => write_multiple(out, names, left, *number, right),
    }
}

/// Appends a multiple that was subtracted.
fn write_step(out: &mut Vec<u8>, names: &[Name], step: &Step) -> Result<(), AllocError>
    requires left { All (λ x. x.index < length names.now) step.now.left }
    requires right { All (λ x. x.index < length names.now) step.now.right }
    ensures { OnOk result (out.new.items ≡ out.old.items ++ step_text names.now step.now) }
{
    out.extend_from_slice(b" - ")?;
    push_number(out, step.coefficient)?;
    out.push(b'*')?;
    write_multiple(out, names, &step.left, step.number, &step.right)
}

/// Appends multiples that were subtracted.
fn write_steps(out: &mut Vec<u8>, names: &[Name], steps: &[Step]) -> Result<(), AllocError>
    requires left { All (λ t. All (λ x. x.index < length names.now) t.left) steps.now }
    requires right { All (λ t. All (λ x. x.index < length names.now) t.right) steps.now }
    ensures { OnOk result (out.new.items ≡ out.old.items ++ flat_map (step_text names.now)
        steps.now) }
{
    for step in steps {
        write_step(out, names, step)?;
    }
    Ok(())
}

/// Appends a trace. Each letter needs a name. After `Err` the text in `out` may be part of it.
pub(crate) fn write_trace(
    out: &mut Vec<u8>,
    names: &[Name],
    trace: &Trace,
) -> Result<(), AllocError>
    requires start { StartIsNamed (length names.now) trace.now.start }
    requires left { All (λ t. All (λ x. x.index < length names.now) t.left) trace.now.steps }
    requires right { All (λ t. All (λ x. x.index < length names.now) t.right) trace.now.steps }
    ensures { OnOk result (out.new.items ≡ out.old.items ++ trace_text names.now trace.now) }
{
    write_start(out, names, &trace.start)?;
    write_steps(out, names, trace.steps.items())
}
