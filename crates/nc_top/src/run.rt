//! The run of a command.

ghost use Rattle.nc_algebra.specs.Limits.{max_bytes};
ghost use Rattle.nc_io.specs.Pieces.{TakesFront};
ghost use Rattle.nc_options.specs.Laws.{AreInRange};
ghost use Rattle.nc_top.specs.Run.{IsAnswer, IsCommand, IsRefused, IsReported, IsRun, Ran, Runs, stream_use};
ghost use Rattle.std.specs.Prelude.{IfOk, IsTrue, codes, length, map, string_bytes, ◌+◌, ◌↔◌, ◌≡◌, ◌≤◌};

use crate::basis::answer_basis;
use crate::check::answer_check;
use crate::member::answer_member;
use crate::status::{Answer, Status};
use nc_io::{Fault, Sink, Source, put_whole, take_whole};
use nc_options::{Options, OptionsError, options_are_in_range, read_options};
use nc_text::MAX_BYTES;
use std::alloc::{AllocError, Global};

/// Status and report for the bytes of an input that are not too many.
fn answer_text(alloc: Global, options: Options, bytes: &[u8]) -> Result<Answer, AllocError>
    requires small { length bytes.now ≤ max_bytes }
    requires runs { Runs options }
    requires range { AreInRange options }
    ensures { IfOk result (λ r. IsAnswer options bytes.now r.0 r.1.items) }
{
    match options {
        Options::Basis(options) => answer_basis(alloc, bytes, options),
        Options::Member(options) => answer_member(alloc, bytes, options),
        Options::Check => answer_check(alloc, bytes),
        Options::Demo(_) => unreachable!(),
    }
}

/// Status and report for the bytes of an input.
fn answer(alloc: Global, options: Options, bytes: &[u8]) -> Result<Answer, AllocError>
    requires runs { Runs options }
    requires range { AreInRange options }
    ensures { IfOk result (λ r. IsAnswer options bytes.now r.0 r.1.items) }
{
    if bytes.len() > MAX_BYTES {
        return Ok((Status::TooLarge, Vec::from_slice(alloc, b"too large\n")?));
    }
    answer_text(alloc, options, bytes)
}

/// Writes the report.
fn report<K: Sink>(sink: &mut K, status: Status, text: &[u8]) -> Status
    ensures { IsReported (stream_use K.written K.faults sink.old sink.new) text.now status result }
{
    match put_whole(sink, text) {
        Ok(()) => status,
        Err(_) => Status::WriteFault,
    }
}

/// Reports that the words are no command that runs.
fn refuse<K: Sink>(sink: &mut K) -> Status
    ensures { IsReported (stream_use K.written K.faults sink.old sink.new) (codes "usage\n")
        Status.Usage result }
{
    report(sink, Status::Usage, b"usage\n")
}

/// Reads the source, and writes the report of the command.
fn run_command<S: Source, K: Sink>(
    alloc: Global,
    options: Options,
    source: &mut S,
    sink: &mut K,
) -> Status
    requires runs { Runs options }
    requires range { AreInRange options }
    ensures ran { Ran options (stream_use S.left S.faults source.old source.new)
        (stream_use K.written K.faults sink.old sink.new) result }
    ensures limit { TakesFront (S.left source.old) (S.left source.new) (max_bytes + 1) }
{
    match take_whole(alloc, source, MAX_BYTES + 1) {
        Err(Fault::Read) => Status::ReadFault,
        Err(Fault::Memory) => Status::OutOfMemory,
        Ok(bytes) => match answer(alloc, options, &bytes) {
            Err(_) => Status::OutOfMemory,
            Ok((status, text)) => report(sink, status, &text),
        },
    }
}

/// Whether the command runs.
fn runs(options: Options) -> bool
    ensures { IsTrue result ↔ Runs options }
{
    match options {
        Options::Basis(_) | Options::Member(_) | Options::Check => true,
        Options::Demo(_) => false,
    }
}

/// Runs the command that the words name: reads the source, and writes the report. The words are those of the command
/// line without the program's name. The report is made whole before its first byte is written.
pub fn run_alone<S: Source, K: Sink>(
    alloc: Global,
    words: &[String],
    source: &mut S,
    sink: &mut K,
) -> Status
    ensures unread { ¬ IsRun (map string_bytes words.now) → source.new ≡ source.old }
    ensures usage { ¬ IsRun (map string_bytes words.now)
        → IsRefused (stream_use K.written K.faults sink.old sink.new) result }
    ensures ran { (options : Options) → IsCommand (map string_bytes words.now) options
        → Ran options (stream_use S.left S.faults source.old source.new)
        (stream_use K.written K.faults sink.old sink.new) result }
    ensures limit { TakesFront (S.left source.old) (S.left source.new) (max_bytes + 1) }
{
    options_are_in_range();
    match read_options(alloc, words) {
        Ok(options) => {
            if runs(options) {
                run_command(alloc, options, source, sink)
            } else {
                refuse(sink)
            }
        }
        Err(OptionsError::Usage) => refuse(sink),
        Err(OptionsError::Memory(_)) => Status::OutOfMemory,
    }
}
