//! The commands over sources and sinks in memory.

use crate::samples::words;
use nc_io::{MemorySink, MemorySource};
use nc_top::{Status, code_of, run_alone};
use std::alloc::Global;
use std::test::Fail;

/// A source that gives so many bytes at a time, and fails at the calls that are listed.
fn source(alloc: Global, text: &str, step: usize, failing: &[u64]) -> Result<MemorySource, Fail> {
    if step == 0 {
        return Err("a step".into());
    }
    Ok(MemorySource {
        bytes: Vec::from_slice(alloc, text.as_bytes())?,
        at: 0,
        step,
        calls: 0,
        failing: Vec::from_slice(alloc, failing)?,
        faults: 0,
    })
}

/// Whether a command over a text ends with this status, and writes this report. One byte is read and written at a time.
fn reports(
    alloc: Global,
    line: &str,
    text: &str,
    status: Status,
    report: &str,
) -> Result<bool, Fail> {
    let words = words(alloc, line)?;
    let mut source = source(alloc, text, 1, &[])?;
    let mut sink = MemorySink::of(alloc, 1000, 1, Vec::new(alloc))?;
    let ended = run_alone(alloc, &words, &mut source, &mut sink);
    Ok(ended == status && sink.bytes.as_slice() == report.as_bytes())
}

/// The problem of the generator x*x - 1 to degree 3, with a claim.
const PROBLEM: &str = "field 101\nletters x\ngenerator x*x - 1\nbound degree 3\nclaim x*x - 1\n";

#[test]
fn basis(rt: HostRuntime) -> Result<(), Fail> {
    let report =
        "end complete\nhandled 2 entries 1 syzygies 1 covered 0 settled 0\nentry 1: 1 [1] 1 : x*x + 100\nsyzygy 1: x [1] 1\n";
    assert!(rt; reports(rt.alloc(), "basis", PROBLEM, Status::Done, report)?);
    Ok(())
}

#[test]
fn member(rt: HostRuntime) -> Result<(), Fail> {
    let report =
        "certificate 1\nfield 101\nletters x\ngenerator x*x + 100\nclaim x*x + 100\nterm 1 1 [1] 1\nend\n";
    assert!(rt; reports(rt.alloc(), "member --form 1", PROBLEM, Status::Done, report)?);
    Ok(())
}

/// A certificate that is not valid.
const INVALID: &str = "certificate 1\nfield 101\nletters x y\ngenerator x\nclaim y\nend\n";

#[test]
fn check(rt: HostRuntime) -> Result<(), Fail> {
    let report = "invalid\nrest y\n";
    assert!(rt; reports(rt.alloc(), "check", INVALID, Status::Invalid, report)?);
    Ok(())
}

#[test]
fn other_texts(rt: HostRuntime) -> Result<(), Fail> {
    let report = "bad text line 1 kind 2\n";
    let status = Status::BadText { line: 1, kind: 2 };
    assert!(rt; reports(rt.alloc(), "check", PROBLEM, status, report)?);
    Ok(())
}

#[test]
fn other_words_read_nothing(rt: HostRuntime) -> Result<(), Fail> {
    let alloc = rt.alloc();
    let words = words(alloc, "demo 1")?;
    let mut source = source(alloc, PROBLEM, 7, &[])?;
    let mut sink = MemorySink::of(alloc, 1000, 5, Vec::new(alloc))?;
    let status = run_alone(alloc, &words, &mut source, &mut sink);
    assert_eq!(rt; (status, source.calls), (Status::Usage, 0));
    assert_eq!(rt; sink.bytes.as_slice(), b"usage\n".as_slice());
    Ok(())
}

#[test]
fn a_read_fails(rt: HostRuntime) -> Result<(), Fail> {
    let alloc = rt.alloc();
    let words = words(alloc, "check")?;
    let mut source = source(alloc, INVALID, 7, &[2])?;
    let mut sink = MemorySink::of(alloc, 1000, 5, Vec::new(alloc))?;
    let status = run_alone(alloc, &words, &mut source, &mut sink);
    assert_eq!(rt; status, Status::ReadFault);
    assert_eq!(rt; (source.at, source.faults, sink.calls), (7, 1, 0));
    Ok(())
}

/// Whether `check` ends with a failed write where a sink with so much room fails at these calls, and has this then.
fn writes(alloc: Global, room: usize, failing: &[u64], written: &str) -> Result<bool, Fail> {
    let words = words(alloc, "check")?;
    let mut source = source(alloc, INVALID, 7, &[])?;
    let mut sink = MemorySink::of(alloc, room, 5, Vec::from_slice(alloc, failing)?)?;
    let status = run_alone(alloc, &words, &mut source, &mut sink);
    Ok(status == Status::WriteFault && sink.bytes.as_slice() == written.as_bytes())
}

#[test]
fn a_write_fails(rt: HostRuntime) -> Result<(), Fail> {
    assert_eq!(rt; code_of(Status::WriteFault), 6);
    assert!(rt; writes(rt.alloc(), 1000, &[3], "invalid\nre")?);
    assert!(rt; writes(rt.alloc(), 3, &[], "inv")?);
    Ok(())
}
