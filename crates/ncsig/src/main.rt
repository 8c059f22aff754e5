//! The program `ncsig`.
#![tactic(auto)]

use nc_io::{StdSink, StdSource};
use nc_top::{Status, code_of, run_alone};
use std::process::ExitCode;
use std::{env, io};

/// The code with which the program ends where the runtime refuses to give the words.
const NO_WORDS: u8 = 8;

/// What is told on standard error of a status that has no report.
fn complaint(status: Status) -> Option<&'static str> {
    match status {
        Status::ReadFault => Some("ncsig: read fault"),
        Status::WriteFault => Some("ncsig: write fault"),
        Status::OutOfMemory => Some("ncsig: out of memory"),
        _ => None,
    }
}

/// Runs the command that the words of the command line name, over standard input and output.
fn status_of(rt: &HostRuntime, given: env::Args) -> Status {
    let alloc = rt.alloc();
    let mut words = Vec::new(alloc);
    for word in given.skip(1) {
        if words.push(word).is_err() {
            return Status::OutOfMemory;
        }
    }
    let mut source = StdSource::of(rt.reader());
    let mut sink = StdSink::of(io::writer(rt));
    run_alone(alloc, &words, &mut source, &mut sink)
}

fn main(rt: HostRuntime) -> ExitCode {
    let Ok(given) = env::args(&rt) else {
        let _ = rt.eprintln("ncsig: no words");
        return ExitCode::from(NO_WORDS);
    };
    let status = status_of(&rt, given);
    if let Some(text) = complaint(status) {
        let _ = rt.eprintln(text);
    }
    ExitCode::from(code_of(status))
}
