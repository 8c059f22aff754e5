//! Tests of what no contract says and no case on the built program shows: reads and writes that fail in mid-stream, what is asked
//! of a source and offered to a sink, that threads may share a run, lists of another type, and calls that the program does not
//! make.
#![tactic(auto)]

#[cfg(test)]
mod calls;
#[cfg(test)]
mod chunks;
#[cfg(test)]
mod io;
#[cfg(test)]
mod run;
#[cfg(test)]
mod samples;
