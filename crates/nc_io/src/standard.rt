//! Sources and sinks over std's readers and writers, which are trusted.
ghost use Rattle.std.specs.Prelude.{◌≡◌, ◌+◌, ◌-◌, ◌^◌, ◌<◌, ◌≤◌, None, Ok, length, take, IfOk, MatchResult};
ghost use Rattle.std.specs.Io.{ReadsAtMost};
ghost use Rattle.std.specs.Io.KnownBytes.{Appends, ReadConsumes};
ghost use Rattle.nc_io.specs.Adds.{PutAdds};
ghost use Rattle.nc_io.specs.Causes.{HasCause};

use crate::{Failed, Sink, Source};
use std::io::{Read, Write};

/// Any reader of std. Once `faults` is `u64::MAX` the reader isn't called any more.
#[derive(Drop)]
pub struct StdSource<R> {
    pub reader: R,
    pub faults: u64,
}

impl<R: Read> StdSource<R> {
    /// The reader is first called by the first `take`.
    pub fn of(reader: R) -> StdSource<R>
        ensures reader { result.reader ≡ reader }
        ensures faults { result.faults ≡ 0 }
    {
        StdSource { reader, faults: 0 }
    }
}

impl<R: Read> Source for StdSource<R> {
    ghost left = { λ _. None };

    ghost faults = { λ s. s.faults };

    /// Takes what one read gives. Every error of the reader is a failure, `Interrupted` too.
    fn take(&mut self, buf: &mut [u8]) -> Result<usize, Failed>
        ensures bound { ReadsAtMost result buf.new }
        ensures bytes { ReadConsumes None None result buf.new }
        ensures cause { HasCause self.old.faults self.new.faults result }

        // The count and the reader.
        ensures counted { MatchResult result (λ _. self.new.faults ≡ self.old.faults)
            (λ _. self.new.faults ≡ self.old.faults + 1) }
        ensures passed { self.old.faults < 2 ^ 64 - 1
            → ReadConsumes (R.remaining self.old.reader) (R.remaining self.new.reader) result
            buf.new }
        ensures spent { self.old.faults ≡ 2 ^ 64 - 1 → (result ≡ Ok 0) × (self.new ≡ self.old) }
    {
        if self.faults == u64::MAX {
            return Ok(0);
        }
        match self.reader.read(buf) {
            Ok(count) => Ok(count),
            Err(_) => {
                self.faults += 1;
                Err(Failed)
            }
        }
    }
}

/// Any writer of std. It is flushed after each write. Once `faults` is `u64::MAX` the writer isn't called any more.
#[derive(Drop)]
pub struct StdSink<W> {
    pub writer: W,
    pub faults: u64,
}

impl<W: Write> StdSink<W> {
    /// The writer is first called by the first `put`.
    pub fn of(writer: W) -> StdSink<W>
        ensures writer { result.writer ≡ writer }
        ensures faults { result.faults ≡ 0 }
    {
        StdSink { writer, faults: 0 }
    }
}

impl<W: Write> Sink for StdSink<W> {
    ghost written = { λ _. None };

    ghost faults = { λ s. s.faults };

    /// Puts what one write takes, and flushes. An error of either and a write of no byte are failures, so after
    /// `Failed` some bytes may have reached the writer.
    fn put(&mut self, piece: &[u8]) -> Result<usize, Failed>
        requires offered { 0 < length piece.now }
        ensures some { IfOk result (λ n. (0 < n) × (n ≤ length piece.now)) }
        ensures bytes { PutAdds None None result piece.now }
        ensures cause { HasCause self.old.faults self.new.faults result }

        // The count and the writer.
        ensures counted { MatchResult result (λ _. self.new.faults ≡ self.old.faults)
            (λ _. self.new.faults ≡ self.old.faults + 1) }
        ensures passed { self.old.faults < 2 ^ 64 - 1
            → IfOk result (λ n. Appends (W.contents self.old.writer) (W.contents self.new.writer)
            (take n piece.now)) }
        ensures spent { self.old.faults ≡ 2 ^ 64 - 1 → (result ≡ Ok (length piece.now))
            × (self.new ≡ self.old) }
    {
        if self.faults == u64::MAX {
            return Ok(piece.len());
        }
        let count = self.writer.write(piece).unwrap_or(0);
        if count > 0 && self.writer.flush().is_ok() {
            return Ok(count);
        }
        self.faults += 1;
        Err(Failed)
    }
}
