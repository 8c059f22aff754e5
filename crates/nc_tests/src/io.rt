//! Tests of sources and sinks that fail in mid-stream.

ghost use Rattle.std.specs.Prelude.{◌<◌};

use nc_io::{
    Failed, Fault, MemorySink, MemorySource, Sink, Source, StdSink, StdSource, put_whole,
    take_whole,
};
use std::alloc::{AllocError, Global};
use std::io;
use std::io::{Read, Write};
use std::test::Fail;

/// A source of `bytes` that gives so many at a time, and fails at one call.
fn source_of(
    alloc: Global,
    bytes: &[u8],
    step: usize,
    fails_at: u64,
) -> Result<MemorySource, AllocError>
    requires { 0 < step }
{
    Ok(MemorySource {
        bytes: bytes.to_vec(alloc)?,
        at: 0,
        step,
        calls: 0,
        failing: [fails_at].to_vec(alloc)?,
        faults: 0,
    })
}

/// What a call answers, how many bytes are taken then, and how many calls failed.
fn take(source: &mut MemorySource) -> (Result<usize, Failed>, usize, u64) {
    let mut buf = [0; 16];
    (source.take(&mut buf), source.at, source.faults)
}

/// What the first three calls do, of which the second fails.
fn three_calls(alloc: Global) -> Result<[(Result<usize, Failed>, usize, u64); 3], Fail> {
    let mut source = source_of(alloc, b"abcdefghij", 7, 2)?;
    Ok([take(&mut source), take(&mut source), take(&mut source)])
}

#[test]
fn memory_source_fails_at_its_second_call(rt: HostRuntime) -> Result<(), Fail> {
    let want = [(Ok(7), 7, 0), (Err(Failed), 7, 1), (Ok(3), 10, 1)];
    assert_eq!(rt; three_calls(rt.alloc())?, want);
    Ok(())
}

/// Whether the source fails at first, and gives these bytes then.
fn goes_on<S: Source>(alloc: Global, source: &mut S, rest: &[u8]) -> bool {
    let first = take_whole(alloc, source, 100).err();
    match take_whole(alloc, source, rest.len()) {
        Ok(bytes) => first == Some(Fault::Read) && bytes.as_slice() == rest,
        Err(_) => false,
    }
}

/// Whether a source in memory fails at its second call, and goes on then.
fn memory_goes_on(alloc: Global) -> Result<bool, Fail> {
    let mut source = source_of(alloc, b"abcdefghij", 3, 2)?;
    Ok(goes_on(alloc, &mut source, b"defghi"))
}

#[test]
fn take_whole_goes_on_after_a_fault(rt: HostRuntime) -> Result<(), Fail> {
    assert!(rt; memory_goes_on(rt.alloc())?);
    Ok(())
}

/// The answer of `put_whole`, and how many bytes the sink keeps, of which there is room for so many.
fn put_in_memory(
    alloc: Global,
    room: usize,
    fails_at: u64,
) -> Result<(Result<(), Failed>, usize), AllocError> {
    let mut sink = MemorySink::of(alloc, room, 5, [fails_at].to_vec(alloc)?)?;
    let answer = put_whole(&mut sink, b"abcdefghijklmnopqrst");
    Ok((answer, sink.bytes.len()))
}

#[test]
fn memory_sink_fails_at_a_call_and_without_room(rt: HostRuntime) -> Result<(), Fail> {
    for (room, fails_at, want) in [
        (30, 9, (Ok(()), 20)),
        (30, 3, (Err(Failed), 10)),
        (12, 9, (Err(Failed), 12)),
        (0, 9, (Err(Failed), 0)),
    ] {
        assert_eq!(rt; put_in_memory(rt.alloc(), room, fails_at)?, want, "{room}");
    }
    Ok(())
}

/// Keeps the length of each buffer that it is handed.
#[derive(Drop)]
struct Asked<S> {
    source: S,
    lengths: Vec<usize>,
}

impl<S: Source> Source for Asked<S> {
    ghost left = { λ s. S.left s.source };

    ghost faults = { λ s. S.faults s.source };

    fn take(&mut self, buf: &mut [u8]) -> Result<usize, Failed> {
        let _ = self.lengths.push(buf.len());
        self.source.take(buf)
    }
}

/// The lengths of the buffers that a source of 10,000 bytes is handed, which gives so many at a time, up to a limit.
fn lengths(alloc: Global, step: usize, limit: usize) -> Result<Vec<usize>, Fail>
    requires { 0 < step }
{
    let bytes = vec![in alloc; 9u8; 10_000]?;
    let mut asked = Asked {
        source: source_of(alloc, &bytes, step, 0)?,
        lengths: Vec::new(alloc),
    };
    let whole = take_whole(alloc, &mut asked, limit).ok().ok_or("read")?;
    if whole.len() != limit {
        return Err("not all".into());
    }
    let Asked { source: _, lengths } = asked;
    Ok(lengths)
}

#[test]
fn take_whole_asks_for_a_piece_at_a_time(rt: HostRuntime) -> Result<(), Fail> {
    let found = lengths(rt.alloc(), 20_000, 10_000)?;
    assert_eq!(rt; found.as_slice(), [4096, 4096, 1808].as_slice());
    let found = lengths(rt.alloc(), 3000, 7000)?;
    assert_eq!(rt; found.as_slice(), [4096, 4000, 1000].as_slice());
    Ok(())
}

/// Keeps each piece that it is offered, and a bar behind it.
#[derive(Drop)]
struct Offered<K> {
    sink: K,
    pieces: Vec<u8>,
}

impl<K: Sink> Sink for Offered<K> {
    ghost written = { λ s. K.written s.sink };

    ghost faults = { λ s. K.faults s.sink };

    fn put(&mut self, piece: &[u8]) -> Result<usize, Failed> {
        let _ = self.pieces.extend_from_slice(piece);
        let _ = self.pieces.push(b'|');
        self.sink.put(piece)
    }
}

/// What a sink that takes three bytes a call is offered.
fn pieces(alloc: Global) -> Result<Vec<u8>, Fail> {
    let mut offered = Offered {
        sink: MemorySink::of(alloc, 30, 3, Vec::new(alloc))?,
        pieces: Vec::new(alloc),
    };
    if put_whole(&mut offered, b"abcdefgh").is_err() {
        return Err("not written".into());
    }
    let Offered { sink: _, pieces } = offered;
    Ok(pieces)
}

#[test]
fn put_whole_offers_all_that_is_left(rt: HostRuntime) -> Result<(), Fail> {
    assert_eq!(rt;
        pieces(rt.alloc())?.as_slice(),
        b"abcdefgh|defgh|gh|".as_slice()
    );
    Ok(())
}

/// Gives up to three bytes a call, and fails at one call.
#[derive(Drop)]
struct FlakyReader {
    left: &'static [u8],
    calls: u64,
    fails_at: u64,
}

impl Read for FlakyReader {
    fn read(&mut self, buf: &mut [u8]) -> io::Result<usize> {
        self.calls = self.calls.saturating_add(1);
        if self.calls == self.fails_at {
            return Err(io::Error::other("the device is gone"));
        }
        let room = buf.len().min(3);
        self.left.read(&mut buf[..room])
    }
}

/// Whether a reader of std fails at its second call, and goes on then.
fn reader_goes_on(alloc: Global) -> bool {
    let mut source = StdSource::of(FlakyReader {
        left: b"abcdefgh",
        calls: 0,
        fails_at: 2,
    });
    goes_on(alloc, &mut source, b"defgh")
}

#[test]
fn std_source_fails_in_mid_stream(rt: HostRuntime) {
    assert!(rt; reader_goes_on(rt.alloc()));
}

/// Takes up to three bytes a call. One write fails, one takes nothing, and one flush fails.
#[derive(Drop)]
struct FlakyWriter {
    bytes: Vec<u8>,
    writes: u64,
    flushes: u64,
    write_fails_at: u64,
    takes_none_at: u64,
    flush_fails_at: u64,
}

impl Write for FlakyWriter {
    fn write(&mut self, buf: &[u8]) -> io::Result<usize> {
        self.writes = self.writes.saturating_add(1);
        if self.writes == self.write_fails_at {
            return Err(io::Error::other("the device is gone"));
        }
        if self.writes == self.takes_none_at {
            return Ok(0);
        }
        let count = buf.len().min(3);
        self.bytes.write(&buf[..count])
    }

    fn flush(&mut self) -> io::Result<()> {
        self.flushes = self.flushes.saturating_add(1);
        if self.flushes == self.flush_fails_at {
            return Err(io::Error::other("the device is gone"));
        }
        Ok(())
    }
}

/// The answer of `put_whole`, how many bytes the writer has then, and the answer of one more call.
fn put_through(
    alloc: Global,
    write_fails_at: u64,
    takes_none_at: u64,
    flush_fails_at: u64,
) -> (Result<(), Failed>, usize, Result<usize, Failed>) {
    let mut sink = StdSink::of(FlakyWriter {
        bytes: Vec::new(alloc),
        writes: 0,
        flushes: 0,
        write_fails_at,
        takes_none_at,
        flush_fails_at,
    });
    let answer = put_whole(&mut sink, b"abcdefgh");
    let count = sink.writer.bytes.len();
    (answer, count, sink.put(b"xy"))
}

#[test]
fn std_sink_fails_in_mid_stream(rt: HostRuntime) {
    for (write, none, flush, want) in [
        (0, 0, 0, (Ok(()), 8, Ok(2))),
        (2, 0, 0, (Err(Failed), 3, Ok(2))),
        (0, 2, 0, (Err(Failed), 3, Ok(2))),
        (0, 0, 2, (Err(Failed), 6, Ok(2))),
    ] {
        assert_eq!(rt;
            put_through(rt.alloc(), write, none, flush),
            want,
            "{write} {none} {flush}"
        );
    }
}
