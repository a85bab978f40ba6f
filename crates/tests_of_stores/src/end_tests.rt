//! Sources and sinks: each once through its trait, by code that knows the trait alone, with a failure
//! in the middle where one can fail.

ghost use Rattle.std.specs.Prelude.{◌≡◌, ◌≤◌, ◌++◌, List, ℕ, IfOk, OnOk, OnErr};
ghost use Rattle.std.specs.Io.KnownBytes.{Appends, Consumes, IsAtEnd};
ghost use Rattle.outside.specs.Faults.{Rose};

use outside::{
    BytesSink, BytesSource, Failed, NullSink, ReadSource, Sink, Source, SteadySource, WriteSink,
};
use std::alloc::Global;
use std::io;
use std::io::{ErrorKind, Read, Write};
use std::process::Abort;

// Why reading stopped before the end.
#[derive(Clone, Copy, Debug, PartialEq, Eq)]
enum Stop {
    Failed,
    TooLong,
}

// Reads to the end of the input, at most 20 times, and gives what came.
fn read_on<S: Source>(rt: &impl Abort, source: &mut S, bytes: &mut Vec<u8>) -> Result<(), Stop>
    ensures consumed { IfOk result (λ _. (more : List ℕ) × (bytes.new.items ≡ bytes.old.items ++ more)
        × Consumes (S.left source.old) (S.left source.new) more) }
    ensures end { OnOk result (IsAtEnd (S.left source.new)) }
    ensures kept_count { S.faults source.old ≤ S.faults source.new }
    ensures failed { result ≡ Err Stop.Failed → Rose (S.faults source.old) (S.faults source.new) }
{
    let mut buffer = [0u8; 4];
    for _ in 0..20 {
        let Ok(count) = source.read(&mut buffer) else {
            return Err(Stop::Failed);
        };
        if count == 0 {
            return Ok(());
        }
        bytes
            .extend_from_slice(&buffer[..count])
            .expect(rt, "memory");
    }
    Err(Stop::TooLong)
}

// Writes the whole piece.
fn write_whole<K: Sink>(sink: &mut K, piece: &[u8]) -> Result<(), Failed>
    ensures appended { OnOk result (Appends (K.written sink.old) (K.written sink.new) piece.now) }
    ensures kept_count { K.faults sink.old ≤ K.faults sink.new }
    ensures failed { OnErr result (Rose (K.faults sink.old) (K.faults sink.new)) }
{
    let mut rest = piece;
    while !rest.is_empty() {
        let count = sink.write(rest)?;
        rest = rest.split_at(count).1;
    }
    Ok(())
}

// A reader or a writer whose second call is an error. A write takes 3 bytes at most.
#[derive(Drop)]
struct Stumbling<E> {
    end: E,
    calls: u8,
}

impl<E> Stumbling<E> {
    fn new(end: E) -> Stumbling<E> {
        Stumbling { end, calls: 0 }
    }

    fn stumbles(&mut self) -> bool {
        self.calls = self.calls.saturating_add(1);
        self.calls == 2
    }
}

impl<R: Read> Read for Stumbling<R> {
    fn read(&mut self, buf: &mut [u8]) -> io::Result<usize> {
        if self.stumbles() {
            return Err(ErrorKind::Other.into());
        }
        self.end.read(buf)
    }
}

impl<W: Write> Write for Stumbling<W> {
    fn write(&mut self, buf: &[u8]) -> io::Result<usize> {
        if self.stumbles() {
            return Err(ErrorKind::Other.into());
        }
        let some = buf.len().min(3);
        self.end.write(&buf[..some])
    }

    fn flush(&mut self) -> io::Result<()> {
        self.end.flush()
    }
}

// Asserts which bytes a source gives up to its end or its next failure, and which of the two it is.
fn assert_reads<S: Source>(
    rt: &impl Abort,
    alloc: Global,
    source: &mut S,
    ends: Result<(), Stop>,
    want: &[u8],
) {
    let mut bytes = Vec::new(alloc);
    assert_eq!(rt; read_on(rt, source, &mut bytes), ends);
    assert_eq!(rt; bytes.as_slice(), want);
}

#[test]
fn sources_give_their_bytes(rt: HostRuntime) {
    let alloc = rt.alloc();
    let mut pieces = BytesSource::new(alloc, b"abcdefgh", 3, &[2, 5]).expect(&rt, "memory");
    assert_reads(&rt, alloc, &mut pieces, Err(Stop::Failed), b"abc");
    assert_reads(&rt, alloc, &mut pieces, Err(Stop::Failed), b"defgh");
    assert_reads(&rt, alloc, &mut pieces, Ok(()), b"");

    let mut steady = SteadySource::new(alloc, b"abcdefgh").expect(&rt, "memory");
    assert_reads(&rt, alloc, &mut steady, Ok(()), b"abcdefgh");
    assert_reads(&rt, alloc, &mut steady, Ok(()), b"");
}

#[test]
fn readers_are_sources(rt: HostRuntime) {
    let mut reader = ReadSource::new(b"abcdefgh".as_slice());
    assert_reads(&rt, rt.alloc(), &mut reader, Ok(()), b"abcdefgh");

    let mut stumbling = ReadSource::new(Stumbling::new(b"abcdefgh".as_slice()));
    assert_reads(&rt, rt.alloc(), &mut stumbling, Err(Stop::Failed), b"abcd");
    assert_reads(&rt, rt.alloc(), &mut stumbling, Ok(()), b"efgh");
}

// Asserts whether a sink takes a piece whole, and which bytes it then has.
fn assert_takes(
    rt: &impl Abort,
    sink: &mut BytesSink,
    piece: &[u8],
    ends: Result<(), Failed>,
    want: &[u8],
) {
    assert_eq!(rt; write_whole(sink, piece), ends);
    assert_eq!(rt; sink.bytes(), want);
}

#[test]
fn sinks_take_their_bytes(rt: HostRuntime) {
    let mut pieces = BytesSink::new(rt.alloc(), 3, &[2, 5]).expect(&rt, "memory");
    assert_takes(&rt, &mut pieces, b"abcdef", Err(Failed), b"abc");
    assert_takes(&rt, &mut pieces, b"defgh", Ok(()), b"abcdefgh");
    assert_takes(&rt, &mut pieces, b"i", Err(Failed), b"abcdefgh");

    assert_eq!(rt; write_whole(&mut NullSink::new(), b"abcdefgh"), Ok(()));
}

#[test]
fn writers_are_sinks(rt: HostRuntime) {
    let mut written = Vec::new(rt.alloc());
    assert_eq!(rt;
        write_whole(&mut WriteSink::new(&mut written), b"abcdefgh"),
        Ok(())
    );
    assert_eq!(rt; written.as_slice(), b"abcdefgh".as_slice());

    // a slice that is full takes nothing more
    let mut room = [0u8; 3];
    assert_eq!(rt;
        write_whole(&mut WriteSink::new(room.as_mut_slice()), b"abcd"),
        Err(Failed)
    );
    assert_eq!(rt; room.as_slice(), b"abc".as_slice());
}

#[test]
fn a_writer_that_stumbles_goes_on_where_it_stopped(rt: HostRuntime) {
    let mut parts = Vec::new(rt.alloc());
    let mut stumbling = WriteSink::new(Stumbling::new(&mut parts));
    assert_eq!(rt; write_whole(&mut stumbling, b"abcdef"), Err(Failed));
    assert_eq!(rt; write_whole(&mut stumbling, b"defgh"), Ok(()));
    drop(stumbling);
    assert_eq!(rt; parts.as_slice(), b"abcdefgh".as_slice());
}
