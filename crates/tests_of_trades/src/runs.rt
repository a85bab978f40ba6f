//! Runs on sessions that are given.

use disk_model::RamDisk;
use outside::{BytesSink, Gate, SteadySource};
use session_run::{Status, run};
use std::alloc::Global;
use std::sync::Wait;
use std::thread::Threads;
use zone_graph::{NoMemory, Sequence, Word};

/// One word.
pub(crate) fn one_word(alloc: Global, text: &str) -> Result<Sequence<Word>, NoMemory> {
    let mut words = Sequence::new(alloc);
    words.push(Word::new(alloc, text.as_bytes())?)?;
    Ok(words)
}

/// Does what a word asks for with a session, from a source and to a sink that do not fail: how it ended, and the sink.
pub(crate) fn run_word<R: Threads + Wait + Sync, G: Gate>(
    rt: &R,
    alloc: Global,
    word: &str,
    session: &str,
    gate: &G,
) -> Result<(Status, BytesSink), NoMemory> {
    let words = one_word(alloc, word)?;
    let mut source = SteadySource::new(alloc, session.as_bytes()).map_err(|_| NoMemory)?;
    let mut sink = BytesSink::new(alloc, 4096, &[]).map_err(|_| NoMemory)?;
    let status = run(
        rt,
        alloc,
        words.as_slice(),
        &mut source,
        &mut sink,
        gate,
        &mut RamDisk::new(alloc),
    );
    Ok((status, sink))
}
