//! `sidc`: a market of continuous intraday power trading, played from a session text.
//!
//! The words of the command line say what is to be done; the input is read from standard input and
//! the output written to standard output. The process ends with the number of the run's status,
//! and on every status but `Done` says in a line on standard error what went wrong.
#![tactic(auto)]

use disk_model::RamDisk;
use outside::{OpenGate, ReadSource, WriteSink};
use session_run::{Status, message, run};
use std::env;
use std::io::{self, BufWriter, ErrorKind, Write};
use std::process::ExitCode;
use std::rt::Env;
use std::sync::Wait;
use std::thread::Threads;
use zone_graph::{Sequence, Word};

fn main(rt: HostRuntime) -> ExitCode {
    let status = match words(&rt) {
        Ok(words) => run_on_streams(&rt, words.as_slice()),
        Err(status) => status,
    };
    if let Ok(text) = message(rt.alloc(), &status) {
        // Where standard error cannot be written, nobody can be told.
        let _ = rt.stderr().write_all(text.bytes());
    }
    ExitCode::from(status.number())
}

// The words after the program's name. A word that is no UTF-8 is none that means something.
fn words<R: Env + AllocGlobal>(rt: &R) -> Result<Sequence<Word>, Status> {
    let mut words = Sequence::new(rt.alloc());
    let arguments = env::args(rt).map_err(|error| match error.kind() {
        ErrorKind::OutOfMemory => Status::NoMemory,
        _ => Status::Usage,
    })?;
    for argument in arguments.skip(1) {
        let word = Word::new(rt.alloc(), argument.as_bytes()).map_err(|_| Status::NoMemory)?;
        words.push(word).map_err(|_| Status::NoMemory)?;
    }
    Ok(words)
}

// Runs over standard input and standard output. What is held back of the output is written at the
// end; where that fails, so does the run.
fn run_on_streams<R: AllocGlobal + Input + Print + Threads + Wait + Sync>(
    rt: &R,
    words: &[Word],
) -> Status {
    let Ok(mut output) = BufWriter::new(rt.alloc(), io::writer(rt)) else {
        return Status::NoMemory;
    };
    let mut source = ReadSource::new(rt.reader());
    let mut sink = WriteSink::new(&mut output);
    let mut disk = RamDisk::new(rt.alloc());
    let status = run(
        rt,
        rt.alloc(),
        words,
        &mut source,
        &mut sink,
        &OpenGate,
        &mut disk,
    );
    drop(sink);
    match output.flush() {
        Err(_) if status == Status::Done => Status::WriteFault,
        _ => status,
    }
}
