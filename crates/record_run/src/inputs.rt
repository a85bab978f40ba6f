//! An input is read to its end.

ghost use Rattle.std.specs.Prelude.{◌≡◌, ◌≤◌, IfErr, IfOk};
ghost use Rattle.outside.specs.Faults.{Rose};
ghost use Rattle.record_run.specs.Inputs.{Is, ReadsNone};
ghost use Rattle.session_io.specs.Sources.{WasRead};
ghost use Rattle.session_io.specs.Reading.{ReadsWithin};

use outside::Source;
use session_io::{ReadError, Status, read_all};
use std::alloc::Global;

/// Reads a source to its end, where that comes after at most so many bytes.
///
/// # Errors
///
/// How the run ends where it was not read to its end.
pub fn input_from<S: Source>(alloc: Global, source: &mut S, most: usize) -> Result<Vec<u8>, Status>
    ensures read { IfOk result (λ bytes. WasRead most (Is bytes.items) (S.left source.old) (S.left source.new)) }
    ensures stops { IfErr result (ReadsNone most (S.left source.old) (S.left source.new)) }
    ensures count { S.faults source.old ≤ S.faults source.new }
    ensures fault { result ≡ Err Status.ReadFault → Rose (S.faults source.old) (S.faults source.new) }
    ensures read_bound { ReadsWithin most (S.reads source.old) (S.reads source.new) }
{
    match read_all(alloc, source, most) {
        Ok(bytes) => Ok(bytes),
        Err(ReadError::Fault) => Err(Status::ReadFault),
        Err(ReadError::TooLong) => Err(Status::TooLong),
        Err(ReadError::NoMemory) => Err(Status::NoMemory),
    }
}
