//! The source is read to its end.

ghost use Rattle.std.specs.Prelude.{◌≡◌, ◌<◌, ◌≤◌, length, vec_len, Some, IfOk, IfErr};
ghost use Rattle.std.specs.Io.KnownBytes.{Consumes, IsAtEnd};
ghost use Rattle.outside.specs.Faults.{raised, Rose};
ghost use Rattle.session_io.specs.Reading.{GivesNothing, ReadsMore, ReadsWithin, Stops, reading_text};

use outside::Source;
use std::alloc::{AllocError, Global};
use std::error::Error;
use std::fmt;

/// The most bytes that a session may have.
pub const LONGEST_SESSION: usize = 8_388_608;

/// The most bytes that a record may have: a session and, behind a line between them, its journal.
pub const LONGEST_RECORD: usize = 134_217_728;

// How many bytes are asked for at a time.
const PIECE: usize = 65_536;

/// Why a source was not read to its end.
#[derive(Clone, Copy, Debug, PartialEq, Eq)]
pub enum ReadError {
    /// A read failed.
    Fault,
    /// More bytes came than were allowed.
    TooLong,
    /// There was no memory.
    NoMemory,
}

impl fmt::Display for ReadError {
    ghost output = { λ fault. Some (reading_text fault) };

    fn fmt<W: fmt::Write>(&self, f: &mut fmt::Formatter<W>) -> fmt::Result {
        f.write_str(match self {
            ReadError::Fault => "a read failed",
            ReadError::TooLong => "the input is too long",
            ReadError::NoMemory => "no memory",
        })
    }
}

impl Error for ReadError {}

impl From<AllocError> for ReadError {
    ghost use Rattle.std.specs.Prelude.{◌≡◌};
    ghost use Rattle.session_io.specs.declared.reading.ReadError.TheVariants.{NoMemory};

    ghost from_gives = { λ _ error. error ≡ NoMemory };

    fn from(_error: AllocError) -> ReadError {
        ReadError::NoMemory
    }
}

/// Reads a source to its end, where that comes after at most so many bytes.
///
/// At most `most` + 1 reads are made, 8388609 for [`LONGEST_SESSION`] and 134217729 for
/// [`LONGEST_RECORD`]: each but the last gives at least one byte, and none is made once more than
/// `most` bytes came.
pub fn read_all<S: Source>(alloc: Global, source: &mut S, most: usize) -> Result<Vec<u8>, ReadError>
    ensures count { S.faults source.old ≤ S.faults source.new }
    ensures bytes { IfOk result (λ bytes. Consumes (S.left source.old) (S.left source.new) bytes.items) }
    ensures end { IfOk result (λ bytes. IsAtEnd (S.left source.new)) }
    ensures short { IfOk result (λ bytes. vec_len bytes ≤ most) }
    ensures stopped { IfErr result (Stops most (S.left source.old) (S.left source.new)) }
    ensures fault { result ≡ Err ReadError.Fault → Rose (S.faults source.old) (S.faults source.new) }
    ensures reads { ReadsWithin most (S.reads source.old) (S.reads source.new) }
{
    let mut piece = zeros(alloc, PIECE)?;
    let mut bytes = Vec::new(alloc);
    while bytes.len() <= most {
        match read_more(source, piece.as_mut_slice(), &mut bytes) {
            Ok(true) => {}
            Ok(false) => return Ok(bytes),
            Err(error) => return Err(error),
        }
    }
    Err(ReadError::TooLong)
}

// Room for this many bytes.
fn zeros(alloc: Global, count: usize) -> Result<Vec<u8>, ReadError>
    ensures room { IfOk result (λ bytes. vec_len bytes ≡ count) }
    ensures memory { IfErr result (λ error. error ≡ ReadError.NoMemory) }
{
    Ok(vec![in alloc; 0u8; count]?)
}

// Reads once, and puts what came behind the bytes so far. It answers whether the input goes on.
fn read_more<S: Source>(
    source: &mut S,
    piece: &mut [u8],
    bytes: &mut Vec<u8>,
) -> Result<bool, ReadError>
    requires { 0 < length piece.old }
    ensures count { S.faults source.old ≤ S.faults source.new }
    ensures more { IfOk result (ReadsMore (S.left source.old) (S.left source.new) bytes.old.items bytes.new.items) }
    ensures nothing { IfErr result (GivesNothing (S.left source.old) (S.left source.new)) }
    ensures fault { result ≡ Err ReadError.Fault → Rose (S.faults source.old) (S.faults source.new) }
    ensures one_more { S.reads source.new ≡ raised (S.reads source.old) }
{
    let Ok(count) = source.read(piece) else {
        return Err(ReadError::Fault);
    };
    bytes.extend_from_slice(&piece[..count])?;
    Ok(count > 0)
}
