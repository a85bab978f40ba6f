//! An input of two parts is read.

ghost use Rattle.std.specs.Prelude.{◌≡◌, ◌+◌, ◌^◌, ◌<◌, ◌≤◌, length, IfErr, IfOk, Ok, None};
ghost use Rattle.market_text.specs.Session.{IsSession};
ghost use Rattle.journal_audit.specs.Reading.{session_of_divided, session_of_parts, IsFaultOf};

use crate::divided_lines::count_lines;
use crate::dividing::divide;
use market_text::{Session, TextFault, read_session};
use std::alloc::Global;

/// An input that was divided.
#[derive(Drop)]
pub struct Divided<'a> {
    /// The session whose text comes before the dividing line.
    pub session: Session,
    /// The bytes that follow the dividing line.
    pub rest: &'a [u8],
}

/// Reads an input of two parts: a session text, a line that is exactly this word, and the rest.
///
/// The first line that is the word divides the input, whatever stands in front of it. Such a line
/// ends by a line feed; a last line without one does not divide. The rest may hold any bytes, lines
/// that are the word among them. A word with a line feed in it is no line, so nothing divides.
///
/// # Errors
///
/// `BadSession` with the number of the first bad line of the session text, which is that of the
/// dividing line where the text ends too early. Where no line divides the input, with that of the
/// first bad line of the whole, or of the line after the last where no line is bad. `NoMemory` where
/// memory that was asked for was not there.
pub fn read_divided<'a>(
    alloc: Global,
    word: &[u8],
    bytes: &'a [u8],
) -> Result<Divided<'a>, TextFault>
    requires { length bytes.now + 1 < 2 ^ 32 }
    ensures shape { IfOk result (λ divided. IsSession divided.session) }
    ensures good { IfOk result (λ divided.
        session_of_divided word.now bytes.now ≡ Ok (divided.session, divided.rest.now)) }
    ensures within { IfOk result (λ divided. length divided.rest.now ≤ length bytes.now) }
    ensures bad { IfErr result (IsFaultOf (session_of_divided word.now bytes.now)) }
{
    let Some((text, rest)) = divide(word, bytes) else {
        return Err(refuse_undivided(alloc, bytes));
    };
    match read_session(alloc, text) {
        Ok(session) => Ok(Divided { session, rest }),
        Err(fault) => Err(fault),
    }
}

// The fault of an input that no line divides.
fn refuse_undivided(alloc: Global, bytes: &[u8]) -> TextFault
    requires { length bytes.now + 1 < 2 ^ 32 }
    ensures { IsFaultOf (session_of_parts bytes.now None) result }
{
    match read_session(alloc, bytes) {
        Ok(_) => TextFault::BadSession {
            line: count_lines(bytes) as u32 + 1,
        },
        Err(fault) => fault,
    }
}
