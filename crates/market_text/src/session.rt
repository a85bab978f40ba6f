//! A session, and how it is read from a text.

ghost use Rattle.std.specs.Prelude.{◌≡◌, ◌<◌, ◌+◌, ◌^◌, ◌∷◌, [], length, map, IfOk, IfSome, MatchOption, OnOk};
ghost use Rattle.market_text.specs.Reading.{IsReading};
ghost use Rattle.market_text.specs.Session.{IsSession};
ghost use Rattle.market_text.specs.Steps.{Takes};
ghost use Rattle.market_text.specs.Text.{lines_of, words_of, line_step, session_of_text, IsAnswer};

use crate::fault::TextFault;
use crate::reader::Reader;
use command_lines::LineFault;
use market_model::{Commands, Sequence, Setup};
use memchr::memchr;
use std::alloc::{AllocError, Global};

/// The commands of each caller, in the order of the callers, and of each caller in the order in
/// which it gives them.
pub type PerCaller = Sequence<Commands>;

/// The number of the caller of each command, in the order of the commands in the text.
pub type Turns = Sequence<u32>;

/// A session: what is fixed for it, and the commands that its callers give.
#[derive(Drop)]
pub struct Session {
    /// The delivery day, the zones, the borders and the callers. A caller's room is the number of
    /// its commands.
    pub setup: Setup,
    /// The commands of each caller.
    pub commands: PerCaller,
    /// The caller of each command, in the order of the text.
    pub turns: Turns,
}

/// Reads a session text.
///
/// The text is lines that each end with a line feed. A line that is empty or begins with `#` is
/// passed over; every other line is words with single spaces between. In this order come `day`
/// with the delivery day, 1 to 64 times `zone` with a name, up to 128 times `border` with two
/// zones, up to 64 times `trader` or `operator` with a name, `begin`, and up to 262144 commands,
/// each after the name of its caller.
///
/// # Errors
///
/// `BadSession` with the number of the first line that is not of the form that may stand at its
/// place, or that breaks a rule of its form; where the text ends before `begin` that is the line
/// after the last. `NoMemory` where memory that was asked for was not there.
pub fn read_session(alloc: Global, bytes: &[u8]) -> Result<Session, TextFault>
    requires { length bytes.now + 1 < 2 ^ 32 }
    ensures shape { IfOk result IsSession }
    ensures exact { IsAnswer (session_of_text bytes.now) result }
{
    let mut reader = Reader::new(alloc);
    let mut words = Vec::new(alloc);
    let mut rest = bytes;
    let mut line = 1;
    while let Some((text, after)) = split_line(rest) {
        match read_line(alloc, &mut reader, &mut words, text) {
            Ok(()) => {
                rest = after;
                line += 1;
            }
            Err(fault) => return Err(TextFault::at(fault, line)),
        }
    }
    if !rest.is_empty() {
        return Err(TextFault::BadSession { line });
    }
    match reader.finish(alloc) {
        Ok(session) => Ok(session),
        Err(fault) => Err(TextFault::at(fault, line)),
    }
}

// The first line of a text without its line feed, and what follows it: `None` where there is no
// line feed.
fn split_line(text: &[u8]) -> Option<(&[u8], &[u8])>
    ensures lines { MatchOption result (lines_of text.now ≡ text.now ∷ []) (λ parts. lines_of text.now ≡ parts.0.now ∷ lines_of parts.1.now) }
    ensures shorter { IfSome result (λ parts. length parts.1.now < length text.now) }
{
    match memchr(b'\n', text) {
        None => None,
        Some(end) => Some((&text[..end], &text[end + 1..])),
    }
}

// Reads a line, which is passed over where it is empty or a comment. Its words take the place of
// those of the line before.
#[tactic(auto, unfolding(crate::specs::Text::line_step))]
fn read_line<'a>(
    alloc: Global,
    reader: &mut Reader,
    words: &mut Vec<&'a [u8]>,
    line: &'a [u8],
) -> Result<(), LineFault>
    requires { IsReading reader.old }
    ensures kept { OnOk result (IsReading reader.new) }
    ensures exact { Takes (line_step reader.old line.now) reader.new result }
{
    if line.is_empty() || line[0] == b'#' {
        return Ok(());
    }
    split_words(words, line)?;
    reader.read_words(alloc, words.as_slice())
}

// Makes a list that of the words of a line.
fn split_words<'a>(words: &mut Vec<&'a [u8]>, line: &'a [u8]) -> Result<(), AllocError>
    ensures { OnOk result (map (λ word. word.now) words.new.items ≡ words_of line.now) }
{
    words.clear();
    words.extend(line.split(|byte| *byte == b' '))
}
