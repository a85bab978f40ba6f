//! Which lists of words mean something.

ghost use Rattle.std.specs.Prelude.{◌≡◌, ◌≢◌, ◌<◌, ◌^◌, ◌&&◌, None, IfSome, is_some, nat_le, slice_index};
ghost use Rattle.std.specs.Str.Parse.{IsNumeral, digits_value};
ghost use Rattle.command_words.specs.Words as meaning;

use std::str;
use zone_graph::Word;

/// What a list of words can ask for.
#[derive(Clone, Copy, Debug, PartialEq, Eq)]
pub enum Task {
    /// `replay`: plays a session in the order of its lines, and writes the journal.
    Replay,
    /// `audit`: reads a session and its journal, and says how many entries it has where it is legal.
    Audit,
    /// `ship`: reads a session and its journal, and writes the schedule that follows from it.
    Ship,
    /// `store`: plays a session in the order of its lines, appends the line of each entry to a durable journal on a disk,
    /// and writes the image of the disk.
    Store,
    /// `recover`: reads a session and the image of a disk, plays on behind the lines that the image stores, and writes the
    /// whole journal.
    Recover,
    /// `generate N`: plays the session that is generated for so many commands, and writes the
    /// summary of its journal.
    Generate {
        /// How many commands, from 1 to 100000.
        commands: u32,
    },
}

/// The most commands that `generate` takes.
const MOST_COMMANDS: u32 = 100_000;

/// Whether the words are the one word `trade`.
pub fn is_trade(words: &[Word]) -> bool
    ensures { result ≡ meaning.is_trade words.now }
{
    match words {
        [word] => word.bytes() == b"trade".as_slice(),
        _ => false,
    }
}

/// Whether the words ask for something.
pub(crate) fn is_task(words: &[Word]) -> bool
    ensures { result ≡ is_some (meaning.task_of words.now) }
{
    match words {
        [word] => task_of_word(word.bytes()).is_some(),
        [word, count] => {
            word.bytes() == b"generate".as_slice() && count_of(count.bytes()).is_some()
        }
        _ => false,
    }
}

/// What one word asks for.
pub(crate) fn task_of_word(word: &[u8]) -> Option<Task>
    ensures { result ≡ meaning.task_of_word word.now }
{
    if word == b"replay".as_slice() {
        Some(Task::Replay)
    } else if word == b"audit".as_slice() {
        Some(Task::Audit)
    } else if word == b"ship".as_slice() {
        Some(Task::Ship)
    } else if word == b"store".as_slice() {
        Some(Task::Store)
    } else if word == b"recover".as_slice() {
        Some(Task::Recover)
    } else {
        None
    }
}

/// The number of commands that a word spells: in decimal digits without leading zeros, from 1 to
/// 100000.
pub(crate) fn count_of(word: &[u8]) -> Option<u32>
    ensures { result ≡ meaning.count_of word.now }
{
    if !begins_above_zero(word) {
        return None;
    }
    let count = number_of(word)?;
    if count > MOST_COMMANDS {
        return None;
    }
    Some(count)
}

// Whether a word begins with a digit from 1 to 9.
fn begins_above_zero(word: &[u8]) -> bool
    ensures { result ≡ (nat_le 49 (slice_index word.now 0) && nat_le (slice_index word.now 0) 57) }
{
    matches!(word, [b'1'..=b'9', ..])
}

// The number below 2^32 that a word spells in decimal digits.
fn number_of(word: &[u8]) -> Option<u32>
    requires plain { slice_index word.now 0 ≢ 43 }
    ensures number { IfSome result (λ number. IsNumeral 10 word.now × (digits_value 10 word.now ≡ number)) }
    ensures none { result ≡ None → ¬ (IsNumeral 10 word.now × (digits_value 10 word.now < 2 ^ 32)) }
{
    str::from_utf8(word).ok()?.parse().ok()
}
