//! How an input is divided.

ghost use Rattle.std.specs.Prelude.{◌≡◌, ◌≤◌, Some, IfSome, MatchOption, length};
ghost use Rattle.journal_audit.specs.Dividing.{division_of};

use crate::divided_lines::split_line;

/// What comes before the first line that is exactly the word, and what follows its line feed.
pub fn divide<'a>(word: &[u8], bytes: &'a [u8]) -> Option<(&'a [u8], &'a [u8])>
    ensures parts { MatchOption result (division_of word.now bytes.now ≡ None) (λ parts.
        division_of word.now bytes.now ≡ Some (record { text = parts.0.now; rest = parts.1.now })) }
    ensures text_within { IfSome result (λ parts. length parts.0.now ≤ length bytes.now) }
    ensures rest_within { IfSome result (λ parts. length parts.1.now ≤ length bytes.now) }
{
    let mut start = 0;
    let mut rest = bytes;
    while let Some((line, after)) = split_line(rest) {
        if line == word {
            return Some((&bytes[..start], after));
        }
        start += line.len() + 1;
        rest = after;
    }
    None
}
