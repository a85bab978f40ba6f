//! The lines of a text, one after the other.

ghost use Rattle.std.specs.Prelude.{◌≡◌, ◌==◌, ◌∷◌, ◌++◌, IfNone, IfSome, count_by, position};
ghost use Rattle.laws_of_texts.specs.Lines.{IsLine};
ghost use Rattle.journal_audit.specs.Dividing.{line_count};

// The first line of a text without its line feed, and what follows it: `None` where there is no line
// feed.
pub(crate) fn split_line(text: &[u8]) -> Option<(&[u8], &[u8])>
    ensures none { IfNone result (IsLine text.now) }
    ensures first { IfSome result (λ parts. IsLine parts.0.now) }
    ensures parts { IfSome result (λ parts. text.now ≡ parts.0.now ++ 10 ∷ parts.1.now) }
{
    match find_line_feed(text) {
        None => None,
        Some(end) => Some((&text[..end], &text[end + 1..])),
    }
}

// The place of the first line feed.
fn find_line_feed(text: &[u8]) -> Option<usize>
    ensures { result ≡ position (λ byte. byte == 10) text.now }
{
    text.iter().position(|byte| *byte == b'\n')
}

// How many lines a text has.
pub(crate) fn count_lines(text: &[u8]) -> usize
    ensures { result ≡ line_count text.now }
{
    text.iter().filter(|byte| **byte == b'\n').count()
}
