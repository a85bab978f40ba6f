//! The lines of a journal, and the callers that they name.

ghost use Rattle.std.specs.Prelude.{◌≡◌, ◌+◌, ◌<◌, ◌==◌, ◌∷◌, ◌++◌, codes, length, nat_eq, position, IfSome};
ghost use Rattle.std.specs.List.{starts_with};
ghost use Rattle.journal_audit.specs.Lines as lines;

use market_model::Setup;

// How the line of an entry begins, up to the name of its caller.
const BEFORE_NAME: &[u8] = b"{\"caller\":\"";

// What follows the name.
const AFTER_NAME: &[u8] = b"\",";

/// The first line of a text, with its line feed where it has one, and what follows it.
pub(crate) fn first_line(text: &[u8]) -> (&[u8], &[u8])
    requires { 0 < length text.now }
    ensures lines { lines.journal_lines text.now ≡ result.0.now ∷ lines.journal_lines result.1.now }
    ensures shorter { length result.1.now < length text.now }
{
    match line_feed(text) {
        Some(place) => text.split_at(place + 1),
        None => text.split_at(text.len()),
    }
}

// The place of the first line feed.
fn line_feed(text: &[u8]) -> Option<usize>
    ensures place { result ≡ position (λ byte. byte == 10) text.now }
    ensures within { IfSome result (λ place. place < length text.now) }
{
    text.iter().position(|byte| *byte == b'\n')
}

/// The number of the caller that a line names.
#[tactic(auto, unfolding(crate::specs::Lines::caller_named))]
pub fn caller_named(setup: &Setup, line: &[u8]) -> Option<usize>
    ensures caller { result ≡ lines.caller_named setup.now line.now }
    ensures known { IfSome result (λ caller. caller < length setup.now.callers) }
{
    setup
        .callers
        .as_slice()
        .iter()
        .position(|caller| begins_with(line, caller.name.bytes()))
}

// Whether a line begins as that of an entry of a caller with this name.
fn begins_with(line: &[u8], name: &[u8]) -> bool
    ensures { result ≡ starts_with nat_eq line.now (lines.line_start name.now) }
{
    match line.strip_prefix(BEFORE_NAME) {
        Some(rest) => has_name(rest, name),
        None => false,
    }
}

// Whether what follows the first part of a line is a name, and what follows that.
fn has_name(rest: &[u8], name: &[u8]) -> bool
    ensures { result ≡ starts_with nat_eq rest.now (name.now ++ codes "\",") }
{
    match rest.strip_prefix(name) {
        Some(after) => after.starts_with(AFTER_NAME),
        None => false,
    }
}
