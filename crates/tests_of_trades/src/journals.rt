//! What the lines of journals say of their callers.

use std::alloc::{AllocError, Global};
use std::fmt::Write;

/// The caller that a journal's line names, or nothing.
pub(crate) fn caller_of(line: &str) -> &str {
    let Some(behind) = line.strip_prefix("{\"caller\":\"") else {
        return "";
    };
    match behind.split_once('"') {
        Some((name, _)) => name,
        None => "",
    }
}

// The first word of a session's line.
fn first_word(line: &str) -> &str {
    match line.split_once(' ') {
        Some((word, _)) => word,
        None => line,
    }
}

/// The lines of a caller in a journal.
pub(crate) fn lines_of<'a>(
    alloc: Global,
    journal: &'a str,
    caller: &str,
) -> Result<Vec<&'a str>, AllocError> {
    journal
        .lines()
        .filter(|line| caller_of(line) == caller)
        .collect(alloc)
}

/// How many lines of a session begin with a word.
pub(crate) fn count_of(session: &str, word: &str) -> usize {
    session
        .lines()
        .filter(|line| first_word(line) == word)
        .count()
}

/// A session with its command lines in the order in which the lines of a journal name their callers.
pub(crate) fn reordered(alloc: Global, session: &str, journal: &str) -> Result<String, AllocError> {
    let (header, commands) = session.split_once("begin\n").unwrap_or((session, ""));
    let mut text = format!(in alloc; "{header}begin\n")?;
    let mut left: Vec<&str> = commands.lines().collect(alloc)?;
    for line in journal.lines() {
        let caller = caller_of(line);
        let next = left
            .iter()
            .position(|command| first_word(command) == caller);
        if let Some(place) = next {
            let command = left.remove(place);
            writeln!(text, "{command}")?;
        }
    }
    Ok(text)
}

/// The first lines in which two journals differ.
pub(crate) fn first_difference<'a>(one: &'a str, other: &'a str) -> Option<(&'a str, &'a str)> {
    one.lines()
        .zip(other.lines())
        .find(|(mine, theirs)| mine != theirs)
}
