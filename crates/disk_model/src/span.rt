//! Ranges of bytes.

/// A range of bytes: where it begins, and how many bytes it has.
#[derive(Clone, Copy, Debug, PartialEq, Eq)]
pub struct Span {
    /// The place of its first byte.
    pub place: u64,
    /// How many bytes it has.
    pub count: u64,
}
