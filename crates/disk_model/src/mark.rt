//! What a disk in memory notes of each call that changed what it holds.

use crate::span::Span;

/// What a call did.
#[derive(Clone, Copy, Debug)]
pub enum Mark {
    /// A piece was written to this range.
    Written(Span),
    /// A write to this range failed.
    Failed(Span),
    /// A sync succeeded.
    Synced,
}
