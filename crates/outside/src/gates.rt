//! The gate at which tests hold commands.

/// What is told when a command has its answer, so that a test can hold it there. A gate has no
/// fault and changes nothing in the market.
///
/// `hour` is the first delivery hour that the command touches, counted from 1, or 0 where it
/// touches none.
pub trait Gate: Sync {
    /// The hours that the command touches are held, its reply is planned, and the journal is not
    /// locked yet.
    fn planned(&self, hour: u32);

    /// The hours were given back.
    fn answered(&self, hour: u32);
}

/// A gate that is always open: it does nothing.
#[derive(Clone, Copy, Debug, Default, PartialEq, Eq)]
pub struct OpenGate;

impl Gate for OpenGate {
    fn planned(&self, _hour: u32) {}

    fn answered(&self, _hour: u32) {}
}
