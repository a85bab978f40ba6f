//! A gate that holds commands until others come.

use outside::Gate;
use std::sync::atomic::{AtomicBool, AtomicU32, Ordering};

// How often a command looks for the other before it goes on alone.
const LOOKS: u32 = 100_000_000;

/// What a gate was told of the command of one hour.
#[derive(Drop)]
pub(crate) struct Guest {
    hour: u32,
    planned: AtomicU32,
    met: AtomicBool,
    answered: AtomicU32,
}

impl Guest {
    fn new(hour: u32) -> Guest {
        Guest {
            hour,
            planned: AtomicU32::new(0),
            met: AtomicBool::new(false),
            answered: AtomicU32::new(0),
        }
    }

    // The command is planned: it waits until the other is, and notes whether it was.
    fn wait_for(&self, other: &Guest) {
        self.planned.fetch_add(1, Ordering::SeqCst);
        for _ in 0..LOOKS {
            if other.planned.load(Ordering::SeqCst) > 0 {
                self.met.store(true, Ordering::SeqCst);
                break;
            }
        }
    }

    fn answer(&self) {
        self.answered.fetch_add(1, Ordering::SeqCst);
    }

    /// How often its reply was planned, whether the other's was planned while it was held, and how often it was
    /// answered.
    pub(crate) fn told(&self) -> (u32, bool, u32) {
        (
            self.planned.load(Ordering::SeqCst),
            self.met.load(Ordering::SeqCst),
            self.answered.load(Ordering::SeqCst),
        )
    }
}

/// A gate that holds the command of each of two hours until that of the other is planned too.
#[derive(Drop)]
pub(crate) struct Meeting {
    pub(crate) one: Guest,
    pub(crate) other: Guest,
    strangers: AtomicU32,
}

impl Meeting {
    /// A gate for the commands of these hours.
    pub(crate) fn new(one: u32, other: u32) -> Meeting {
        Meeting {
            one: Guest::new(one),
            other: Guest::new(other),
            strangers: AtomicU32::new(0),
        }
    }

    /// How often it was told of other hours.
    pub(crate) fn strangers(&self) -> u32 {
        self.strangers.load(Ordering::SeqCst)
    }
}

impl Gate for Meeting {
    fn planned(&self, hour: u32) {
        if hour == self.one.hour {
            self.one.wait_for(&self.other);
        } else if hour == self.other.hour {
            self.other.wait_for(&self.one);
        } else {
            self.strangers.fetch_add(1, Ordering::SeqCst);
        }
    }

    fn answered(&self, hour: u32) {
        if hour == self.one.hour {
            self.one.answer();
        } else if hour == self.other.hour {
            self.other.answer();
        } else {
            self.strangers.fetch_add(1, Ordering::SeqCst);
        }
    }
}
