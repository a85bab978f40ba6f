//! A venue with the passes of all its callers, as tests have them.

ghost use Rattle.std.specs.Prelude.{◌<◌, length};
ghost use Rattle.venue_core.specs.Setups.{IsVenueSetup};
ghost use Rattle.venue_core.specs.Venues.{AreAllOf};

use crate::commands::{Ask, command_of};
use market_model::{Command, Setup};
use outside::OpenGate;
use std::alloc::Global;
use std::process::Abort;
use std::sync::Wait;
use trade_journal::Journal;
use venue_core::{OpenFault, Pass, Passes, Receipt, SubmitFault, Venue};

// A venue, and the passes of its callers, by ascending caller.
#[derive(Drop)]
pub(crate) struct Party {
    pub(crate) venue: Venue,
    pub(crate) passes: Vec<Pass>,
    ghost all: { AreAllOf venue passes.items },
}

impl Party {
    // Opens a venue for a setup.
    pub(crate) fn open(alloc: Global, setup: Setup) -> Result<Party, OpenFault>
        requires { IsVenueSetup setup }
    {
        let (venue, passes) = Venue::open(alloc, setup)?;
        Ok(Party {
            venue,
            passes: passes.into_vec(),
        })
    }

    // Submits a command of a caller.
    pub(crate) fn submit<R: Wait + Abort>(
        &mut self,
        rt: &R,
        alloc: Global,
        caller: usize,
        command: Command,
    ) -> Result<Receipt, SubmitFault> {
        assert!(rt; caller < self.passes.len(), "there is such a caller");
        let passes = self.passes.as_mut_slice();
        submit(rt, alloc, &self.venue, passes, caller, command)
    }

    // Submits a command of a caller that is asked for.
    pub(crate) fn ask<R: Wait + Abort>(
        &mut self,
        rt: &R,
        alloc: Global,
        caller: usize,
        ask: Ask,
    ) -> Result<Receipt, SubmitFault> {
        let command = command_of(alloc, ask)?;
        self.submit(rt, alloc, caller, command)
    }

    // How many entries a caller is told that the journal has.
    pub(crate) fn front<R: Abort>(&mut self, rt: &R, caller: usize) -> u64 {
        assert!(rt; caller < self.passes.len(), "there is such a caller");
        front(&self.venue, self.passes.as_mut_slice(), caller)
    }

    // How many entries a caller has seen of its own.
    pub(crate) fn made<R: Abort>(&self, rt: &R, caller: usize) -> u32 {
        assert!(rt; caller < self.passes.len(), "there is such a caller");
        self.passes[caller].made()
    }

    // Closes the venue.
    pub(crate) fn close<R: Wait>(self, rt: &R) -> Journal {
        let Party { venue, passes } = self;
        venue.close(rt, Passes::from(passes))
    }
}

// Submits a command with the pass of a caller.
fn submit<R: Wait>(
    rt: &R,
    alloc: Global,
    venue: &Venue,
    passes: &mut [Pass],
    caller: usize,
    command: Command,
) -> Result<Receipt, SubmitFault>
    requires known { caller < length passes.old }
    requires all { AreAllOf venue.now passes.old }
    ensures { AreAllOf venue.now passes.new }
{
    venue.submit(rt, alloc, &OpenGate, &mut passes[caller], command)
}

// How many entries a caller is told that there are.
fn front(venue: &Venue, passes: &mut [Pass], caller: usize) -> u64
    requires known { caller < length passes.old }
    requires all { AreAllOf venue.now passes.old }
    ensures { AreAllOf venue.now passes.new }
{
    venue.front(&mut passes[caller])
}
