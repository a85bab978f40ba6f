//! The work of several callers, side by side.

ghost use Rattle.std.specs.Prelude.{◌<◌, OnOk, length};
ghost use Rattle.std.specs.Thread.{IsSync};
ghost use Rattle.session_trade.specs.Callers.{AllGave, AllMayGive};

use crate::working::work;
use market_model::Commands;
use outside::Gate;
use std::alloc::Global;
use std::sync::Wait;
use std::thread::{Threads, join_mut};
use venue_core::{Pass, Venue};
use zone_graph::NoMemory;

// Some callers give their commands at a venue, each on a thread of its own where threads can be made.
//
// All have ended when it answers. The error is that of the first caller that has one.
#[cycle(halves)]
pub(crate) fn work_of_all<R: Threads + Wait + Sync, G: Gate>(
    rt: &R,
    alloc: Global,
    venue: &Venue,
    gate: &G,
    commands: &[Commands],
    passes: &mut [Pass],
) -> Result<(), NoMemory>
    requires { AllMayGive venue.now commands.now passes.old }
    ensures { OnOk result (AllGave commands.now passes.old passes.new) }
{
    if commands.len() < 2 {
        return work_of_one(rt, alloc, venue, gate, commands, passes);
    }
    let middle = commands.len() / 2;
    let (first, second) = commands.split_at(middle);
    let (ahead, behind) = passes.split_at_mut(middle);
    work_of_both(rt, alloc, venue, gate, first, second, ahead, behind)
}

// One caller gives its commands, where there is one.
fn work_of_one<R: Wait, G: Gate>(
    rt: &R,
    alloc: Global,
    venue: &Venue,
    gate: &G,
    commands: &[Commands],
    passes: &mut [Pass],
) -> Result<(), NoMemory>
    requires one { length commands.now < 2 }
    requires may { AllMayGive venue.now commands.now passes.old }
    ensures { OnOk result (AllGave commands.now passes.old passes.new) }
{
    if commands.is_empty() {
        return Ok(());
    }
    work(rt, alloc, venue, gate, &mut passes[0], &commands[0])
}

// The callers of two halves give their commands, the halves side by side.
#[cycle(halves)]
fn work_of_both<R: Threads + Wait + Sync, G: Gate>(
    rt: &R,
    alloc: Global,
    venue: &Venue,
    gate: &G,
    first: &[Commands],
    second: &[Commands],
    ahead: &mut [Pass],
    behind: &mut [Pass],
) -> Result<(), NoMemory>
    requires some { 0 < length first.now }
    requires others { 0 < length second.now }
    requires first { AllMayGive venue.now first.now ahead.old }
    requires second { AllMayGive venue.now second.now behind.old }
    ensures first { OnOk result (AllGave first.now ahead.old ahead.new) }
    ensures second { OnOk result (AllGave second.now behind.old behind.new) }
{
    let mut front = || -> Result<(), NoMemory>
        requires { IsSync R.row × IsSync G.row × AllMayGive venue.now first.now ahead.now }
        ensures { OnOk result (AllGave first.entry.now ahead.entry.now ahead.exit.now) }
    { work_of_all(rt, alloc, venue, gate, first, ahead) };
    let mut back = || -> Result<(), NoMemory>
        requires { IsSync R.row × IsSync G.row × AllMayGive venue.now second.now behind.now }
        ensures { OnOk result (AllGave second.entry.now behind.entry.now behind.exit.now) }
    { work_of_all(rt, alloc, venue, gate, second, behind) };
    let (one, other) = join_mut(rt, &mut front, &mut back);
    one?;
    other
}
