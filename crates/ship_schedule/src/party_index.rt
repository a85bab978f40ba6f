//! Who each order and each block is of: its zone, and its side.

ghost use Rattle.std.specs.Prelude.{◌≡◌, ℕ, ◌<◌, ◌==◌, [], ◌∷◌, ◌++◌, length, replicate, IfOk, OnOk, if◌then◌else◌};
ghost use Rattle.ship_schedule.specs.Tally as tallies;

use order_kinds::{OrderName, Side};
use std::alloc::Global;
use std::marker::Model;
use zone_graph::{NoMemory, Sequence};

/// The zone of an order or a block, and whether it sells.
#[derive(Clone, Copy, Debug)]
pub(crate) struct Party {
    /// The number of its zone.
    pub(crate) zone: u32,

    /// Whether it sells; else it buys.
    pub(crate) sells: bool,
}

impl Party {
    /// The one of a zone and a side.
    pub(crate) fn new(zone: u32, side: Side) -> Party
        ensures { result ≡ record { zone = zone; sells = tallies.sells side } }
    {
        Party {
            zone,
            sells: matches!(side, Side::Sell),
        }
    }
}

/// The parties of the orders and blocks of each hour, by number.
#[derive(Drop)]
pub(crate) struct Parties {
    hours: Vec<Sequence<Party>>,
}

impl Model for Parties {
    ghost use Rattle.std.specs.Prelude.{List};
    ghost use Rattle.ship_schedule.specs.declared.party_index.Party.{Party as PartyValue};

    ghost Value = { List (List PartyValue) };

    ghost view = { λ parties. parties.hours.items };
}

impl Parties {
    /// No party yet, of so many hours.
    pub(crate) fn new(alloc: Global, count: usize) -> Result<Parties, NoMemory>
        ensures { IfOk result (λ parties. parties ≡ replicate count []) }
    {
        let mut hours = Vec::with_capacity(alloc, count)?;
        for hour in 0..count {
            hours.push(Sequence::new(alloc))?;
        }
        Ok(Parties { hours })
    }

    /// Notes the next party that entered by the hour of a name. An hour that there is not is not noted.
    pub(crate) fn note(&mut self, name: OrderName, party: Party) -> Result<(), NoMemory>
        ensures rows { OnOk result ((hour : ℕ) → hour < length self.old → tallies.row_of self.new hour ≡ (if name.hour == hour then tallies.row_of self.old hour ++ party ∷ [] else tallies.row_of self.old hour)) }
        ensures size { OnOk result (length self.new ≡ length self.old) }
    {
        note_in(self.hours.as_mut_slice(), name, party)
    }

    /// The party of a name, if there is one.
    pub(crate) fn party(&self, name: OrderName) -> Option<Party>
        ensures { result ≡ tallies.party_at self.now name }
    {
        match self.hours.as_slice().get(name.hour as usize) {
            Some(row) => row.get((name.number as usize).saturating_sub(1)).copied(),
            None => None,
        }
    }
}

// Notes the next party of the hour of a name.
fn note_in(hours: &mut [Sequence<Party>], name: OrderName, party: Party) -> Result<(), NoMemory>
    ensures { OnOk result ((hour : ℕ) → hour < length hours.old → tallies.row_of hours.new hour ≡ (if name.hour == hour then tallies.row_of hours.old hour ++ party ∷ [] else tallies.row_of hours.old hour)) }
{
    let hour = name.hour as usize;
    if hour < hours.len() {
        hours[hour].push(party)?;
    }
    Ok(())
}
