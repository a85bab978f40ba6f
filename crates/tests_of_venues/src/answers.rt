//! What commands are to be answered.

use market_model::{Event, Refusal, Reply};

// What a command is to be answered, as a table of tests has it.
#[derive(Clone, Copy, Debug, Drop)]
pub(crate) enum Want {
    // So many events, by whose legs so many lots are traded.
    Done { events: usize, lots: u32 },
    // The caller's role may not give it.
    WrongRole,
    // A quantity is not in its range.
    QuantityOutOfRange,
    // The orders of a basket are not of ascending hours.
    BadBasket,
    // The basket's order of an hour reaches the first zone alone, and trades no more lots there than the bound.
    BasketUnfilled { hour: u32, bound: u64 },
}

impl Want {
    // Whether a reply is the one that is wanted.
    pub(crate) fn is_met(self, reply: &Reply) -> bool {
        match reply {
            Reply::Done(events) => self.is_done(events.as_slice()),
            Reply::Refused(refusal) => self.is_refused(refusal),
            Reply::Seen(_) => false,
        }
    }

    fn is_done(self, made: &[Event]) -> bool {
        match self {
            Want::Done { events, lots } => made.len() == events && lots_of(made) == lots,
            _ => false,
        }
    }

    fn is_refused(self, refusal: &Refusal) -> bool {
        match (self, refusal) {
            (Want::WrongRole, Refusal::WrongRole)
            | (Want::QuantityOutOfRange, Refusal::QuantityOutOfRange)
            | (Want::BadBasket, Refusal::BadBasket) => true,
            (
                Want::BasketUnfilled { hour, bound },
                Refusal::BasketUnfilled {
                    hour: of,
                    zones,
                    bound: most,
                },
            ) => hour == *of && bound == *most && zones.as_slice() == [0].as_slice(),
            _ => false,
        }
    }
}

// The lots of all legs.
fn lots_of(events: &[Event]) -> u32 {
    let mut lots: u32 = 0;
    for event in events {
        if let Event::Leg { leg, .. } | Event::BlockLeg { leg, .. } = event {
            lots = lots.saturating_add(leg.lots);
        }
    }
    lots
}
