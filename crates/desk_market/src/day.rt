//! The desks of a day.

ghost use Rattle.std.specs.Prelude.{◌≡◌, ℕ, ◌+◌, ◌-◌, ◌<◌, ◌≤◌, Some, IfOk, length, slice_get};
ghost use Rattle.std.specs.Borrow.{Lends, sem};
ghost use Rattle.basket_match.specs.HourDesk.{the_row};
ghost use Rattle.market_model.specs.HourSet.{has_hour};
ghost use Rattle.desk_market.specs.Day as days;

use basket_match::{Desks, HourDesk};
use market_model::Hours;
use std::alloc::Global;
use std::marker::Model;
use zone_graph::{Grid, NoMemory};

/// A desk for each hour of a delivery day, and the hours that are chosen: a row of their desks.
#[derive(Drop)]
pub struct DayDesks {
    desks: Vec<HourDesk>,
    chosen: Hours,
}

impl Model for DayDesks {
    ghost use Rattle.desk_market.specs.Day.{DayState};

    ghost Value = { DayState };

    ghost use Rattle.desk_market.specs.Day.{IsDay};

    ghost view = { λ day. record { desks = day.desks.items; chosen = day.chosen } };

    ghost invariant = { λ day. IsDay day.desks.items };
}

impl DayDesks {
    /// The desks of a day of so many hours over a grid, without events. None is chosen.
    ///
    /// # Errors
    ///
    /// [`NoMemory`] where memory runs out.
    pub fn new(alloc: Global, hours: u32, grid: &Grid) -> Result<DayDesks, NoMemory>
        requires { hours ≤ 32 }
        ensures { IfOk result (λ day. day ≡ record { desks = days.empty_desks grid.now hours; chosen = record { 0 = 0 } }) }
    {
        let mut desks = Vec::with_capacity(alloc, hours as usize)?;
        for before in 0..hours {
            desks.push(HourDesk::new(alloc, before + 1, grid)?)?;
        }
        Ok(DayDesks {
            desks,
            chosen: Hours::EMPTY,
        })
    }

    /// Chooses the desks of some hours.
    pub fn choose(&mut self, hours: Hours)
        ensures { self.new ≡ record { desks = self.old.desks; chosen = hours } }
    {
        self.chosen = hours;
    }

    /// The desk of an hour.
    pub fn of_hour(&self, hour: u32) -> &HourDesk
        requires first { 1 ≤ hour }
        requires last { hour ≤ length self.now.desks }
        ensures { slice_get self.now.desks (hour - 1) ≡ Some result.now }
    {
        &self.desks[hour as usize - 1]
    }

    // Where the chosen desk stands that is at a place among those that are chosen.
    fn place_of(&self, place: usize) -> usize
        requires { place < length (days.chosen_of self.now) }
        ensures place { result ≡ days.place_from (has_hour self.now.chosen) 1 self.now.desks place }
        ensures within { result < length self.now.desks }
        ensures desk { slice_get self.now.desks result ≡ slice_get (days.chosen_of self.now) place }
    {
        let mut before = place;
        for i in 0..self.desks.len() {
            if self.chosen.contains(i as u32 + 1) {
                if before == 0 {
                    return i;
                }
                before -= 1;
            }
        }
        unreachable!()
    }
}

impl Desks for DayDesks {
    ghost use Rattle.market_model.specs.HourSet.{has_hour};
    ghost use Rattle.desk_market.specs.Chosen.{chosen-put, others-stay};
    ghost use Rattle.desk_market.specs.Day.{chosen_of, others_of, with_chosen};

    type Rest = DayDesks;

    ghost desks = { chosen_of };

    ghost rest = { others_of };

    ghost with_desk = { with_chosen };

    fn len(&self) -> usize {
        let mut count = 0;
        for i in 0..self.desks.len() {
            if self.chosen.contains(i as u32 + 1) {
                count += 1;
            }
        }
        count
    }

    fn desk(&self, i: usize) -> &HourDesk {
        &self.desks[self.place_of(i)]
    }

    fn desk_mut(&mut self, i: usize) -> &mut HourDesk {
        let place = self.place_of(i);
        &mut self.desks[place]
    }

    ghost desks_with = { λ day i desk. chosen-put (has_hour day.chosen) 1 day.desks i desk };

    ghost rest_with = { λ day i desk. others-stay day i desk };
}
