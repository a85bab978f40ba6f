//! A taking that walks the opposite line once.

ghost use Rattle.std.specs.Prelude.{◌≡◌, ◌<◌, IfOk, IfSome, None, OnErr, OnOk, Some, Ok, length};
ghost use Rattle.zone_graph.specs.declared.route.Arc.{Arc};
ghost use Rattle.zone_graph.specs.Graph.{HasZone, border_count};
ghost use Rattle.zone_graph.specs.Rooms.{room_of};
ghost use Rattle.zone_graph.specs.Route.{IsIn};
ghost use Rattle.route_choice.specs.Freshness.{IsFresh};
ghost use Rattle.market_model.specs.Taking.{next_leg};
ghost use Rattle.match_core.specs.Takers as takers;
ghost use Rattle.match_core.specs.Takings as takings;
ghost use Rattle.match_core.specs.Walks as walks;

use crate::taker::Taker;
use cut_proof::{carried, carry};
use market_model::{Board, Leg, Shown};
use order_kinds::{OrderName, Side};
use route_choice::RouteTree;
use std::alloc::Global;
use zone_graph::{Grid, NoMemory, Rooms, Route};

/// A taking, as far as it has come. The search is fresh over the rooms.
#[derive(Drop)]
pub(crate) struct Walk {
    /// The part of the hour in which it is.
    pub part: u32,

    /// The order that takes.
    pub taker: Taker,

    /// The number of the last order that was passed over.
    pub passed: Option<u32>,

    /// How many events the hour has.
    pub place: u64,

    /// The rooms of the part.
    pub rooms: Rooms,

    /// The search for the routes of the order.
    pub search: RouteTree,
}

/// The order to trade with next, and the route over which.
#[derive(Drop)]
pub(crate) struct Partner {
    pub order: Shown,
    pub route: Route,
}

impl Walk {
    /// The taking of an order that has just entered, with no leg yet.
    pub fn new<B: Board>(board: &B, grid: &Grid, part: u32, taker: Taker) -> Result<Walk, NoMemory>
        requires grid { grid.now ≡ (B.state board.now).grid }
        requires part { part < (B.state board.now).parts }
        requires in_hand { (B.state board.now).hand ≡ Some taker.name.number }
        requires entered { takings.HasEntered (B.state board.now) part taker }
        ensures stands { IfOk result (λ walk. walks.Stands (B.state board.now) walk) }
        ensures taker { IfOk result (λ walk. walk.taker ≡ taker) }
    {
        let mut rooms = Rooms::new(grid)?;
        board.rooms(part, &mut rooms);
        let search = search_for(grid, &rooms, &taker);
        Ok(Walk {
            part,
            taker,
            passed: None,
            place: taker.moment,
            rooms,
            search,
        })
    }

    /// The order to trade with next: the first of those that were not passed over that can trade with
    /// the taker. Those in front of it are passed over. `None` exactly where there is no next leg.
    ///
    /// # Errors
    ///
    /// [`NoMemory`] where memory runs out.
    pub fn partner<B: Board>(
        &mut self,
        alloc: Global,
        board: &B,
        grid: &Grid,
    ) -> Result<Option<Partner>, NoMemory>
        requires grid { grid.now ≡ (B.state board.now).grid }
        requires stands { walks.Stands (B.state board.now) self.old }
        ensures found { IfOk result (λ partner. IfSome partner (λ partner. walks.IsPartnerOf (B.state board.now) self.new partner)) }
        ensures none { result ≡ Ok None → next_leg (B.state board.now).grid self.old.taker.name (B.state board.now).events ≡ None }
        ensures stands { OnOk result (walks.Stands (B.state board.now) self.new) }
        ensures taker { self.new.taker ≡ self.old.taker }
    {
        if self.taker.left == 0 {
            return Ok(None);
        }
        let mut next = self.first(board);
        while let Some(order) = next {
            if !self.taker.side.crosses(self.taker.price, order.price) {
                return Ok(None);
            }
            if let Some(route) = self.search.route(alloc, grid, &self.rooms, order.zone)? {
                return Ok(Some(Partner { order, route }));
            }
            self.passed = Some(order.number);
            next = board.after(order.number);
        }
        Ok(None)
    }

    // The first order that was not passed over.
    fn first<B: Board>(&self, board: &B) -> Option<Shown>
        requires stands { walks.Stands (B.state board.now) self.now }
        ensures first { walks.StandsAt (B.state board.now) self.now result }
    {
        match self.passed {
            None => board.first(self.part, self.taker.side.opposite()),
            Some(number) => board.after(number),
        }
    }

    /// Makes the leg with a partner.
    ///
    /// # Errors
    ///
    /// [`NoMemory`] where memory runs out, and then no leg is made.
    pub fn trade<B: Board>(
        &mut self,
        board: &mut B,
        grid: &Grid,
        partner: Partner,
    ) -> Result<(), NoMemory>
        requires grid { grid.now ≡ (B.state board.old).grid }
        requires partner { walks.IsPartnerOf (B.state board.old) self.old partner }
        ensures made { OnOk result (walks.IsNextMade (B.state board.old) (B.state board.new) self.old.part self.old.taker.name) }
        ensures stands { OnOk result (walks.Stands (B.state board.new) self.new) }
        ensures less { OnOk result (self.new.taker.left < self.old.taker.left) }
        ensures name { self.new.taker.name ≡ self.old.taker.name }
        ensures kept { B.rest board.new ≡ B.rest board.old }
        ensures unchanged { OnErr result (board.new ≡ board.old) }
    {
        let Some(place) = self.place.checked_add(1) else {
            return Err(NoMemory);
        };
        let leg = self.leg_with(partner);
        board.make(self.part, &leg)?;
        self.go_on(grid, &leg, place);
        Ok(())
    }

    // The leg with a partner: of the least of what both show and what the route can carry, at the
    // partner's price.
    fn leg_with(&self, partner: Partner) -> Leg
        requires peak { takers.HasPeak self.now.taker }
        requires arcs { (arc : Arc) → IsIn arc partner.route → arc.border < length self.now.rooms }
        ensures { result ≡ walks.leg_of self.now partner }
    {
        let Partner { order, route } = partner;
        let most = self.taker.shown().min(order.lots);
        Leg {
            taker: self.taker.name,
            maker: OrderName {
                hour: self.taker.name.hour,
                number: order.number,
            },
            lots: carried(&self.rooms, most, route.as_slice()),
            price: order.price,
            route,
        }
    }

    // Goes on after a leg of the taker over a route of the search, which is the hour's event at a
    // place. Where it used up an arc of its route the search is made anew.
    fn go_on(&mut self, grid: &Grid, leg: &Leg, place: u64)
        requires leg { walks.CanGoOn grid.now self.old leg.now }
        ensures after { walks.HasGoneOn grid.now self.old leg.now place self.new }
    {
        let route = leg.route.as_slice();
        carry(&mut self.rooms, route, leg.lots);
        self.taker.fill(leg.lots, place);
        self.place = place;
        if !self.search.is_fresh_after(&self.rooms, route) {
            self.search = search_for(grid, &self.rooms, &self.taker);
        }
    }
}

// The search for the routes of an order: towards its zone if it buys, from its zone if it sells.
fn search_for(grid: &Grid, rooms: &Rooms, taker: &Taker) -> RouteTree
    requires zone { HasZone grid.now taker.now.zone }
    requires size { length rooms.now ≡ border_count grid.now }
    ensures fresh { IsFresh grid.now (room_of rooms.now) result }
    ensures zone { result.zone ≡ taker.now.zone }
    ensures towards { result.towards ≡ walks.is_towards taker.now.side }
{
    let towards = match taker.side {
        Side::Buy => true,
        Side::Sell => false,
    };
    RouteTree::new(grid, rooms, taker.zone, towards)
}
