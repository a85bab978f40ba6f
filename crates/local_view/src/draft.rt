//! Drafts of what comes to a zone from the orders of a line: a flow, mended until nothing better is found. Nothing rests on
//! a draft, since what it says is tested.

ghost use Rattle.std.specs.Prelude.{◌≡◌, ◌≢◌, ◌+◌, ◌<◌, ◌≤◌, ◌^◌, ℕ, IfOk, IfSome, List, false, length, slice_index_or};
ghost use Rattle.zone_graph.specs.Graph.{HasArc, border_count};
ghost use Rattle.zone_graph.specs.Pour.{opposite_arc};
ghost use Rattle.zone_graph.specs.Rooms.{room_of};
ghost use Rattle.zone_graph.specs.declared.route.Arc.{Arc as AnArc};
ghost use Rattle.cut_proof.specs.Carrying.{FitTogether};
ghost use Rattle.local_view.specs.Drafts.{AreKept, IsFlow, IsKept};
ghost use Rattle.local_view.specs.Moved.{flow_in};

use crate::filling::is_set;
use crate::still_standing::are_same;
use crate::ways::NO_ARC;
use market_model::Side;
use zone_graph::{Arc, Grid, MOST_ZONES, NoMemory, Rooms};

// Over how many ways lots are sent before the rest of them is given up.
const MOST_WAYS: usize = 64;

// More lots than these are taken for less than none.
const MOST_LOTS: u32 = u32::MAX / 2;

/// What flows to a zone from the orders of a side: the rooms that it flows over and what it leaves of them. What flows over an
/// arc is its room less what is left of that. Lots that sells give go along arcs, those that buys give come against them. Of a
/// set of zones bit z stands for zone z.
#[derive(Drop)]
pub(crate) struct Flow {
    /// The rooms.
    pub(crate) of: Rooms,
    /// What is left of them.
    pub(crate) left: Rooms,
    // For each zone those that it can pass more lots on to.
    leads: [u64; MOST_ZONES],
    // What comes from each zone, as far as no order gave it.
    given: [u32; MOST_ZONES],
}

impl Flow {
    /// No flow, over no rooms of a grid.
    pub(crate) fn over(grid: &Grid) -> Result<Flow, NoMemory>
        ensures { IfOk result (IsFlow (border_count grid.now)) }
    {
        Ok(Flow {
            of: Rooms::new(grid)?,
            left: Rooms::new(grid)?,
            leads: [0; MOST_ZONES],
            given: [0; MOST_ZONES],
        })
    }

    /// What flows over an arc.
    pub(crate) fn at(&self, arc: Arc) -> u32
        requires of { arc.border < length self.now.of }
        requires left { arc.border < length self.now.left }
        ensures { result ≡ flow_in self.now arc }
    {
        self.of.at(arc).saturating_sub(self.left.at(arc))
    }

    /// Notes what comes from each zone.
    pub(crate) fn note_given(&mut self, given: &[u32; MOST_ZONES])
        ensures of { self.new.of ≡ self.old.of }
        ensures left { self.new.left ≡ self.old.left }
    {
        self.given = *given;
    }

    // Lays the flow over other rooms, as far as these are wide enough for it. Over borders that have the same rooms it stays.
    fn lay(&mut self, grid: &Grid, side: Side, rooms: &Rooms)
        requires size { length rooms.now ≡ border_count grid.now }
        requires fit { FitTogether grid.now (room_of rooms.now) }
        requires flow { IsFlow (border_count grid.now) self.old }
        ensures of { self.new.of ≡ rooms.now }
        ensures left { length self.new.left ≡ border_count grid.now }
        ensures kept { AreKept rooms.now self.new.left }
    {
        for border in 0..grid.borders() {
            self.lay_over(grid, side, rooms, border);
        }
        self.of.copy_from(rooms);
    }

    // Lays it over the rooms of a border, where it is not over these.
    fn lay_over(&mut self, grid: &Grid, side: Side, rooms: &Rooms, border: u32)
        requires border { border < border_count grid.now }
        requires size { length rooms.now ≡ border_count grid.now }
        requires fit { FitTogether grid.now (room_of rooms.now) }
        requires of { length self.old.of ≡ border_count grid.now }
        requires left { length self.old.left ≡ border_count grid.now }
        requires was { (arc : AnArc) → arc.border ≡ border → IsKept self.old.of self.old.left arc }
        ensures of { self.new.of ≡ self.old.of }
        ensures left { length self.new.left ≡ border_count grid.now }
        ensures kept { (arc : AnArc) → arc.border ≡ border → IsKept rooms.now self.new.left arc }
        ensures others { (of : List (ℕ × ℕ)) (arc : AnArc) → arc.border ≢ border → IsKept of self.old.left arc → IsKept of self.new.left arc }
    {
        if are_same(&self.of, rooms, border) {
            return;
        }
        let arc = Arc {
            border,
            forward: true,
        };
        let opposite = arc.opposite();
        let (old_out, old_back) = (self.at(arc), self.at(opposite));
        let (forward, backward) = (rooms.at(arc), rooms.at(opposite));
        let (out, back) = (old_out.min(forward), old_back.min(backward));
        let (forward, backward) = (forward - out + back, backward - back + out);
        self.left.set(arc, forward);
        self.left.set(opposite, backward);
        let more = out
            .wrapping_sub(back)
            .wrapping_sub(old_out.wrapping_sub(old_back));
        self.flow_over(grid, side, arc, more, forward > 0, backward > 0);
    }

    // Notes that more flows over a border, and in which directions more could.
    fn flow_over(
        &mut self,
        grid: &Grid,
        side: Side,
        arc: Arc,
        lots: u32,
        forward: bool,
        backward: bool,
    )
        requires { HasArc grid.now arc }
        ensures of { self.new.of ≡ self.old.of }
        ensures left { self.new.left ≡ self.old.left }
    {
        let zones = grid.zones();
        let (start, end) = grid.ends(arc);
        let (from, to) = match side {
            Side::Sell => (start, end),
            Side::Buy => (end, start),
        };
        prove!(from < zones && to < zones);
        self.given[from as usize] = self.given[from as usize].wrapping_add(lots);
        self.given[to as usize] = self.given[to as usize].wrapping_sub(lots);
        self.lead(from, to, forward);
        self.lead(to, from, backward);
    }

    // Notes whether a zone can pass more lots on to another one.
    fn lead(&mut self, from: u32, to: u32, can: bool)
        requires { from < 64 }
        ensures { self.new ≡ record self.old { leads = self.new.leads } }
    {
        if can {
            self.leads[from as usize] |= bit(to);
        } else {
            self.leads[from as usize] &= !bit(to);
        }
    }

    // Passes lots on over an arc from a zone to a neighbour, as many as it has room for.
    fn pass(&mut self, arc: Arc, from: u32, to: u32, lots: u32)
        requires border { arc.border < length self.old.left }
        requires fit { room_of self.old.left arc + room_of self.old.left (opposite_arc arc) < 2 ^ 32 }
        requires from { from < 64 }
        requires to { to < 64 }
        ensures of { self.new.of ≡ self.old.of }
        ensures size { length self.new.left ≡ length self.old.left }
        ensures kept { AreKept self.old.left self.new.left }
        ensures given { self.new.given ≡ self.old.given }
    {
        let spare = self.left.at(arc);
        let lots = lots.min(spare);
        let back = self.left.at(arc.opposite()) + lots;
        self.left.set(arc, spare - lots);
        self.left.set(arc.opposite(), back);
        self.lead(from, to, spare > lots);
        self.lead(to, from, back > 0);
    }
}

/// What a draft works with: the side and the zone that lots come to, and what it knows of a flow to that.
#[derive(Drop)]
pub(crate) struct Draft {
    side: Side,
    // The zone that lots come to.
    zone: u32,
    // The zones from which something comes, and the one that lots come to.
    giving: u64,
    // From which zone the last search came to each.
    before: [u32; MOST_ZONES],
    // The arcs of the way that lots are carried over, the last first.
    way: [Arc; MOST_ZONES],
}

impl Draft {
    /// A draft that has not begun.
    pub(crate) fn new() -> Draft {
        Draft {
            side: Side::Buy,
            zone: 0,
            giving: 0,
            before: [0; MOST_ZONES],
            way: [NO_ARC; MOST_ZONES],
        }
    }

    /// Begins with a flow to a zone, as far as the rooms of a part are wide enough for it. Then each zone gives what its orders
    /// show and no more, as far as it comes. Answers whether all of that comes.
    pub(crate) fn begin(
        &mut self,
        grid: &Grid,
        rooms: &Rooms,
        flow: &mut Flow,
        side: Side,
        zone: u32,
        shown: &[u32; MOST_ZONES],
    ) -> bool
        requires size { length rooms.now ≡ border_count grid.now }
        requires fit { FitTogether grid.now (room_of rooms.now) }
        requires flow { IsFlow (border_count grid.now) flow.old }
        ensures of { flow.new.of ≡ rooms.now }
        ensures left { length flow.new.left ≡ border_count grid.now }
        ensures kept { AreKept rooms.now flow.new.left }
    {
        self.side = side;
        self.zone = zone;
        flow.lay(grid, side, rooms);
        self.pass_on(grid, flow);
        self.bring(grid, flow, shown)
    }

    // What comes to a zone and stays there is sent on to those that give.
    fn pass_on(&mut self, grid: &Grid, flow: &mut Flow)
        requires size { length flow.old.left ≡ border_count grid.now }
        requires fit { FitTogether grid.now (room_of flow.old.left) }
        ensures of { flow.new.of ≡ flow.old.of }
        ensures size { length flow.new.left ≡ border_count grid.now }
        ensures kept { AreKept flow.old.left flow.new.left }
    {
        self.giving = bit(self.zone);
        let zones = grid.zones();
        let mut staying: u64 = 0;
        for zone in 0..zones {
            let lots = flow.given[zone as usize];
            if lots > MOST_LOTS {
                staying |= bit(zone);
            } else if lots > 0 {
                self.giving |= bit(zone);
            }
        }
        staying &= !bit(self.zone);
        if staying != 0 {
            for zone in 0..zones {
                if is_set(staying, zone as usize) {
                    let lots = flow.given[zone as usize].wrapping_neg();
                    flow.given[zone as usize] = 0;
                    self.send(grid, flow, zone, self.giving, lots);
                }
            }
        }
    }

    // Has each zone give what its orders show and no more, as far as it comes. Answers whether all of that comes.
    fn bring(&mut self, grid: &Grid, flow: &mut Flow, shown: &[u32; MOST_ZONES]) -> bool
        requires size { length flow.old.left ≡ border_count grid.now }
        requires fit { FitTogether grid.now (room_of flow.old.left) }
        ensures of { flow.new.of ≡ flow.old.of }
        ensures size { length flow.new.left ≡ border_count grid.now }
        ensures kept { AreKept flow.old.left flow.new.left }
    {
        let mut short: u64 = 0;
        for zone in 0..grid.zones() {
            let (given, most) = (flow.given[zone as usize], shown[zone as usize]);
            if zone == self.zone {
                flow.given[zone as usize] = most;
            } else if given > most {
                self.send(grid, flow, self.zone, bit(zone), given - most);
            } else if given < most {
                short |= bit(zone);
            }
        }
        short == 0 || self.bring_more(grid, flow, shown, short)
    }

    // Has the zones of a set give more, up to what their orders show. Answers whether all of that comes.
    fn bring_more(
        &mut self,
        grid: &Grid,
        flow: &mut Flow,
        shown: &[u32; MOST_ZONES],
        short: u64,
    ) -> bool
        requires size { length flow.old.left ≡ border_count grid.now }
        requires fit { FitTogether grid.now (room_of flow.old.left) }
        ensures of { flow.new.of ≡ flow.old.of }
        ensures size { length flow.new.left ≡ border_count grid.now }
        ensures kept { AreKept flow.old.left flow.new.left }
    {
        let mut is_all = true;
        let mut closed: u64 = 0;
        for zone in 0..grid.zones() {
            if is_set(short & !closed, zone as usize) {
                let given = flow.given[zone as usize];
                let lacks = shown[zone as usize].saturating_sub(given);
                let (sent, more_closed) = self.send(grid, flow, zone, bit(self.zone), lacks);
                flow.given[zone as usize] = given.saturating_add(sent);
                self.mark(flow, zone);
                closed |= more_closed;
                is_all = is_all && sent == lacks;
            }
        }
        is_all
    }

    /// Has the next order of a zone give its lots. What it lacks is taken from orders that have not given yet. Answers how many
    /// lots it gives and, where they are not all, the zones from which nothing more comes.
    pub(crate) fn obtain(
        &mut self,
        grid: &Grid,
        flow: &mut Flow,
        zone: u32,
        lots: u32,
    ) -> (u32, u64)
        requires zone { zone < 64 }
        requires size { length flow.old.left ≡ border_count grid.now }
        requires fit { FitTogether grid.now (room_of flow.old.left) }
        ensures of { flow.new.of ≡ flow.old.of }
        ensures size { length flow.new.left ≡ border_count grid.now }
        ensures kept { AreKept flow.old.left flow.new.left }
        ensures most { result.0 ≤ lots }
    {
        if self.gives(flow, zone, lots) {
            return (lots, 0);
        }
        let rest = flow.given[zone as usize];
        flow.given[zone as usize] = 0;
        self.mark(flow, zone);
        let (sent, closed) = self.send(grid, flow, zone, self.giving, lots - rest);
        (rest + sent, closed)
    }

    /// Has the next order of a zone give its lots, where no fewer come from the zone. Answers whether it gave them.
    pub(crate) fn gives(&mut self, flow: &mut Flow, zone: u32, lots: u32) -> bool
        requires zone { zone < 64 }
        ensures short { result ≡ false → slice_index_or flow.new.given zone 0 < lots }
        ensures of { flow.new.of ≡ flow.old.of }
        ensures left { flow.new.left ≡ flow.old.left }
    {
        let rest = flow.given[zone as usize];
        if rest < lots {
            return false;
        }
        flow.given[zone as usize] = rest - lots;
        if rest == lots {
            self.mark(flow, zone);
        }
        true
    }

    // Notes whether something comes from a zone.
    fn mark(&mut self, flow: &Flow, zone: u32)
        requires { zone < 64 }
    {
        if flow.given[zone as usize] > 0 || zone == self.zone {
            self.giving |= bit(zone);
        } else {
            self.giving &= !bit(zone);
        }
    }

    // Sends lots from a zone to some of others that still give, over one way after the other. Answers how many lots that is,
    // and, where it is not all of them, the zones that can be reached.
    fn send(&mut self, grid: &Grid, flow: &mut Flow, from: u32, to: u64, lots: u32) -> (u32, u64)
        requires size { length flow.old.left ≡ border_count grid.now }
        requires fit { FitTogether grid.now (room_of flow.old.left) }
        ensures of { flow.new.of ≡ flow.old.of }
        ensures size { length flow.new.left ≡ border_count grid.now }
        ensures kept { AreKept flow.old.left flow.new.left }
        ensures most { result.0 ≤ lots }
    {
        let mut more = lots;
        for _ in 0..MOST_WAYS {
            if more == 0 {
                break;
            }
            let (reached, target) = self.search(flow, from, to & self.giving);
            let Some(target) = target else {
                return (lots - more, reached);
            };
            let is_end = target == self.zone;
            let most = if is_end {
                more
            } else {
                more.min(flow.given[target as usize])
            };
            let sent = self.carry(grid, flow, from, target, most);
            more -= sent;
            if !is_end {
                flow.given[target as usize] -= sent;
                self.mark(flow, target);
            }
        }
        (lots - more, 0)
    }

    // Searches a way from a zone to one of others: the zones that it came to, and the one where it ended.
    fn search(&mut self, flow: &Flow, from: u32, to: u64) -> (u64, Option<u32>)
        ensures { IfSome result.1 (λ target. target < 64) }
    {
        let mut reached = bit(from);
        let mut new = reached;
        for _ in 0..MOST_ZONES {
            if new == 0 {
                break;
            }
            let zone = new.trailing_zeros();
            let more = flow.leads[zone as usize] & !reached;
            let ends = more & to;
            if ends != 0 {
                let target = ends.trailing_zeros();
                self.before[target as usize] = zone;
                return (reached, Some(target));
            }
            new = (new & (new - 1)) | more;
            reached |= more;
            let mut steps = more;
            for _ in 0..MOST_ZONES {
                if steps == 0 {
                    break;
                }
                self.before[steps.trailing_zeros() as usize] = zone;
                steps &= steps - 1;
            }
        }
        (reached, None)
    }

    // Carries lots over the way that was found, as many as it has room for. Answers how many.
    fn carry(&mut self, grid: &Grid, flow: &mut Flow, from: u32, to: u32, most: u32) -> u32
        requires size { length flow.old.left ≡ border_count grid.now }
        requires fit { FitTogether grid.now (room_of flow.old.left) }
        ensures of { flow.new.of ≡ flow.old.of }
        ensures size { length flow.new.left ≡ border_count grid.now }
        ensures kept { AreKept flow.old.left flow.new.left }
        ensures most { result ≤ most }
        ensures given { flow.new.given ≡ flow.old.given }
    {
        let mut lots = most;
        let mut zone = to;
        for step in 0..MOST_ZONES {
            if zone == from {
                break;
            }
            let before = self.came_from(zone);
            lots = match self.arc(grid, before, zone) {
                Some(arc) => {
                    self.way[step] = arc;
                    lots.min(flow.left.at(arc))
                }
                None => 0,
            };
            zone = before;
        }
        zone = to;
        for step in 0..MOST_ZONES {
            if zone == from {
                break;
            }
            let before = self.came_from(zone);
            let arc = self.way[step];
            if arc.border < grid.borders() && before < 64 && zone < 64 {
                flow.pass(arc, before, zone, lots);
            }
            zone = before;
        }
        lots
    }

    // From which zone the last search came to a zone. The remainder leaves the number of a zone as it is.
    fn came_from(&self, zone: u32) -> u32 {
        self.before[zone as usize % MOST_ZONES]
    }

    // The arc over which lots go from a zone to a neighbour.
    fn arc(&self, grid: &Grid, from: u32, to: u32) -> Option<Arc>
        ensures { IfSome result (λ arc. HasArc grid.now arc × (from < 64) × (to < 64)) }
    {
        match self.side {
            Side::Sell => grid.arc(from, to),
            Side::Buy => grid.arc(to, from),
        }
    }
}

// The set of one zone.
fn bit(zone: u32) -> u64 {
    if zone < 64 { 1 << zone } else { 0 }
}
