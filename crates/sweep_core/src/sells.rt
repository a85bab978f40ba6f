//! The sell that a buy trades with.

ghost use Rattle.std.specs.Prelude.{◌≡◌, ◌∷◌, ◌++◌, [], ℕ, ◌<◌, ◌≤◌, ◌==◌, IfOk, None, false, find, length, true, vec_capacity, if◌then◌else◌};
ghost use Rattle.order_kinds.specs.declared.side.Side.TheVariants.{Sell};
ghost use Rattle.zone_graph.specs.Graph.{zone_count};
ghost use Rattle.market_model.specs.Board.{IsBoard};
ghost use Rattle.sweep_core.specs.Meeting as meeting;

use crate::marks::no_marks;
use market_model::{Board, Shown};
use order_kinds::Side;
use route_choice::RouteTree;
use std::alloc::Global;
use zone_graph::{Grid, MOST_ZONES, NoMemory};

/// The first sell of each zone in a part, in priority, as far as prices cross that of the best buy.
/// Among these each buy that pays no more finds the sell of the part that it trades with: a sell behind
/// another of its zone can only do worse. Where one price does not cross, none behind it does.
///
/// Room for them is taken once, as a zone has one at the most.
///
/// # Errors
///
/// [`NoMemory`] where memory runs out.
pub(crate) fn sell_fronts<B: Board>(
    alloc: Global,
    board: &B,
    grid: &Grid,
    part: u32,
    best: &Shown,
) -> Result<Vec<Shown>, NoMemory>
    requires grid { grid.now ≡ (B.state board.now).grid }
    requires part { part < (B.state board.now).parts }
    requires no_hand { (B.state board.now).hand ≡ None }
    ensures fronts { IfOk result (λ fronts. meeting.AreFronts (meeting.shown_line (B.state board.now) part Sell) best.now fronts.items) }
    ensures few { IfOk result (λ fronts. length fronts.items ≤ zone_count grid.now) }
    ensures board { IsBoard (B.state board.now) }
{
    let zones = grid.zones();
    let mut next = board.first(part, Side::Sell);
    let mut fronts = Vec::with_capacity(alloc, zones as usize)?;
    let mut marks = no_marks();
    while let Some(sell) = next {
        if !Side::Buy.crosses(best.price, sell.price) {
            return Ok(fronts);
        }
        add_front(&sell, &mut marks, &mut fronts);
        next = board.after(sell.number);
    }
    Ok(fronts)
}

// Puts a sell behind the others, if none of its zone was there before; its zone is marked then.
fn add_front(sell: &Shown, marks: &mut [bool; MOST_ZONES], fronts: &mut Vec<Shown>)
    requires zone { sell.now.zone < 64 }
    requires room { meeting.is_marked marks.old sell.now.zone ≡ false → length fronts.old.items < vec_capacity fronts.old }
    ensures fronts { fronts.new.items ≡ (if meeting.is_marked marks.old sell.now.zone then fronts.old.items else (fronts.old.items ++ sell.now ∷ [])) }
    ensures marks { (zone : ℕ) → meeting.is_marked marks.new zone ≡ (if zone == sell.now.zone then true else meeting.is_marked marks.old zone) }
    ensures capacity { vec_capacity fronts.new ≡ vec_capacity fronts.old }
{
    if !marks[sell.zone as usize] {
        marks[sell.zone as usize] = true;
        fronts.push_reserved(*sell);
    }
}

/// The first of some sells that a buy can trade with.
pub(crate) fn partner_of(fronts: &[Shown], search: &RouteTree, buy: &Shown) -> Option<Shown>
    ensures { result ≡ find (meeting.is_met search.now buy.now) fronts.now }
{
    for sell in fronts {
        if is_met(search, buy, sell) {
            return Some(*sell);
        }
    }
    None
}

// Whether a buy can trade with a sell: whether prices cross and the search towards the buy's zone
// reaches the sell's.
fn is_met(search: &RouteTree, buy: &Shown, sell: &Shown) -> bool
    ensures { result ≡ meeting.is_met search.now buy.now sell.now }
{
    Side::Buy.crosses(buy.price, sell.price) && search.reaches(sell.zone)
}
