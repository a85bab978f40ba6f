//! The next rows of the parts and sides that a plan has changed.

ghost use Rattle.std.specs.Prelude.{◌≡◌, ◌≢◌, ◌+◌, ◌<◌, ℕ, [], IsOk, None, OnErr, OnOk, get_or, length};
ghost use Rattle.order_kinds.specs.declared.side.Side.{Side};
ghost use Rattle.order_kinds.specs.declared.side.Side.TheVariants.{Buy, Sell};
ghost use Rattle.zone_graph.specs.Graph.{zone_count};
ghost use Rattle.zone_graph.specs.Rooms.{room_of};
ghost use Rattle.market_model.specs.Board.{IsBoard};
ghost use Rattle.local_view.specs.Kept.{line_of, made_after as most_made, views_forgotten};
ghost use Rattle.local_view.specs.Nearness.{AreOthers, WereViews, near_count};
ghost use Rattle.desk_views.specs.Desk.{views_with_made};
ghost use Rattle.desk_views.specs.Moved.{touched_of};
ghost use Rattle.desk_views.specs.Standing.{AreComing, near_of_parts};

use crate::rooms::PARTS;
use hour_store::ChangedZones;
use kept_hour::KeptHour;
use local_view::LocalViews;
use market_model::Side;
use zone_graph::{Grid, NoMemory, Rooms};

/// Makes the next rows of each part and side in which zones are touched, near these: those where its
/// orders have changed, and those where its rooms have moved.
///
/// # Errors
///
/// [`NoMemory`] where memory runs out. All next rows are dropped then.
pub(crate) fn refresh_lines(
    views: &mut LocalViews,
    hour: &KeptHour,
    grid: &Grid,
    rooms: &[Rooms],
    changed: &ChangedZones,
    moved: &[u64],
) -> Result<(), NoMemory>
    requires grid { grid.now ≡ hour.now.board.grid }
    requires board { IsBoard hour.now.board }
    requires hand { hour.now.board.hand ≡ None }
    requires zones { zone_count grid.now ≡ views.old.zones }
    requires parts { hour.now.board.parts ≡ length views.old.lines }
    requires seven { length views.old.lines ≡ 7 }
    requires rooms { length rooms.now ≡ 7 }
    requires moved { length moved.now ≡ 7 }
    requires near { (part : ℕ) (side : Side) → part < 7
        → WereViews hour.now.board part side (touched_of changed.now moved.now part side) (get_or rooms.now part []) (line_of views.old part side).kept }
    requires none_next { views_forgotten views.old ≡ views.old }
    ensures next { OnOk result ((part : ℕ) (side : Side) → part < 7 → AreComing hour.now.board part side (line_of views.new part side)) }
    ensures kept { views_forgotten views.new ≡ views_with_made views.old views.new.made }
    ensures made { OnOk result (views.new.made ≡ most_made views.old.made (near_of_parts grid.now rooms.now (touched_of changed.now moved.now) 7)) }
    ensures still { ((part : ℕ) (side : Side) → part < 7 → touched_of changed.now moved.now part side ≡ 0) → IsOk result × (views.new ≡ views.old) }
    ensures failed { OnErr result (views_forgotten views.new ≡ views.new) }
{
    // It shows that what was made is within its type.
    let _ = views.made();
    for part in 0..PARTS {
        let buys = touched(changed, moved, part, Side::Buy);
        let sells = touched(changed, moved, part, Side::Sell);
        refresh_part(views, hour, grid, part as u32, &rooms[part], buys, sells)?;
    }
    Ok(())
}

// The zones in which orders of a part and side have changed, or rooms of the part have moved.
fn touched(changed: &ChangedZones, moved: &[u64], part: usize, side: Side) -> u64
    requires part { part < 7 }
    requires moved { length moved.now ≡ 7 }
    ensures { result ≡ touched_of changed.now moved.now part side }
{
    changed.of(part as u32, side) | moved[part]
}

// Makes the next rows of both sides of a part, where zones are touched.
fn refresh_part(
    views: &mut LocalViews,
    hour: &KeptHour,
    grid: &Grid,
    part: u32,
    rooms: &Rooms,
    buys: u64,
    sells: u64,
) -> Result<(), NoMemory>
    requires grid { grid.now ≡ hour.now.board.grid }
    requires board { IsBoard hour.now.board }
    requires hand { hour.now.board.hand ≡ None }
    requires zones { zone_count grid.now ≡ views.old.zones }
    requires parts { hour.now.board.parts ≡ length views.old.lines }
    requires part { part < length views.old.lines }
    requires near_buys { WereViews hour.now.board part Buy buys rooms.now (line_of views.old part Buy).kept }
    requires near_sells { WereViews hour.now.board part Sell sells rooms.now (line_of views.old part Sell).kept }
    requires none_next { (side : Side) → (line_of views.old part side).next ≡ None }
    ensures next { OnOk result ((side : Side) → AreComing hour.now.board part side (line_of views.new part side)) }
    ensures others { OnOk result ((other : ℕ) (side : Side) → other ≢ part → line_of views.new other side ≡ line_of views.old other side) }
    ensures kept { views_forgotten views.new ≡ views_forgotten (views_with_made views.old views.new.made) }
    ensures made { OnOk result (views.new.made ≡ most_made views.old.made (near_count grid.now (room_of rooms.now) Buy buys + near_count grid.now (room_of rooms.now) Sell sells)) }
    ensures still { buys ≡ 0 → sells ≡ 0 → IsOk result × (views.new ≡ views.old) }
    ensures failed { OnErr result (views_forgotten views.new ≡ views.new) }
{
    refresh_line(views, hour, grid, part, Side::Buy, rooms, buys)?;
    refresh_line(views, hour, grid, part, Side::Sell, rooms, sells)
}

// Makes the next rows of a part and side, where zones are touched.
fn refresh_line(
    views: &mut LocalViews,
    hour: &KeptHour,
    grid: &Grid,
    part: u32,
    side: Side,
    rooms: &Rooms,
    touched: u64,
) -> Result<(), NoMemory>
    requires grid { grid.now ≡ hour.now.board.grid }
    requires board { IsBoard hour.now.board }
    requires hand { hour.now.board.hand ≡ None }
    requires zones { zone_count grid.now ≡ views.old.zones }
    requires parts { hour.now.board.parts ≡ length views.old.lines }
    requires part { part < length views.old.lines }
    requires near { WereViews hour.now.board part side touched rooms.now (line_of views.old part side).kept }
    requires none_next { (line_of views.old part side).next ≡ None }
    ensures next { OnOk result (AreComing hour.now.board part side (line_of views.new part side)) }
    ensures others { OnOk result ((other : ℕ) (otherwise : Side) → AreOthers part side other otherwise → line_of views.new other otherwise ≡ line_of views.old other otherwise) }
    ensures kept { views_forgotten views.new ≡ views_forgotten (views_with_made views.old views.new.made) }
    ensures made { OnOk result (views.new.made ≡ most_made views.old.made (near_count grid.now (room_of rooms.now) side touched)) }
    ensures still { touched ≡ 0 → IsOk result × (views.new ≡ views.old) }
    ensures failed { OnErr result (views.new ≡ views_forgotten views.old) }
{
    if touched == 0 {
        // It shows that what was made is within its type.
        let _ = views.made();
        return Ok(());
    }
    views.refresh_near(hour, grid, part, side, rooms, touched)
}
