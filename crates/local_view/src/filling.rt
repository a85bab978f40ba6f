//! The lists of rows of one part and side, for each zone.

ghost use Rattle.std.specs.Prelude.{◌≡◌, ◌⊎◌, ◌&&◌, not, ◌<◌, ℕ, [], IfOk, IfSome, IsTrue, List, None, OnErr, OnOk, get_or, length, false, replicate, true};
ghost use Rattle.cut_proof.specs.ZoneSet.{holds};
ghost use Rattle.market_model.specs.declared.reply.ViewRow.{ViewRow as AViewRow};
ghost use Rattle.market_model.specs.Board.{BoardState};
ghost use Rattle.zone_graph.specs.Graph.{HasZone, border_count, zone_count};
ghost use Rattle.local_view.specs.Footing.{AreFilled, AreListed, AreMadeOver, IsFootingAfter, IsFoundedAt, IsOver, IsSized, RestOnWork, certificate_at};
ghost use Rattle.local_view.specs.Boards.{view_of};
ghost use Rattle.local_view.specs.Drafts.{AreKept, IsFlow};
ghost use Rattle.local_view.specs.Works.{AreComputed, BoardLine, IsLineWork, IsSound, IsWork};

use crate::balance::is_balanced;
use crate::footing::{Certificate, Footing, make_footing};
use crate::listing::{Line, list_rows};
use crate::whole::WholeLine;
use crate::work::{Work, make_work};
use market_model::{Board, NoMemory, Rows, ViewRow};
use std::alloc::Global;
use std::mem;
use zone_graph::{Grid, MOST_ZONES};

/// Makes the lists of rows of those zones of a set whose kept rows do not rest on the footing once it is moved to the line, and
/// answers for which zones it made them.
///
/// # Errors
///
/// [`NoMemory`], where there is no memory for a row or a footing.
pub(crate) fn fill_next<B: Board>(
    alloc: Global,
    board: &B,
    grid: &Grid,
    kept: &mut Option<Work>,
    line: Line,
    computed: u64,
    lists: &mut [Rows],
    footing: &mut Option<Footing>,
) -> Result<u64, NoMemory>
    requires grid { grid.now ≡ (B.state board.now).grid }
    requires hand { (B.state board.now).hand ≡ None }
    requires part { line.part < (B.state board.now).parts }
    requires work { IfSome kept.old IsSound }
    requires zones { length lists.old ≡ zone_count grid.now }
    requires sized { IfSome footing.old (IsSized (zone_count grid.now)) }
    ensures made { IfOk result (AreMadeOver grid.now (B.state board.now) line.part line.side computed footing.old footing.new lists.new) }
    ensures failed { OnErr result ((zone : ℕ) (rows : List AViewRow) → HasZone grid.now zone → IsFoundedAt (zone_count grid.now) footing.old zone rows → IsFoundedAt (zone_count grid.now) footing.new zone rows) }
    ensures sized { IfSome footing.new (IsSized (zone_count grid.now)) }
    ensures size { length lists.new ≡ length lists.old }
    ensures work { IfSome kept.new IsSound }
{
    make_footing(alloc, grid, line.side, footing)?;
    match footing {
        Some(on) => {
            let made = fill_lists(alloc, board, grid, kept, line, computed, lists, on)?;
            on.resting |= made.resting;
            Ok(made.lists)
        }
        None => Ok(0),
    }
}

// Makes the list of rows of each zone of a set, but for those whose kept rows rest on the footing still, and answers which
// were made.
fn fill_lists<B: Board>(
    alloc: Global,
    board: &B,
    grid: &Grid,
    kept: &mut Option<Work>,
    line: Line,
    computed: u64,
    lists: &mut [Rows],
    footing: &mut Footing,
) -> Result<Made, NoMemory>
    requires grid { grid.now ≡ (B.state board.now).grid }
    requires hand { (B.state board.now).hand ≡ None }
    requires part { line.part < (B.state board.now).parts }
    requires work { IfSome kept.old IsSound }
    requires zones { length lists.old ≡ zone_count grid.now }
    requires footing { IsOver grid.now line.side footing.old }
    ensures filled { IfOk result (AreFilled grid.now (B.state board.now) line.part line.side computed footing.old footing.new lists.new) }
    ensures footing { IsOver grid.now line.side footing.new }
    ensures after { IsFootingAfter (zone_count grid.now) footing.old footing.new }
    ensures size { length lists.new ≡ length lists.old }
    ensures work { IfSome kept.new IsSound }
{
    make_work(alloc, grid, kept)?;
    match kept {
        Some(work) => fill_over(alloc, board, grid, work, line, computed, lists, footing),
        None => Ok(Made {
            lists: 0,
            resting: 0,
        }),
    }
}

// Makes them over the rooms and the orders of the line, which are read once.
fn fill_over<B: Board>(
    alloc: Global,
    board: &B,
    grid: &Grid,
    work: &mut Work,
    line: Line,
    computed: u64,
    lists: &mut [Rows],
    footing: &mut Footing,
) -> Result<Made, NoMemory>
    ghost of_board: { BoardState }
    requires board { of_board ≡ B.state board.now }
    requires grid { grid.now ≡ of_board.grid }
    requires hand { of_board.hand ≡ None }
    requires part { line.part < of_board.parts }
    requires work { IsWork grid.now work.old }
    requires zones { length lists.old ≡ zone_count grid.now }
    requires footing { IsOver grid.now line.side footing.old }
    ensures filled { IfOk result (AreFilled grid.now of_board line.part line.side computed footing.old footing.new lists.new) }
    ensures footing { IsOver grid.now line.side footing.new }
    ensures after { IsFootingAfter (zone_count grid.now) footing.old footing.new }
    ensures size { length lists.new ≡ length lists.old }
    ensures work { IsWork grid.now work.new }
{
    board.rooms(line.part, &mut work.of_part);
    work.whole.read(board, grid, line)?;
    fill_zones(alloc, grid, work, line, computed, lists, footing)
}

// Makes the lists of those zones whose rows do not rest on the footing once it is moved to the line and the rooms, and of those
// whose rows are the whole line where not all of it comes to them any more. The orders of the footing and those of the line
// change places.
fn fill_zones(
    alloc: Global,
    grid: &Grid,
    work: &mut Work,
    line: Line,
    computed: u64,
    lists: &mut [Rows],
    footing: &mut Footing,
) -> Result<Made, NoMemory>
    ghost of: { BoardLine }
    requires grid { grid.now ≡ of.board.grid }
    requires part { line.part ≡ of.part }
    requires side { line.side ≡ of.side }
    requires work { IsLineWork of.board of.part of.side work.old }
    requires zones { length lists.old ≡ zone_count grid.now }
    requires footing { IsOver grid.now line.side footing.old }
    ensures filled { IfOk result (AreFilled grid.now of.board of.part of.side computed footing.old footing.new lists.new) }
    ensures footing { IsOver grid.now line.side footing.new }
    ensures after { IsFootingAfter (zone_count grid.now) footing.old footing.new }
    ensures size { length lists.new ≡ length lists.old }
    ensures work { IsWork grid.now work.new }
{
    // It shows that the grid has no more than 64 zones.
    let _ = grid.zones();
    footing.rest_where(work.whole.fits);
    let orders = work.whole.orders.as_slice();
    let moved = footing.move_to(grid, orders, &work.of_part)?;
    let wholes = footing.whole_zones();
    let asked = without(computed, without(moved, wholes));
    let ways = &mut *footing.ways;
    let whole = work
        .whole
        .comes_to(grid, &work.of_part, line.side, asked, ways);
    let still = without(moved, without(wholes, whole));
    let made = without(computed, still);
    let certificates = footing.certificates.as_mut_slice();
    let resting = list_zones(alloc, grid, work, line, made, whole, lists, certificates)?;
    mem::swap(&mut footing.orders, &mut work.whole.orders);
    footing.resting = still;
    Ok(Made {
        lists: made,
        resting,
    })
}

/// Of which zones lists were made, and of which of these the rows rest on the footing. Bit z stands for zone z.
#[derive(Clone, Copy)]
pub(crate) struct Made {
    /// The zones whose lists were made.
    pub(crate) lists: u64,
    /// Those whose rows rest on the footing.
    pub(crate) resting: u64,
}

/// Clears all lists. The memory that they have stays.
pub(crate) fn clear_lists(alloc: Global, lists: &mut [Rows])
    ensures lists { (zone : ℕ) → get_or lists.new zone [] ≡ [] }
    ensures size { length lists.new ≡ length lists.old }
{
    for list in lists.iter_mut() {
        clear(alloc, list);
    }
}

// Clears a list.
fn clear(alloc: Global, list: &mut Rows)
    ensures { list.new ≡ [] }
{
    if !list.is_empty() {
        let mut rows = mem::replace(list, Rows::new(alloc)).into_vec();
        rows.clear();
        *list = Rows::from(rows);
    }
}

// Makes the list of rows of each zone of a set, over the rooms of the part. In some zones the views are the whole line.
fn list_zones(
    alloc: Global,
    grid: &Grid,
    work: &mut Work,
    line: Line,
    made: u64,
    whole: u64,
    lists: &mut [Rows],
    certificates: &mut [Certificate],
) -> Result<u64, NoMemory>
    ghost board: { BoardState }
    requires grid { grid.now ≡ board.grid }
    requires whole { (zone : ℕ) → HasZone grid.now zone → holds whole zone ≡ true → work.old.whole.rows.items ≡ view_of board line.part line.side zone }
    requires work { IsLineWork board line.part line.side work.old }
    requires zones { length lists.old ≡ zone_count grid.now }
    requires certificates { length certificates.old ≡ zone_count grid.now }
    requires flows { (zone : ℕ) → HasZone grid.now zone → IsFlow (border_count grid.now) (certificate_at certificates.old zone).flow }
    ensures lists { OnOk result (AreComputed made board line.part line.side lists.new) }
    ensures size { length lists.new ≡ length lists.old }
    ensures work { IsLineWork board line.part line.side work.new }
    ensures same { (work.new.of_part ≡ work.old.of_part) × (work.new.whole ≡ work.old.whole) }
    ensures certificates { length certificates.new ≡ zone_count grid.now }
    ensures flows { (zone : ℕ) → HasZone grid.now zone → IsFlow (border_count grid.now) (certificate_at certificates.new zone).flow }
    ensures others { (zone : ℕ) → holds made zone ≡ false → certificate_at certificates.new zone ≡ certificate_at certificates.old zone }
    ensures rest { IfOk result (λ resting. AreListed grid.now work.new line.side made resting certificates.new lists.new) }
{
    let zones = grid.zones();
    let mut resting: u64 = 0;
    for (zone, list) in lists.iter_mut().enumerate() {
        prove!(zone < zones as usize);
        if is_set(made, zone) {
            let certificate = &mut certificates[zone];
            let is_whole = is_set(whole, zone);
            let is = make_list(
                alloc,
                grid,
                work,
                line,
                zone as u32,
                is_whole,
                list,
                certificate,
            )?;
            resting = with_zone(resting, zone, is);
        }
    }
    Ok(resting)
}

/// Those zones of a set that are not in another one. Bit z stands for zone z.
pub(crate) fn without(zones: u64, others: u64) -> u64
    ensures { (zone : ℕ) → holds result zone ≡ (holds zones zone && not (holds others zone)) }
{
    zones & !others
}

// A set, with a zone where that is said.
fn with_zone(zones: u64, zone: usize, is: bool) -> u64
    requires { zone < 64 }
    ensures { (other : ℕ) → holds result other ≡ true → (holds zones other ≡ true) ⊎ ((other ≡ zone) × (is ≡ true)) }
{
    if is { zones | (1 << zone) } else { zones }
}

// Makes the rows of a zone: those of the whole line, where that is its view.
fn make_list(
    alloc: Global,
    grid: &Grid,
    work: &mut Work,
    line: Line,
    zone: u32,
    is_whole: bool,
    list: &mut Rows,
    certificate: &mut Certificate,
) -> Result<bool, NoMemory>
    ghost board: { BoardState }
    requires grid { grid.now ≡ board.grid }
    requires zone { HasZone grid.now zone }
    requires whole { IsTrue is_whole → work.old.whole.rows.items ≡ view_of board line.part line.side zone }
    requires work { IsLineWork board line.part line.side work.old }
    requires flow { IsFlow (border_count grid.now) certificate.old.flow }
    ensures list { OnOk result (list.new ≡ view_of board line.part line.side zone) }
    ensures work { IsLineWork board line.part line.side work.new }
    ensures same { (work.new.of_part ≡ work.old.of_part) × (work.new.whole ≡ work.old.whole) }
    ensures flow { IsFlow (border_count grid.now) certificate.new.flow }
    ensures rest { IfOk result (λ is. IsTrue is → RestOnWork grid.now work.new line.side zone certificate.new list.new) }
{
    if is_whole {
        copy_rows(alloc, work.whole.rows.as_slice(), list)?;
        certificate.is_whole = true;
        return Ok(true);
    }
    fill_list(alloc, grid, work, line, zone, list, certificate)
}

// Puts rows in place of those of a list.
fn copy_rows(alloc: Global, rows: &[ViewRow], list: &mut Rows) -> Result<(), NoMemory>
    ensures { OnOk result (list.new ≡ rows.now) }
{
    let mut copied = mem::replace(list, Rows::new(alloc)).into_vec();
    copied.clear();
    copied.extend_from_slice(rows)?;
    *list = Rows::from(copied);
    Ok(())
}

/// Whether the bit at a place is set.
pub(crate) fn is_set(bits: u64, place: usize) -> bool
    ensures { result ≡ holds bits place }
{
    if place < 64 {
        (bits >> place) & 1 == 1
    } else {
        false
    }
}

// Makes the rows of a zone, in place of those that were there: those of a draft, where they are certified, and else those that
// a walk along the line finds.
fn fill_list(
    alloc: Global,
    grid: &Grid,
    work: &mut Work,
    line: Line,
    zone: u32,
    list: &mut Rows,
    certificate: &mut Certificate,
) -> Result<bool, NoMemory>
    ghost board: { BoardState }
    requires grid { grid.now ≡ board.grid }
    requires zone { HasZone grid.now zone }
    requires work { IsLineWork board line.part line.side work.old }
    requires flow { IsFlow (border_count grid.now) certificate.old.flow }
    ensures list { OnOk result (list.new ≡ view_of board line.part line.side zone) }
    ensures work { IsLineWork board line.part line.side work.new }
    ensures same { (work.new.of_part ≡ work.old.of_part) × (work.new.whole ≡ work.old.whole) }
    ensures flow { IsFlow (border_count grid.now) certificate.new.flow }
    ensures rest { IfOk result (λ is. IsTrue is → RestOnWork grid.now work.new line.side zone certificate.new list.new) }
{
    let mut rows = mem::replace(list, Rows::new(alloc)).into_vec();
    if list_certified(grid, work, line, zone, certificate, &mut rows)? {
        *list = Rows::from(rows);
        return Ok(true);
    }
    list_rows(
        work.whole.orders.as_slice(),
        grid,
        &work.of_part,
        &mut work.walk,
        line.side,
        zone,
        &mut rows,
    )?;
    *list = Rows::from(rows);
    Ok(false)
}

// Writes the rows of a zone that a draft tells, and answers whether they are certified. The draft begins with the flow of the
// certificate.
fn list_certified(
    grid: &Grid,
    work: &mut Work,
    line: Line,
    zone: u32,
    certificate: &mut Certificate,
    rows: &mut Vec<ViewRow>,
) -> Result<bool, NoMemory>
    ghost of: { BoardLine }
    requires grid { grid.now ≡ of.board.grid }
    requires zone { HasZone grid.now zone }
    requires side { line.side ≡ of.side }
    requires work { IsLineWork of.board of.part of.side work.old }
    requires flow { IsFlow (border_count grid.now) certificate.old.flow }
    ensures rows { IfOk result (λ is. IsTrue is → rows.new.items ≡ view_of of.board of.part of.side zone) }
    ensures work { IsLineWork of.board of.part of.side work.new }
    ensures same { (work.new.of_part ≡ work.old.of_part) × (work.new.whole ≡ work.old.whole) }
    ensures flow { IsFlow (border_count grid.now) certificate.new.flow }
    ensures rest { IfOk result (λ is. IsTrue is → RestOnWork grid.now work.new line.side zone certificate.new rows.new.items) }
{
    if !work.whole.fits {
        return Ok(false);
    }
    // It shows that the grid has no more than 64 zones.
    let _ = grid.zones();
    let (draft, flow) = (&mut *work.draft, &mut certificate.flow);
    let (rooms, shown) = (&work.of_part, &work.whole.shown);
    if draft.begin(grid, rooms, flow, line.side, zone, shown)
        && is_balanced(grid, flow, line.side, zone, shown)
    {
        list_whole(&work.whole, certificate, rows)?;
        return Ok(true);
    }
    list_along(grid, work, line, zone, certificate, rows)
}

// Writes the rows of a whole line, in place of others. No zone has a cut before its end.
fn list_whole(
    whole: &WholeLine,
    certificate: &mut Certificate,
    rows: &mut Vec<ViewRow>,
) -> Result<(), NoMemory>
    ensures certified { certificate.new.is_whole ≡ false }
    ensures flow { certificate.new.flow ≡ certificate.old.flow }
    ensures cuts { certificate.new.cuts ≡ replicate 64 (length whole.now.orders.items) }
    ensures rows { OnOk result (rows.new.items ≡ whole.now.rows.items) }
{
    certificate.is_whole = false;
    certificate.cuts = [whole.orders.len(); MOST_ZONES];
    rows.clear();
    rows.extend_from_slice(whole.rows.as_slice())?;
    Ok(())
}

// Writes the rows of a zone whose orders give what a draft has them obtain, and answers whether they are certified.
fn list_along(
    grid: &Grid,
    work: &mut Work,
    line: Line,
    zone: u32,
    certificate: &mut Certificate,
    rows: &mut Vec<ViewRow>,
) -> Result<bool, NoMemory>
    ghost of: { BoardLine }
    requires grid { grid.now ≡ of.board.grid }
    requires zone { HasZone grid.now zone }
    requires side { line.side ≡ of.side }
    requires fits { work.old.whole.fits ≡ true }
    requires work { IsLineWork of.board of.part of.side work.old }
    requires rooms { certificate.old.flow.of ≡ work.old.of_part }
    requires left { length certificate.old.flow.left ≡ border_count grid.now }
    requires kept { AreKept work.old.of_part certificate.old.flow.left }
    ensures rows { IfOk result (λ is. IsTrue is → rows.new.items ≡ view_of of.board of.part of.side zone) }
    ensures work { IsLineWork of.board of.part of.side work.new }
    ensures same { (work.new.of_part ≡ work.old.of_part) × (work.new.whole ≡ work.old.whole) }
    ensures flow { IsFlow (border_count grid.now) certificate.new.flow }
    ensures rest { IfOk result (λ is. IsTrue is → RestOnWork grid.now work.new line.side zone certificate.new rows.new.items) }
{
    // It shows that the grid has no more than 64 zones.
    let _ = grid.zones();
    let (cuts, flow) = (&mut *work.cuts, &mut certificate.flow);
    cuts.along(grid, &mut work.draft, flow, &work.whole, rows)?;
    if !cuts.are_certified(grid, flow, line.side, zone, work.whole.orders.len()) {
        return Ok(false);
    }
    flow.note_given(&cuts.given);
    certificate.is_whole = false;
    certificate.cuts = cuts.places;
    Ok(true)
}
