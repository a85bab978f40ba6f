//! The views of one part: for each side the rows of each zone, kept and next.

ghost use Rattle.std.specs.Prelude.{◌≡◌, ◌<◌, ℕ, [], IfOk, IfSome, None, OnOk, length, get_or, replicate};
ghost use Rattle.order_kinds.specs.declared.side.Side.TheVariants.{Buy, Sell};
ghost use Rattle.order_kinds.specs.Side.{opposite};
ghost use Rattle.market_model.specs.Board.{IsBoard};
ghost use Rattle.zone_graph.specs.Graph.{zone_count};
ghost use Rattle.local_view.specs.Kept.{AreNext, IsSized, adopted, empty_part, empty_rows, forgotten, on_side, part_adopted, part_forgotten};
ghost use Rattle.local_view.specs.Rows.{HaveLists, chosen_at, of_zones};
ghost use Rattle.local_view.specs.Works.{HasMade, IsSound};

use crate::filling::{clear_lists, fill_next, is_set};
use crate::footing::{Footing, take_off};
use crate::listing::Line;
use crate::work::Work;
use market_model::{Board, NoMemory, Rows, Side, ViewRow};
use std::alloc::Global;
use std::marker::Model;
use std::mem;
use zone_graph::Grid;

/// The rows of the views of one part and side: the kept ones of each zone, and the next ones, where
/// there are such. Of the zones whose rows were not computed the next ones are the kept ones. No list is
/// made before an order rests in the line.
#[derive(Drop)]
pub(crate) struct LineViews {
    zones: u32,
    kept: Vec<Rows>,
    next: Vec<Rows>,
    // What the rows rest on that are next, or kept where they are not computed.
    footing: Option<Footing>,
    computed: u64,
    is_next: bool,
}

impl Model for LineViews {
    ghost use Rattle.local_view.specs.Rows.{LineRows, chosen, of_zones, rows_if};
    ghost use Rattle.local_view.specs.Footing.{IsLine};

    ghost Value = { LineRows };

    ghost view = { λ line. record { kept = of_zones line.zones line.kept.items; next = rows_if line.is_next (chosen line.zones line.computed line.kept.items line.next.items) } };

    ghost invariant = { λ line. IsLine line.zones line.kept.items line.next.items line.computed line.is_next line.footing };
}

impl LineViews {
    /// Empty rows of each zone, and none that are next.
    pub(crate) fn new(alloc: Global, zones: u32) -> LineViews
        ensures { result ≡ empty_rows zones }
    {
        LineViews {
            zones,
            kept: Vec::new(alloc),
            next: Vec::new(alloc),
            footing: None,
            computed: 0,
            is_next: false,
        }
    }

    /// The kept rows of a zone.
    pub(crate) fn rows(&self, zone: u32) -> &[ViewRow]
        requires { zone < length self.now.kept }
        ensures { result.now ≡ get_or self.now.kept zone [] }
    {
        rows_of(self.kept.as_slice(), zone as usize)
    }

    /// The next rows become the kept ones, where there are such.
    pub(crate) fn adopt(&mut self)
        ensures adopted { self.new ≡ adopted self.old }
        ensures size { length self.new.kept ≡ length self.old.kept }
    {
        if self.is_next {
            adopt_lists(
                self.kept.as_mut_slice(),
                self.next.as_mut_slice(),
                self.computed,
            );
            self.is_next = false;
        }
    }

    /// Drops the next rows.
    pub(crate) fn forget(&mut self)
        ensures { self.new ≡ forgotten self.old }
    {
        if self.is_next {
            take_off(&mut self.footing, self.computed);
            self.is_next = false;
        }
    }

    /// Makes the next rows of each zone: those of a set of zones from the board, and the others are the
    /// kept ones.
    ///
    /// # Errors
    ///
    /// [`NoMemory`], where there is no memory for a row.
    pub(crate) fn refresh<B: Board>(
        &mut self,
        alloc: Global,
        board: &B,
        grid: &Grid,
        work: &mut Option<Work>,
        line: Line,
        computed: u64,
    ) -> Result<(), NoMemory>
        requires grid { grid.now ≡ (B.state board.now).grid }
        requires hand { (B.state board.now).hand ≡ None }
        requires part { line.part < (B.state board.now).parts }
        requires work { IfSome work.old IsSound }
        requires zones { length self.old.kept ≡ zone_count grid.now }
        ensures next { OnOk result (HasMade computed (B.state board.now) line.part line.side self.old.kept self.new) }
        ensures kept { forgotten self.new ≡ forgotten self.old }
        ensures work { IfSome work.new IsSound }
        ensures board { IsBoard (B.state board.now) }
    {
        self.forget();
        if board.first(line.part, line.side).is_none() {
            clear_lists(alloc, self.next.as_mut_slice());
            take_off(&mut self.footing, computed);
            self.computed = computed;
            self.is_next = true;
            return Ok(());
        }
        make_lists(alloc, self.zones, &mut self.kept, &mut self.next)?;
        let lists = self.next.as_mut_slice();
        let footing = &mut self.footing;
        self.computed = fill_next(alloc, board, grid, work, line, computed, lists, footing)?;
        self.is_next = true;
        Ok(())
    }
}

// The rows of a zone: none, where its list is not made.
fn rows_of(lists: &[Rows], zone: usize) -> &[ViewRow]
    ensures { result.now ≡ get_or lists.now zone [] }
{
    match lists.get(zone) {
        Some(rows) => rows.as_slice(),
        None => &[],
    }
}

// The lists of the zones that were computed change places with the kept ones.
fn adopt_lists(kept: &mut [Rows], next: &mut [Rows], computed: u64)
    requires { length next.old ≡ length kept.old }
    ensures kept { (zone : ℕ) → get_or kept.new zone [] ≡ chosen_at computed kept.old next.old zone }
    ensures size { length kept.new ≡ length kept.old }
    ensures next { length next.new ≡ length next.old }
{
    for (zone, list) in kept.iter_mut().enumerate() {
        if is_set(computed, zone) {
            mem::swap(list, &mut next[zone]);
        }
    }
}

// Makes the lists of so many zones, where none are made yet: empty ones.
fn make_lists(
    alloc: Global,
    zones: u32,
    kept: &mut Vec<Rows>,
    next: &mut Vec<Rows>,
) -> Result<(), NoMemory>
    requires { HaveLists zones kept.old.items next.old.items }
    ensures lists { HaveLists zones kept.new.items next.new.items }
    ensures made { OnOk result (length next.new.items ≡ zones) }
    ensures same { of_zones zones kept.new.items ≡ of_zones zones kept.old.items }
{
    if next.is_empty() {
        let empty = empty_lists(alloc, zones)?;
        *next = empty_lists(alloc, zones)?;
        *kept = empty;
    }
    Ok(())
}

// Empty rows of so many zones.
fn empty_lists(alloc: Global, zones: u32) -> Result<Vec<Rows>, NoMemory>
    ensures { IfOk result (λ lists. lists.items ≡ replicate zones []) }
{
    let mut lists = Vec::with_capacity(alloc, zones as usize)?;
    for _ in 0..zones {
        lists.push(Rows::new(alloc))?;
    }
    Ok(lists)
}

/// The views of a part.
#[derive(Drop)]
pub(crate) struct PartViews {
    /// Those of its buys.
    pub(crate) buys: LineViews,
    /// Those of its sells.
    pub(crate) sells: LineViews,
}

impl PartViews {
    /// Empty rows of each zone, and none that are next.
    pub(crate) fn new(alloc: Global, zones: u32) -> PartViews
        ensures { result ≡ empty_part zones }
    {
        PartViews {
            buys: LineViews::new(alloc, zones),
            sells: LineViews::new(alloc, zones),
        }
    }

    /// The views of a side.
    pub(crate) fn on(&self, side: Side) -> &LineViews
        ensures { result.now ≡ on_side self.now side }
    {
        match side {
            Side::Buy => &self.buys,
            Side::Sell => &self.sells,
        }
    }

    /// The next rows become the kept ones, where there are such.
    pub(crate) fn adopt(&mut self)
        ensures adopted { self.new ≡ part_adopted self.old }
        ensures sized { (zones : ℕ) → IsSized zones self.old → IsSized zones self.new }
    {
        self.buys.adopt();
        self.sells.adopt();
    }

    /// Drops the next rows.
    pub(crate) fn forget(&mut self)
        ensures { self.new ≡ part_forgotten self.old }
    {
        self.buys.forget();
        self.sells.forget();
    }

    /// Makes the next rows of each side and zone from the board.
    ///
    /// # Errors
    ///
    /// [`NoMemory`], where there is no memory for a row.
    pub(crate) fn refresh<B: Board>(
        &mut self,
        alloc: Global,
        board: &B,
        grid: &Grid,
        work: &mut Option<Work>,
        part: u32,
    ) -> Result<(), NoMemory>
        requires grid { grid.now ≡ (B.state board.now).grid }
        requires hand { (B.state board.now).hand ≡ None }
        requires part { part < (B.state board.now).parts }
        requires work { IfSome work.old IsSound }
        requires zones { IsSized (zone_count grid.now) self.old }
        ensures buys { OnOk result (AreNext (B.state board.now) part Buy (zone_count grid.now) self.new.buys) }
        ensures sells { OnOk result (AreNext (B.state board.now) part Sell (zone_count grid.now) self.new.sells) }
        ensures kept { part_forgotten self.new ≡ part_forgotten self.old }
        ensures sized { IsSized (zone_count grid.now) self.new }
        ensures work { IfSome work.new IsSound }
    {
        // It shows that the grid has no more than 64 zones.
        let _ = grid.zones();
        let buys = Line {
            part,
            side: Side::Buy,
        };
        self.buys.refresh(alloc, board, grid, work, buys, u64::MAX)?;
        let sells = Line {
            part,
            side: Side::Sell,
        };
        self.sells
            .refresh(alloc, board, grid, work, sells, u64::MAX)
    }

    /// Makes the next rows of one side: of a set of zones from the board, and of the others the kept ones.
    ///
    /// # Errors
    ///
    /// [`NoMemory`], where there is no memory for a row.
    pub(crate) fn refresh_near<B: Board>(
        &mut self,
        alloc: Global,
        board: &B,
        grid: &Grid,
        work: &mut Option<Work>,
        line: Line,
        computed: u64,
    ) -> Result<(), NoMemory>
        requires grid { grid.now ≡ (B.state board.now).grid }
        requires hand { (B.state board.now).hand ≡ None }
        requires part { line.part < (B.state board.now).parts }
        requires work { IfSome work.old IsSound }
        requires zones { IsSized (zone_count grid.now) self.old }
        ensures next { OnOk result (HasMade computed (B.state board.now) line.part line.side (on_side self.old line.side).kept (on_side self.new line.side)) }
        ensures other { on_side self.new (opposite line.side) ≡ on_side self.old (opposite line.side) }
        ensures kept { part_forgotten self.new ≡ part_forgotten self.old }
        ensures work { IfSome work.new IsSound }
        ensures board { IsBoard (B.state board.now) }
    {
        match line.side {
            Side::Buy => self.buys.refresh(alloc, board, grid, work, line, computed),
            Side::Sell => self.sells.refresh(alloc, board, grid, work, line, computed),
        }
    }
}
