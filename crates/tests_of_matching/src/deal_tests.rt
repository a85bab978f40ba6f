//! Deals of blocks on a diamond of four zones: each of two zones in the middle is joined with the first
//! and the last.

ghost use Rattle.std.specs.Prelude.{◌≡◌, ◌<◌, ◌+◌, ◌^◌, length, Ok};
ghost use Rattle.zone_graph.specs.declared.route.Arc.{Arc};
ghost use Rattle.zone_graph.specs.Graph.{border_count, zone_count};
ghost use Rattle.zone_graph.specs.Pour.{opposite_arc};
ghost use Rattle.zone_graph.specs.Rooms.{room_of};
ghost use Rattle.zone_graph.specs.Route.{IsIn};
ghost use Rattle.block_book.specs.declared.block.RestingBlock.{RestingBlock as Block};

use block_book::{BlockBook, RestingBlock};
use block_match::{BlockDeal, match_block, match_resting};
use order_kinds::{Price, Side};
use std::process::Abort;
use std::test::Fail;
use tests_of_shared_grids::{diamond, legs_over, rooms_of_diamond};
use zone_graph::{Arc, Grid, Legs, Rooms};

// The last hour of the blocks.
const LAST: u32 = 14;

// A block: its number, which is its moment too, its zone and side, its price in cents and its lots.
type Row = (u32, u32, Side, i32, u32);

// The blocks of a book, the block that enters beside them, or none where those that rest are matched, and
// the taker, the maker and the price of the deal, or none.
type Case<'a> = (&'a [Row], Option<Row>, Option<(u32, u32, i32)>);

// Blocks of ten and of eleven lots at one price.
const BOTH: [Row; 2] = [(1, 0, Side::Sell, 4000, 10), (2, 0, Side::Sell, 4000, 11)];

// From the zone of the first there is no room for all of it.
const NEAR_AND_FAR: [Row; 2] = [(1, 1, Side::Sell, 3000, 10), (2, 0, Side::Sell, 4000, 10)];

const ENTERING: [Case; 5] = [
    (&BOTH, Some((3, 3, Side::Buy, 5000, 10)), Some((3, 1, 4000))),
    (&BOTH, Some((3, 3, Side::Buy, 4000, 10)), Some((3, 1, 4000))),
    (&BOTH, Some((3, 3, Side::Buy, 3999, 10)), None),
    (&BOTH, Some((3, 3, Side::Buy, 5000, 11)), None),
    (
        &NEAR_AND_FAR,
        Some((3, 3, Side::Buy, 5000, 10)),
        Some((3, 2, 4000)),
    ),
];

// The first has no partner, the second and the third are each other's.
const THREE: [Row; 3] = [
    (1, 3, Side::Buy, 6000, 7),
    (2, 3, Side::Buy, 5000, 10),
    (3, 0, Side::Sell, 4000, 10),
];

const TWO: [Row; 2] = [(1, 3, Side::Buy, 6000, 7), (3, 0, Side::Sell, 4000, 10)];

const RESTING: [Case; 2] = [(&THREE, None, Some((3, 2, 5000))), (&TWO, None, None)];

fn block((number, zone, side, cents, quantity): Row) -> RestingBlock {
    RestingBlock {
        number,
        caller: 0,
        zone,
        side,
        price: Price(cents),
        quantity,
        last: LAST,
        moment: u64::from(number),
    }
}

// What was made.
fn made<T>(rt: &impl Abort, what: Result<T, Fail>) -> T
    ensures { what ≡ Ok result }
{
    match what {
        Ok(value) => value,
        Err(_) => rt.panic("it was not made"),
    }
}

// A book of blocks of different numbers in the zones of the diamond.
fn book_of(rt: &(impl Abort + AllocGlobal), rows: &[Row]) -> BlockBook
    ensures { (block : Block) → IsIn block result → block.zone < 4 }
{
    let mut book = BlockBook::new(rt.alloc()).expect(rt, "memory");
    for row in rows {
        let block = block(*row);
        if block.zone >= 4 || book.get(block.number).is_some() {
            rt.panic("no such block");
        }
        let Ok(()) = book.rest(block) else {
            rt.panic("no place");
        };
    }
    book
}

// The deal of a block with those of a book, or the next one of the period of the book where there is no
// such block.
fn deal_in(
    rt: &(impl Abort + AllocGlobal),
    grid: &Grid,
    rooms: &Rooms,
    book: &BlockBook,
    own: Option<Row>,
) -> Option<BlockDeal>
    requires zones { zone_count grid.now ≡ 4 }
    requires borders { border_count grid.now ≡ 4 }
    requires blocks { (block : Block) → IsIn block book.now → block.zone < 4 }
    requires size { length rooms.now ≡ 4 }
    requires fit { (arc : Arc) → room_of rooms.now arc + room_of rooms.now (opposite_arc arc) < 2 ^ 32 }
{
    let found = match own {
        Some(row) => {
            let own = block(row);
            assert!(rt; own.zone < 4);
            match_block(rt.alloc(), grid, book, rooms, &own)
        }
        None => match_resting(rt.alloc(), grid, book, rooms, LAST),
    };
    found.expect(rt, "memory")
}

// The same, over the rooms of the diamond.
fn deal_of(rt: &(impl Abort + AllocGlobal), rows: &[Row], own: Option<Row>) -> Option<BlockDeal> {
    let grid = made(rt, diamond(rt.alloc()));
    let rooms = made(rt, rooms_of_diamond(&grid));
    let book = book_of(rt, rows);
    deal_in(rt, &grid, &rooms, &book, own)
}

// Six lots over one side of the diamond, and four over the other.
fn both_sides(rt: &(impl Abort + AllocGlobal)) -> Legs {
    let one_side = [Arc::over(0, true), Arc::over(2, true)];
    let other_side = [Arc::over(1, true), Arc::over(3, true)];
    let sides = [(one_side.as_slice(), 6), (other_side.as_slice(), 4)];
    legs_over(rt.alloc(), &sides).expect(rt, "memory")
}

// The deals of some cases are those that are wanted, over both sides of the diamond.
fn expect_deals(rt: &(impl Abort + AllocGlobal), cases: &[Case]) {
    for (rows, own, want) in cases {
        let found = deal_of(rt, rows, *own);
        let terms = found
            .as_ref()
            .map(|deal| (deal.taker, deal.maker, deal.price.0));
        assert_eq!(rt; terms, *want, "{own:?}");
        if let Some(deal) = found {
            assert_eq!(rt; deal.legs, both_sides(rt), "{own:?}");
        }
    }
}

#[test]
fn a_block_trades_wholly_over_two_routes_or_not_at_all(rt: HostRuntime) {
    expect_deals(&rt, ENTERING.as_slice());
}

#[test]
fn of_two_resting_blocks_the_earlier_is_the_maker(rt: HostRuntime) {
    expect_deals(&rt, RESTING.as_slice());
}
