//! Desks that are held by two threads at once, and the desks of no hour.

use desk_locks::{DeskRow, Desks, Held};
use journal_front::Front;
use market_model::{Callers, Hours, Setup};
use std::alloc::Global;
use std::sync::{Barrier, Wait};
use std::test::Fail;
use std::thread::join;
use zone_graph::{Grid, Names, NoMemory, Pairs};

// The row of a day of three hours, without zones or callers.
fn three_hours(alloc: Global) -> Result<DeskRow, NoMemory> {
    let setup = Setup {
        hours: 3,
        zones: Names::new(alloc),
        borders: Pairs::new(alloc),
        callers: Callers::new(alloc),
    };
    let Ok(grid) = Grid::new(alloc, &setup.zones, &setup.borders) else {
        return Err(NoMemory);
    };
    let (_front, _journal, seats, _passes) = Front::open(alloc, &setup)?;
    DeskRow::new(alloc, &grid, seats)
}

// The hours of the desks that are held.
fn hours_of(alloc: Global, held: &Held) -> Result<Vec<u32>, NoMemory> {
    let mut hours = Vec::new(alloc);
    for i in 0..held.len() {
        hours.push(held.desk(i).hour())?;
    }
    Ok(hours)
}

// Holds the desks of some hours, waits until the other thread holds its own, and tells the desks' hours.
fn meet<R: Wait>(
    rt: &R,
    alloc: Global,
    row: &DeskRow,
    both: &Barrier,
    hours: Hours,
) -> Result<Vec<u32>, NoMemory> {
    let held = row.hold(rt, hours);
    both.wait(rt);
    let held = held?;
    let told = hours_of(alloc, &held);
    held.give_back();
    told
}

#[test]
fn hours_have_locks_of_their_own(rt: HostRuntime) -> Result<(), Fail> {
    let alloc: Global = rt.alloc();
    let row = three_hours(alloc)?;
    let both = Barrier::new(2);
    let (handle, shared, gate) = (&rt, &row, &both);
    let (outer, inner) = join(
        handle,
        move || meet(handle, alloc, shared, gate, Hours(0b101)),
        move || meet(handle, alloc, shared, gate, Hours(0b010)),
    );
    assert_eq!(rt;
        (outer?.as_slice(), inner?.as_slice()),
        (&[1, 3][..], &[2][..])
    );
    let none = row.hold(&rt, Hours::EMPTY)?;
    let count = none.len();
    none.give_back();
    assert_eq!(rt; count, 0);
    Ok(())
}
