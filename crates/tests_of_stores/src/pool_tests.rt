//! Pools: each call once with ample memory, a full pool, and a copy of a pool with holes.

ghost use Rattle.std.specs.Prelude.{◌≡◌, ◌<◌, length};
ghost use Rattle.order_pool.specs.Lines.{StandsIn};
ghost use Rattle.order_pool.specs.Pool.{IsLive, IsSound};

use order_pool::{Full, PLACES, Pool};
use std::process::Abort;

// The place so many places behind the first one of a line.
fn nth_place(rt: &impl Abort, pool: &Pool<u32>, line: u32, count: usize) -> u32
    requires line { line < length pool.now.lines }
    requires sound { IsSound pool.now }
    ensures stands { StandsIn pool.now.lines line result }
    ensures live { IsLive pool.now result }
{
    let mut place = pool.first(line).expect(rt, "a place");
    for _passed in 0..count {
        place = pool.next(place).expect(rt, "a place behind it");
    }
    place
}

// The line holds these items in order, and a walk backwards would meet the same places.
fn expect_line(rt: &impl Abort, pool: &Pool<u32>, line: u32, wanted: &[u32])
    requires line { line < length pool.now.lines }
    requires sound { IsSound pool.now }
{
    let mut behind = None;
    for index in 0..wanted.len() {
        let place = nth_place(rt, pool, line, index);
        assert_eq!(rt; pool.previous(place), behind, "{index}");
        assert_eq!(rt; *pool.get(place), wanted[index]);
        behind = Some(place);
    }
    assert_eq!(rt; pool.last(line), behind);
}

// Takes the item so many places behind the first one of line 0.
fn take_nth(rt: &impl Abort, pool: &mut Pool<u32>, count: usize) -> u32
    requires lines { 0 < length pool.old.lines }
    requires sound { IsSound pool.old }
    ensures lines { length pool.new.lines ≡ length pool.old.lines }
    ensures sound { IsSound pool.new }
{
    let place = nth_place(rt, pool, 0, count);
    pool.take(place)
}

// Gives the first item of line 0 another value, and takes it to line 1, before a new one.
fn move_before_new(rt: &impl Abort, pool: &mut Pool<u32>)
    requires lines { length pool.old.lines ≡ 2 }
    requires sound { IsSound pool.old }
    ensures lines { length pool.new.lines ≡ 2 }
    ensures sound { IsSound pool.new }
{
    let first = nth_place(rt, pool, 0, 0);
    *pool.get_mut(first) = 15;
    let item = take_nth(rt, pool, 0);
    let _new = pool.insert(1, None, 50).expect(rt, "a free place");
    let other = nth_place(rt, pool, 1, 0);
    let _moved = pool.insert(1, Some(other), item).expect(rt, "a free place");
}

// A copy is changed, and has what was changed.
fn expect_changed_copy(rt: &impl Abort, pool: &Pool<u32>)
    requires lines { length pool.now.lines ≡ 2 }
    requires sound { IsSound pool.now }
{
    let mut copy = pool.copy().expect(rt, "memory");
    move_before_new(rt, &mut copy);
    expect_line(rt, &copy, 0, &[30, 40]);
    expect_line(rt, &copy, 1, &[15, 50]);
}

#[test]
fn lines_are_made_and_a_copy_shares_nothing(rt: HostRuntime) {
    let mut pool = Pool::with_lines(rt.alloc(), 2).expect(&rt, "memory");
    let third = pool.put(30).expect(&rt, "a free place");
    let second = pool.insert(0, Some(third), 20).expect(&rt, "a free place");
    assert!(rt; pool.insert(0, Some(second), 10).is_ok());
    assert!(rt; pool.put(40).is_ok());
    expect_line(&rt, &pool, 0, &[10, 20, 30, 40]);
    expect_line(&rt, &pool, 1, &[]);

    assert_eq!(rt; take_nth(&rt, &mut pool, 1), 20);
    expect_changed_copy(&rt, &pool);
    expect_line(&rt, &pool, 0, &[10, 30, 40]);
    expect_line(&rt, &pool, 1, &[]);
}

// Puts an item into each place of an empty pool.
fn fill_up(rt: &impl Abort, pool: &mut Pool<u32>)
    requires lines { 0 < length pool.old.lines }
    requires sound { IsSound pool.old }
    ensures lines { 0 < length pool.new.lines }
    ensures sound { IsSound pool.new }
{
    for item in 0..PLACES {
        let _place = pool.put(item).expect(rt, "a free place");
    }
}

#[test]
fn full_at_4096_items(rt: HostRuntime) {
    let mut pool = Pool::new(rt.alloc()).expect(&rt, "memory");
    fill_up(&rt, &mut pool);
    assert_eq!(rt; pool.put(4096), Err(Full));
    let place = nth_place(&rt, &pool, 0, 77);
    let _item = take_nth(&rt, &mut pool, 77);
    assert_eq!(rt; pool.put(4097), Ok(place));
    assert_eq!(rt; pool.put(4098), Err(Full));
}
