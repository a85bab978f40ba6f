//! What the calls of a book do to its places and its lines.

ghost use Rattle.std.specs.Prelude.{◌≡◌, ◌+◌, ◌<◌, ◌↔◌, map, length, slice_set, slice_index_or, IsErr, IsSome, OnOk, OnErr, []};
ghost use Rattle.std.specs.Option.{IsSomeAnd};
ghost use Rattle.zone_graph.specs.InOrder.{put_in_order};
ghost use Rattle.record_pool.specs.Keyed.{held_at, held_count, IsAbsent};
ghost use Rattle.contract_book.specs.Book.{without, changed};
ghost use Rattle.contract_book.specs.Inside.{book_in, number_of, side_of, BelongsTo, IsInside};
ghost use Rattle.contract_book.specs.Resting.{resting_cmp, IsSound};

use crate::faults::Full;
use crate::held::Held;
use crate::resting::Resting;
use order_pool::Rings;
use record_pool::{KeyedPool, spot};

/// Puts an order in priority into the line that its record names.
///
/// # Errors
///
/// [`Full`] exactly where 4096 orders are there, and then nothing changes.
pub fn put_in(orders: &mut KeyedPool<Held>, lines: &mut Rings, held: Held) -> Result<(), Full>
    requires inside { IsInside orders.old lines.old }
    requires line { held.line < length lines.old }
    requires belongs { BelongsTo held.line held }
    requires absent { IsAbsent number_of orders.old held.order.number }
    requires sound { IsSound held.order }
    ensures full { IsErr result ↔ (held_count orders.old ≡ 4096) }
    ensures orders_kept { OnErr result (orders.new ≡ orders.old) }
    ensures lines_kept { OnErr result (lines.new ≡ lines.old) }
    ensures book { OnOk result (
        book_in orders.new lines.new
        ≡ slice_set (book_in orders.old lines.old) held.line
        (put_in_order (resting_cmp held.order.side)
        (slice_index_or (book_in orders.old lines.old) held.line []) held.order)) }
    ensures inside { IsInside orders.new lines.new }
{
    let before = spot(orders, lines, held.line, held.order.side, &held);
    let Ok(place) = orders.put(held) else {
        return Err(Full);
    };
    lines.insert(held.line, before, place);
    Ok(())
}

/// Takes the order of a place out of its line, and answers it.
pub fn take_out(orders: &mut KeyedPool<Held>, lines: &mut Rings, place: u32) -> Held
    requires inside { IsInside orders.old lines.old }
    requires live { IsSome (held_at orders.old place) }
    ensures held { held_at orders.old place ≡ Some result }
    ensures less { held_count orders.new + 1 ≡ held_count orders.old }
    ensures many { length lines.new ≡ length lines.old }
    ensures absent { IsAbsent number_of orders.new result.order.number }
    ensures book { book_in orders.new lines.new ≡ without (book_in orders.old lines.old) result.order.number }
    ensures inside { IsInside orders.new lines.new }
{
    lines.remove(place);
    orders.take(place)
}

/// Puts another record in the stead of that of a place, which is of the same order: at the place in
/// its line that its price and its moment give it.
pub fn replace(orders: &mut KeyedPool<Held>, lines: &mut Rings, place: u32, order: Resting)
    requires inside { IsInside orders.old lines.old }
    requires same { IsSomeAnd (held_at orders.old place) (λ held.
        (held.order.number ≡ order.number) × (held.order.side ≡ order.side)) }
    requires sound { IsSound order }
    ensures book { book_in orders.new lines.new ≡ changed (book_in orders.old lines.old) order }
    ensures inside { IsInside orders.new lines.new }
{
    let held = *orders.get(place);
    let line = held.line;
    if held.order.price == order.price && held.order.moment == order.moment {
        orders.set(place, Held { line, order });
        return;
    }
    take_out(orders, lines, place);
    let Ok(()) = put_in(orders, lines, Held { line, order }) else {
        unreachable!();
    };
}
