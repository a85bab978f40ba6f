//! The book.

ghost use Rattle.std.specs.Prelude.{◌≡◌, ℕ, ◌*◌, ◌==◌, ◌≤◌, ◌<◌, ◌↔◌, [], replicate, Some, None, IsErr, IsSome, IsTrue, IfOk, OnOk, OnErr};
ghost use Rattle.std.specs.List.{list_any};
ghost use Rattle.std.specs.Option.{IsSomeAnd};
ghost use Rattle.order_kinds.specs.declared.side.Side.{Side};
ghost use Rattle.contract_book.specs.Book.{line_number as line_of_part};
ghost use Rattle.contract_book.specs.Resting.{IsSound};

use crate::faults::Full;
use crate::held::Held;
use crate::places::{put_in, replace, take_out};
use crate::resting::Resting;
use order_kinds::Side;
use order_pool::{PLACES, Rings};
use record_pool::KeyedPool;
use std::alloc::Global;
use std::marker::Model;
use zone_graph::NoMemory;

// The links of the lines of more parts than this could not be numbered.
const MOST_PARTS: u32 = (u32::MAX - PLACES) / 2;

/// The orders that rest in the contracts of one hour: contracts see, for each part and side, those
/// that rest there, in priority.
///
/// An order is found by its number, over an index. No call but [`ContractBook::new`] and
/// [`ContractBook::copy`] takes memory. The steps of [`ContractBook::rest`], and of a
/// [`ContractBook::fill`] that brings a new peak, grow with how far the place in the line is from
/// the nearer end of that line; the steps of the other calls are independent of how many orders
/// rest.
#[derive(Drop)]
pub struct ContractBook {
    orders: KeyedPool<Held>,
    lines: Rings,
}

impl Model for ContractBook {
    ghost use Rattle.std.specs.Prelude.{List};
    ghost use Rattle.contract_book.specs.declared.resting.Resting.{Resting};

    ghost Value = { List (List Resting) };

    ghost use Rattle.contract_book.specs.Inside.{book_in, IsInside};

    ghost view = { λ a. book_in a.orders a.lines };

    ghost invariant = { λ a. IsInside a.orders a.lines };
}

// The number of the line of a part and side.
fn line_number(part: u32, side: Side) -> u32
    requires { part < 2147483648 }
    ensures { result ≡ line_of_part part side }
{
    match side {
        Side::Buy => 2 * part,
        Side::Sell => 2 * part + 1,
    }
}

impl ContractBook {
    ghost use Rattle.contract_book.specs.Book as books;

    /// A book in which no order rests, with so many parts.
    ///
    /// # Errors
    ///
    /// [`NoMemory`] where memory runs out, as it does for more parts than a `u32` has numbers for the
    /// links of their lines.
    pub fn new(alloc: Global, parts: u32) -> Result<ContractBook, NoMemory>
        ensures empty { IfOk result (λ book. book ≡ replicate (2 * parts) []) }
        ensures sound { IfOk result (λ book. books.IsBook book) }
    {
        if parts > MOST_PARTS {
            return Err(NoMemory);
        }
        let Ok(orders) = KeyedPool::new(alloc) else {
            return Err(NoMemory);
        };
        let Ok(lines) = Rings::new(alloc, 2 * parts) else {
            return Err(NoMemory);
        };
        Ok(ContractBook { orders, lines })
    }

    /// A book in which the same orders rest.
    ///
    /// # Errors
    ///
    /// [`NoMemory`] where memory runs out.
    pub fn copy(&self) -> Result<ContractBook, NoMemory>
        ensures same { IfOk result (λ book. book ≡ self.now) }
        ensures sound { IfOk result (λ book. books.IsBook book) }
    {
        let Ok(orders) = self.orders.copy() else {
            return Err(NoMemory);
        };
        let Ok(lines) = self.lines.copy() else {
            return Err(NoMemory);
        };
        Ok(ContractBook { orders, lines })
    }

    /// How many orders rest.
    pub fn len(&self) -> u32
        ensures count { result ≡ books.order_count self.now }
        ensures sound { books.IsBook self.now }
    {
        self.orders.len()
    }

    /// Whether no order rests.
    pub fn is_empty(&self) -> bool
        ensures { result ≡ (books.order_count self.now == 0) }
    {
        self.len() == 0
    }

    /// Puts an order in priority into the line of a part and of its side.
    ///
    /// # Errors
    ///
    /// [`Full`] exactly where 4096 orders rest, and then nothing changes.
    pub fn rest(&mut self, part: u32, order: Resting) -> Result<(), Full>
        requires part { part < books.parts_of self.old }
        requires absent { books.order_of self.old order.number ≡ None }
        requires sound { IsSound order }
        ensures full { IsErr result ↔ (books.order_count self.old ≡ 4096) }
        ensures unchanged { OnErr result (self.new ≡ self.old) }
        ensures rests { OnOk result (self.new ≡ books.with_order self.old part order) }
        ensures sound { books.IsBook self.new }
    {
        // The fields show that the number of a line is no more than there are.
        let _ = &self.lines;
        let line = line_number(part, order.side);
        put_in(&mut self.orders, &mut self.lines, Held { line, order })
    }

    /// Takes the order of a number out, and answers it: `None` exactly where no order has it, and
    /// then nothing changes.
    pub fn withdraw(&mut self, number: u32) -> Option<Resting>
        ensures order { result ≡ books.order_of self.old number }
        ensures without { self.new ≡ books.without self.old number }
        ensures sound { books.IsBook self.new }
    {
        let place = self.orders.find(number)?;
        Some(take_out(&mut self.orders, &mut self.lines, place).order)
    }

    /// The order of a number: `None` exactly where no order has it.
    pub fn get(&self, number: u32) -> Option<Resting>
        ensures { result ≡ books.order_of self.now number }
    {
        let place = self.orders.find(number)?;
        Some(self.orders.get(place).order)
    }

    /// Fills so many lots of what an order shows. Where nothing is left of it, it leaves; where its
    /// peak is empty, the next one follows, with the given moment, at the place in the line that its
    /// price and that moment give it.
    pub fn fill(&mut self, number: u32, lots: u32, moment: u64)
        requires { IsSomeAnd (books.order_of self.old number) (λ order. (1 ≤ lots) × (lots ≤ order.shown)) }
        ensures filled { self.new ≡ books.filled self.old number lots moment }
        ensures sound { books.IsBook self.new }
    {
        let Some(place) = self.orders.find(number) else {
            unreachable!();
        };
        let order = self.orders.get(place).order;
        if order.left == lots {
            take_out(&mut self.orders, &mut self.lines, place);
        } else {
            let after = order.after(lots, moment);
            replace(&mut self.orders, &mut self.lines, place, after);
        }
    }

    /// Takes so many lots off an order that is no iceberg. It keeps its place.
    pub fn reduce(&mut self, number: u32, by: u32)
        requires { IsSomeAnd (books.order_of self.old number) (λ order.
            (order.ice ≡ None) × (1 ≤ by) × (by < order.left)) }
        ensures reduced { self.new ≡ books.reduced self.old number by }
        ensures sound { books.IsBook self.new }
    {
        let Some(place) = self.orders.find(number) else {
            unreachable!();
        };
        let less = self.orders.get(place).order.less(by);
        replace(&mut self.orders, &mut self.lines, place, less);
    }

    /// The first order of a part and side in priority, or `None` where none rests there.
    pub fn first(&self, part: u32, side: Side) -> Option<Resting>
        requires { part < books.parts_of self.now }
        ensures { result ≡ books.first_of (books.line_of self.now part side) }
    {
        let place = self.lines.first(line_number(part, side))?;
        Some(self.orders.get(place).order)
    }

    /// The order that stands behind an order in its line, or `None` at the line's end.
    pub fn after(&self, number: u32) -> Option<Resting>
        requires { IsSome (books.order_of self.now number) }
        ensures { (part : ℕ) (side : Side)
            → IsTrue (list_any (books.has_number number) (books.line_of self.now part side))
            → result ≡ books.after_in number (books.line_of self.now part side) }
    {
        let Some(place) = self.orders.find(number) else {
            unreachable!();
        };
        let next = self.lines.next(place)?;
        Some(self.orders.get(next).order)
    }
}
