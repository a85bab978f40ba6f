//! Books of orders: the line of a part step by step, and a full book and its copy.

ghost use Rattle.std.specs.Prelude.{◌≡◌, ◌<◌};
ghost use Rattle.contract_book.specs.Book.{parts_of};
ghost use Rattle.contract_book.specs.Resting.{IsSound};

use crate::resting_orders::{iced, plain};
use contract_book::{ContractBook, Full, Resting};
use order_kinds::Side;
use std::alloc::Global;
use std::process::Abort;

// A book of two parts.
#[derive(Drop)]
struct TwoParts {
    book: ContractBook,
    ghost parts: { parts_of book ≡ 2 },
}

// What is done to a book.
#[derive(Clone, Copy, Debug)]
enum Step {
    // A sell of 20 lots rests in a part: its number, its price in cents and its moment.
    Rest(u32, u32, i32, u64),
    // So does one at 40 cents in part 1 that shows 5 lots at a time, each peak 2 cents dearer: its number
    // and its moment.
    RestIceberg(u32, u64),
    // So many lots of an order are filled, at a moment.
    Fill(u32, u32, u64),
    // An order is reduced by so many lots.
    Reduce(u32, u32),
    // The order of a number is withdrawn, and whether there is one.
    Withdraw(u32, bool),
}

impl TwoParts {
    fn new(rt: &impl Abort, alloc: Global) -> TwoParts {
        let book = ContractBook::new(alloc, 2).expect(rt, "memory");
        TwoParts { book }
    }

    fn copy(&self, rt: &impl Abort) -> TwoParts {
        let book = self.book.copy().expect(rt, "memory");
        TwoParts { book }
    }

    // What the book answers to an order whose number is free.
    fn answer(&mut self, rt: &impl Abort, part: u32, order: Resting) -> Result<(), Full>
        requires part { part < 2 }
        requires sound { IsSound order }
    {
        assert!(rt; self.book.get(order.number).is_none());
        self.book.rest(part, order)
    }

    fn rest(&mut self, rt: &impl Abort, part: u32, order: Resting)
        requires sound { IsSound order }
    {
        assert!(rt; part < 2);
        assert_eq!(rt; self.answer(rt, part, order), Ok(()));
    }

    fn fill(&mut self, rt: &impl Abort, number: u32, lots: u32, moment: u64) {
        let Some(order) = self.book.get(number) else {
            rt.panic("no such order");
        };
        if lots == 0 || order.shown < lots {
            rt.panic("no such fill");
        }
        self.book.fill(number, lots, moment);
    }

    fn reduce(&mut self, rt: &impl Abort, number: u32, by: u32) {
        let Some(order) = self.book.get(number) else {
            rt.panic("no such order");
        };
        if order.ice.is_some() || by == 0 || order.left <= by {
            rt.panic("no such reduction");
        }
        self.book.reduce(number, by);
    }

    fn make(&mut self, rt: &impl Abort, step: Step) {
        match step {
            Step::Rest(part, number, cents, moment) => {
                self.rest(rt, part, plain(number, Side::Sell, cents, 20, moment));
            }
            Step::RestIceberg(number, moment) => {
                let whole = plain(number, Side::Sell, 40, 20, moment);
                self.rest(rt, 1, iced(whole, 5, 2));
            }
            Step::Fill(number, lots, moment) => self.fill(rt, number, lots, moment),
            Step::Reduce(number, by) => self.reduce(rt, number, by),
            Step::Withdraw(number, there) => {
                assert_eq!(rt; self.book.withdraw(number).is_some(), there);
            }
        }
    }

    // An order is the wanted one; the order that stands behind it.
    fn behind(&self, rt: &impl Abort, at: Option<Resting>, wanted: Row) -> Option<Resting> {
        let Some(order) = at else {
            rt.panic("an order is wanting");
        };
        assert_eq!(rt; (order.number, order.price.0, order.shown), wanted);
        assert!(rt; self.book.get(order.number).is_some());
        self.book.after(order.number)
    }

    // The sells of part 1 are these.
    fn expect_line(&self, rt: &impl Abort, step: Step, rows: &[Row]) {
        let mut at = self.book.first(1, Side::Sell);
        for row in rows {
            at = self.behind(rt, at, *row);
        }
        assert_eq!(rt; at, None, "after {step:?}");
    }
}

// The number of an order, its price in cents and what it shows.
type Row = (u32, i32, u32);

const STEPS: [(Step, &[Row]); 13] = [
    (Step::Rest(1, 1, 42, 5), &[(1, 42, 20)]),
    // the better price goes first
    (Step::Rest(1, 2, 40, 6), &[(2, 40, 20), (1, 42, 20)]),
    // at one price the earlier moment, and at one moment the smaller number
    (
        Step::Rest(1, 4, 42, 4),
        &[(2, 40, 20), (4, 42, 20), (1, 42, 20)],
    ),
    (
        Step::Rest(1, 3, 42, 4),
        &[(2, 40, 20), (3, 42, 20), (4, 42, 20), (1, 42, 20)],
    ),
    // an order of another part changes nothing
    (
        Step::Rest(0, 6, 1, 1),
        &[(2, 40, 20), (3, 42, 20), (4, 42, 20), (1, 42, 20)],
    ),
    (
        Step::RestIceberg(5, 3),
        &[
            (5, 40, 5),
            (2, 40, 20),
            (3, 42, 20),
            (4, 42, 20),
            (1, 42, 20),
        ],
    ),
    // what is left of a peak keeps its place, and the next one goes behind
    (
        Step::Fill(5, 3, 9),
        &[
            (5, 40, 2),
            (2, 40, 20),
            (3, 42, 20),
            (4, 42, 20),
            (1, 42, 20),
        ],
    ),
    (
        Step::Fill(5, 2, 9),
        &[
            (2, 40, 20),
            (3, 42, 20),
            (4, 42, 20),
            (1, 42, 20),
            (5, 42, 5),
        ],
    ),
    (
        Step::Fill(2, 8, 10),
        &[
            (2, 40, 12),
            (3, 42, 20),
            (4, 42, 20),
            (1, 42, 20),
            (5, 42, 5),
        ],
    ),
    (
        Step::Reduce(3, 15),
        &[
            (2, 40, 12),
            (3, 42, 5),
            (4, 42, 20),
            (1, 42, 20),
            (5, 42, 5),
        ],
    ),
    (
        Step::Withdraw(4, true),
        &[(2, 40, 12), (3, 42, 5), (1, 42, 20), (5, 42, 5)],
    ),
    (
        Step::Withdraw(4, false),
        &[(2, 40, 12), (3, 42, 5), (1, 42, 20), (5, 42, 5)],
    ),
    // an order that is filled wholly leaves
    (
        Step::Fill(2, 12, 11),
        &[(3, 42, 5), (1, 42, 20), (5, 42, 5)],
    ),
];

fn make_all(rt: &impl Abort, book: &mut TwoParts, steps: &[(Step, &[Row])]) {
    for (step, rows) in steps {
        book.make(rt, *step);
        book.expect_line(rt, *step, rows);
    }
}

#[test]
fn the_line_of_a_part_step_by_step(rt: HostRuntime) {
    let mut book = TwoParts::new(&rt, rt.alloc());
    assert!(rt; book.book.is_empty());
    make_all(&rt, &mut book, STEPS.as_slice());
    assert_eq!(rt; book.book.len(), 4);
}

// Rests 4096 orders: the book is then full.
fn fill_up(rt: &impl Abort, book: &mut TwoParts) {
    for number in 0..4096u32 {
        let order = plain(number, Side::Sell, 40, 5, u64::from(number / 2));
        book.rest(rt, number % 2, order);
    }
    let answer = book.answer(rt, 1, plain(5000, Side::Buy, 41, 2, 5000));
    assert_eq!(rt; answer, Err(Full));
}

// A copy is changed, and the book stays as it was.
fn expect_copy_apart(rt: &impl Abort, book: &TwoParts) {
    let mut copy = book.copy(rt);
    copy.make(rt, Step::Withdraw(77, true));
    copy.make(rt, Step::Rest(1, 5000, 40, 1));
    assert!(rt; book.book.get(77).is_some());
    assert_eq!(rt; book.book.get(5000), None);
}

#[test]
fn a_full_book_takes_no_more_and_its_copy_shares_nothing(rt: HostRuntime) {
    let mut book = TwoParts::new(&rt, rt.alloc());
    fill_up(&rt, &mut book);
    expect_copy_apart(&rt, &book);
}
