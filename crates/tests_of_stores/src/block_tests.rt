//! Books of blocks: the lines of a period step by step, and a full book and its copy.

use block_book::{BlockBook, Full, RestingBlock};
use order_kinds::{Price, Side};
use std::process::Abort;

// The last hour of the lines that are looked at, and the lots of one of them.
const LAST: u32 = 14;

const TEN: u32 = 10;

// What is done to a book.
#[derive(Clone, Copy, Debug)]
enum Step {
    // A buy rests: its number, its price in cents, its lots, the last hour of its period, and its moment.
    Rest(u32, i32, u32, u32, u64),
    // The block of a number is withdrawn, and whether there is one.
    Withdraw(u32, bool),
}

fn buy(number: u32, cents: i32, quantity: u32, last: u32, moment: u64) -> RestingBlock {
    RestingBlock {
        number,
        caller: 1,
        zone: 2,
        side: Side::Buy,
        price: Price(cents),
        quantity,
        last,
        moment,
    }
}

// What a book answers to a block whose number is free.
fn answer(rt: &impl Abort, book: &mut BlockBook, block: RestingBlock) -> Result<(), Full> {
    assert!(rt; book.get(block.number).is_none());
    book.rest(block)
}

fn make(rt: &impl Abort, book: &mut BlockBook, step: Step) {
    match step {
        Step::Rest(number, cents, quantity, last, moment) => {
            let block = buy(number, cents, quantity, last, moment);
            assert_eq!(rt; answer(rt, book, block), Ok(()));
        }
        Step::Withdraw(number, there) => {
            assert_eq!(rt; book.withdraw(number).is_some(), there);
        }
    }
}

// A block is of the wanted number; the block behind it, of all quantities or of its own.
fn behind(
    rt: &impl Abort,
    book: &BlockBook,
    at: Option<RestingBlock>,
    number: u32,
    any: bool,
) -> Option<RestingBlock> {
    assert_eq!(rt; at.map(|block| block.number), Some(number));
    assert!(rt; book.get(number).is_some());
    if any {
        book.after_any(number)
    } else {
        book.after(number)
    }
}

// The line of a period, of all quantities or of ten lots, has the blocks of these numbers.
fn expect_line(rt: &impl Abort, book: &BlockBook, step: Step, any: bool, numbers: &[u32]) {
    let mut at = if any {
        book.first_any(LAST, Side::Buy)
    } else {
        book.first(LAST, TEN, Side::Buy)
    };
    for number in numbers {
        at = behind(rt, book, at, *number, any);
    }
    assert_eq!(rt; at, None, "after {step:?}");
}

// A step, and the numbers in the lines of all quantities and of ten lots after it.
type Row<'a> = (Step, &'a [u32], &'a [u32]);

const STEPS: [Row; 8] = [
    (Step::Rest(1, 40, 10, 14, 5), &[1], &[1]),
    // the better price goes first
    (Step::Rest(2, 42, 9, 14, 6), &[2, 1], &[1]),
    // at one price the earlier moment, and at one moment the smaller number
    (Step::Rest(4, 42, 10, 14, 4), &[4, 2, 1], &[4, 1]),
    (Step::Rest(3, 42, 10, 14, 4), &[3, 4, 2, 1], &[3, 4, 1]),
    // a block of another period changes nothing
    (Step::Rest(5, 50, 10, 15, 1), &[3, 4, 2, 1], &[3, 4, 1]),
    (Step::Withdraw(3, true), &[4, 2, 1], &[4, 1]),
    (Step::Withdraw(3, false), &[4, 2, 1], &[4, 1]),
    (Step::Withdraw(5, true), &[4, 2, 1], &[4, 1]),
];

fn make_all(rt: &impl Abort, book: &mut BlockBook, rows: &[Row]) {
    for (step, all, ten) in rows {
        make(rt, book, *step);
        expect_line(rt, book, *step, true, all);
        expect_line(rt, book, *step, false, ten);
    }
}

#[test]
fn the_lines_of_a_period_step_by_step(rt: HostRuntime) {
    let mut book = BlockBook::new(rt.alloc()).expect(&rt, "memory");
    assert!(rt; book.is_empty());
    make_all(&rt, &mut book, STEPS.as_slice());
    assert_eq!(rt; book.len(), 3);
}

// Rests 4096 blocks: the book is then full.
fn fill_up(rt: &impl Abort, book: &mut BlockBook) {
    for number in 0..4096u32 {
        let block = buy(number, 40, number % 4, LAST, u64::from(number / 2));
        assert_eq!(rt; answer(rt, book, block), Ok(()));
    }
    assert_eq!(rt; answer(rt, book, buy(5000, 41, 2, LAST, 1)), Err(Full));
}

// A copy is changed, and the book stays as it was.
fn expect_copy_apart(rt: &impl Abort, book: &BlockBook) {
    let mut copy = book.copy().expect(rt, "memory");
    make(rt, &mut copy, Step::Withdraw(77, true));
    make(rt, &mut copy, Step::Rest(5000, 40, 2, 14, 1));
    assert!(rt; book.get(77).is_some());
    assert_eq!(rt; book.get(5000), None);
}

#[test]
fn a_full_book_takes_no_more_and_its_copy_shares_nothing(rt: HostRuntime) {
    let mut book = BlockBook::new(rt.alloc()).expect(&rt, "memory");
    fill_up(&rt, &mut book);
    expect_copy_apart(&rt, &book);
}
