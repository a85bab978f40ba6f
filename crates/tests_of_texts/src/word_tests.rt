//! The command line: lists of words, and what they ask for.

use command_words::{Task, is_trade, task_of};
use std::process::Abort;
use zone_graph::{Sequence, Word};

// A list of words.
type Words<'a> = &'a [&'a [u8]];

fn words_of(rt: &(impl Abort + AllocGlobal), texts: Words) -> Sequence<Word> {
    let mut words = Sequence::new(rt.alloc());
    for text in texts {
        let word = Word::new(rt.alloc(), text).expect(rt, "memory");
        words.push(word).expect(rt, "memory");
    }
    words
}

// What some words ask for.
fn expect_task(rt: &(impl Abort + AllocGlobal), texts: Words, wanted: Option<Task>) {
    let words = words_of(rt, texts);
    let task = task_of(rt.alloc(), words.as_slice()).expect(rt, "memory");
    assert_eq!(rt; task, wanted, "{texts:?}");
}

const TASKS: [(Words, Task); 8] = [
    (&[b"replay"], Task::Replay),
    (&[b"audit"], Task::Audit),
    (&[b"ship"], Task::Ship),
    (&[b"generate", b"1"], Task::Generate { commands: 1 }),
    (&[b"generate", b"40"], Task::Generate { commands: 40 }),
    (&[b"generate", b"2000"], Task::Generate { commands: 2000 }),
    (
        &[b"generate", b"99999"],
        Task::Generate { commands: 99_999 },
    ),
    (
        &[b"generate", b"100000"],
        Task::Generate { commands: 100_000 },
    ),
];

#[test]
fn words_that_ask_for_something(rt: HostRuntime) {
    for (texts, task) in TASKS.as_slice() {
        expect_task(&rt, texts, Some(*task));
    }
}

const NO_TASKS: [Words; 50] = [
    &[],
    &[b""],
    &[b"trade"],
    &[b"Replay"],
    &[b"repla"],
    &[b"Audit"],
    &[b"audit "],
    &[b"audits"],
    &[b"shi"],
    &[b"audit", b"ship"],
    &[b"ship", b"ship"],
    &[b"ship", b"--help"],
    &[b"audit", b"1"],
    &[b"replay "],
    &[b"replay\xff"],
    &[b"\xff"],
    &[b"--help"],
    &[b"-h"],
    &[b"help"],
    &[b"help", b"replay"],
    &[b"--version"],
    &[b"--"],
    &[b"--", b"replay"],
    &[b"replay", b"--help"],
    &[b"replay", b"replay"],
    &[b"replay", b""],
    &[b"generate"],
    &[b"generate", b""],
    &[b"generate", b"0"],
    &[b"generate", b"00"],
    &[b"generate", b"01"],
    &[b"generate", b"040"],
    &[b"generate", b"+40"],
    &[b"generate", b"-40"],
    &[b"generate", b" 40"],
    &[b"generate", b"40 "],
    &[b"generate", b"40\n"],
    &[b"generate", b"4_0"],
    &[b"generate", b"0x10"],
    &[b"generate", b"1e3"],
    &[b"generate", b"100001"],
    &[b"generate", b"4294967297"],
    &[b"generate", b"18446744073709551617"],
    &[b"generate", b"\xd9\xa1"],
    &[b"generate", b"1\xff"],
    &[b"generate", b"--help"],
    &[b"generate", b"--", b"40"],
    &[b"generate", b"40", b"40"],
    &[b"generate", b"40", b"--help"],
    &[b"40", b"generate"],
];

#[test]
fn all_other_words_ask_for_nothing(rt: HostRuntime) {
    for texts in NO_TASKS.as_slice() {
        expect_task(&rt, texts, None);
    }
}

const TRADE: [(Words, bool); 5] = [
    (&[b"trade"], true),
    (&[], false),
    (&[b"Trade"], false),
    (&[b"trade", b"trade"], false),
    (&[b"replay"], false),
];

// Whether some words are the one for trading.
fn expect_trade(rt: &(impl Abort + AllocGlobal), texts: Words, wanted: bool) {
    let words = words_of(rt, texts);
    assert_eq!(rt; is_trade(words.as_slice()), wanted, "{texts:?}");
}

#[test]
fn one_word_is_trade(rt: HostRuntime) {
    for (texts, wanted) in TRADE.as_slice() {
        expect_trade(&rt, texts, *wanted);
    }
}
