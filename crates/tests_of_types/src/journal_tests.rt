//! A journal with ample memory. What entries it takes is proved where they are made.

use crate::made::{put, word};
use market_model::{Caller, Callers, Names, Pairs, Role, Setup};
use std::alloc::Global;
use std::process::Abort;
use trade_journal::Journal;

fn trader(rt: &impl Abort, alloc: Global, name: &[u8]) -> Caller {
    Caller {
        name: word(rt, alloc, name),
        role: Role::Trader,
        room: 1000,
    }
}

// A day of two traders.
fn day_of_two(rt: &impl Abort, alloc: Global) -> Setup {
    let mut callers = Callers::new(alloc);
    put(rt, &mut callers, trader(rt, alloc, b"ann"));
    put(rt, &mut callers, trader(rt, alloc, b"bob"));
    Setup {
        hours: 24,
        zones: Names::new(alloc),
        borders: Pairs::new(alloc),
        callers,
    }
}

#[test]
fn a_new_journal_has_no_entry(rt: HostRuntime) {
    let setup = day_of_two(&rt, rt.alloc());
    let journal = Journal::new(rt.alloc(), &setup).expect(&rt, "memory");
    assert_eq!(rt; journal.entries().len(), 0);
}
