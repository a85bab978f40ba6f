//! Two traders on threads of their own.

ghost use Rattle.std.specs.Prelude.{◌≡◌, ◌+◌, ◌<◌, ◌^◌, ◌∷◌, [], IfOk, false, length, true, vec_len};
ghost use Rattle.trader_pass.specs.Passes.{IsOf};
ghost use Rattle.tests_of_locks.specs.TwoTraders as traders;
ghost use Rattle.tests_of_locks.specs.TwoTraders.{AreSeats, IsOfHours, two_traders};

use journal_front::{DeskSeat, Front, JournalSeat, PassSeats};
use kept_lock::{Kept, KeptLock};
use market_model::{
    Caller, Callers, Command, Entry, Events, Names, NoMemory, OrderName, Pairs, Reply, Role, Setup,
    Word,
};
use std::alloc::Global;
use std::process::Abort;
use std::sync::Wait;
use std::test::Fail;
use std::thread::join;
use trader_pass::Pass;

// How many entries each of the two makes.
const EACH: u32 = 500;

// The journal's seat, the seats of the desks of hours 1 and 2, and which entry of which caller each
// entry of the journal is.
#[derive(Drop)]
struct Seats {
    journal: JournalSeat,
    desks: Vec<DeskSeat>,
    noted: Vec<(u32, u32)>,
}

// The key is the front that the seats are of.
impl Kept<Front> for Seats {
    ghost keeps = { λ front seats. AreSeats front seats.journal seats.desks.items × (vec_len seats.noted ≡ length seats.journal.entries) };
}

// A trader without a name.
fn trader(alloc: Global) -> Result<Caller, NoMemory>
    ensures { IfOk result (λ caller. caller ≡ traders.trader) }
{
    Ok(Caller {
        name: Word::new(alloc, &[])?,
        role: Role::Trader,
        room: EACH,
    })
}

// A day of two hours with two traders.
fn setup(alloc: Global) -> Result<Setup, NoMemory>
    ensures { IfOk result (λ setup. setup ≡ two_traders) }
{
    let mut callers = Callers::new(alloc);
    callers.push(trader(alloc)?)?;
    callers.push(trader(alloc)?)?;
    Ok(Setup {
        hours: 2,
        zones: Names::new(alloc),
        borders: Pairs::new(alloc),
        callers,
    })
}

// An entry that touches hour 1, or hours 1 and 2.
fn entry(alloc: Global, caller: u32, nth: u32, both: bool) -> Entry
    ensures caller { result.caller ≡ caller }
    ensures hours { IsOfHours both result }
{
    let command = if both {
        Command::Blocks { first: 1, last: 2 }
    } else {
        Command::Cancel {
            name: OrderName { hour: 1, number: 1 },
        }
    };
    Entry {
        caller,
        nth,
        command,
        reply: Reply::Done(Events::new(alloc)),
    }
}

impl Seats {
    // Commits an entry that touches hour 1.
    fn commit_to_one<R: Abort>(&mut self, rt: &R, front: &Front, pass: &mut Pass, entry: &Entry)
        requires seats { AreSeats front.now self.old.journal self.old.desks.items }
        requires room { length self.old.journal.entries < 2 ^ 31 }
        requires pass { IsOf front.now pass.old }
        requires caller { entry.now.caller ≡ pass.old.caller }
        requires known { entry.now.caller < 2 }
        requires hours { IsOfHours false entry.now }
        ensures seats { AreSeats front.now self.new.journal self.new.desks.items }
        ensures noted { self.new.noted ≡ self.old.noted }
        ensures longer { length self.new.journal.entries ≡ length self.old.journal.entries + 1 }
        ensures pass { IsOf front.now pass.new }
    {
        let second = self.desks.pop().expect(rt, "there are two");
        front.commit(&mut self.journal, pass.seat_mut(), &mut self.desks, entry);
        self.desks.push(second).expect(rt, "there were two");
    }

    // Commits an entry that touches hours 1 and 2.
    fn commit_to_both(&mut self, front: &Front, pass: &mut Pass, entry: &Entry)
        requires seats { AreSeats front.now self.old.journal self.old.desks.items }
        requires room { length self.old.journal.entries < 2 ^ 31 }
        requires pass { IsOf front.now pass.old }
        requires caller { entry.now.caller ≡ pass.old.caller }
        requires known { entry.now.caller < 2 }
        requires hours { IsOfHours true entry.now }
        ensures seats { AreSeats front.now self.new.journal self.new.desks.items }
        ensures noted { self.new.noted ≡ self.old.noted }
        ensures longer { length self.new.journal.entries ≡ length self.old.journal.entries + 1 }
        ensures pass { IsOf front.now pass.new }
    {
        front.commit(&mut self.journal, pass.seat_mut(), &mut self.desks, entry);
    }
}

// A trader makes an entry under the lock.
fn take_turn<R: Wait + Abort>(
    rt: &R,
    alloc: Global,
    front: &Front,
    lock: &KeptLock<Seats, Front>,
    pass: &mut Pass,
    both: bool,
)
    requires lock { lock.now.key ≡ front.now }
    requires pass { IsOf front.now pass.old }
    ensures pass { IsOf front.now pass.new }
{
    let (mut seats, duty) = lock.take(rt);
    assert!(rt; seats.noted.len() < 1000, "each makes 500");
    let caller = pass.caller();
    let nth = pass.made().wrapping_add(1);
    let entry = entry(alloc, caller, nth, both);
    if both {
        seats.commit_to_both(front, pass, &entry);
    } else {
        seats.commit_to_one(rt, front, pass, &entry);
    }
    seats.noted.push((caller, nth)).expect(rt, "memory");
    lock.give(seats, duty);
}

// A trader makes its entries, by turns of one hour and of two.
fn take_turns<R: Wait + Abort>(
    rt: &R,
    alloc: Global,
    front: &Front,
    lock: &KeptLock<Seats, Front>,
    mut pass: Pass,
) -> Pass
    requires lock { lock.now.key ≡ front.now }
    requires pass { IsOf front.now pass }
    ensures pass { IsOf front.now result }
{
    for turn in 0..EACH {
        take_turn(rt, alloc, front, lock, &mut pass, turn % 2 == 1);
    }
    pass
}

// The entries of a caller are its first, its second, and so on through its last.
fn expect_in_order(rt: &impl Abort, noted: &[(u32, u32)], caller: u32) {
    let mut made: u32 = 0;
    for &(by, nth) in noted {
        if by == caller {
            made = made.wrapping_add(1);
            assert_eq!(rt; nth, made, "caller {caller}");
        }
    }
    assert_eq!(rt; made, EACH, "caller {caller}");
}

#[test]
fn two_traders_on_threads_make_one_journal(rt: HostRuntime) -> Result<(), Fail> {
    let alloc: Global = rt.alloc();
    let setup = setup(alloc)?;
    let (front, journal, desks, passes) = Front::open(alloc, &setup)?;
    let mut passes = passes.into_vec();
    let bob = Pass::new(passes.pop().expect(&rt, "two traders"));
    let mut ann = Pass::new(passes.pop().expect(&rt, "two traders"));
    assert_eq!(rt; front.load(ann.seat_mut()), 0);
    let seats = Seats {
        journal,
        desks: desks.into_vec(),
        noted: Vec::new(alloc),
    };
    let lock = KeptLock::new(alloc, &front, seats)?;
    let (shared, door, handle) = (&front, &lock, &rt);
    let (mut ann, mut bob) = join(
        handle,
        move || -> Pass
            requires { (door.now.key ≡ shared.now) × IsOf shared.now ann }
            ensures { IsOf shared.entry.now result }
        { take_turns(handle, alloc, shared, door, ann) },
        move || -> Pass
            requires { (door.now.key ≡ shared.now) × IsOf shared.now bob }
            ensures { IsOf shared.entry.now result }
        { take_turns(handle, alloc, shared, door, bob) },
    );
    assert_eq!(rt;
        (front.load(ann.seat_mut()), front.load(bob.seat_mut())),
        (1000, 1000)
    );
    assert_eq!(rt;
        (ann.caller(), ann.made(), bob.caller(), bob.made()),
        (0, EACH, 1, EACH)
    );
    let Seats {
        journal,
        desks: _,
        noted,
    } = lock.into_inner(&rt);
    expect_in_order(&rt, noted.as_slice(), 0);
    expect_in_order(&rt, noted.as_slice(), 1);
    let mut passes = PassSeats::new(alloc);
    passes.push(ann.into_seat())?;
    passes.push(bob.into_seat())?;
    assert_eq!(rt; front.close(journal, passes), 1000);
    Ok(())
}
