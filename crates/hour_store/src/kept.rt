//! What is kept, and how changes of it are taken back.

ghost use Rattle.std.specs.Prelude.{◌≡◌, ◌+◌, [], length};
ghost use Rattle.hour_store.specs.Contents.{AreSame, Contents};
ghost use Rattle.hour_store.specs.Inside.{CanGoBack, IsKept, LogLeadsBack, contents_of};
ghost use Rattle.hour_store.specs.TakenBack.{CanTakeBack, IsTakenBack};

use crate::change::Change;
use crate::flows::{grant_in, offer_one, set_halt};
use crate::orders::{put_back, put_block_back};
use block_book::BlockBook;
use contract_book::ContractBook;
use flow_netting::HourFlows;
use undo_log::UndoLog;

/// The books and the flows of an hour.
#[derive(Drop)]
pub struct Kept {
    pub book: ContractBook,
    pub blocks: BlockBook,
    pub flows: HourFlows,
}

/// Takes all noted changes back, from the last to the first.
pub fn take_all_back(kept: &mut Kept, log: &mut UndoLog<Change>)
    requires kept { IsKept (contents_of kept.old) }
    requires can { CanGoBack log.old.records (contents_of kept.old) }
    ensures back { (target : Contents) → LogLeadsBack log.old.records (contents_of kept.old) target → AreSame target (contents_of kept.new) }
    ensures kept { IsKept (contents_of kept.new) }
    ensures settled { log.new.records ≡ [] }
    ensures spare { log.new.spare ≡ log.old.spare + length log.old.records }
{
    while let Some(change) = log.back() {
        take_back(kept, change);
    }
}

// Takes one change back.
fn take_back(kept: &mut Kept, change: Change)
    requires kept { IsKept (contents_of kept.old) }
    requires can { CanTakeBack change (contents_of kept.old) }
    ensures back { IsTakenBack change (contents_of kept.old) (contents_of kept.new) }
    ensures kept { IsKept (contents_of kept.new) }
{
    match change {
        Change::OrderRested { order, .. } => {
            kept.book.withdraw(order.number);
        }
        Change::OrderChanged { part, was } => put_back(&mut kept.book, part, was),
        Change::BlockRested { number } => {
            kept.blocks.withdraw(number);
        }
        Change::BlockLeft { was } => put_block_back(&mut kept.blocks, was),
        Change::Carried { arc, set, lots } => {
            grant_in(&mut kept.flows, arc.opposite(), set, lots);
        }
        Change::Offered { arc, number, lots } => offer_one(&mut kept.flows, arc, number, lots),
        Change::HaltSet { border, was } => set_halt(&mut kept.flows, border, was),
        Change::PhaseSet { was } => kept.flows.set_phase(was),
    }
}
