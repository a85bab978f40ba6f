//! The seats that a front begins with.

ghost use Rattle.std.specs.Prelude.{◌≡◌, [], IfOk, OnOk, length, map};
ghost use Rattle.std.specs.List.{range_with_len};
ghost use Rattle.order_kinds.specs.Period.{hours_from};
ghost use Rattle.market_model.specs.declared.who.Who.TheVariants as who;
ghost use Rattle.journal_front.specs.Fronts.{desk_of, pass_of};
ghost use Rattle.journal_front.specs.Views.{first_view, fresh, lead_view};

use crate::places::{Word, deal};
use crate::seats::{DeskSeat, DeskSeats, PassSeat, PassSeats, Place};
use market_model::NoMemory;
use std::alloc::Global;

// A seat for each hour.
pub(crate) fn first_desks(
    alloc: Global,
    word: &Word,
    lead: &mut Place,
    hours: u32,
) -> Result<DeskSeats, NoMemory>
    requires word { word.now.table_id.words ≡ 1 }
    requires place { lead.old.table_id ≡ word.now.table_id }
    requires lead { lead.old.me ≡ (first_view word.now.key, []) }
    requires hours { hours ≡ word.now.key.hours }
    ensures place { OnOk result (lead.new.table_id ≡ lead.old.table_id) }
    ensures lead { OnOk result (lead.new.me ≡ (lead_view word.now.key [] (map fresh (map who.Caller (range_with_len 0 (length word.now.key.callers)))), [])) }
    ensures desks { IfOk result (λ desks. desks ≡ map (desk_of (record { id = word.now.table_id; setup = word.now.key }) []) (hours_from 1 hours)) }
{
    let mut desks = DeskSeats::new(alloc);
    for before in 0..hours {
        let badge = deal(word, lead);
        desks.push(DeskSeat::new(before + 1, badge))?;
    }
    Ok(desks)
}

// A seat for each caller. A setup with so many callers that a `u32` does not count them needs more
// memory than there is.
pub(crate) fn first_passes(
    alloc: Global,
    word: &Word,
    lead: &mut Place,
    callers: usize,
) -> Result<PassSeats, NoMemory>
    requires word { word.now.table_id.words ≡ 1 }
    requires place { lead.old.table_id ≡ word.now.table_id }
    requires lead { lead.old.me ≡ (lead_view word.now.key [] (map fresh (map who.Caller (range_with_len 0 callers))), []) }
    requires callers { callers ≡ length word.now.key.callers }
    ensures place { OnOk result (lead.new.table_id ≡ lead.old.table_id) }
    ensures lead { OnOk result (lead.new.me ≡ (lead_view word.now.key [] [], [])) }
    ensures passes { IfOk result (λ passes. passes ≡ map (pass_of (record { id = word.now.table_id; setup = word.now.key }) [] 0) (range_with_len 0 callers)) }
{
    let mut passes = PassSeats::new(alloc);
    let Ok(count) = u32::try_from(callers) else {
        return Err(NoMemory);
    };
    for caller in 0..count {
        let badge = deal(word, lead);
        passes.push(PassSeat::new(caller, badge))?;
    }
    Ok(passes)
}
