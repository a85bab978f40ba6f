//! The schedule of a journal.

ghost use Rattle.std.specs.Prelude.{◌≡◌, IfOk};
ghost use Rattle.market_model.specs.History.{journal_events};
ghost use Rattle.market_model.specs.Market.{IsLegal};
ghost use Rattle.market_model.specs.WellFormed.{IsMarketSetup};
ghost use Rattle.ship_schedule.specs.ScheduleText.{schedule_text};

use crate::lines::write_day;
use crate::page::Page;
use crate::tally::{Tally, count_entries};
use market_model::{Entries, Setup};
use std::alloc::Global;
use zone_graph::{NoMemory, Text};

/// The schedule that operators ship after a session, from its journal: quarter by quarter what trades and
/// grants carry over each border, and what each zone has sold and bought, with its net position, all in
/// MW. A border that carries nothing and a zone that has not traded have no line.
///
/// # Errors
///
/// [`NoMemory`] where there is no memory for the text, or where a sum would have more than 2^64 - 1 lots
/// (tenths of a MW): no journal that fits into memory trades as many.
pub fn schedule(alloc: Global, setup: &Setup, entries: &Entries) -> Result<Text, NoMemory>
    requires setup { IsMarketSetup setup.now }
    requires legal { IsLegal setup.now entries.now }
    ensures { IfOk result (λ text. text ≡ schedule_text setup.now (journal_events entries.now)) }
{
    let mut tally = Tally::new(alloc, setup)?;
    count_entries(&mut tally, entries.as_slice())?;
    let mut page = Page::new(alloc);
    write_day(&mut page, setup, &tally.sums)?;
    Ok(page.into_text())
}
