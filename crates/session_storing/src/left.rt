//! The turns that are left once callers have given commands.

ghost use Rattle.std.specs.Prelude.{◌≡◌, ℕ, ◌-◌, ◌^◌, ◌<◌, All, IfOk, length, slice_index};
ghost use Rattle.journal_audit.specs.Course.{callers_of};
ghost use Rattle.session_storing.specs.Playing.{turns_of};
ghost use Rattle.session_storing.specs.Recovering as recovering;

use market_model::Entry;
use std::alloc::Global;
use trade_journal::Counts;
use zone_graph::NoMemory;

// Of each caller's turns all but the first, as many as it has entries.
pub(crate) fn turns_left(
    alloc: Global,
    callers: usize,
    entries: &[Entry],
    turns: &[u32],
) -> Result<Vec<u32>, NoMemory>
    requires made { All (λ entry. entry.caller < callers) entries.now }
    requires known { All (λ turn. turn < callers) turns.now }
    requires few_made { (caller : ℕ) → turns_of (callers_of entries.now) caller < 2 ^ 32 - 1 }
    requires few { (caller : ℕ) → turns_of turns.now caller < 2 ^ 32 - 1 }
    ensures { IfOk result (λ left. left.items ≡ recovering.turns_left (callers_of entries.now) turns.now) }
{
    let given = counts_of(alloc, callers, entries)?;
    let mut past = Counts::new(alloc, callers)?;
    let mut left = Vec::new(alloc);
    for turn in turns {
        let before = past.count(*turn as usize);
        if before >= given.of(*turn as usize) {
            left.push(*turn)?;
        }
    }
    Ok(left)
}

// How many entries each caller has.
fn counts_of(alloc: Global, callers: usize, entries: &[Entry]) -> Result<Counts, NoMemory>
    requires made { All (λ entry. entry.caller < callers) entries.now }
    requires few { (caller : ℕ) → turns_of (callers_of entries.now) caller < 2 ^ 32 - 1 }
    ensures size { IfOk result (λ counts. length counts ≡ callers) }
    ensures each { IfOk result (λ counts. (caller : ℕ) → slice_index counts caller ≡ turns_of (callers_of entries.now) caller) }
{
    let mut counts = Counts::new(alloc, callers)?;
    for entry in entries {
        counts.count(entry.caller as usize);
    }
    Ok(counts)
}
