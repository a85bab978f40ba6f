//! The verdict on a journal.

ghost use Rattle.std.specs.Prelude.{◌≡◌, ◌≢◌, ℕ, ◌+◌, ◌<◌, All, IfOk, length, slice_index};
ghost use Rattle.market_model.specs.Grid.{graph_of};
ghost use Rattle.market_model.specs.Market as market;
ghost use Rattle.market_model.specs.Naming.{IsEntryIn};
ghost use Rattle.market_text.specs.Commands.{commands_of};
ghost use Rattle.market_text.specs.Session.{IsSession};
ghost use Rattle.journal_audit.specs.Course.{IsCourse};
ghost use Rattle.journal_audit.specs.Verdict.{IfIllegal, IfLegal, IsVerdict};

use crate::course::Course;
use crate::lines::first_line;
use market_model::Entries;
use market_text::Session;
use std::alloc::Global;
use zone_graph::{Grid, NoMemory};

/// The verdict on a journal.
#[derive(Debug, Drop, PartialEq, Eq)]
pub enum Verdict {
    /// It is complete: each line is the market's, and no caller has a command left. These are its entries.
    Legal(Entries),
    /// It is not.
    Illegal {
        /// The place of the first line that is not right, counted from 1; where all are right and a caller has a
        /// command left, the number of lines and 1.
        entry: u64,
    },
}

/// Whether bytes are the complete journal of a session, by the plain market: whoever made them, and in whatever order
/// the commands of different callers were met.
///
/// Each line names a caller, and is right where with the lines before it it is the text of the journal that the market
/// makes of these callers, each with its next command. The journal is complete where every line is right and no caller
/// has a command left.
///
/// # Errors
///
/// [`NoMemory`] where memory runs out.
pub fn audit(
    alloc: Global,
    grid: &Grid,
    session: &Session,
    journal: &[u8],
) -> Result<Verdict, NoMemory>
    requires session { IsSession session.now }
    requires grid { grid.now ≡ graph_of session.now.setup }
    ensures verdict { IfOk result (IsVerdict session.now journal.now) }
    ensures named { IfOk result (IfLegal (All (IsEntryIn session.now.setup))) }
    ensures legal { IfOk result (IfLegal (market.IsLegal session.now.setup)) }
{
    let zones = grid.zones();
    prove!(zones <= 64);
    let mut course = Course::new(alloc, session.commands.len())?;
    let mut rest = journal;
    while !rest.is_empty() {
        let (line, after) = first_line(rest);
        if !course.take_line(alloc, grid, session, line)? {
            return Ok(Verdict::Illegal {
                entry: course.next_place(),
            });
        }
        rest = after;
    }
    Ok(verdict_of(course, session))
}

// The verdict behind the last line, where all were right.
fn verdict_of(course: Course, session: &Session) -> Verdict
    requires session { IsSession session.now }
    requires course { IsCourse session.now course }
    ensures legal { IfLegal (λ entries. entries ≡ course.entries) result }
    ensures done { IfLegal (λ entries. (caller : ℕ) → caller < length session.now.commands → slice_index course.given caller ≡ length (commands_of session.now.commands caller)) result }
    ensures illegal { IfIllegal (λ place. place ≡ length course.entries + 1) result }
    ensures left { IfIllegal (λ place. (caller : ℕ) × (slice_index course.given caller ≢ length (commands_of session.now.commands caller))) result }
{
    let place = course.next_place();
    if course.is_done(session.commands.as_slice()) {
        Verdict::Legal(course.into_entries())
    } else {
        Verdict::Illegal { entry: place }
    }
}
