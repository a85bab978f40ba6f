//! A session goes on behind the lines that an image stores: their commands are played and the lines compared, then the
//! commands that are left are played, and the line of each entry is appended.

ghost use Rattle.std.specs.Prelude.{◌≡◌, ℕ, ◌+◌, ◌<◌, ◌≤◌, [], ◌++◌, All, codes, length, true, false, Some, Ok, Err, IfErr, IfOk, OnOk};
ghost use Rattle.outside.specs.Faults.{Rose};
ghost use Rattle.disk_model.specs.Contents.{most_bytes, settled};
ghost use Rattle.durable_journal.specs.Appending.{most_stored};
ghost use Rattle.durable_journal.specs.Resting.{HoldsLines, IsAtRest};
ghost use Rattle.durable_journal.specs.Stored.{IsDamaged, image_of};
ghost use Rattle.market_model.specs.declared.entry.Entry.{Entry as EntryValue};
ghost use Rattle.market_text.specs.Commands.{commands_of};
ghost use Rattle.market_text.specs.declared.session.Session.{Session};
ghost use Rattle.journal_audit.specs.Audit.{IsFirstWrongAmong};
ghost use Rattle.journal_audit.specs.Course.{IsNextLine, callers_of, entries_of};
ghost use Rattle.journal_audit.specs.Lines.{ended_lines};
ghost use Rattle.stored_journal.specs.Outcomes.{EndsAppend};
ghost use Rattle.session_storing.specs.Outcomes.{EndsPlaying, EndsRecovering};
ghost use Rattle.session_storing.specs.Playing.{HasCommandsFor, IsPlaying, PlaysSession, lines_in_order, lines_played, turns_of};
ghost use Rattle.session_storing.specs.Recovering as recovering;
ghost use Rattle.session_storing.specs.Recovering.{ArePlayed, IsPlayedLine, IsRecovered, IsTooLargeBehind, StoresWrongLine};

use crate::left::turns_left;
use crate::player::Player;
use crate::storing::{append_turns, last_of, play_next};
use disk_model::Disk;
use durable_journal::At;
use journal_audit::caller_named;
use session_io::Status;
use std::alloc::Global;
use stored_journal::{is_line_of, open_written};
use zone_graph::Text;

/// Writes an image on an empty disk and opens it. Plays the next command of the caller that each stored line names, and
/// compares the line with that of the entry. Then plays the commands that are left, in the order of the turns, and appends
/// the line of each entry before the next is taken. It answers where the lines end then.
///
/// # Errors
///
/// How the run ends: by `DiskFault` only where the disk's count of faults rose in this call; by `BadImage` exactly where,
/// without such a fault, the image is damaged; by `Illegal` exactly where, without either, a stored line is not right, with
/// the first that is not; by `TooLong` only where the lines of the whole journal are more than 67108864 bytes on the disk.
pub fn recover_turns<P: Player, D: Disk>(
    alloc: Global,
    player: &mut P,
    turns: &[u32],
    image: &[u8],
    disk: &mut D,
) -> Result<At, Status>
    requires plays { PlaysSession (P.state player.old) }
    requires begins { (P.state player.old).entries ≡ [] }
    requires turns { HasCommandsFor (P.state player.old) turns.now }
    requires small { length image.now ≤ most_bytes }

    ensures played { (session : Session) → IsPlaying session (P.state player.old) → OnOk result (IsPlaying session (P.state player.new)) }
    ensures recovered { (session : Session) → IsPlaying session (P.state player.old) → D.contents disk.old ≡ Some (settled [])
        → OnOk result (IsRecovered session turns.now image.now (D.contents disk.new) (P.state player.new)) }

    ensures ends { IfErr result EndsRecovering }
    ensures bad { (place : ℕ) → result ≡ Err (Status.BadImage place) → D.contents disk.old ≡ Some (settled []) → IsDamaged image.now place }
    ensures illegal { (session : Session) (entry : ℕ) → IsPlaying session (P.state player.old) → result ≡ Err (Status.Illegal entry)
        → D.contents disk.old ≡ Some (settled []) → StoresWrongLine session image.now entry }
    ensures too_long { (session : Session) → IsPlaying session (P.state player.old) → result ≡ Err Status.TooLong
        → D.contents disk.old ≡ Some (settled []) → IsTooLargeBehind session turns.now image.now }
    ensures count { D.faults disk.old ≤ D.faults disk.new }
    ensures fault { result ≡ Err Status.DiskFault → Rose (D.faults disk.old) (D.faults disk.new) }
{
    let (at, lines) = match open_written(alloc, image, disk) {
        Ok(opened) => opened,
        Err(status) => return Err(status),
    };
    match play_lines(alloc, player, lines.as_slice()) {
        Ok(()) => append_left(alloc, player, turns, disk, at),
        Err(status) => Err(status),
    }
}

// Plays the commands that are left, in the order of the turns, and appends the line of the entry of each. It answers where
// the lines end then.
fn append_left<P: Player, D: Disk>(
    alloc: Global,
    player: &mut P,
    turns: &[u32],
    disk: &mut D,
    at: At,
) -> Result<At, Status>
    requires plays { PlaysSession (P.state player.old) }
    requires known { All (λ turn. turn < length (P.state player.old).setup.callers) turns.now }
    requires counted { (caller : ℕ) → turns_of turns.now caller
        ≤ entries_of (P.state player.old).entries caller + length (commands_of (P.state player.old).waiting caller) }
    requires rest { IsAtRest (D.size disk.old) (D.contents disk.old) at }

    ensures played { (session : Session) → IsPlaying session (P.state player.old) → OnOk result (IsPlaying session (P.state player.new)) }
    ensures callers { OnOk result (callers_of (P.state player.new).entries
        ≡ callers_of (P.state player.old).entries ++ recovering.turns_left (callers_of (P.state player.old).entries) turns.now) }
    ensures stored { IfOk result (λ end. HoldsLines (D.contents disk.old) (lines_played (P.state player.old)) at
        → HoldsLines (D.contents disk.new) (lines_played (P.state player.new)) end) }
    ensures fits { OnOk result (HoldsLines (D.contents disk.old) (lines_played (P.state player.old)) at
        → length (image_of (lines_played (P.state player.old))) ≤ most_stored → length (image_of (lines_played (P.state player.new))) ≤ most_stored) }
    ensures ends { IfErr result EndsAppend }
    ensures too_long { (session : Session) → IsPlaying session (P.state player.old)
        → HoldsLines (D.contents disk.old) (lines_played (P.state player.old)) at → result ≡ Err Status.TooLong
        → most_stored < length (image_of (lines_in_order session (callers_of (P.state player.old).entries
        ++ recovering.turns_left (callers_of (P.state player.old).entries) turns.now))) }
    ensures count { D.faults disk.old ≤ D.faults disk.new }
    ensures fault { result ≡ Err Status.DiskFault → Rose (D.faults disk.old) (D.faults disk.new) }
{
    let callers = player.setup().callers.len();
    let Ok(left) = turns_left(alloc, callers, player.entries(), turns) else {
        return Err(Status::NoMemory);
    };
    append_turns(alloc, player, left.as_slice(), disk, at)
}

// Plays the next command of the caller that each stored line names, and compares the line with that of the entry.
fn play_lines<P: Player>(alloc: Global, player: &mut P, lines: &[Text]) -> Result<(), Status>
    requires plays { PlaysSession (P.state player.old) }
    requires begins { (P.state player.old).entries ≡ [] }
    ensures played { (session : Session) → IsPlaying session (P.state player.old) → OnOk result (ArePlayed session lines.now (P.state player.new)) }
    ensures wrong { (session : Session) (entry : ℕ) → IsPlaying session (P.state player.old) → result ≡ Err (Status.Illegal entry)
        → IsFirstWrongAmong session (ended_lines lines.now) entry }
    ensures ends { IfErr result EndsPlaying }
{
    for (index, line) in lines.iter().enumerate() {
        if !play_line(alloc, player, line.bytes())? {
            return Err(Status::Illegal {
                entry: index as u64 + 1,
            });
        }
    }
    Ok(())
}

// Plays the next command of the caller that a stored line names, and answers whether the line is that of the entry.
fn play_line<P: Player>(alloc: Global, player: &mut P, line: &[u8]) -> Result<bool, Status>
    requires plays { PlaysSession (P.state player.old) }
    ensures right { (session : Session) → IsPlaying session (P.state player.old) → result ≡ Ok true
        → IsPlayedLine session (P.state player.old) line.now (P.state player.new) }
    ensures wrong { (session : Session) (entry : EntryValue) → IsPlaying session (P.state player.old) → result ≡ Ok false
        → ¬ IsNextLine session (P.state player.old).entries (line.now ++ codes "\n") entry }
    ensures memory { IfErr result (λ status. status ≡ Status.NoMemory) }
{
    let Some(caller) = caller_named(player.setup(), line) else {
        return Ok(false);
    };
    let caller = caller as u32;
    if !player.has_next(caller) {
        return Ok(false);
    }
    play_next(alloc, player, caller)?;
    let entries = player.entries();
    match is_line_of(
        alloc,
        player.setup(),
        entries.len() as u64,
        last_of(entries),
        line,
    ) {
        Ok(same) => Ok(same),
        Err(_) => Err(Status::NoMemory),
    }
}
