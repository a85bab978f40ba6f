//! Commands are played, and the line of each entry is appended to a disk before the next command is taken.

ghost use Rattle.std.specs.Prelude.{◌≡◌, ℕ, ◌<◌, ◌≤◌, List, [], ◌∷◌, ◌++◌, length, Some, Err, IfErr, IfOk, OnOk};
ghost use Rattle.outside.specs.Faults.{Rose};
ghost use Rattle.disk_model.specs.Contents.{settled};
ghost use Rattle.disk_model.specs.Moments.{LeavesOnly};
ghost use Rattle.durable_journal.specs.Appending.{most_stored};
ghost use Rattle.durable_journal.specs.Resting.{HoldsLines, IsAtRest, IsImageOf};
ghost use Rattle.durable_journal.specs.Stored.{image_of};
ghost use Rattle.market_model.specs.declared.entry.Entry.{Entry as EntryValue};
ghost use Rattle.market_text.specs.Commands.{commands_of};
ghost use Rattle.market_text.specs.declared.session.Session.{Session};
ghost use Rattle.journal_audit.specs.Course.{callers_of};
ghost use Rattle.stored_journal.specs.Lines.{StoresFront};
ghost use Rattle.stored_journal.specs.Outcomes.{EndsAppend};
ghost use Rattle.session_storing.specs.Outcomes.{EndsStoring};
ghost use Rattle.session_storing.specs.Playing.{HasCommandsFor, IsPlayedOn, IsPlaying, PlaysSession, lines_in_order, lines_played};

use crate::player::Player;
use disk_model::Disk;
use durable_journal::At;
use market_model::Entry;
use session_io::Status;
use std::alloc::Global;
use stored_journal::{append_entry, open_empty, read_image};

/// Plays the next command of the caller of each turn over an empty disk, and appends the line of its entry, before the next
/// is taken. It answers all bytes of the disk then.
///
/// A crash at any moment of the call leaves the first of the lines of the whole journal, however many.
///
/// # Errors
///
/// How the run ends: by `DiskFault` only where the disk's count of faults rose in this call, and by `TooLong` only where
/// the lines of the whole journal are more than 67108864 bytes on the disk.
pub fn store_turns<P: Player, D: Disk>(
    alloc: Global,
    player: &mut P,
    turns: &[u32],
    disk: &mut D,
) -> Result<Vec<u8>, Status>
    requires plays { PlaysSession (P.state player.old) }
    requires begins { (P.state player.old).entries ≡ [] }
    requires turns { HasCommandsFor (P.state player.old) turns.now }

    ensures image { (session : Session) → IsPlaying session (P.state player.old) → D.contents disk.old ≡ Some (settled [])
        → IfOk result (λ image. image.items ≡ image_of (lines_in_order session turns.now)) }
    ensures on_disk { (session : Session) → IsPlaying session (P.state player.old) → D.contents disk.old ≡ Some (settled [])
        → OnOk result (IsImageOf (D.contents disk.new) (lines_in_order session turns.now)) }
    ensures fits { (session : Session) → IsPlaying session (P.state player.old) → D.contents disk.old ≡ Some (settled [])
        → OnOk result (length (image_of (lines_in_order session turns.now)) ≤ most_stored) }

    // A crash at any moment of the call leaves the first of the lines of the whole journal.
    ensures any_moment { (session : Session) → IsPlaying session (P.state player.old) → D.contents disk.old ≡ Some (settled [])
        → LeavesOnly D.moment D.left_since disk.old disk.new (StoresFront (lines_in_order session turns.now)) }

    ensures ends { IfErr result EndsStoring }
    ensures bad { (place : ℕ) → result ≡ Err (Status.BadImage place) → D.contents disk.old ≡ Some (settled []) → ⊥ }
    ensures too_long { (session : Session) → IsPlaying session (P.state player.old) → D.contents disk.old ≡ Some (settled [])
        → result ≡ Err Status.TooLong → most_stored < length (image_of (lines_in_order session turns.now)) }
    ensures count { D.faults disk.old ≤ D.faults disk.new }
    ensures fault { result ≡ Err Status.DiskFault → Rose (D.faults disk.old) (D.faults disk.new) }
{
    let at = open_empty(alloc, disk)?;
    append_turns(alloc, player, turns, disk, at)?;
    read_image(alloc, disk)
}

// Plays the next command of the caller of each turn, and appends the line of its entry to those that a disk stores, before
// the next is taken. It answers where the lines end then.
pub(crate) fn append_turns<P: Player, D: Disk>(
    alloc: Global,
    player: &mut P,
    turns: &[u32],
    disk: &mut D,
    at: At,
) -> Result<At, Status>
    requires plays { PlaysSession (P.state player.old) }
    requires turns { HasCommandsFor (P.state player.old) turns.now }
    requires rest { IsAtRest (D.size disk.old) (D.contents disk.old) at }

    ensures played { (session : Session) → IsPlaying session (P.state player.old) → OnOk result (IsPlaying session (P.state player.new)) }
    ensures callers { OnOk result (callers_of (P.state player.new).entries ≡ callers_of (P.state player.old).entries ++ turns.now) }
    ensures rest { IfOk result (IsAtRest (D.size disk.new) (D.contents disk.new)) }
    ensures stored { IfOk result (λ end. HoldsLines (D.contents disk.old) (lines_played (P.state player.old)) at
        → HoldsLines (D.contents disk.new) (lines_played (P.state player.new)) end) }
    ensures image { OnOk result (HoldsLines (D.contents disk.old) (lines_played (P.state player.old)) at
        → IsImageOf (D.contents disk.old) (lines_played (P.state player.old)) → IsImageOf (D.contents disk.new) (lines_played (P.state player.new))) }
    ensures fits { OnOk result (HoldsLines (D.contents disk.old) (lines_played (P.state player.old)) at
        → length (image_of (lines_played (P.state player.old))) ≤ most_stored → length (image_of (lines_played (P.state player.new))) ≤ most_stored) }

    // A crash at any moment of the call leaves the first of the lines of the whole journal.
    ensures any_moment { (session : Session) → IsPlaying session (P.state player.old)
        → HoldsLines (D.contents disk.old) (lines_played (P.state player.old)) at
        → LeavesOnly D.moment D.left_since disk.old disk.new
        (StoresFront (lines_in_order session (callers_of (P.state player.old).entries ++ turns.now))) }

    ensures ends { IfErr result EndsAppend }
    ensures too_long { (session : Session) → IsPlaying session (P.state player.old)
        → HoldsLines (D.contents disk.old) (lines_played (P.state player.old)) at → result ≡ Err Status.TooLong
        → most_stored < length (image_of (lines_in_order session (callers_of (P.state player.old).entries ++ turns.now))) }
    ensures count { D.faults disk.old ≤ D.faults disk.new }
    ensures fault { result ≡ Err Status.DiskFault → Rose (D.faults disk.old) (D.faults disk.new) }
{
    let mut end = at;
    for turn in turns {
        match append_turn(alloc, player, *turn, disk, end) {
            Ok(next) => end = next,
            Err(status) => return Err(status),
        }
    }
    Ok(end)
}

// Plays the next command of a caller, and appends the line of its entry.
fn append_turn<P: Player, D: Disk>(
    alloc: Global,
    player: &mut P,
    turn: u32,
    disk: &mut D,
    at: At,
) -> Result<At, Status>
    requires plays { PlaysSession (P.state player.old) }
    requires known { turn < length (P.state player.old).setup.callers }
    requires some { 0 < length (commands_of (P.state player.old).waiting turn) }
    requires rest { IsAtRest (D.size disk.old) (D.contents disk.old) at }

    ensures played { (session : Session) → IsPlaying session (P.state player.old) → OnOk result (IsPlaying session (P.state player.new)) }
    ensures callers { OnOk result (callers_of (P.state player.new).entries ≡ callers_of (P.state player.old).entries ++ turn ∷ []) }
    ensures rest { IfOk result (IsAtRest (D.size disk.new) (D.contents disk.new)) }
    ensures stored { IfOk result (λ end. HoldsLines (D.contents disk.old) (lines_played (P.state player.old)) at
        → HoldsLines (D.contents disk.new) (lines_played (P.state player.new)) end) }
    ensures image { OnOk result (HoldsLines (D.contents disk.old) (lines_played (P.state player.old)) at
        → IsImageOf (D.contents disk.old) (lines_played (P.state player.old)) → IsImageOf (D.contents disk.new) (lines_played (P.state player.new))) }
    ensures fits { OnOk result (HoldsLines (D.contents disk.old) (lines_played (P.state player.old)) at
        → length (image_of (lines_played (P.state player.new))) ≤ most_stored) }
    ensures any_moment { (session : Session) → IsPlaying session (P.state player.old)
        → HoldsLines (D.contents disk.old) (lines_played (P.state player.old)) at
        → LeavesOnly D.moment D.left_since disk.old disk.new
        (StoresFront (lines_in_order session (callers_of (P.state player.old).entries ++ turn ∷ []))) }
    ensures ends { IfErr result EndsAppend }
    ensures too_long { (session : Session) → IsPlaying session (P.state player.old)
        → HoldsLines (D.contents disk.old) (lines_played (P.state player.old)) at → result ≡ Err Status.TooLong
        → most_stored < length (image_of (lines_in_order session (callers_of (P.state player.old).entries ++ turn ∷ []))) }
    ensures count { D.faults disk.old ≤ D.faults disk.new }
    ensures fault { result ≡ Err Status.DiskFault → Rose (D.faults disk.old) (D.faults disk.new) }
{
    play_next(alloc, player, turn)?;
    let entries = player.entries();
    append_entry(
        alloc,
        player.setup(),
        entries.len() as u64,
        last_of(entries),
        disk,
        at,
    )
}

// Plays the next command of a caller.
pub(crate) fn play_next<P: Player>(alloc: Global, player: &mut P, caller: u32) -> Result<(), Status>
    requires plays { PlaysSession (P.state player.old) }
    requires known { caller < length (P.state player.old).setup.callers }
    requires some { 0 < length (commands_of (P.state player.old).waiting caller) }
    ensures setup { OnOk result ((P.state player.new).setup ≡ (P.state player.old).setup) }
    ensures grew { OnOk result ((entry : EntryValue) × ((P.state player.new).entries ≡ (P.state player.old).entries ++ entry ∷ []) × (entry.caller ≡ caller)) }
    ensures played { (session : Session) → IsPlaying session (P.state player.old)
        → OnOk result (IsPlayedOn session (P.state player.old) caller (P.state player.new)) }
    ensures ends { IfErr result EndsAppend }
    ensures memory { IfErr result (λ status. status ≡ Status.NoMemory) }
{
    match player.give_next(alloc, caller) {
        Ok(()) => Ok(()),
        Err(_) => Err(Status::NoMemory),
    }
}

// The last of some entries.
pub(crate) fn last_of(entries: &[Entry]) -> &Entry
    requires { 0 < length entries.now }
    ensures { (before : List EntryValue) (entry : EntryValue) → entries.now ≡ before ++ entry ∷ [] → result.now ≡ entry }
{
    &entries[entries.len() - 1]
}
