//! A session is recovered from the image of a disk, and its whole journal written.

ghost use Rattle.std.specs.Prelude.{◌≡◌, ◌≢◌, ◌≤◌, ℕ, All, List, IsTrue, Some, None, Err, IfErr, IfOk, OnOk, false, true, length};
ghost use Rattle.outside.specs.Faults.{Rose};
ghost use Rattle.zone_graph.specs.Grid.{JoinsZones};
ghost use Rattle.zone_graph.specs.GridFault.{grid_fault};
ghost use Rattle.market_model.specs.Grid.{graph_of};
ghost use Rattle.market_model.specs.Naming.{IsEntryIn, IsNamed};
ghost use Rattle.market_text.specs.Session.{IsSession};
ghost use Rattle.durable_journal.specs.Appending.{most_stored};
ghost use Rattle.durable_journal.specs.Stored.{IsDamaged};
ghost use Rattle.session_io.specs.JournalText.{journal_text};
ghost use Rattle.session_io.specs.Reading.{ReadsWithin, longest_record};
ghost use Rattle.session_io.specs.Status.{writes_nothing};
ghost use Rattle.stored_journal.specs.Lines.{TellsContents};
ghost use Rattle.session_storing.specs.Outcomes.{EndsRecovering};
ghost use Rattle.session_storing.specs.Recovering.{IsTooLargeBehind, StoresWrongLine};
ghost use Rattle.session_run.specs.Recovering.{CompletesRecovering, EndsInput, HasLongImage, HasImageWith, HoldsLinesBehind, IsRecoveredOn, IsTextBehind, ReadsToRecover, Recovered};
ghost use Rattle.session_run.specs.Storing.{IsEmptyDisk};

use crate::players::DeskPlayer;
use crate::sessions::write_to;
use disk_model::Disk;
use durable_journal::MOST_STORED;
use journal_audit::{Divided, divide, read_divided};
use market_text::{Session, TextFault};
use outside::{Sink, Source};
use record_run::input_from;
use session_io::{LONGEST_RECORD, Status};
use session_storing::recover_turns;
use std::alloc::Global;
use trade_journal::Journal;

// The line between the text of a session and an image.
const IMAGE_LINE: &[u8] = b"image";

/// Reads a session, the line `image` and an image. Writes the image on an empty disk and opens it, and plays the commands of
/// the lines that it stores, each of which is compared with what the market prints. Then it plays the commands that are left
/// in the order of their lines, and appends the line of each entry. Then it writes the whole journal.
pub(crate) fn recover<S: Source, K: Sink, D: Disk>(
    alloc: Global,
    source: &mut S,
    sink: &mut K,
    disk: &mut D,
) -> Status
    requires empty { IsEmptyDisk (D.contents disk.old) }
    ensures usage { result ≢ Status.Usage }
    ensures unwritten { IsTrue (writes_nothing result) → sink.new ≡ sink.old }
    ensures recovered { (bytes : List ℕ) → S.left source.old ≡ Some bytes
        → Recovered (TellsContents (D.contents disk.old)) bytes result (K.written sink.old) (K.written sink.new) }
    ensures on_disk { (bytes : List ℕ) → S.left source.old ≡ Some bytes → TellsContents (D.contents disk.old)
        → result ≡ Status.Done → IsRecoveredOn (D.contents disk.new) bytes }
    ensures complete { CompletesRecovering (S.left source.old) (TellsContents (D.contents disk.old)) (Rose (S.faults source.old) (S.faults source.new))
        (Rose (K.faults sink.old) (K.faults sink.new)) (Rose (D.faults disk.old) (D.faults disk.new)) result }
    ensures reads { result ≢ Status.NoMemory → ReadsToRecover (TellsContents (D.contents disk.old)) (S.left source.old) (S.left source.new) result }
    ensures read_count { S.faults source.old ≤ S.faults source.new }
    ensures read_fault { result ≡ Status.ReadFault → Rose (S.faults source.old) (S.faults source.new) }
    ensures read_bound { ReadsWithin longest_record (S.reads source.old) (S.reads source.new) }
    ensures write_count { K.faults sink.old ≤ K.faults sink.new }
    ensures write_fault { result ≡ Status.WriteFault → Rose (K.faults sink.old) (K.faults sink.new) }
    ensures disk_count { D.faults disk.old ≤ D.faults disk.new }
    ensures disk_fault { result ≡ Status.DiskFault → Rose (D.faults disk.old) (D.faults disk.new) }
{
    let bytes = match input_from(alloc, source, LONGEST_RECORD) {
        Ok(bytes) => bytes,
        Err(status) => return status,
    };
    match recover_input(alloc, bytes.as_slice(), disk) {
        Ok(journal) => write_to(alloc, &journal, sink),
        Err(status) => status,
    }
}

// Recovers the session of an input from the image behind it.
fn recover_input<D: Disk>(alloc: Global, bytes: &[u8], disk: &mut D) -> Result<Journal, Status>
    requires short { length bytes.now ≤ longest_record }
    requires empty { IsEmptyDisk (D.contents disk.old) }
    ensures text { IfOk result (λ journal. HasImageWith (λ session image. TellsContents (D.contents disk.old) → IsTextBehind session image (journal_text journal.setup journal.entries)) bytes.now) }
    ensures named { IfOk result (λ journal. IsNamed journal.setup) }
    ensures within { IfOk result (λ journal. All (IsEntryIn journal.setup) journal.entries) }
    ensures on_disk { OnOk result (TellsContents (D.contents disk.old) → IsRecoveredOn (D.contents disk.new) bytes.now) }
    ensures ends { IfErr result (EndsInput (TellsContents (D.contents disk.old)) bytes.now) }
    ensures count { D.faults disk.old ≤ D.faults disk.new }
    ensures fault { result ≡ Err Status.DiskFault → Rose (D.faults disk.old) (D.faults disk.new) }
{
    if has_long_image(bytes) {
        return Err(Status::TooLong);
    }
    let Divided { session, rest } = match read_divided(alloc, IMAGE_LINE, bytes) {
        Ok(divided) => divided,
        Err(TextFault::BadSession { line }) => return Err(Status::BadSession { line }),
        Err(TextFault::NoMemory) => return Err(Status::NoMemory),
    };
    recover_session(alloc, session, rest, disk)
}

// Whether the image of an input is too long to be read.
fn has_long_image(bytes: &[u8]) -> bool
    ensures long { result ≡ true → HasLongImage bytes.now }
    ensures short { result ≡ false → ¬ HasLongImage bytes.now }
{
    match divide(IMAGE_LINE, bytes) {
        Some(parts) => parts.1.len() as u64 > MOST_STORED,
        None => false,
    }
}

// Recovers a session from an image.
fn recover_session<D: Disk>(
    alloc: Global,
    session: Session,
    image: &[u8],
    disk: &mut D,
) -> Result<Journal, Status>
    requires session { IsSession session }
    requires joined { JoinsZones (graph_of session.setup) }
    requires sound { grid_fault (graph_of session.setup) ≡ None }
    requires short { length image.now ≤ most_stored }
    requires empty { IsEmptyDisk (D.contents disk.old) }
    ensures text { IfOk result (λ journal. TellsContents (D.contents disk.old) → IsTextBehind session image.now (journal_text journal.setup journal.entries)) }
    ensures named { IfOk result (λ journal. IsNamed journal.setup) }
    ensures within { IfOk result (λ journal. All (IsEntryIn journal.setup) journal.entries) }
    ensures on_disk { OnOk result (TellsContents (D.contents disk.old) → HoldsLinesBehind (D.contents disk.new) session image.now) }
    ensures ends { IfErr result EndsRecovering }
    ensures bad_image { (place : ℕ) → result ≡ Err (Status.BadImage place) → TellsContents (D.contents disk.old) → IsDamaged image.now place }
    ensures illegal { (entry : ℕ) → result ≡ Err (Status.Illegal entry) → TellsContents (D.contents disk.old) → StoresWrongLine session image.now entry }
    ensures too_long { result ≡ Err Status.TooLong → TellsContents (D.contents disk.old) → IsTooLargeBehind session session.turns image.now }
    ensures count { D.faults disk.old ≤ D.faults disk.new }
    ensures fault { result ≡ Err Status.DiskFault → Rose (D.faults disk.old) (D.faults disk.new) }
{
    let Ok((mut player, turns)) = DeskPlayer::new(alloc, session) else {
        return Err(Status::NoMemory);
    };
    match recover_turns(alloc, &mut player, turns.as_slice(), image, disk) {
        Ok(_) => Ok(player.into_journal()),
        Err(status) => Err(status),
    }
}
