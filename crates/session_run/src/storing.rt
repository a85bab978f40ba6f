//! A session is played over a disk, and the image of the disk is written.

ghost use Rattle.std.specs.Prelude.{◌≡◌, ◌≢◌, ◌<◌, ◌≤◌, ℕ, List, IsTrue, Some, None, Ok, Err, IfErr, IfOk, OnOk, length};
ghost use Rattle.outside.specs.Faults.{Rose};
ghost use Rattle.zone_graph.specs.Grid.{JoinsZones};
ghost use Rattle.zone_graph.specs.GridFault.{grid_fault};
ghost use Rattle.market_model.specs.Grid.{graph_of};
ghost use Rattle.market_text.specs.Session.{IsSession};
ghost use Rattle.market_text.specs.Text.{session_of_text};
ghost use Rattle.market_text.specs.declared.session.Session.{Session as SessionValue};
ghost use Rattle.disk_model.specs.Moments.{LeavesOnly};
ghost use Rattle.durable_journal.specs.Appending.{most_stored};
ghost use Rattle.durable_journal.specs.Resting.{IsImageOf};
ghost use Rattle.durable_journal.specs.Stored.{image_of};
ghost use Rattle.session_io.specs.Reading.{ReadsWithin, longest_session};
ghost use Rattle.session_io.specs.Status.{writes_nothing};
ghost use Rattle.stored_journal.specs.Lines.{StoresFront, TellsContents};
ghost use Rattle.session_storing.specs.Outcomes.{EndsStoring};
ghost use Rattle.session_run.specs.Storing.{CompletesStoring, IsEmptyDisk, ReadsToStore, Stored, StoresPartOf, lines_of_session};

use crate::players::DeskPlayer;
use crate::sessions::session_from;
use disk_model::Disk;
use market_text::Session;
use outside::{Sink, Source};
use record_run::write_text;
use session_io::Status;
use session_storing::store_turns;
use std::alloc::Global;

/// Reads a session, plays it in the order of its lines, and appends the line of each entry to a durable journal on an
/// empty disk before the next command is taken. Then it writes all bytes of the disk.
pub(crate) fn store<S: Source, K: Sink, D: Disk>(
    alloc: Global,
    source: &mut S,
    sink: &mut K,
    disk: &mut D,
) -> Status
    requires empty { IsEmptyDisk (D.contents disk.old) }
    ensures usage { result ≢ Status.Usage }
    ensures unwritten { IsTrue (writes_nothing result) → sink.new ≡ sink.old }
    ensures stored { (bytes : List ℕ) → S.left source.old ≡ Some bytes
        → Stored (TellsContents (D.contents disk.old)) bytes result (K.written sink.old) (K.written sink.new) }
    ensures on_disk { (bytes : List ℕ) (session : SessionValue) → S.left source.old ≡ Some bytes → TellsContents (D.contents disk.old)
        → session_of_text bytes ≡ Ok session → result ≡ Status.Done → IsImageOf (D.contents disk.new) (lines_of_session session) }
    ensures any_moment { (bytes : List ℕ) → S.left source.old ≡ Some bytes → TellsContents (D.contents disk.old)
        → LeavesOnly D.moment D.left_since disk.old disk.new (StoresPartOf bytes) }
    ensures complete { CompletesStoring (S.left source.old) (TellsContents (D.contents disk.old)) (Rose (S.faults source.old) (S.faults source.new))
        (Rose (K.faults sink.old) (K.faults sink.new)) (Rose (D.faults disk.old) (D.faults disk.new)) result }
    ensures reads { result ≢ Status.NoMemory → ReadsToStore (TellsContents (D.contents disk.old)) (S.left source.old) (S.left source.new) result }
    ensures legal { (entry : ℕ) → result ≢ Status.Illegal entry }
    ensures read_count { S.faults source.old ≤ S.faults source.new }
    ensures read_fault { result ≡ Status.ReadFault → Rose (S.faults source.old) (S.faults source.new) }
    ensures read_bound { ReadsWithin longest_session (S.reads source.old) (S.reads source.new) }
    ensures write_count { K.faults sink.old ≤ K.faults sink.new }
    ensures write_fault { result ≡ Status.WriteFault → Rose (K.faults sink.old) (K.faults sink.new) }
    ensures disk_count { D.faults disk.old ≤ D.faults disk.new }
    ensures disk_fault { result ≡ Status.DiskFault → Rose (D.faults disk.old) (D.faults disk.new) }
{
    let session = match session_from(alloc, source) {
        Ok(session) => session,
        Err(status) => return status,
    };
    match store_session(alloc, session, disk) {
        Ok(image) => write_text(image.as_slice(), sink),
        Err(status) => status,
    }
}

// Plays a session over an empty disk, and answers the bytes of the disk.
fn store_session<D: Disk>(alloc: Global, session: Session, disk: &mut D) -> Result<Vec<u8>, Status>
    requires session { IsSession session }
    requires joined { JoinsZones (graph_of session.setup) }
    requires sound { grid_fault (graph_of session.setup) ≡ None }
    requires empty { IsEmptyDisk (D.contents disk.old) }
    ensures image { IfOk result (λ image. TellsContents (D.contents disk.old) → image.items ≡ image_of (lines_of_session session)) }
    ensures fits { OnOk result (TellsContents (D.contents disk.old) → length (image_of (lines_of_session session)) ≤ most_stored) }
    ensures on_disk { OnOk result (TellsContents (D.contents disk.old) → IsImageOf (D.contents disk.new) (lines_of_session session)) }
    ensures any_moment { TellsContents (D.contents disk.old) → LeavesOnly D.moment D.left_since disk.old disk.new (StoresFront (lines_of_session session)) }
    ensures ends { IfErr result EndsStoring }
    ensures bad_image { (place : ℕ) → result ≡ Err (Status.BadImage place) → ¬ TellsContents (D.contents disk.old) }
    ensures too_long { TellsContents (D.contents disk.old) → result ≡ Err Status.TooLong → most_stored < length (image_of (lines_of_session session)) }
    ensures count { D.faults disk.old ≤ D.faults disk.new }
    ensures fault { result ≡ Err Status.DiskFault → Rose (D.faults disk.old) (D.faults disk.new) }
{
    match DeskPlayer::new(alloc, session) {
        Ok((mut player, turns)) => store_turns(alloc, &mut player, turns.as_slice(), disk),
        Err(_) => Err(Status::NoMemory),
    }
}
