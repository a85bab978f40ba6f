//! A record is read and its journal audited.

ghost use Rattle.std.specs.Prelude.{◌≡◌, ◌≤◌, IfErr, IfOk, length};
ghost use Rattle.outside.specs.Faults.{Rose};
ghost use Rattle.market_model.specs.Market as market;
ghost use Rattle.market_model.specs.WellFormed.{IsMarketSetup};
ghost use Rattle.session_io.specs.Reading.{ReadsWithin, longest_record};
ghost use Rattle.session_io.specs.Sources.{Stops, WasRead};
ghost use Rattle.record_run.specs.Auditing.{EndsAudit, IsOf};
ghost use Rattle.record_run.specs.Records.{IsBadRecord, IsIllegalRecord};

use crate::inputs::input_from;
use journal_audit::{Divided, Verdict, audit, read_divided};
use market_model::{Entries, Setup};
use market_text::{Session, TextFault};
use outside::Source;
use session_io::{LONGEST_RECORD, Status};
use session_journal::grid_of;
use std::alloc::Global;

/// What is kept of a record whose journal is complete.
#[derive(Drop)]
pub(crate) struct Audited {
    /// What is fixed for the session.
    pub setup: Setup,
    /// The entries of the journal.
    pub entries: Entries,
}

/// Reads a record from a source, which is read to its end, and audits its journal.
///
/// # Errors
///
/// How the run ends where there is no record whose journal is complete.
pub(crate) fn audited_from<S: Source>(alloc: Global, source: &mut S) -> Result<Audited, Status>
    ensures read { IfOk result (λ audited. WasRead longest_record (IsOf audited) (S.left source.old) (S.left source.new)) }
    ensures setup { IfOk result (λ audited. IsMarketSetup audited.setup) }
    ensures legal { IfOk result (λ audited. market.IsLegal audited.setup audited.entries) }
    ensures stops { IfErr result (Stops longest_record IsBadRecord IsIllegalRecord (S.left source.old) (S.left source.new)) }
    ensures count { S.faults source.old ≤ S.faults source.new }
    ensures fault { result ≡ Err Status.ReadFault → Rose (S.faults source.old) (S.faults source.new) }
    ensures read_bound { ReadsWithin longest_record (S.reads source.old) (S.reads source.new) }
{
    match input_from(alloc, source, LONGEST_RECORD) {
        Ok(bytes) => audited_of(alloc, bytes.as_slice()),
        Err(status) => Err(status),
    }
}

// Audits the journal of a record.
fn audited_of(alloc: Global, bytes: &[u8]) -> Result<Audited, Status>
    requires { length bytes.now ≤ longest_record }
    ensures of { IfOk result (λ audited. IsOf audited bytes.now) }
    ensures setup { IfOk result (λ audited. IsMarketSetup audited.setup) }
    ensures legal { IfOk result (λ audited. market.IsLegal audited.setup audited.entries) }
    ensures ends { IfErr result (EndsAudit bytes.now) }
{
    let Divided { session, rest } = match read_divided(alloc, b"journal", bytes) {
        Ok(divided) => divided,
        Err(TextFault::BadSession { line }) => return Err(Status::BadSession { line }),
        Err(TextFault::NoMemory) => return Err(Status::NoMemory),
    };
    let Ok(grid) = grid_of(alloc, &session.setup) else {
        return Err(Status::NoMemory);
    };
    match audit(alloc, &grid, &session, rest) {
        Ok(Verdict::Legal(entries)) => {
            let Session { setup, .. } = session;
            Ok(Audited { setup, entries })
        }
        Ok(Verdict::Illegal { entry }) => Err(Status::Illegal { entry }),
        Err(_) => Err(Status::NoMemory),
    }
}
