//! What is done with a record: the text of a session, then the line `journal`, then the text of its journal. The journal
//! is audited, and where it is complete, it is said how many entries it has, or the schedule that follows from it is
//! written.
#![tactic(auto)]

mod auditing;
mod inputs;
mod laws;
mod recording;
mod writing;

pub use inputs::input_from;
pub use laws::{printed_journals_make_records, traded_journals_make_records};
pub use recording::{audit_record, ship_record};
pub use writing::write_text;
