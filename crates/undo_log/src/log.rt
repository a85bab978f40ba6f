//! The log.

ghost use Rattle.std.specs.Prelude.{◌≡◌, ◌+◌, ◌<◌, ◌≤◌, ◌↔◌, [], ◌∷◌, ◌++◌, length, Ok, IsTrue, IsOk, IsSome, IsNone, OnOk, OnErr};
ghost use Rattle.std.specs.Option.{option_to_list};
ghost use Rattle.undo_log.specs.Log.{empty_log, with_noted, cleared_log};

use crate::memory::NoMemory;
use std::alloc::Global;
use std::marker::Model;

/// A list of records of changes, which is taken back from its end.
///
/// Contracts see the list of its `records`, from the first that was noted to the last, and
/// `spare`, the number of further records that it takes without taking memory. No call but
/// [`UndoLog::reserve`] takes memory.
#[derive(Debug, Drop)]
pub struct UndoLog<C> {
    records: Vec<C>,
}

impl<C> Model for UndoLog<C> {
    ghost use Rattle.std.specs.Prelude.{◌-◌};
    ghost use Rattle.std.specs.Vec.{vec_len, vec_capacity};
    ghost use Rattle.undo_log.specs.Log.{Log};

    ghost Value = { Log C };

    ghost view = { λ log. record {
      records = log.records.items;
      spare = vec_capacity log.records - vec_len log.records;
    } };
}

impl<C> UndoLog<C> {
    /// A log with no record and no spare room. It takes no memory yet, so the answer is `Ok`: it
    /// is a `Result` as that of each constructor of a type that comes to hold memory.
    pub fn new(alloc: Global) -> Result<UndoLog<C>, NoMemory>
        ensures { result ≡ Ok empty_log }
    {
        Ok(UndoLog {
            records: Vec::new(alloc),
        })
    }

    /// Makes room for at least `more` further records. The records stay as they are, and the
    /// spare room never falls.
    ///
    /// # Errors
    ///
    /// [`NoMemory`] where memory runs out, and only where the spare room was below `more`. The
    /// log is then as it was, its spare room too.
    pub fn reserve(&mut self, more: usize) -> Result<(), NoMemory>
        ensures records { self.new.records ≡ self.old.records }
        ensures enough { OnOk result (more ≤ self.new.spare) }
        ensures kept_room { self.old.spare ≤ self.new.spare }

        // There is no error where the room is there already, and after one nothing has changed.
        ensures ok { more ≤ self.old.spare → IsOk result }
        ensures full { OnErr result (self.old.spare < more) }
        ensures err { OnErr result (self.new ≡ self.old) }
    {
        self.records.reserve(more)?;
        Ok(())
    }

    /// Notes a change: its record goes behind the others, and takes one place of the spare room.
    pub fn note(&mut self, change: C)
        requires { 0 < self.old.spare }
        ensures { self.new ≡ with_noted self.old change }
    {
        self.records.push_reserved(change);
    }

    /// Takes the last record: `None` exactly where there is none. Its place is spare again.
    pub fn back(&mut self) -> Option<C>
        ensures records { self.old.records ≡ self.new.records ++ option_to_list result }
        ensures spare { self.new.spare ≡ self.old.spare + length (option_to_list result) }
        ensures some { IsSome result ↔ (0 < length self.old.records) }
        ensures none { IsNone result ↔ (self.old.records ≡ []) }
    {
        self.records.pop()
    }

    /// The records, from the first that was noted to the last.
    pub fn as_slice(&self) -> &[C]
        ensures { result.now ≡ self.now.records }
    {
        self.records.as_slice()
    }

    /// The number of records.
    pub fn len(&self) -> usize
        ensures { result ≡ length self.now.records }
    {
        self.records.len()
    }

    /// Whether there is no record.
    pub fn is_empty(&self) -> bool
        ensures { IsTrue result ↔ (self.now.records ≡ []) }
    {
        self.records.is_empty()
    }

    /// How many further records can be noted without taking memory.
    pub fn spare(&self) -> usize
        ensures { result ≡ self.now.spare }
    {
        self.records.capacity() - self.records.len()
    }

    /// Drops all records. Their places are spare again.
    pub fn clear(&mut self)
    where
        C: Drop,
        ensures { self.new ≡ cleared_log self.old }
    {
        self.records.clear();
    }
}
