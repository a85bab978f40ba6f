//! The trait of a disk.

ghost use Rattle.std.specs.Prelude.{◌≡◌, ℕ, ◌+◌, ◌-◌, ◌<◌, ◌≤◌, List, length, take, drop, Option, Some, None, OnOk, OnErr};
ghost use Rattle.outside.specs.Faults.{Rose};
ghost use Rattle.disk_model.specs.Contents.{Contents, IsImage, FailedWrite, settled, written, most_bytes};
ghost use Rattle.disk_model.specs.Moments.{MayLeave, Elapses};

use crate::faults::{Failed, NoMemory};

/// A disk: bytes that are written at places and are sure to be kept once they are synced.
///
/// For clauses, `contents` is what it holds, where the type tells it, now and always: the bytes that it reads as,
/// those that it read as at the last sync, and the ranges that were written since. These say which
/// images a crash may leave. `size` is the number of its bytes. `moment` is a count of moments
/// that never falls, and `left_since` says which images a crash at some moment from that one on
/// might have left, in a call or between two. `spare_calls` and `spare_bytes` are for how many
/// further calls and bytes there is room, and `faults` is a count of the calls that failed, which
/// never falls.
pub trait Disk {
    ghost contents: { Self → Option Contents };

    ghost size: { Self → ℕ };

    ghost moment: { Self → ℕ };

    ghost left_since: { Self → ℕ → List ℕ → Type 0 };

    ghost spare_calls: { Self → ℕ };

    ghost spare_bytes: { Self → ℕ };

    ghost faults: { Self → ℕ };

    /// How many bytes there are. They are at most 134217728, and what the disk reads as is one of
    /// the images that a crash may leave.
    fn len(&self) -> u64
        ensures size { result ≡ size self.now }
        ensures limit { result ≤ most_bytes }
        ensures told { (told : Contents) → contents self.now ≡ Some told
            → (length told.bytes ≡ result) × IsImage told told.bytes };

    /// Makes room for so many further calls of `write_at` and `sync`, and for so many further
    /// bytes that they write. No other call takes memory.
    ///
    /// # Errors
    ///
    /// [`NoMemory`] where memory runs out. The room is then as it was.
    fn reserve(&mut self, calls: u64, bytes: u64) -> Result<(), NoMemory>
        ensures calls { OnOk result (calls ≤ spare_calls self.new) }
        ensures bytes { OnOk result (bytes ≤ spare_bytes self.new) }
        ensures kept_calls { spare_calls self.old ≤ spare_calls self.new }
        ensures kept_bytes { spare_bytes self.old ≤ spare_bytes self.new }
        ensures err { OnErr result ((spare_calls self.new ≡ spare_calls self.old)
            × (spare_bytes self.new ≡ spare_bytes self.old)) }
        ensures contents { contents self.new ≡ contents self.old }
        ensures size { size self.new ≡ size self.old }
        ensures count { faults self.new ≡ faults self.old }
        ensures time { Elapses (moment self.old) (moment self.new) (left_since self.old) (left_since self.new) (contents self.new) };

    /// Reads the bytes from a place on, as many as there is room for.
    ///
    /// # Errors
    ///
    /// [`Failed`] only where the count of faults rose in this call, or stands at its last value,
    /// 2^64 - 1.
    fn read_at(&mut self, place: u64, into: &mut [u8]) -> Result<(), Failed>
        requires some { 0 < length into.old }
        requires within { place + length into.old ≤ size self.old }
        ensures read { OnOk result ((told : Contents) → contents self.old ≡ Some told
            → into.new ≡ take (length into.old) (drop place told.bytes)) }
        ensures contents { contents self.new ≡ contents self.old }
        ensures size { size self.new ≡ size self.old }
        ensures calls { spare_calls self.new ≡ spare_calls self.old }
        ensures bytes { spare_bytes self.new ≡ spare_bytes self.old }
        ensures kept_count { faults self.old ≤ faults self.new }
        ensures failed { OnErr result (Rose (faults self.old) (faults self.new)) }
        ensures time { Elapses (moment self.old) (moment self.new) (left_since self.old) (left_since self.new) (contents self.new) };

    /// Writes a piece at a place, over what stands there and past the end. Until a sync, a crash
    /// may leave any bytes in its range.
    ///
    /// # Errors
    ///
    /// [`Failed`] only where the count of faults rose in this call, or stands at its last value,
    /// 2^64 - 1. Any bytes may then stand in the range.
    fn write_at(&mut self, place: u64, piece: &[u8]) -> Result<(), Failed>
        requires some { 0 < length piece.now }
        requires begin { place ≤ size self.old }
        requires end { place + length piece.now ≤ most_bytes }
        requires room { 0 < spare_calls self.old }
        requires room_for_bytes { length piece.now ≤ spare_bytes self.old }
        ensures written { OnOk result ((told : Contents) → contents self.old ≡ Some told
            → contents self.new ≡ Some (written told place piece.now)) }
        ensures torn { OnErr result ((told : Contents) → contents self.old ≡ Some told
            → (torn : Contents) × (contents self.new ≡ Some torn) × FailedWrite place (length piece.now) told torn) }
        ensures silent { contents self.old ≡ None → contents self.new ≡ None }
        ensures kept_size { size self.old ≤ size self.new }
        ensures reached { OnOk result (place + length piece.now ≤ size self.new) }
        ensures calls { spare_calls self.new ≡ spare_calls self.old - 1 }
        ensures bytes { spare_bytes self.new ≡ spare_bytes self.old - length piece.now }
        ensures kept_count { faults self.old ≤ faults self.new }
        ensures failed { OnErr result (Rose (faults self.old) (faults self.new)) }
        ensures time { Elapses (moment self.old) (moment self.new) (left_since self.old) (left_since self.new) (contents self.new) };

    /// Makes sure of what was written: a crash then leaves what the disk reads as.
    ///
    /// # Errors
    ///
    /// [`Failed`] only where the count of faults rose in this call, or stands at its last value,
    /// 2^64 - 1. A crash may then leave what it might have left before.
    fn sync(&mut self) -> Result<(), Failed>
        requires room { 0 < spare_calls self.old }
        ensures synced { OnOk result ((told : Contents) → contents self.old ≡ Some told
            → contents self.new ≡ Some (settled told.bytes)) }
        ensures silent { contents self.old ≡ None → contents self.new ≡ None }
        ensures err { OnErr result (contents self.new ≡ contents self.old) }
        ensures size { size self.new ≡ size self.old }
        ensures calls { spare_calls self.new ≡ spare_calls self.old - 1 }
        ensures bytes { spare_bytes self.new ≡ spare_bytes self.old }
        ensures kept_count { faults self.old ≤ faults self.new }
        ensures failed { OnErr result (Rose (faults self.old) (faults self.new)) }
        ensures time { Elapses (moment self.old) (moment self.new) (left_since self.old) (left_since self.new) (contents self.new) };

    /// This moment is one of those since an earlier one.
    ghost counts_now: { (disk : Self) (t : ℕ) (image : List ℕ) → t ≤ moment disk
        → MayLeave (contents disk) image → left_since disk t image };

    /// Since this moment there is no other.
    ghost only_now: { (disk : Self) (image : List ℕ) → left_since disk (moment disk) image
        → MayLeave (contents disk) image };
}
