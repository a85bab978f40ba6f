//! A disk in memory.

ghost use Rattle.std.specs.Prelude.{◌≡◌, ◌+◌, ◌-◌, ◌<◌, ◌≤◌, ◌↔◌, [], length, take, drop, max, Some, None, Ok, Contains, IsErr, IfOk, OnOk, OnErr};
ghost use Rattle.outside.specs.Faults.{raised, Rose};
ghost use Rattle.disk_model.specs.Contents.{Contents, IsImage, FailedWrite, settled, written, most_bytes, filled, filled_image};
ghost use Rattle.disk_model.specs.Moments.{MayLeave, Elapses};
ghost use Rattle.disk_model.specs.Past.{LeftSince, only_now};
ghost use Rattle.disk_model.specs.RamDisk.{fresh_disk, with_room, after_call, after_write, after_sync};
ghost use Rattle.disk_model.specs.RamInside.{BeginWithin};
ghost use Rattle.std.proofs.Common.{inl};

use crate::disk::Disk;
use crate::faults::{Failed, NoMemory};
use crate::mark::Mark;
use crate::span::Span;
use crate::writing::{put_at, put_behind};
use std::alloc::Global;
use std::marker::Model;

/// A disk in memory, which fails at the calls that are listed. It keeps each piece that was
/// written, so that it can tell what a crash at each earlier moment might have left.
///
/// Contracts see what it holds `now` and what it held at each moment of the `past`, the numbers of
/// the calls that fail, how many `calls` were made of `read_at`, `write_at` and `sync` and how many
/// `faults` there were, and its room.
#[derive(Debug, Drop)]
pub struct RamDisk {
    start: Vec<u8>,
    bytes: Vec<u8>,
    pieces: Vec<u8>,
    marks: Vec<Mark>,
    pending: Vec<Span>,
    fails: Vec<u64>,
    calls: u64,
    faults: u64,
    spare_calls: u64,
    spare_bytes: u64,
}

impl Model for RamDisk {
    ghost use Rattle.std.specs.Vec.{vec_len, vec_capacity};
    ghost use Rattle.disk_model.specs.Contents.{settled};
    ghost use Rattle.disk_model.specs.RamDisk.{RamState};
    ghost use Rattle.disk_model.specs.RamInside.{contents_after, contents_before, IsKept, HasRoom};

    ghost Value = { RamState };

    ghost view = { λ d. record {
      now = contents_after (settled d.start.items) d.marks.items d.pieces.items;
      past = contents_before (settled d.start.items) d.marks.items d.pieces.items;
      fails = d.fails.items;
      calls = d.calls;
      faults = d.faults;
      spare_calls = d.spare_calls;
      spare_bytes = d.spare_bytes;
    } };

    ghost invariant = { λ d. IsKept (contents_after (settled d.start.items) d.marks.items d.pieces.items)
        d.bytes.items d.pending.items d.marks.items d.pieces.items
        × HasRoom (vec_len d.marks) (vec_capacity d.marks) d.spare_calls
        × HasRoom (vec_len d.pending) (vec_capacity d.pending) d.spare_calls
        × HasRoom (vec_len d.pieces) (vec_capacity d.pieces) d.spare_bytes
        × HasRoom (vec_len d.bytes) (vec_capacity d.bytes) d.spare_bytes };
}

impl RamDisk {
    /// An empty disk with nothing pending, on which no call fails.
    pub fn new(alloc: Global) -> RamDisk
        ensures { result ≡ fresh_disk [] [] }
    {
        RamDisk::of(Vec::new(alloc), Vec::new(alloc), Vec::new(alloc))
    }

    /// An empty disk with nothing pending. The calls of these numbers fail, counted from 1 over
    /// `read_at`, `write_at` and `sync`.
    ///
    /// # Errors
    ///
    /// [`NoMemory`] where memory runs out.
    pub fn failing(alloc: Global, calls: &[u64]) -> Result<RamDisk, NoMemory>
        ensures { IfOk result (λ disk. disk ≡ fresh_disk [] calls.now) }
    {
        let fails = calls.to_vec(alloc)?;
        Ok(RamDisk::of(Vec::new(alloc), Vec::new(alloc), fails))
    }

    // A disk that reads as these bytes, which are given twice.
    fn of(start: Vec<u8>, bytes: Vec<u8>, fails: Vec<u64>) -> RamDisk
        requires same { start.items ≡ bytes.items }
        requires limit { length bytes.items ≤ most_bytes }
        ensures { result ≡ fresh_disk bytes.items fails.items }
    {
        let alloc = *start.allocator();
        RamDisk {
            start,
            bytes,
            pieces: Vec::new(alloc),
            marks: Vec::new(alloc),
            pending: Vec::new(alloc),
            fails,
            calls: 0,
            faults: 0,
            spare_calls: 0,
            spare_bytes: 0,
        }
    }

    /// What a crash makes of the disk: a new one that reads as the image in which every pending
    /// byte is `fill`. Nothing is pending on it, and no call fails.
    ///
    /// # Errors
    ///
    /// [`NoMemory`] where memory runs out.
    pub fn crash(&self, fill: u8) -> Result<RamDisk, NoMemory>
        ensures crashed { IfOk result (λ disk. disk ≡ fresh_disk (filled_image fill self.now.now) []) }
        ensures image { IfOk result (λ disk. IsImage self.now.now disk.now.bytes) }
    {
        let alloc = *self.bytes.allocator();
        let mut image = self.bytes.to_vec(alloc)?;
        fill_spans(&mut image, &self.pending, fill)?;
        Ok(RamDisk::of(image.to_vec(alloc)?, image, Vec::new(alloc)))
    }
}

// Fills ranges of an image.
fn fill_spans(image: &mut Vec<u8>, spans: &[Span], fill: u8) -> Result<(), NoMemory>
    requires { BeginWithin (length image.old.items) spans.now }
    ensures { OnOk result (image.new.items ≡ filled fill image.old.items spans.now) }
{
    for span in spans {
        let piece = vec![in *image.allocator(); fill; span.count as usize]?;
        image.reserve(piece.len())?;
        put_at(image, span.place as usize, &piece);
    }
    Ok(())
}

impl Disk for RamDisk {
    ghost contents = { λ disk. Some disk.now };

    ghost size = { λ disk. length disk.now.bytes };

    ghost moment = { λ disk. length disk.past };

    ghost left_since = { λ disk t image. LeftSince disk.past disk.now t image };

    ghost spare_calls = { λ disk. disk.spare_calls };

    ghost spare_bytes = { λ disk. disk.spare_bytes };

    ghost faults = { λ disk. disk.faults };

    ghost counts_now = { λ disk t image earlier now. inl now };

    ghost only_now = { λ disk image left. only_now disk.past disk.now image left };

    fn len(&self) -> u64
        ensures size { result ≡ length self.now.now.bytes }
        ensures limit { result ≤ most_bytes }
        ensures told { (told : Contents) → Some self.now.now ≡ Some told
            → (length told.bytes ≡ result) × IsImage told told.bytes }
    {
        self.bytes.len() as u64
    }

    /// Makes room: after it there is room for as many calls and bytes as are asked for, or for as
    /// many as there was room for before, where these are more.
    fn reserve(&mut self, calls: u64, bytes: u64) -> Result<(), NoMemory>
        ensures calls { OnOk result (calls ≤ self.new.spare_calls) }
        ensures bytes { OnOk result (bytes ≤ self.new.spare_bytes) }
        ensures kept_calls { self.old.spare_calls ≤ self.new.spare_calls }
        ensures kept_bytes { self.old.spare_bytes ≤ self.new.spare_bytes }
        ensures err { OnErr result ((self.new.spare_calls ≡ self.old.spare_calls)
            × (self.new.spare_bytes ≡ self.old.spare_bytes)) }
        ensures contents { Some self.new.now ≡ Some self.old.now }
        ensures size { length self.new.now.bytes ≡ length self.old.now.bytes }
        ensures count { self.new.faults ≡ self.old.faults }
        ensures time { Elapses (length self.old.past) (length self.new.past)
            (LeftSince self.old.past self.old.now) (LeftSince self.new.past self.new.now) (Some self.new.now) }

        ensures room { OnOk result (self.new ≡ with_room self.old calls bytes) }
        ensures unchanged { OnErr result (self.new ≡ self.old) }
    {
        let calls = calls.max(self.spare_calls);
        let bytes = bytes.max(self.spare_bytes);
        self.marks.reserve(calls as usize)?;
        self.pending.reserve(calls as usize)?;
        self.pieces.reserve(bytes as usize)?;
        self.bytes.reserve(bytes as usize)?;
        self.spare_calls = calls;
        self.spare_bytes = bytes;
        Ok(())
    }

    /// Reads the bytes from a place on. A call whose number is listed fails, reads nothing and
    /// raises the count of faults. Both counts stay at their last value, 2^64 - 1.
    fn read_at(&mut self, place: u64, into: &mut [u8]) -> Result<(), Failed>
        requires some { 0 < length into.old }
        requires within { place + length into.old ≤ length self.old.now.bytes }
        ensures read { OnOk result ((told : Contents) → Some self.old.now ≡ Some told
            → into.new ≡ take (length into.old) (drop place told.bytes)) }
        ensures contents { Some self.new.now ≡ Some self.old.now }
        ensures size { length self.new.now.bytes ≡ length self.old.now.bytes }
        ensures calls { self.new.spare_calls ≡ self.old.spare_calls }
        ensures bytes { self.new.spare_bytes ≡ self.old.spare_bytes }
        ensures kept_count { self.old.faults ≤ self.new.faults }
        ensures failed { OnErr result (Rose self.old.faults self.new.faults) }
        ensures time { Elapses (length self.old.past) (length self.new.past)
            (LeftSince self.old.past self.old.now) (LeftSince self.new.past self.new.now) (Some self.new.now) }

        ensures listed { IsErr result ↔ Contains self.old.fails (raised self.old.calls) }
        ensures bytes_read { OnOk result (into.new ≡ take (length into.old) (drop place self.old.now.bytes)) }
        ensures nothing_read { OnErr result (into.new ≡ into.old) }
        ensures after { self.new ≡ after_call self.old result }
    {
        self.calls = self.calls.saturating_add(1);
        if self.fails.contains(&self.calls) {
            self.faults = self.faults.saturating_add(1);
            return Err(Failed);
        }
        let (_, behind) = self.bytes.as_slice().split_at(place as usize);
        into.copy_from_slice(behind.split_at(into.len()).0);
        Ok(())
    }

    /// Writes a piece at a place. A call whose number is listed fails, writes nothing and raises
    /// the count of faults; its range is pending all the same. Both counts stay at their last
    /// value, 2^64 - 1.
    fn write_at(&mut self, place: u64, piece: &[u8]) -> Result<(), Failed>
        requires some { 0 < length piece.now }
        requires begin { place ≤ length self.old.now.bytes }
        requires end { place + length piece.now ≤ most_bytes }
        requires room { 0 < self.old.spare_calls }
        requires room_for_bytes { length piece.now ≤ self.old.spare_bytes }
        ensures written { OnOk result ((told : Contents) → Some self.old.now ≡ Some told
            → Some self.new.now ≡ Some (written told place piece.now)) }
        ensures torn { OnErr result ((told : Contents) → Some self.old.now ≡ Some told
            → (torn : Contents) × (Some self.new.now ≡ Some torn) × FailedWrite place (length piece.now) told torn) }
        ensures silent { Some self.old.now ≡ None → Some self.new.now ≡ None }
        ensures kept_size { length self.old.now.bytes ≤ length self.new.now.bytes }
        ensures reached { OnOk result (place + length piece.now ≤ length self.new.now.bytes) }
        ensures calls { self.new.spare_calls ≡ self.old.spare_calls - 1 }
        ensures bytes { self.new.spare_bytes ≡ self.old.spare_bytes - length piece.now }
        ensures kept_count { self.old.faults ≤ self.new.faults }
        ensures failed { OnErr result (Rose self.old.faults self.new.faults) }
        ensures time { Elapses (length self.old.past) (length self.new.past)
            (LeftSince self.old.past self.old.now) (LeftSince self.new.past self.new.now) (Some self.new.now) }

        ensures listed { IsErr result ↔ Contains self.old.fails (raised self.old.calls) }
        ensures after { self.new ≡ after_write self.old place piece.now result }
    {
        let span = Span {
            place,
            count: piece.len() as u64,
        };
        self.spare_calls -= 1;
        self.spare_bytes -= span.count;
        self.pending.push_reserved(span);
        self.calls = self.calls.saturating_add(1);
        if self.fails.contains(&self.calls) {
            self.faults = self.faults.saturating_add(1);
            self.marks.push_reserved(Mark::Failed(span));
            return Err(Failed);
        }
        put_at(&mut self.bytes, place as usize, piece);
        put_behind(&mut self.pieces, piece);
        self.marks.push_reserved(Mark::Written(span));
        Ok(())
    }

    /// Makes sure of what was written. A call whose number is listed fails, changes nothing of
    /// what the disk holds and raises the count of faults. Both counts stay at their last value,
    /// 2^64 - 1.
    fn sync(&mut self) -> Result<(), Failed>
        requires room { 0 < self.old.spare_calls }
        ensures synced { OnOk result ((told : Contents) → Some self.old.now ≡ Some told
            → Some self.new.now ≡ Some (settled told.bytes)) }
        ensures silent { Some self.old.now ≡ None → Some self.new.now ≡ None }
        ensures err { OnErr result (Some self.new.now ≡ Some self.old.now) }
        ensures size { length self.new.now.bytes ≡ length self.old.now.bytes }
        ensures calls { self.new.spare_calls ≡ self.old.spare_calls - 1 }
        ensures bytes { self.new.spare_bytes ≡ self.old.spare_bytes }
        ensures kept_count { self.old.faults ≤ self.new.faults }
        ensures failed { OnErr result (Rose self.old.faults self.new.faults) }
        ensures time { Elapses (length self.old.past) (length self.new.past)
            (LeftSince self.old.past self.old.now) (LeftSince self.new.past self.new.now) (Some self.new.now) }

        ensures listed { IsErr result ↔ Contains self.old.fails (raised self.old.calls) }
        ensures after { self.new ≡ after_sync self.old result }
    {
        self.spare_calls -= 1;
        self.calls = self.calls.saturating_add(1);
        if self.fails.contains(&self.calls) {
            self.faults = self.faults.saturating_add(1);
            return Err(Failed);
        }
        self.pending.clear();
        self.marks.push_reserved(Mark::Synced);
        Ok(())
    }
}
