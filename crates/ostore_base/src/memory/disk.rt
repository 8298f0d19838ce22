ghost use Rattle.std.specs.Prelude.{◌≡◌, ◌⊎◌, ◌+◌, ◌-◌, ◌^◌, ◌<◌, ◌≤◌, ◌↔◌, ◌∷◌, length, drop, Some, All, IsErr, IfOk, OnOk, OnErr};
ghost use Rattle.ostore_base.specs.Limits.{longest_disk};
ghost use Rattle.ostore_base.specs.Faults.{HasCause, CountsFault, one_more};
ghost use Rattle.ostore_base.specs.Disk.{replaced, StandsAt, IsTornRange};
ghost use Rattle.ostore_base.specs.Images.{Follows, Keeps, IsSure};
ghost use Rattle.ostore_base.specs.Memory.{IsNextNamed, CountsCall};
ghost use Rattle.ostore_base.specs.MemoryDisk.{DiskState, fresh_disk, reads, memory_of, MayLeave, MightHaveLeft, Passes, IsImage, KeepsPast};
ghost use Rattle.ostore_base.specs.CrashImages.{image_left, TriesAll};
ghost use Rattle.ostore_base.specs.inside.Recorded.{RecordsSync, RecordsTorn, RecordsWrite};
ghost use Rattle.ostore_base.specs.declared.memory.disk_call.DiskCall.TheVariants.{Written};

use crate::list::ListOf;
use crate::memory::crashes::{Remains, crashed, images_since};
use crate::memory::disk_call::DiskCall;
use crate::memory::held::Held;
use crate::memory::record::{is_unsure, make_room, prepare};
use crate::out_of_memory::OutOfMemory;
use crate::outside::{Disk, Failed, LONGEST_DISK};
use std::collections::VecDeque;
use std::marker::Model;

/// A disk in memory, with a record of the calls that changed it or made sure of what it holds. A
/// contract sees what it held at first and those calls, from which follow the bytes that it reads as
/// and what a crash may leave.
#[derive(Debug, Drop)]
pub struct MemDisk {
    held: Held,
    opening: Option<Vec<u8>>,
    past: VecDeque<DiskCall>,
}

impl Model for MemDisk {
    ghost use Rattle.std.specs.VecDeque.{deque_len, deque_capacity};
    ghost use Rattle.ostore_base.specs.MemoryDisk.{DiskState};
    ghost use Rattle.ostore_base.specs.inside.Recorded.{first_of, IsRecorded};

    ghost Value = { DiskState };

    ghost view = { λ s. record {
      first = first_of s.opening s.held.bytes;
      past = s.past.items;
      fails = s.held.fails;
      stop = s.held.stop;
      calls = s.held.calls;
      faults = s.held.faults;
    } };

    ghost invariant = { λ s. IsRecorded (first_of s.opening s.held.bytes) s.held.bytes s.past.items
        (deque_len s.past) (deque_capacity s.past) };
}

impl MemDisk {
    /// A disk with these bytes. Its calls fail whose numbers, counted from 1, stand in `fails`. Of
    /// the others those writes of some bytes fail that find no memory to be recorded, and those that
    /// end past the longest disk. Where there are more bytes than that has, `length` fails.
    pub fn new(bytes: Vec<u8>, fails: Vec<u64>) -> MemDisk
        ensures { result ≡ fresh_disk bytes.items fails.items }
    {
        let past = VecDeque::new(*bytes.allocator());
        MemDisk {
            held: Held::new(bytes, fails),
            opening: None,
            past,
        }
    }

    /// Makes this call, counted from 1, and all later ones fail.
    pub fn stop_at(&mut self, call: u64)
        ensures { self.new ≡ record self.old { stop = Some call } }
    {
        self.held.stop_at(call);
    }

    /// The bytes that the disk reads as.
    pub fn bytes(&self) -> &[u8]
        ensures { result.now ≡ reads self.now }
    {
        self.held.bytes()
    }

    /// How many calls there were.
    pub fn calls(&self) -> u64
        ensures { result ≡ self.now.calls }
    {
        self.held.calls()
    }

    /// How many calls failed.
    pub fn faults(&self) -> u64
        ensures { result ≡ self.now.faults }
    {
        self.held.faults()
    }

    /// The moment: how many calls are recorded.
    pub fn moment(&self) -> usize
        ensures { result ≡ length self.now.past }
    {
        self.past.len()
    }

    /// What a crash may leave after the first `moment` of the recorded calls, where `newest` remains
    /// of the last write among them and `others` of each earlier one that no sync made sure of.
    #[tactic(auto, using(crate::proofs::CrashLemmas::image_of))]
    pub fn crash_image(
        &self,
        moment: usize,
        newest: Remains,
        others: Remains,
    ) -> Result<ListOf<u8>, OutOfMemory>
        requires { moment ≤ length self.now.past }
        ensures exact { IfOk result (λ image. image ≡ image_left self.now.first
            (drop (length self.now.past - moment) self.now.past) newest others) }
        ensures image { IfOk result
            (IsImage self.now.first (drop (length self.now.past - moment) self.now.past)) }
    {
        let skip = self.past.len() - moment;
        Ok(ListOf::from_vec(crashed(self.first(), &self.past, skip, newest, others)?))
    }

    /// What a crash may leave after the first `since` of the recorded calls, and after each one more:
    /// ten images a moment, in which the last write, and those before it that no sync made sure of,
    /// remain whole, not at all, by their first half, or filled with `filler`, which then stands past
    /// the end too.
    pub fn crash_images(&self, since: usize, filler: u8) -> Result<ListOf<ListOf<u8>>, OutOfMemory>
        ensures images { IfOk result (λ images. All (MightHaveLeft self.now since) images) }
        ensures all { IfOk result (TriesAll self.now.first self.now.past since filler) }
    {
        images_since(self.first(), &self.past, since, filler)
    }

    // What the disk held at first.
    fn first(&self) -> &[u8]
        ensures { result.now ≡ self.now.first }
    {
        match &self.opening {
            Some(opening) => opening,
            None => self.held.bytes(),
        }
    }

    // Counts a call, and fails it where it is one of those that fail.
    fn begin_call(&mut self) -> Result<(), Failed>
        ensures kept { KeepsPast self.old self.new }
        ensures named { IsErr result ↔ IsNextNamed (memory_of self.old) }
        ensures counted { CountsCall (memory_of self.old) (memory_of self.new) }
        ensures fault { CountsFault self.old.faults self.new.faults result }
        ensures cause { HasCause self.old.faults self.new.faults result }
    {
        self.held.begin_call()
    }

    // Fails the call that was counted last.
    fn fail(&mut self) -> Failed
        ensures fault { self.new ≡ record self.old { faults = one_more self.old.faults } }
        ensures kept { KeepsPast self.old self.new }
        ensures later { self.old.faults ≤ self.new.faults }
    {
        self.held.fail()
    }

    // Records a write that failed.
    fn tear(&mut self, at: u64, size: usize)
        ensures recorded { RecordsTorn at size self.old self.new }
        ensures memory { memory_of self.new ≡ memory_of self.old }
    {
        if make_room(&mut self.past) {
            self.past.push_front_reserved(DiskCall::Torn { at, size });
        }
    }

    // Records a sync that succeeded.
    fn note_sync(&mut self)
        ensures recorded { RecordsSync self.old self.new }
        ensures memory { memory_of self.new ≡ memory_of self.old }
    {
        if is_unsure(&self.past) {
            self.past.push_front_reserved(DiskCall::Synced);
        }
    }

    // Writes bytes and records the write, or leaves the disk where memory is refused.
    fn put(&mut self, at: u64, bytes: &[u8]) -> Result<(), Failed>
        requires inside { at ≤ length (reads self.old) }
        ensures recorded { OnOk result (RecordsWrite at bytes.now self.old self.new) }
        ensures ok { OnOk result
            (self.new ≡ record self.old { past = Written at bytes.now ∷ self.old.past }) }
        ensures kept { OnErr result (KeepsPast self.old self.new) }
        ensures err { OnErr result
            (self.new ≡ record self.old { faults = one_more self.old.faults }) }
        ensures later { self.old.faults ≤ self.new.faults }
    {
        match prepare(&mut self.opening, &mut self.past, self.held.bytes(), bytes) {
            Ok(copy) => {
                self.held.put(at as usize, bytes)?;
                self.past
                    .push_front_reserved(DiskCall::Written { at, bytes: copy });
                Ok(())
            }
            Err(OutOfMemory) => Err(self.held.fail()),
        }
    }
}

impl Disk for MemDisk {
    ghost use Rattle.ostore_base.specs.inside.DiskLaws.{content_is_image, left_now, only_left};

    ghost content = { λ s. Some (reads s) };

    ghost may_leave = { λ s. MayLeave s };

    ghost left_since = { λ s. MightHaveLeft s };

    ghost moment = { λ s. length s.past };

    ghost faults = { λ s. s.faults };

    ghost reads_image = { λ s. content_is_image s.first s.past };

    ghost counts_now = { λ s t image le now. left_now s.first s.past t image le now };

    ghost only_now = { λ s image left. only_left s.first s.past image left };

    fn length(&mut self) -> Result<u64, Failed>
        ensures value { IfOk result (λ n. n ≡ length (reads self.old)) }
        ensures kept { KeepsPast self.old self.new }
        ensures images { Keeps (MayLeave self.old) (MayLeave self.new) }
        ensures time { Passes self.old self.new }
        ensures failed { IsErr result ↔ IsNextNamed (memory_of self.old)
            ⊎ (longest_disk < length (reads self.old)) }
        ensures counted { CountsCall (memory_of self.old) (memory_of self.new) }
        ensures fault { CountsFault self.old.faults self.new.faults result }
        ensures cause { HasCause self.old.faults self.new.faults result }
    {
        self.begin_call()?;
        let length = self.bytes().len() as u64;
        if length > LONGEST_DISK {
            return Err(self.fail());
        }
        Ok(length)
    }

    fn read(&mut self, at: u64, into: &mut [u8]) -> Result<(), Failed>
        requires { at + length into.old ≤ length (reads self.old) }
        ensures bytes { OnOk result (StandsAt at into.new (reads self.old)) }
        ensures kept { KeepsPast self.old self.new }
        ensures images { Keeps (MayLeave self.old) (MayLeave self.new) }
        ensures time { Passes self.old self.new }
        ensures named { IsErr result ↔ IsNextNamed (memory_of self.old) }
        ensures counted { CountsCall (memory_of self.old) (memory_of self.new) }
        ensures fault { CountsFault self.old.faults self.new.faults result }
        ensures cause { HasCause self.old.faults self.new.faults result }
    {
        self.begin_call()?;
        let from = &self.bytes()[at as usize..];
        into.copy_from_slice(&from[..into.len()]);
        Ok(())
    }

    /// A write that failed leaves what the disk reads as. Of one that was named it is recorded that
    /// a crash may leave any bytes in its range. A write without bytes wants no memory.
    fn write(&mut self, at: u64, bytes: &[u8]) -> Result<(), Failed>
        requires inside { at ≤ length (reads self.old) }
        requires small { at + length bytes.now ≤ 2 ^ 40 }
        ensures written { OnOk result (reads self.new ≡ replaced at bytes.now (reads self.old)) }
        ensures kept { OnErr result (reads self.new ≡ reads self.old) }
        ensures images { Follows (IsTornRange at (length bytes.now))
            (MayLeave self.old) (MayLeave self.new) }
        ensures time { Passes self.old self.new }
        ensures named { IsNextNamed (memory_of self.old) → IsErr result }
        ensures within { OnOk result (at + length bytes.now ≤ longest_disk) }
        ensures failed { IsErr result → IsNextNamed (memory_of self.old)
            ⊎ (longest_disk < at + length bytes.now) ⊎ (0 < length bytes.now) }
        ensures counted { CountsCall (memory_of self.old) (memory_of self.new) }
        ensures fault { CountsFault self.old.faults self.new.faults result }
        ensures cause { HasCause self.old.faults self.new.faults result }
    {
        if self.begin_call().is_err() {
            self.tear(at, bytes.len());
            return Err(Failed);
        }
        if at + bytes.len() as u64 > LONGEST_DISK {
            return Err(self.fail());
        }
        if bytes.is_empty() {
            return Ok(());
        }
        self.put(at, bytes)
    }

    /// A sync takes no memory.
    fn sync(&mut self) -> Result<(), Failed>
        ensures kept { reads self.new ≡ reads self.old }
        ensures sure { OnOk result (IsSure (Some (reads self.new)) (MayLeave self.new)) }
        ensures images { Keeps (MayLeave self.old) (MayLeave self.new) }
        ensures time { Passes self.old self.new }
        ensures named { IsErr result ↔ IsNextNamed (memory_of self.old) }
        ensures counted { CountsCall (memory_of self.old) (memory_of self.new) }
        ensures fault { CountsFault self.old.faults self.new.faults result }
        ensures cause { HasCause self.old.faults self.new.faults result }
    {
        self.begin_call()?;
        self.note_sync();
        Ok(())
    }
}
