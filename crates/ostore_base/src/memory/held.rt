//! Bytes in memory, and which calls on them fail.

ghost use Rattle.std.specs.Prelude.{◌≡◌, ◌⊎◌, ◌+◌, ◌<◌, ◌≤◌, ◌++◌, ◌↔◌, length, IsTrue, IsErr, OnOk, OnErr, Contains, IsSomeAnd};
ghost use Rattle.ostore_base.specs.Faults.{HasCause, CountsFault};
ghost use Rattle.ostore_base.specs.Disk.{replaced};
ghost use Rattle.ostore_base.specs.Memory.{MemoryState, fresh, holding, after_fault, stopping_at, IsNextNamed, CountsCall};

use crate::fault_count::FaultCount;
use crate::outside::Failed;
use std::marker::Model;

/// Bytes, the calls that fail, by their numbers from 1 on, the number from which on all fail, and the
/// counts of calls and of faults. Both counts stay at the end of 64 bits.
#[derive(Debug, Drop)]
pub(super) struct Held {
    bytes: Vec<u8>,
    fails: Vec<u64>,
    stop: Option<u64>,
    calls: u64,
    faults: FaultCount,
}

impl Model for Held {
    ghost use Rattle.ostore_base.specs.Memory.{MemoryState};

    ghost Value = { MemoryState };

    ghost view = { λ h. record {
      bytes = h.bytes.items;
      fails = h.fails.items;
      stop = h.stop;
      calls = h.calls;
      faults = h.faults;
    } };
}

impl Held {
    /// These bytes, on which no call was made yet.
    pub fn new(bytes: Vec<u8>, fails: Vec<u64>) -> Held
        ensures { result ≡ fresh bytes.items fails.items }
    {
        Held {
            bytes,
            fails,
            stop: None,
            calls: 0,
            faults: FaultCount::zero(),
        }
    }

    /// The bytes, to be read.
    pub fn bytes(&self) -> &[u8]
        ensures { result.now ≡ self.now.bytes }
    {
        &self.bytes
    }

    /// How many calls there were.
    pub fn calls(&self) -> u64
        ensures { result ≡ self.now.calls }
    {
        self.calls
    }

    /// How many calls failed.
    pub fn faults(&self) -> u64
        ensures { result ≡ self.now.faults }
    {
        self.faults.get()
    }

    /// Makes this call and all later ones fail.
    pub fn stop_at(&mut self, call: u64)
        ensures { self.new ≡ stopping_at call self.old }
    {
        self.stop = Some(call);
    }

    /// Counts a call, and fails it where it is one of those that fail.
    pub fn begin_call(&mut self) -> Result<(), Failed>
        ensures named { IsErr result ↔ IsNextNamed self.old }
        ensures kept { self.new.bytes ≡ self.old.bytes }
        ensures counted { CountsCall self.old self.new }
        ensures fault { CountsFault self.old.faults self.new.faults result }
        ensures cause { HasCause self.old.faults self.new.faults result }
    {
        let failing = is_failing(&self.fails, self.stop, self.calls);
        self.calls = self.calls.saturating_add(1);
        if failing {
            return Err(self.faults.rise());
        }
        Ok(())
    }

    /// Fails the call that was counted last.
    pub fn fail(&mut self) -> Failed
        ensures fault { self.new ≡ after_fault self.old }
        ensures later { self.old.faults ≤ self.new.faults }
    {
        self.faults.rise()
    }

    /// Adds bytes at the end. Where memory to grow is refused, the bytes stay and the call fails.
    pub fn append(&mut self, bytes: &[u8]) -> Result<(), Failed>
        ensures ok { OnOk result (self.new ≡ holding (self.old.bytes ++ bytes.now) self.old) }
        ensures err { OnErr result (self.new ≡ after_fault self.old) }
        ensures later { self.old.faults ≤ self.new.faults }
        ensures wanted { IsErr result → 0 < length bytes.now }
    {
        match self.bytes.extend_from_slice(bytes) {
            Ok(()) => Ok(()),
            Err(_) => Err(self.faults.rise()),
        }
    }

    /// Writes bytes at a place, over what is there and past the end. It takes the memory first, so
    /// what is there stays where memory is refused.
    pub fn put(&mut self, at: usize, bytes: &[u8]) -> Result<(), Failed>
        requires { at ≤ length self.old.bytes }
        ensures ok { OnOk result
            (self.new ≡ holding (replaced at bytes.now self.old.bytes) self.old) }
        ensures err { OnErr result (self.new ≡ after_fault self.old) }
        ensures later { self.old.faults ≤ self.new.faults }
        ensures wanted { IsErr result → length self.old.bytes < at + length bytes.now }
    {
        let inside = bytes.len().min(self.bytes.len() - at);
        self.append(&bytes[inside..])?;
        self.bytes[at..at + inside].copy_from_slice(&bytes[..inside]);
        Ok(())
    }
}

/// Whether the call after so many calls fails.
fn is_failing(fails: &[u64], stop: Option<u64>, calls: u64) -> bool
    ensures { IsTrue result ↔ Contains fails.now (calls + 1)
        ⊎ IsSomeAnd stop (λ call. call ≤ calls + 1) }
{
    is_next_named(fails, calls) || is_past(stop, calls)
}

/// Whether the call after so many calls is one of those that are named.
fn is_next_named(fails: &[u64], calls: u64) -> bool
    ensures { IsTrue result ↔ Contains fails.now (calls + 1) }
{
    if calls == u64::MAX {
        return false;
    }
    fails.contains(&(calls + 1))
}

/// Whether the call after so many calls is at the stop or behind it.
fn is_past(stop: Option<u64>, calls: u64) -> bool
    ensures { IsTrue result ↔ IsSomeAnd stop (λ call. call ≤ calls + 1) }
{
    match stop {
        Some(call) => call.saturating_sub(1) <= calls,
        None => false,
    }
}
