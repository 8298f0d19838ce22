ghost use Rattle.std.specs.Prelude.{◌≡◌, ◌≤◌, ◌↔◌, min, length, drop, Some, IsErr, IfOk, OnErr};
ghost use Rattle.ostore_base.specs.Faults.{HasCause, CountsFault};
ghost use Rattle.ostore_base.specs.Streams.{GivesFront};
ghost use Rattle.ostore_base.specs.Memory.{MemoryState, fresh, IsNextNamed, CountsCall};

use crate::memory::held::Held;
use crate::outside::{Failed, Source};
use std::marker::Model;

/// A source of bytes in memory. A contract sees the bytes that are left.
#[derive(Debug, Drop)]
pub struct MemSource {
    held: Held,
    taken: usize,
}

impl Model for MemSource {
    ghost use Rattle.std.specs.Prelude.{◌≤◌, drop, length};
    ghost use Rattle.ostore_base.specs.Memory.{MemoryState};

    ghost Value = { MemoryState };

    ghost view = { λ s. record s.held { bytes = drop s.taken s.held.bytes } };

    ghost invariant = { λ s. s.taken ≤ length s.held.bytes };
}

impl MemSource {
    /// A source of these bytes. Its calls fail whose numbers, counted from 1, stand in `fails`.
    pub fn new(bytes: Vec<u8>, fails: Vec<u64>) -> MemSource
        ensures { result ≡ fresh bytes.items fails.items }
    {
        MemSource {
            held: Held::new(bytes, fails),
            taken: 0,
        }
    }

    /// How many calls there were.
    pub fn calls(&self) -> u64
        ensures { result ≡ self.now.calls }
    {
        self.held.calls()
    }

    /// How many calls failed.
    pub fn faults(&self) -> u64
        ensures { result ≡ self.now.faults }
    {
        self.held.faults()
    }
}

impl Source for MemSource {
    ghost left = { λ s. Some s.bytes };

    ghost faults = { λ s. s.faults };

    /// Moves as many bytes as fit.
    fn read(&mut self, into: &mut [u8]) -> Result<usize, Failed>
        ensures most { IfOk result (λ n. n ≡ min (length into.old) (length self.old.bytes)) }
        ensures moved { IfOk result (λ n. self.new.bytes ≡ drop n self.old.bytes) }
        ensures bytes { IfOk result (λ n. GivesFront self.old.bytes into.new n) }
        ensures kept { OnErr result (self.new.bytes ≡ self.old.bytes) }
        ensures named { IsErr result ↔ IsNextNamed self.old }
        ensures counted { CountsCall self.old self.new }
        ensures fault { CountsFault self.old.faults self.new.faults result }
        ensures cause { HasCause self.old.faults self.new.faults result }
    {
        self.held.begin_call()?;
        let count = move_front(&self.held.bytes()[self.taken..], into);
        self.taken += count;
        Ok(count)
    }
}

/// Moves as many bytes as fit from the front of one slice to the front of another.
fn move_front(bytes: &[u8], into: &mut [u8]) -> usize
    ensures count { result ≡ min (length into.old) (length bytes.now) }
    ensures front { GivesFront bytes.now into.new result }
{
    let count = bytes.len().min(into.len());
    into[..count].copy_from_slice(&bytes[..count]);
    count
}
