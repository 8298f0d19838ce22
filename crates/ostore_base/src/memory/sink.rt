ghost use Rattle.std.specs.Prelude.{◌≡◌, ◌⊎◌, ◌<◌, [], length, Some, ◌++◌, IfOk, OnOk, IsErr, OnErr};
ghost use Rattle.ostore_base.specs.Faults.{HasCause, CountsFault};
ghost use Rattle.ostore_base.specs.Memory.{MemoryState, fresh, IsNextNamed, CountsCall};

use crate::memory::held::Held;
use crate::outside::{Failed, Sink};
use std::alloc::Global;
use std::marker::Model;

/// A sink of bytes in memory. A contract sees the bytes that were written.
#[derive(Debug, Drop)]
pub struct MemSink {
    held: Held,
}

impl Model for MemSink {
    ghost use Rattle.ostore_base.specs.Memory.{MemoryState};

    ghost Value = { MemoryState };

    ghost view = { λ s. s.held };
}

impl MemSink {
    /// A sink to which nothing was written. Its calls fail whose numbers, counted from 1, stand in
    /// `fails`, and also those that find no memory to grow.
    pub fn new(alloc: Global, fails: Vec<u64>) -> MemSink
        ensures { result ≡ fresh [] fails.items }
    {
        MemSink {
            held: Held::new(Vec::new(alloc), fails),
        }
    }

    /// The bytes that were written.
    pub fn bytes(&self) -> &[u8]
        ensures { result.now ≡ self.now.bytes }
    {
        self.held.bytes()
    }

    /// How many calls there were.
    pub fn calls(&self) -> u64
        ensures { result ≡ self.now.calls }
    {
        self.held.calls()
    }

    /// How many calls failed.
    pub fn faults(&self) -> u64
        ensures { result ≡ self.now.faults }
    {
        self.held.faults()
    }
}

impl Sink for MemSink {
    ghost written = { λ s. Some s.bytes };

    ghost faults = { λ s. s.faults };

    /// Takes the whole piece. A piece without bytes wants no memory.
    fn write(&mut self, bytes: &[u8]) -> Result<usize, Failed>
        ensures whole { IfOk result (λ n. n ≡ length bytes.now) }
        ensures written { OnOk result (self.new.bytes ≡ self.old.bytes ++ bytes.now) }
        ensures kept { OnErr result (self.new.bytes ≡ self.old.bytes) }
        ensures named { IsNextNamed self.old → IsErr result }
        ensures failed { IsErr result → IsNextNamed self.old ⊎ (0 < length bytes.now) }
        ensures counted { CountsCall self.old self.new }
        ensures fault { CountsFault self.old.faults self.new.faults result }
        ensures cause { HasCause self.old.faults self.new.faults result }
    {
        self.held.begin_call()?;
        self.held.append(bytes)?;
        Ok(bytes.len())
    }
}
