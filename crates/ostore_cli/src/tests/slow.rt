//! A source that gives one byte at a time, and a sink that takes one.

ghost use Rattle.std.specs.Prelude.{Some};

use ostore_base::{Failed, MemSink, MemSource, Sink, Source};
use std::alloc::Global;
use std::test::Fail;

/// A source that gives one byte at a time.
#[derive(Drop)]
pub(super) struct SlowSource {
    inner: MemSource,
}

impl SlowSource {
    /// A source with this text, whose read of this number fails, counted from 1; with 0 none does.
    pub(super) fn new(alloc: Global, text: &str, failing: u64) -> Result<SlowSource, Fail> {
        let bytes = text.as_bytes().to_vec(alloc)?;
        let inner = MemSource::new(bytes, [failing].to_vec(alloc)?);
        Ok(SlowSource { inner })
    }

    pub(super) fn faults(&self) -> u64 {
        self.inner.faults()
    }

    pub(super) fn calls(&self) -> u64 {
        self.inner.calls()
    }
}

impl Source for SlowSource {
    ghost left = { λ s. Some s.inner.bytes };

    ghost faults = { λ s. s.inner.faults };

    fn read(&mut self, into: &mut [u8]) -> Result<usize, Failed> {
        let room = into.len().min(1);
        self.inner.read(&mut into[..room])
    }
}

/// A sink that takes one byte at a time.
#[derive(Drop)]
pub(super) struct SlowSink {
    inner: MemSink,
}

impl SlowSink {
    /// A sink whose write of this number fails, counted from 1; with 0 none does.
    pub(super) fn new(alloc: Global, failing: u64) -> Result<SlowSink, Fail> {
        let inner = MemSink::new(alloc, [failing].to_vec(alloc)?);
        Ok(SlowSink { inner })
    }

    pub(super) fn bytes(&self) -> &[u8] {
        self.inner.bytes()
    }

    pub(super) fn calls(&self) -> u64 {
        self.inner.calls()
    }
}

impl Sink for SlowSink {
    ghost written = { λ s. Some s.inner.bytes };

    ghost faults = { λ s. s.inner.faults };

    fn write(&mut self, bytes: &[u8]) -> Result<usize, Failed> {
        let room = bytes.len().min(1);
        self.inner.write(&bytes[..room])
    }
}
