//! A part of the standard library, with the count of its faults.

ghost use Rattle.std.specs.Prelude.{◌≡◌};

use crate::fault_count::FaultCount;
use std::marker::Model;

/// A reader or a writer, and how often it has failed. A contract sees both.
#[derive(Drop)]
pub struct Counted<T> {
    pub(super) inner: T,
    pub(super) count: FaultCount,
}

impl<T> Model for Counted<T> {
    ghost use Rattle.std.specs.Prelude.{ℕ};

    ghost Value = { T × ℕ };

    ghost view = { λ s. (s.inner, s.count) };
}

impl<T> Counted<T> {
    /// What hasn't failed yet.
    pub fn new(inner: T) -> Counted<T>
        ensures { result ≡ (inner, 0) }
    {
        Counted {
            inner,
            count: FaultCount::zero(),
        }
    }

    /// How often it has failed. The count stays at the end of 64 bits.
    pub fn faults(&self) -> u64
        ensures { result ≡ self.now.1 }
    {
        self.count.get()
    }
}
