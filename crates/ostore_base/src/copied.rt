//! Copies that take memory.

ghost use Rattle.std.specs.Prelude.{◌≡◌, IfOk};

use crate::out_of_memory::OutOfMemory;

/// A value of which an equal one can be made, where memory suffices.
pub trait Copied {
    /// An equal value.
    fn copy(&self) -> Result<Self, OutOfMemory>
        ensures { IfOk result (λ copy. copy ≡ self.now) };
}

impl<T: Copy> Copied for T {
    fn copy(&self) -> Result<T, OutOfMemory> {
        Ok(*self)
    }
}
