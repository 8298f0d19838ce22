ghost use Rattle.std.specs.Prelude.{◌≡◌, ℕ, ◌<◌, ◌≤◌, List, length, take, Option, IfOk, OnErr};
ghost use Rattle.ostore_base.specs.Faults.{HasCause};
ghost use Rattle.ostore_base.specs.Streams.{appended};

use crate::outside::Failed;

/// A sink of bytes, as standard output.
pub trait Sink {
    /// The bytes that were written, where the sink tells.
    ghost written: { Self → Option (List ℕ) };

    /// How often it has failed. The count stays at the end of 64 bits.
    ghost faults: { Self → ℕ };

    /// Appends bytes from the front of `bytes`, and answers how many. Of a piece that isn't empty
    /// it takes at least one byte, else it has failed. After `Failed` what was written stays.
    fn write(&mut self, bytes: &[u8]) -> Result<usize, Failed>
        ensures bound { IfOk result (λ n. n ≤ length bytes.now) }
        ensures some { IfOk result (λ n. 0 < length bytes.now → 0 < n) }
        ensures written { IfOk result
            (λ n. written self.new ≡ appended (written self.old) (take n bytes.now)) }
        ensures kept { OnErr result (written self.new ≡ written self.old) }
        ensures cause { HasCause (faults self.old) (faults self.new) result };
}
