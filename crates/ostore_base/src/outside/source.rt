ghost use Rattle.std.specs.Prelude.{◌≡◌, ℕ, ◌≤◌, List, length, Option, IfOk, OnErr, IfSome};
ghost use Rattle.ostore_base.specs.Faults.{HasCause};
ghost use Rattle.ostore_base.specs.Streams.{without, GivesFront};

use crate::outside::Failed;

/// A source of bytes, as standard input.
pub trait Source {
    /// The bytes that are left, where the source tells.
    ghost left: { Self → Option (List ℕ) };

    /// How often it has failed. The count stays at the end of 64 bits.
    ghost faults: { Self → ℕ };

    /// Moves bytes that are left to the front of `into`, and answers how many. `Ok(0)` for an
    /// `into` with room means the end. After `Failed` what is left stays.
    fn read(&mut self, into: &mut [u8]) -> Result<usize, Failed>
        ensures bound { IfOk result (λ n. n ≤ length into.new) }
        ensures moved { IfOk result (λ n. left self.new ≡ without (left self.old) n) }
        ensures bytes { IfOk result
            (λ n. IfSome (left self.old) (λ bytes. GivesFront bytes into.new n)) }
        ensures kept { OnErr result (left self.new ≡ left self.old) }
        ensures cause { HasCause (faults self.old) (faults self.new) result };
}
