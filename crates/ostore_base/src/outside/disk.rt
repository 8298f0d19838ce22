ghost use Rattle.std.specs.Prelude.{◌≡◌, ℕ, ◌+◌, ◌^◌, ◌≤◌, List, length, Option, is_some, IfOk, IfSome, OnOk, OnErr};
ghost use Rattle.std.specs.Option.{option_map};
ghost use Rattle.ostore_base.specs.Faults.{HasCause};
ghost use Rattle.ostore_base.specs.Limits.{longest_disk};
ghost use Rattle.ostore_base.specs.Disk.{replaced, StandsAt, IsTornRange, IsTorn};
ghost use Rattle.ostore_base.specs.Images.{Follows, Keeps, IsSure, Elapses};

use crate::outside::Failed;

/// The length of the longest disk, in bytes.
pub const LONGEST_DISK: u64 = (1 << 40) - (1 << 27);

/// A disk: bytes that can be read and written at any place, some of which a crash may lose.
///
/// It tells what it reads as, where it can, and which images a crash may leave of it, now or at some
/// moment since an earlier one. What it reads as is one of its images; after a sync that succeeded
/// it is the only one. Until then a write leaves any bytes in its range and past the old end.
pub trait Disk {
    /// What the disk reads as, where it tells.
    ghost content: { Self → Option (List ℕ) };

    /// The images that a crash at this moment may leave.
    ghost may_leave: { Self → List ℕ → Type 0 };

    /// Those that a crash at some moment from that one on might have left, in a call or between
    /// two.
    ghost left_since: { Self → ℕ → List ℕ → Type 0 };

    /// The moment, as a number that doesn't fall.
    ghost moment: { Self → ℕ };

    /// How often it has failed. The count stays at the end of 64 bits.
    ghost faults: { Self → ℕ };

    /// How many bytes the disk has. It is no more than the longest disk has, else the call fails.
    fn length(&mut self) -> Result<u64, Failed>
        ensures value { IfOk result (λ n. IfSome (content self.old) (λ held. n ≡ length held)) }
        ensures bound { IfOk result (λ n. n ≤ longest_disk) }
        ensures content { content self.new ≡ content self.old }
        ensures images { Keeps (may_leave self.old) (may_leave self.new) }
        ensures time { Elapses (moment self.old) (moment self.new)
            (left_since self.old) (left_since self.new) (may_leave self.new) }
        ensures cause { HasCause (faults self.old) (faults self.new) result };

    /// Reads the bytes at `at`. The range lies within the disk.
    fn read(&mut self, at: u64, into: &mut [u8]) -> Result<(), Failed>
        requires { IfSome (content self.old) (λ held. at + length into.old ≤ length held) }
        ensures bytes { OnOk result (IfSome (content self.old) (StandsAt at into.new)) }
        ensures content { content self.new ≡ content self.old }
        ensures images { Keeps (may_leave self.old) (may_leave self.new) }
        ensures time { Elapses (moment self.old) (moment self.new)
            (left_since self.old) (left_since self.new) (may_leave self.new) }
        ensures cause { HasCause (faults self.old) (faults self.new) result };

    /// Writes bytes at `at`, over what is there and past the end. A write that would end past the
    /// longest disk fails. Until a sync succeeds, a crash may leave any bytes in that range and past
    /// the old end; so may a write that failed.
    fn write(&mut self, at: u64, bytes: &[u8]) -> Result<(), Failed>
        requires inside { IfSome (content self.old) (λ held. at ≤ length held) }
        requires small { at + length bytes.now ≤ 2 ^ 40 }
        ensures written { OnOk result
            (content self.new ≡ option_map (replaced at bytes.now) (content self.old)) }
        ensures within { OnOk result (at + length bytes.now ≤ longest_disk) }
        ensures torn { OnErr result
            (IsTorn at (length bytes.now) (content self.old) (content self.new)) }
        ensures images { Follows (IsTornRange at (length bytes.now))
            (may_leave self.old) (may_leave self.new) }
        ensures time { Elapses (moment self.old) (moment self.new)
            (left_since self.old) (left_since self.new) (may_leave self.new) }
        ensures cause { HasCause (faults self.old) (faults self.new) result };

    /// Makes sure of what was written: after it, a crash leaves what the disk reads as. A sync that
    /// failed leaves the disk reading as one of the images that it had.
    fn sync(&mut self) -> Result<(), Failed>
        ensures content { OnOk result (content self.new ≡ content self.old) }
        ensures tells { is_some (content self.new) ≡ is_some (content self.old) }
        ensures sure { OnOk result (IsSure (content self.new) (may_leave self.new)) }
        ensures images { Keeps (may_leave self.old) (may_leave self.new) }
        ensures time { Elapses (moment self.old) (moment self.new)
            (left_since self.old) (left_since self.new) (may_leave self.new) }
        ensures cause { HasCause (faults self.old) (faults self.new) result };

    /// What the disk reads as is one of its images.
    ghost reads_image: { (disk : Self) → IfSome (content disk) (may_leave disk) };

    /// This moment is one of those since an earlier one.
    ghost counts_now: { (disk : Self) (t : ℕ) (image : List ℕ) → t ≤ moment disk
        → may_leave disk image → left_since disk t image };

    /// Since this moment there is no other.
    ghost only_now: { (disk : Self) (image : List ℕ) → left_since disk (moment disk) image
        → may_leave disk image };
}
